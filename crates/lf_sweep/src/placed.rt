//! The text of a scenario with another value at one place.

ghost use Rattle.std.specs.Prelude.{MatchResult, string_bytes};
ghost use Rattle.toml.specs.View.{view};
ghost use Rattle.lf_sweep.specs.Texts.{HasNoTextAt, IsTextAt};

use crate::error::TextError;
use crate::members::put;
use crate::varied::Place;
use std::alloc::Global;
use toml::Value;
use toml::ser::Error;

/// The text of a scenario that has this value at a place, in place of what stands there: a TOML document as `toml` writes it. The refusal is
/// `NoDocument` exactly where the scenario is none, and `Date` exactly where it has a date that can't be written, unless memory runs out.
pub fn text_with(
    alloc: Global,
    scenario: &[u8],
    place: &Place,
    value: Value,
) -> Result<String, TextError>
    ensures { MatchResult result (λ text. IsTextAt scenario.now place.now (view value) (string_bytes text)) (HasNoTextAt scenario.now place.now (view value)) }
{
    let mut table = match toml::table_from_slice(alloc, scenario) {
        Ok(table) => table,
        Err(error) if error.is_memory() => return Err(TextError::Memory),
        Err(_) => return Err(TextError::NoDocument),
    };
    put(alloc, &mut table, place, value)?;
    match toml::table_to_string(alloc, &table) {
        Ok(text) => Ok(text),
        Err(Error::DateInvalid) => Err(TextError::Date),
        Err(Error::OutOfMemory) => Err(TextError::Memory),
    }
}
