//! The text of a combination.

ghost use Rattle.std.specs.Prelude.{◌≡◌, IfOk, MatchResult, map, string_bytes};
ghost use Rattle.toml.specs.View.{table_view};
ghost use Rattle.lf_sweep.specs.Texts.{HasNoText, IsTextWith, with_words};

use crate::error::TextError;
use crate::members::put;
use crate::value::value_of;
use crate::varied::Varied;
use std::alloc::{AllocError, Global};
use toml::Table;
use toml::ser::Error;

/// The text of a scenario that has these values at what varies, a word for each, in place of what stands there: a TOML document as `toml`
/// writes it. The refusal is `NoDocument` exactly where the scenario is none, and `Date` exactly where it has a date with these values that
/// can't be written, unless memory runs out.
pub fn text_of(
    alloc: Global,
    scenario: &[u8],
    varied: &[Varied],
    words: &[String],
) -> Result<String, TextError>
    ensures { MatchResult result (λ text. IsTextWith scenario.now varied.now (map string_bytes words.now) (string_bytes text))
        (HasNoText scenario.now varied.now (map string_bytes words.now)) }
{
    let mut table = match toml::table_from_slice(alloc, scenario) {
        Ok(table) => table,
        Err(error) if error.is_memory() => return Err(TextError::Memory),
        Err(_) => return Err(TextError::NoDocument),
    };
    put_all(alloc, &mut table, varied, words)?;
    match toml::table_to_string(alloc, &table) {
        Ok(text) => Ok(text),
        Err(Error::DateInvalid) => Err(TextError::Date),
        Err(Error::OutOfMemory) => Err(TextError::Memory),
    }
}

/// Puts the value of each word at what varies.
fn put_all(
    alloc: Global,
    scenario: &mut Table,
    varied: &[Varied],
    words: &[String],
) -> Result<(), AllocError>
    ensures { IfOk result (λ _. table_view scenario.new ≡ with_words varied.now (map string_bytes words.now) (table_view scenario.old)) }
{
    let mut left = words;
    'each: for one in varied {
        let Some((word, rest)) = left.split_first() else {
            return Ok(());
        };
        let value = value_of(alloc, &one.place, word.as_str())?;
        put(alloc, scenario, &one.place, value)?;
        left = rest;
    }
    Ok(())
}
