//! The values that words stand for.

ghost use Rattle.std.specs.Prelude.{◌≡◌, IfOk, string_bytes};
ghost use Rattle.toml.specs.View.{view};
ghost use Rattle.lf_sweep.specs.Members.{is_seed, seed_text, value_of, written_value};

use crate::varied::Place;
use std::alloc::{AllocError, Global};
use toml::Value;

/// How many digits a seed has.
const SEED_DIGITS: usize = 64;

/// The value that a word stands for at a place: at the key `seed` it is the last digits of a seed, and elsewhere it is the value that TOML
/// reads in it, or else a text.
pub(crate) fn value_of(alloc: Global, place: &Place, word: &str) -> Result<Value, AllocError>
    ensures { IfOk result (λ value. view value ≡ value_of place.now word.now) }
{
    if is_seed(place) {
        return Ok(Value::String(seed_text(alloc, word)?));
    }
    match Value::from_str(alloc, word) {
        Ok(value) => Ok(value),
        Err(error) if error.is_memory() => Err(AllocError),
        Err(_) => Value::string(alloc, word),
    }
}

/// Whether a place is the key `seed`.
fn is_seed(place: &Place) -> bool
    ensures { result ≡ is_seed place.now }
{
    match place {
        Place::Key(name) => name.as_str() == "seed",
        Place::Constant(_) => false,
    }
}

/// The seed whose last digits are these: zeros stand before them.
fn seed_text(alloc: Global, digits: &str) -> Result<String, AllocError>
    ensures { IfOk result (λ text. string_bytes text ≡ seed_text digits.now) }
{
    let mut text = String::new(alloc);
    let zeros = SEED_DIGITS.saturating_sub(digits.len());
    'zeros: for _i in 0..zeros {
        text.push('0')?;
    }
    text.push_str(digits)?;
    Ok(text)
}
