//! Whether no value of what varies in a sweep is a float.

ghost use Rattle.std.specs.Prelude.{map, string_bytes, IsTrue};
ghost use Rattle.reply_examples.specs.Floats.{AreExact, ArePlain, IsExact, IsPlain};

use lf_sweep::{Varied, Words};
use std::alloc::Global;
use toml::Value;

/// Whether so is all that varies: each has a list of words that stand for whole numbers, truths and texts.
pub(crate) fn are_exact(alloc: Global, varied: &[Varied]) -> bool
    ensures { IsTrue result → AreExact varied.now }
{
    'each: for one in varied {
        if !is_exact(alloc, one) {
            return false;
        }
    }
    true
}

/// Whether what varies has a list of such words.
fn is_exact(alloc: Global, one: &Varied) -> bool
    ensures { IsTrue result → IsExact one.now }
{
    match one.words() {
        Words::Listed(words) => are_plain(alloc, words.as_slice()),
        Words::Numbers { .. } => false,
    }
}

/// Whether these are such words.
fn are_plain(alloc: Global, words: &[String]) -> bool
    ensures { IsTrue result → ArePlain (map string_bytes words.now) }
{
    'words: for word in words {
        if !is_plain(alloc, word.as_str()) {
            return false;
        }
    }
    true
}

/// Whether a word stands for a whole number, a truth or a text.
fn is_plain(alloc: Global, word: &str) -> bool
    ensures { IsTrue result → IsPlain word.now }
{
    match Value::from_str(alloc, word) {
        Ok(value) => matches!(
            value,
            Value::String(_) | Value::Integer(_) | Value::Boolean(_)
        ),
        Err(error) => !error.is_memory(),
    }
}
