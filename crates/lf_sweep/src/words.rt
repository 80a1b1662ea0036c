//! The values of what varies.

ghost use Rattle.std.specs.Prelude.{◌≡◌, ◌<◌, [], length, map, slice_index_or, IfOk, string_bytes};
ghost use Rattle.lf_sweep.specs.Words.{count_of, word_at};

use std::alloc::{AllocError, Global};

/// The most values that a key may take in a sweep.
pub const MOST_VALUES: u64 = 1000000;

/// The values that something takes, in their order, as they are written.
#[derive(Debug, PartialEq, Eq, Drop)]
pub enum Words {
    /// All whole numbers from the first to the last.
    Numbers { first: u32, last: u32 },
    /// These.
    Listed(Vec<String>),
}

impl Words {
    /// How many there are.
    pub fn count(&self) -> u64
        ensures { result ≡ count_of self.now }
    {
        match self {
            Words::Numbers { first, last } => {
                (u64::from(*last) + 1).saturating_sub(u64::from(*first))
            }
            Words::Listed(words) => words.len() as u64,
        }
    }

    /// The value at a place, from 0.
    pub fn word(&self, alloc: Global, place: u64) -> Result<String, AllocError>
        requires { place < count_of self.now }
        ensures { IfOk result (λ word. string_bytes word ≡ word_at self.now place) }
    {
        match self {
            Words::Numbers { first, last } => {
                let _last = *last;
                let number = u64::from(*first) + place;
                format!(in alloc; "{number}")
            }
            Words::Listed(words) => listed_word(alloc, words.as_slice(), place as usize),
        }
    }
}

/// A copy of one of the words.
fn listed_word(alloc: Global, words: &[String], place: usize) -> Result<String, AllocError>
    requires { place < length words.now }
    ensures { IfOk result (λ word. string_bytes word ≡ slice_index_or (map string_bytes words.now) place []) }
{
    String::from_str(alloc, words[place].as_str())
}
