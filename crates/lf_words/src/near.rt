//! Which of some names is meant by a word that is none of them.

ghost use Rattle.std.specs.Prelude.{IfOk, IfSome, Contains};

use std::alloc::{AllocError, Global};
use strsim::osa_distance;

/// The longest word that is near to a name, in bytes.
const LONGEST_WORD: usize = 64;

/// The name that is nearest to a word, of several the first. None where no name is near.
///
/// A name is near where few edits lead to it: one, or up to a third of its letters. An edit adds, drops or changes a letter, or swaps
/// two neighbours. Upper and lower case are the same, and so are `-` and `_`. The error is that memory has run out.
pub fn nearest<'a>(
    alloc: Global,
    word: &str,
    names: &[&'a str],
) -> Result<Option<&'a str>, AllocError>
    ensures { IfOk result (λ found. IfSome found (λ name. Contains names.now name)) }
{
    if word.len() > LONGEST_WORD {
        return Ok(None);
    }
    let mut found = None;
    let mut fewest = usize::MAX;
    for name in names {
        let edits = edits_to(alloc, word, name)?;
        if edits < fewest && edits <= (name.len() / 3).max(1) {
            found = Some(*name);
            fewest = edits;
        }
    }
    Ok(found)
}

/// How many edits lead from a word to a name.
fn edits_to(alloc: Global, word: &str, name: &str) -> Result<usize, AllocError> {
    let word = plain(alloc, word)?;
    let name = plain(alloc, name)?;
    osa_distance(alloc, word.as_str(), name.as_str())
}

/// A text in lower case, with `_` in place of `-`.
fn plain(alloc: Global, text: &str) -> Result<String, AllocError> {
    text.to_ascii_lowercase(alloc)?
        .as_str()
        .replace(alloc, "-", "_")
}
