//! Which name is meant by a word that is none.

use lf_words::nearest;
use std::alloc::{AllocError, Global};

/// The longest word of which only names with the same letters are near, in bytes.
const SHORT: usize = 2;

/// The name that is meant by a word. Of a word of three letters or more that is the nearest one, of a shorter one a name with the same letters; and
/// else the one name that begins with the word. None where there is none. The error is that memory has run out.
pub fn near_name<'a>(
    alloc: Global,
    word: &str,
    names: &[&'a str],
) -> Result<Option<&'a str>, AllocError> {
    let near = if word.len() <= SHORT {
        of_same_letters(word, names)
    } else {
        nearest(alloc, word, long_names(alloc, names)?.as_slice())?
    };
    Ok(near.or(only_beginning(word, names)))
}

/// The names of three letters or more.
fn long_names<'a>(alloc: Global, names: &[&'a str]) -> Result<Vec<&'a str>, AllocError> {
    let mut long = Vec::new(alloc);
    for name in names {
        if SHORT < name.len() {
            long.push(*name)?;
        }
    }
    Ok(long)
}

/// The first name that has the letters of a word, small or large, in whatever order.
fn of_same_letters<'a>(word: &str, names: &[&'a str]) -> Option<&'a str> {
    for name in names {
        if name.len() == word.len() && (name.eq_ignore_ascii_case(word) || is_turned(name, word)) {
            return Some(*name);
        }
    }
    None
}

/// Whether two letters stand the other way round.
fn is_turned(name: &str, word: &str) -> bool {
    match (name.as_bytes(), word.as_bytes()) {
        ([first, second], [other, last]) => first == last && second == other,
        _ => false,
    }
}

/// The name that begins with a word, where only one does.
fn only_beginning<'a>(word: &str, names: &[&'a str]) -> Option<&'a str> {
    let mut found: Option<&'a str> = None;
    for name in names {
        if !word.is_empty() && name.starts_with(word) {
            match found {
                Some(other) if other != *name => return None,
                _ => found = Some(*name),
            }
        }
    }
    found
}
