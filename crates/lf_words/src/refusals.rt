//! What is told of wrong words.

use crate::nearest;
use clap::Error;
use std::alloc::{AllocError, Global};

/// The words that a command line can begin with.
const FIRST_WORDS: [&str; 11] = [
    "search",
    "run",
    "draw",
    "check",
    "answer",
    "why",
    "sweep",
    "doubt",
    "protocol",
    "--help",
    "--version",
];

/// How `clap` begins its advice to pass a word behind `--`, which no command of the program needs.
const NEEDLESS: &str = "  tip: to pass '";

/// What to tell of words that `clap` refuses with this error.
pub(crate) fn wrong_text(
    alloc: Global,
    words: &[String],
    error: &Error,
) -> Result<String, AllocError> {
    match words.first() {
        Some(word) if is_no_command(word.as_str()) => no_command(alloc, word.as_str()),
        _ => {
            let text = error.to_string(alloc)?;
            without_needless(alloc, text.as_str())
        }
    }
}

/// Whether a first word is no command, and no option either.
fn is_no_command(word: &str) -> bool {
    (word == "-" || !word.starts_with("-")) && !FIRST_WORDS.contains(&word)
}

/// What to tell of a first word that is no command.
fn no_command(alloc: Global, word: &str) -> Result<String, AllocError> {
    let shown = shell_word(alloc, word)?;
    match nearest(alloc, word, &FIRST_WORDS)? {
        Some(name) => {
            format!(in alloc; "{shown}: no such command; did you mean `leastfault {name}`?\n")
        }
        None => {
            format!(in alloc;
                "{shown}: no such command; did you mean `leastfault search {shown}`?\n"
            )
        }
    }
}

/// The lines of a text without needless advice, and without a blank line behind another.
fn without_needless(alloc: Global, text: &str) -> Result<String, AllocError> {
    let mut kept = String::new(alloc);
    let mut was_blank = false;
    for line in text.lines() {
        let is_blank = line.is_empty();
        if !line.starts_with(NEEDLESS) && !(is_blank && was_blank) {
            kept.push_str(line)?;
            kept.push('\n')?;
            was_blank = is_blank;
        }
    }
    Ok(kept)
}

/// A word as a shell takes it: as it is where a shell would read nothing else into it, and else in quotes. The error is that memory
/// has run out.
pub fn shell_word(alloc: Global, word: &str) -> Result<String, AllocError> {
    if !word.is_empty() && word.chars().all(is_plain) {
        return String::from_str(alloc, word);
    }
    let inner = word.replace(alloc, "'", "'\\''")?;
    format!(in alloc; "'{inner}'")
}

/// Whether a shell reads nothing but itself into a character.
fn is_plain(c: char) -> bool {
    c.is_alphanumeric() || "_-+./:,@%".contains(c)
}
