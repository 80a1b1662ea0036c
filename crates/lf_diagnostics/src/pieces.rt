//! The pieces of a text, and its tokens.

use crate::hint::is_of_word;
use lf_grammar::{Token, TokenError, read_tokens};
use std::alloc::{AllocError, Global};

/// A text, as it is read.
#[derive(Drop)]
pub struct Text<'a> {
    pub pieces: Vec<Piece<'a>>,
    /// The tokens of all pieces up to the first one that is none.
    pub tokens: Vec<Token>,
}

/// A number, a word or a sign of a text.
#[derive(Clone, Copy, Debug)]
pub struct Piece<'a> {
    pub text: &'a str,
    /// The text from it on.
    pub from: &'a str,
    /// How many tokens it has, with all before it. `usize::MAX` where it is none, or one before it.
    pub tokens: usize,
}

/// Signs of several characters, of this language and of others; one that begins like another one stands before it.
const SIGNS: [&str; 33] = [
    "...", "..=", "..<", "===", "!==", "<=>", "<->", "==>", "&&", "||", "==", "!=", "<>", "<=",
    ">=", "=<", "=>", "->", ":=", "+=", "-=", "++", "--", "**", "//", "/=", "~=", "/\\", "\\/",
    "|=", "&=", "<-", "..",
];

/// The pieces and the tokens of a text, in order. The error, also below, is that memory has run out.
pub fn read_text(alloc: Global, text: &str) -> Result<Text<'_>, AllocError> {
    let (mut pieces, mut tokens) = (Vec::new(alloc), Vec::new(alloc));
    let mut is_read = true;
    let mut rest = text.trim_start_matches(is_blank);
    for _ in text.bytes() {
        if rest.is_empty() {
            break;
        }
        let behind = behind_first(rest);
        let piece = rest.strip_suffix(behind).unwrap_or(rest);
        if is_read {
            is_read = put_tokens(alloc, &mut tokens, piece)?;
        }
        pieces.push(Piece {
            text: piece,
            from: rest,
            tokens: if is_read { tokens.len() } else { usize::MAX },
        })?;
        rest = behind.trim_start_matches(is_blank);
    }
    Ok(Text { pieces, tokens })
}

/// Puts the tokens of a piece behind others. Tells whether it has some.
fn put_tokens(alloc: Global, tokens: &mut Vec<Token>, piece: &str) -> Result<bool, AllocError> {
    match read_tokens(alloc, piece.as_bytes()) {
        Ok(more) => {
            for token in more {
                tokens.push(token)?;
            }
            Ok(true)
        }
        Err(TokenError::Memory) => Err(AllocError),
        Err(_) => Ok(false),
    }
}

/// What stands behind the first piece of a text that begins with one.
fn behind_first(text: &str) -> &str {
    if text.starts_with(is_digit) {
        return text.trim_start_matches(is_digit);
    }
    if text.starts_with(is_of_word) {
        return text.trim_start_matches(is_of_word);
    }
    for sign in SIGNS {
        if let Some(rest) = text.strip_prefix(sign) {
            return rest;
        }
    }
    behind_quoted(text, "'")
        .or(behind_quoted(text, "\""))
        .or(behind_quoted(text, "`"))
        .unwrap_or(behind_character(text))
}

/// What stands behind a text in quotes of this kind that comes first.
fn behind_quoted<'a>(text: &'a str, quote: &str) -> Option<&'a str> {
    let (_inside, behind) = text.strip_prefix(quote)?.split_once(quote)?;
    Some(behind)
}

/// What stands behind the first character of a text.
fn behind_character(text: &str) -> &str {
    let mut characters = text.chars();
    let _first = characters.next();
    characters.as_str()
}

/// Whether a character parts pieces and means nothing.
fn is_blank(c: char) -> bool {
    c == ' ' || c == '\t' || c == '\n' || c == '\r'
}

/// Whether a character is a digit.
pub(crate) fn is_digit(c: char) -> bool {
    c.is_ascii_digit()
}
