//! Tokens.

use crate::Sign;
use lf_rules::Name;

/// The most tokens that a text has.
pub const MOST_TOKENS: usize = 160;

/// The most brackets of a text that are open at once.
pub const MOST_OPEN: u32 = 12;

/// A token of a text.
#[derive(Debug, Drop)]
pub enum Token {
    /// A whole number: digits, as many as there are.
    Number(u8),
    /// A letter or `_`, with the letters, digits and `_` that follow it.
    Word(Name),
    /// A sign, of two that begin alike the longer.
    Sign(Sign),
}
