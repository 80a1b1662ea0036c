//! The reader of what stands in rules: tokens of a text, and expressions of tokens.
//!
//! A text is read as tokens: numbers, words and signs. Blanks part them and mean nothing. An expression is read from the left, with one token of
//! foresight, and each part is of a sort as soon as it is read.
#![tactic(auto)]

mod atoms;
mod bodies;
mod bytes;
mod calls;
mod divisors;
mod error;
mod expressions;
mod fronts;
mod level;
mod place;
mod reading_laws;
mod sign;
mod slip;
mod token;
mod token_error;
mod tokenizing;
mod typed;

pub use error::{Unread, wrong};
pub use expressions::{read_operand, read_sum, read_truth};
pub use fronts::{behind_sign, behind_word, past_sign};
pub use place::{Meaning, Place};
pub use reading_laws::{bracketed_is_read_back, enough_steps_read_the_same};
pub use sign::Sign;
pub use slip::{Slip, Why};
pub use token::{MOST_OPEN, MOST_TOKENS, Token};
pub use token_error::TokenError;
pub use tokenizing::read_tokens;
pub use typed::{Typed, as_set};
