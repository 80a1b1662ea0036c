//! What stands between operands.

ghost use Rattle.std.specs.Prelude.{◌≡◌, ◌<◌, length, IfSome, MatchOption, Some, None};
ghost use Rattle.lf_grammar.specs.Fronts.{joint, joining_word, joining_sign, behind_joint};

use crate::{Sign, Token};

/// How strongly operands are joined, from the loosest to the tightest; the items of a set are joined by commas.
#[derive(Clone, Copy, Debug, PartialEq, Eq)]
pub(crate) enum Level {
    Items,
    Or,
    And,
    Sum,
    Term,
}

/// What joins two operands.
#[derive(Clone, Copy, Debug, PartialEq, Eq)]
pub(crate) enum Joint {
    Comma,
    Or,
    And,
    Plus,
    Minus,
    Remainder,
}

/// What a token joins operands by that are joined so strongly.
fn joins(level: Level, token: &Token) -> Option<Joint>
    ensures { result ≡ joint level token.now }
{
    match token {
        Token::Word(word) => joining_word(level, word.as_str()),
        Token::Sign(sign) => joining_sign(level, *sign),
        Token::Number(_) => None,
    }
}

/// What a word joins operands by that are joined so strongly.
fn joining_word(level: Level, word: &str) -> Option<Joint>
    ensures { result ≡ joining_word level word.now }
{
    match level {
        Level::Or if word == "or" => Some(Joint::Or),
        Level::And if word == "and" => Some(Joint::And),
        Level::Term if word == "mod" => Some(Joint::Remainder),
        _ => None,
    }
}

/// What a sign joins operands by that are joined so strongly.
fn joining_sign(level: Level, sign: Sign) -> Option<Joint>
    ensures { result ≡ joining_sign level sign }
{
    match (level, sign) {
        (Level::Items, Sign::Comma) => Some(Joint::Comma),
        (Level::Sum, Sign::Plus) => Some(Joint::Plus),
        (Level::Sum, Sign::Minus) => Some(Joint::Minus),
        _ => None,
    }
}

/// What joins that comes first, and the tokens behind it.
pub(crate) fn behind_joint(level: Level, tokens: &[Token]) -> Option<(Joint, &[Token])>
    ensures joint { MatchOption result (behind_joint level tokens.now ≡ None)
        (λ r. behind_joint level tokens.now ≡ Some (record { by = r.0; rest = r.1.now })) }
    ensures shorter { IfSome result (λ r. length r.1.now < length tokens.now) }
{
    match tokens.split_first() {
        Some((first, after)) => match joins(level, first) {
            Some(by) => Some((by, after)),
            None => None,
        },
        None => None,
    }
}
