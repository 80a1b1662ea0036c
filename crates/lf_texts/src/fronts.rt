//! Tokens, and what comes first among them.

ghost use Rattle.std.specs.Prelude.{◌≡◌, ◌↔◌, IsTrue, Ok, Err};
ghost use Rattle.lf_texts.specs.Fronts.{same_token, same_tokens, text_in, ended, past, past_word, first_word};
ghost use Rattle.lf_texts.specs.Reading.{Says, Gives};

use crate::TextError;
use lf_grammar::{Sign, Token, behind_sign, behind_word, read_tokens};
use lf_rules::Name;
use std::alloc::Global;

/// The tokens of a text, or its first fault from the left.
#[tactic(auto, unfolding(crate::specs::Fronts::text_in))]
pub fn text_tokens(alloc: Global, text: &str) -> Result<Vec<Token>, TextError>
    ensures { Gives (λ tokens. tokens.items) (text_in text.now) result }
{
    match read_tokens(alloc, text.as_bytes()) {
        Ok(tokens) => Ok(tokens),
        Err(e) => Err(e.into()),
    }
}

/// Whether two texts have the same tokens.
pub fn same_tokens(one: &[Token], other: &[Token]) -> bool
    ensures is { result ≡ same_tokens one.now other.now }
    ensures same { IsTrue result ↔ (one.now ≡ other.now) }
{
    match one {
        [] => other.is_empty(),
        [first, more @ ..] => match other {
            [] => false,
            [second, others @ ..] => same_token(first, second) && same_tokens(more, others),
        },
    }
}

/// Whether two tokens are the same.
fn same_token(one: &Token, other: &Token) -> bool
    ensures is { result ≡ same_token one.now other.now }
    ensures same { IsTrue result ↔ (one.now ≡ other.now) }
{
    match (one, other) {
        (Token::Number(one), Token::Number(other)) => one == other,
        (Token::Word(one), Token::Word(other)) => one.as_str() == other.as_str(),
        (Token::Sign(one), Token::Sign(other)) => one == other,
        _ => false,
    }
}

/// Refuses tokens behind the end of what is read.
pub(crate) fn ended(tokens: &[Token]) -> Result<(), TextError>
    ensures { result ≡ ended tokens.now }
{
    if tokens.is_empty() {
        Ok(())
    } else {
        Err(TextError::Unfit)
    }
}

/// The tokens behind a sign that has to come first.
pub(crate) fn past(tokens: &[Token], wanted: Sign) -> Result<&[Token], TextError>
    ensures { Says (λ rest. rest.now) (past wanted tokens.now) result }
{
    match behind_sign(tokens, wanted) {
        Some(rest) => Ok(rest),
        None => Err(TextError::Unfit),
    }
}

/// The tokens behind a word that has to come first.
pub(crate) fn past_word<'t>(tokens: &'t [Token], wanted: &str) -> Result<&'t [Token], TextError>
    ensures { Says (λ rest. rest.now) (past_word wanted.now tokens.now) result }
{
    match behind_word(tokens, wanted) {
        Some(rest) => Ok(rest),
        None => Err(TextError::Unfit),
    }
}

/// The word that comes first, and the tokens behind it.
pub(crate) fn first_word(tokens: &[Token]) -> Result<(&Name, &[Token]), TextError>
    ensures { Says (λ r. record { value = r.0.now; rest = r.1.now }) (first_word tokens.now) result }
{
    match tokens.split_first() {
        Some((Token::Word(word), rest)) => Ok((word, rest)),
        _ => Err(TextError::Unfit),
    }
}
