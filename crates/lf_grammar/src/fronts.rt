//! What comes first among tokens.

ghost use Rattle.std.specs.Prelude.{◌≡◌, ◌≢◌, ◌<◌, length, IfSome, IfOk, MatchOption, MatchResult, Some, None};
ghost use Rattle.lf_grammar.specs.Fronts.{behind_sign, behind_word, behind_comparison, ends_item};
ghost use Rattle.lf_grammar.specs.Typing.{compares};

use crate::{Sign, Slip, Token, Unread, Why};

/// The tokens behind a word, where it comes first.
pub fn behind_word<'t>(tokens: &'t [Token], wanted: &str) -> Option<&'t [Token]>
    ensures behind { MatchOption result (behind_word wanted.now tokens.now ≡ None) (λ rest. behind_word wanted.now tokens.now ≡ Some rest.now) }
    ensures shorter { IfSome result (λ rest. length rest.now < length tokens.now) }
{
    match tokens.split_first() {
        Some((Token::Word(word), after)) if word.as_str() == wanted => Some(after),
        _ => None,
    }
}

/// The tokens behind a sign, where it comes first.
pub fn behind_sign(tokens: &[Token], wanted: Sign) -> Option<&[Token]>
    ensures behind { MatchOption result (behind_sign wanted tokens.now ≡ None) (λ rest. behind_sign wanted tokens.now ≡ Some rest.now) }
    ensures shorter { IfSome result (λ rest. length rest.now < length tokens.now) }
{
    match tokens.split_first() {
        Some((Token::Sign(sign), after)) if *sign == wanted => Some(after),
        _ => None,
    }
}

/// The tokens behind a sign that has to come first, for something that begins where so many tokens are left.
pub fn past_sign(tokens: &[Token], wanted: Sign, from: usize) -> Result<&[Token], Unread>
    ensures behind { MatchResult result (λ rest. behind_sign wanted tokens.now ≡ Some rest.now)
        (λ e. (e ≢ Unread.Memory) × (behind_sign wanted tokens.now ≡ None)) }
    ensures shorter { IfOk result (λ rest. length rest.now < length tokens.now) }
{
    match behind_sign(tokens, wanted) {
        Some(rest) => Ok(rest),
        None => Err(Unread::Wrong(Slip {
            from,
            ..Slip::first(Why::Sign(wanted), tokens.len())
        })),
    }
}

/// The comparison that comes first, and the tokens behind it.
pub(crate) fn behind_comparison(tokens: &[Token]) -> Option<(&Token, &[Token])>
    ensures behind { MatchOption result (behind_comparison tokens.now ≡ None)
        (λ r. behind_comparison tokens.now ≡ Some (record { first = r.0.now; rest = r.1.now })) }
    ensures shorter { IfSome result (λ r. length r.1.now < length tokens.now) }
{
    match tokens.split_first() {
        Some((first, after)) => {
            if compares(first) {
                Some((first, after))
            } else {
                None
            }
        }
        None => None,
    }
}

/// Whether a token compares two values.
fn compares(token: &Token) -> bool
    ensures { result ≡ compares token.now }
{
    match token {
        Token::Sign(sign) => matches!(
            sign,
            Sign::Equal | Sign::NotEqual | Sign::Less | Sign::AtMost | Sign::More | Sign::AtLeast
        ),
        Token::Word(word) => word.as_str() == "in",
        Token::Number(_) => false,
    }
}

/// Whether an item of a set has ended.
pub(crate) fn ends_item(tokens: &[Token]) -> bool
    ensures { result ≡ ends_item tokens.now }
{
    behind_sign(tokens, Sign::Comma).is_some() || behind_sign(tokens, Sign::CloseCurly).is_some()
}
