//! Lists that grow while they are read.

ghost use Rattle.std.specs.Prelude.{◌≡◌, ◌++◌, ◌∷◌, [], MatchResult};
ghost use Rattle.lf_texts.specs.Lists.{opened, closed};
ghost use Rattle.lf_texts.specs.Reading.{Says};

use crate::TextError;
use crate::fronts::past;
use lf_grammar::{Sign, Token};

/// Puts an item behind the others.
pub(crate) fn put<T: Drop>(items: &mut Vec<T>, item: T) -> Result<(), TextError>
    ensures { MatchResult result (λ _. items.new.items ≡ items.old.items ++ item ∷ []) (λ e. e ≡ TextError.Memory) }
{
    match items.push(item) {
        Ok(()) => Ok(()),
        Err(_) => Err(TextError::Memory),
    }
}

/// The tokens behind what stands before an item in brackets: a bracket before the first one, and a comma before any other.
pub(crate) fn opened<'t, T>(before: &[T], tokens: &'t [Token]) -> Result<&'t [Token], TextError>
    ensures { Says (λ rest. rest.now) (opened before.now tokens.now) result }
{
    match before {
        [] => past(tokens, Sign::OpenRound),
        _ => past(tokens, Sign::Comma),
    }
}

/// The tokens behind items in brackets: a bracket closes, where there are items.
pub(crate) fn closed<'t, T>(items: &[T], tokens: &'t [Token]) -> Result<&'t [Token], TextError>
    ensures { Says (λ rest. rest.now) (closed items.now tokens.now) result }
{
    match items {
        [] => Ok(tokens),
        _ => past(tokens, Sign::CloseRound),
    }
}
