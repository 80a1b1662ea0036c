//! What is worked out for each node of a set.

ghost use Rattle.std.specs.Prelude.{◌≡◌, ◌≤◌, length, IfOk, MatchResult, Some, None};
ghost use Rattle.lf_grammar.specs.Expressions.{Body};
ghost use Rattle.lf_grammar.specs.Fronts.{level_of, end_of};
ghost use Rattle.lf_grammar.specs.Places.{context_of};
ghost use Rattle.lf_grammar.specs.Readings.{said, Reads};

use crate::expressions::{Read, read_all};
use crate::fronts::past_sign;
use crate::level::Level;
use crate::typed::over_set;
use crate::{Place, Sign, Token, Typed, Why, wrong};
use lf_rules::Over;
use std::alloc::Global;

/// Reads the body for the nodes of a set, and the bracket behind it.
#[cycle(reading)]
pub(crate) fn read_body<'t>(
    alloc: Global,
    place: &Place<'_>,
    over: Over,
    set: Typed,
    tokens: &'t [Token],
) -> Read<'t>
    ensures read { Reads (context_of place.now) (Body over (said set)) tokens.now result }
    ensures shorter { IfOk result (λ r. length r.1.now ≤ length tokens.now) }
{
    let Some(inner) = place.body() else {
        return Err(wrong(Why::Body, tokens.len().saturating_add(1)));
    };
    let (value, rest) = read_all(alloc, &inner, level_of(over), tokens)?;
    let end = past_sign(rest, end_of(over), set.from.saturating_add(1))?;
    Ok((over_set(alloc, over, set, value, end.len())?, end))
}

/// How loose the operators of a body are.
fn level_of(over: Over) -> Level
    ensures { result ≡ level_of over }
{
    match over {
        Over::Those => Level::Or,
        Over::Least | Over::Greatest => Level::Sum,
    }
}

/// The bracket behind a body.
fn end_of(over: Over) -> Sign
    ensures { result ≡ end_of over }
{
    match over {
        Over::Those => Sign::CloseCurly,
        Over::Least | Over::Greatest => Sign::CloseRound,
    }
}
