//! What is said of sets and numbers by name.

ghost use Rattle.std.specs.Prelude.{◌≡◌, ◌≤◌, length, IfOk, MatchResult, Some, None};
ghost use Rattle.lf_grammar.specs.Expressions.{Behind, Called, Second, Single};
ghost use Rattle.lf_grammar.specs.Fronts.{called, of_body};
ghost use Rattle.lf_grammar.specs.Places.{context_of};
ghost use Rattle.lf_grammar.specs.Readings.{said, Reads};
ghost use Rattle.lf_grammar.specs.Typing.{by_call};

use crate::bodies::read_body;
use crate::expressions::{Read, read_all};
use crate::fronts::{behind_sign, past_sign};
use crate::level::Level;
use crate::typed::by_call;
use crate::{Place, Sign, Token, Typed, Unread, Why, wrong};
use lf_rules::{Binary, Over, Unary};
use std::alloc::Global;

/// What is said by a name of values in brackets.
#[derive(Clone, Copy, Debug, PartialEq, Eq)]
pub(crate) enum Call {
    /// It is said of one value.
    Of(Unary),
    /// It is said of two.
    OfTwo(Binary),
    /// It is said of two sets, of which the second is that of all nodes where it is left out.
    Majority,
}

/// What is said by a name.
pub(crate) fn called(name: &str) -> Option<Call>
    ensures { result ≡ called name.now }
{
    match name {
        "count" => Some(Call::Of(Unary::Count)),
        "lowest" => Some(Call::Of(Unary::Lowest)),
        "highest" => Some(Call::Of(Unary::Highest)),
        "min" => Some(Call::OfTwo(Binary::Smaller)),
        "max" => Some(Call::OfTwo(Binary::Larger)),
        "majority" => Some(Call::Majority),
        _ => None,
    }
}

/// What a call says of the values of a body. None where it says nothing of them.
fn of_body(call: Call) -> Option<Over>
    ensures { result ≡ of_body call }
{
    match call {
        Call::OfTwo(Binary::Smaller) => Some(Over::Least),
        Call::OfTwo(Binary::Larger) => Some(Over::Greatest),
        _ => None,
    }
}

/// Reads a call behind its name: its values in brackets.
#[cycle(reading)]
pub(crate) fn read_call<'t>(
    alloc: Global,
    place: &Place<'_>,
    call: Call,
    tokens: &'t [Token],
) -> Read<'t>
    ensures read { Reads (context_of place.now) (Behind (Called call)) tokens.now result }
    ensures shorter { IfOk result (λ r. length r.1.now ≤ length tokens.now) }
{
    let inner = past_sign(tokens, Sign::OpenRound, tokens.len().saturating_add(1))?;
    let (one, rest) = read_all(alloc, place, Level::Sum, inner)?;
    read_second(alloc, place, call, one, rest)
}

/// Goes on behind the first value of a call.
#[cycle(reading)]
fn read_second<'t>(
    alloc: Global,
    place: &Place<'_>,
    call: Call,
    one: Typed,
    tokens: &'t [Token],
) -> Read<'t>
    ensures read { Reads (context_of place.now) (Second call (said one)) tokens.now result }
    ensures shorter { IfOk result (λ r. length r.1.now ≤ length tokens.now) }
{
    let opened = one.from.saturating_add(1);
    match behind_sign(tokens, Sign::Comma) {
        Some(after) => {
            let (other, rest) = read_all(alloc, place, Level::Sum, after)?;
            let end = past_sign(rest, Sign::CloseRound, opened)?;
            Ok((by_call(alloc, call, one, Some(other), end.len())?, end))
        }
        None => read_single(alloc, place, call, one, tokens),
    }
}

/// Goes on behind the first value of a call where no second one follows: a body does, or nothing.
#[cycle(reading)]
fn read_single<'t>(
    alloc: Global,
    place: &Place<'_>,
    call: Call,
    one: Typed,
    tokens: &'t [Token],
) -> Read<'t>
    ensures read { Reads (context_of place.now) (Single call (said one)) tokens.now result }
    ensures shorter { IfOk result (λ r. length r.1.now ≤ length tokens.now) }
{
    let opened = one.from.saturating_add(1);
    let Some(after) = behind_sign(tokens, Sign::Colon) else {
        let end = past_sign(tokens, Sign::CloseRound, opened)?;
        return Ok((by_call(alloc, call, one, None, end.len())?, end));
    };
    match of_body(call) {
        Some(over) => read_body(alloc, place, over, one, after),
        None => Err(wrong(Why::Sign(Sign::CloseRound), tokens.len())),
    }
}
