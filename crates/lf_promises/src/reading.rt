//! The reader of promises.

ghost use Rattle.std.specs.Prelude.{◌≡◌, ◌≢◌, ◌<◌, ◌≤◌, [], ◌∷◌, ◌++◌, length, IfSome, IfOk, MatchOption, MatchResult, Some, None, true};
ghost use Rattle.lf_grammar.specs.Places.{context_of};
ghost use Rattle.lf_promises.specs.Facts.{names_facts};
ghost use Rattle.lf_promises.specs.Topics.{asks_sorted};
ghost use Rattle.lf_promises.specs.Promises.{Joined, Part, More, Whole, Round, Timed, behind_joint, of_parts, at_times, promise_of};
ghost use Rattle.lf_promises.specs.Readings.{Reads};

use crate::fronts::{Time, behind_time};
use crate::units::read_unit;
use crate::{Promise, PromiseError};
use lf_grammar::{
    Place, Sign, Slip, Token, Unread, Why, behind_sign, behind_word, past_sign, wrong,
};
use lf_list::Listed;
use std::alloc::Global;

/// What is read, and the tokens behind it.
pub(crate) type Read<'t> = Result<(Promise, &'t [Token]), Unread>;

/// How parts are joined.
#[derive(Clone, Copy, Debug, PartialEq, Eq)]
pub(crate) enum Joint {
    Or,
    And,
}

/// The promise that tokens are, to the last of them.
#[tactic(auto, unfolding(crate::specs::Promises::promise_of))]
pub fn read_promise(
    alloc: Global,
    place: &Place<'_>,
    tokens: &[Token],
) -> Result<Promise, PromiseError>
    ensures value { MatchResult result (λ promise. promise_of (context_of place.now) tokens.now ≡ Some promise)
        (λ e. e ≢ PromiseError.Memory → promise_of (context_of place.now) tokens.now ≡ None) }
    ensures facts { IfOk result (λ promise. names_facts place.now.definition.now promise ≡ true) }
    ensures asked { IfOk result (λ promise. asks_sorted place.now.definition.now promise ≡ true) }
{
    match read_joined(alloc, place, false, Joint::Or, tokens) {
        Ok((promise, [])) => Ok(promise),
        Ok((_, rest)) => Err(PromiseError::Unfit(Slip::first(Why::Rest, rest.len()))),
        Err(Unread::Wrong(slip)) => Err(PromiseError::Unfit(slip)),
        Err(Unread::Memory) => Err(PromiseError::Memory),
    }
}

/// Reads parts with a joint between each two, or a single part.
#[cycle(promise)]
fn read_joined<'t>(
    alloc: Global,
    place: &Place<'_>,
    timed: bool,
    joint: Joint,
    tokens: &'t [Token],
) -> Read<'t>
    ensures read { Reads (context_of place.now) timed (Joined joint) tokens.now result }
    ensures shorter { IfOk result (λ r. length r.1.now ≤ length tokens.now) }
{
    let (first, rest) = read_part(alloc, place, timed, joint, tokens)?;
    match behind_joint(joint, rest) {
        Some(after) => {
            let parts = with(Vec::new(alloc), first)?;
            read_more(alloc, place, timed, joint, parts, after)
        }
        None => Ok((first, rest)),
    }
}

/// Reads a part.
#[cycle(promise)]
fn read_part<'t>(
    alloc: Global,
    place: &Place<'_>,
    timed: bool,
    joint: Joint,
    tokens: &'t [Token],
) -> Read<'t>
    ensures read { Reads (context_of place.now) timed (Part joint) tokens.now result }
    ensures shorter { IfOk result (λ r. length r.1.now ≤ length tokens.now) }
{
    match joint {
        Joint::Or => read_joined(alloc, place, timed, Joint::And, tokens),
        Joint::And => read_any_unit(alloc, place, timed, tokens),
    }
}

/// Reads a part behind a joint, and those that follow it.
#[cycle(promise)]
fn read_more<'t>(
    alloc: Global,
    place: &Place<'_>,
    timed: bool,
    joint: Joint,
    parts: Vec<Promise>,
    tokens: &'t [Token],
) -> Read<'t>
    ensures read { Reads (context_of place.now) timed (More joint parts.items) tokens.now result }
    ensures shorter { IfOk result (λ r. length r.1.now ≤ length tokens.now) }
{
    let (part, rest) = read_part(alloc, place, timed, joint, tokens)?;
    let all = with(parts, part)?;
    match behind_joint(joint, rest) {
        Some(after) => read_more(alloc, place, timed, joint, all, after),
        None => Ok((of_parts(joint, all), rest)),
    }
}

/// Reads a unit: what stands in brackets, what speaks of all steps, or one that has no other promise in it.
#[cycle(promise)]
fn read_any_unit<'t>(alloc: Global, place: &Place<'_>, timed: bool, tokens: &'t [Token]) -> Read<'t>
    ensures read { Reads (context_of place.now) timed Whole tokens.now result }
    ensures shorter { IfOk result (λ r. length r.1.now ≤ length tokens.now) }
{
    match behind_sign(tokens, Sign::OpenRound) {
        Some(after) => read_round(alloc, place, timed, after),
        None => match behind_time(tokens) {
            Some((time, after)) => read_timed(alloc, place, timed, time, after),
            None => read_unit(alloc, place, timed, tokens),
        },
    }
}

/// Reads what stands in brackets behind the first of them.
#[cycle(promise)]
fn read_round<'t>(alloc: Global, place: &Place<'_>, timed: bool, tokens: &'t [Token]) -> Read<'t>
    ensures read { Reads (context_of place.now) timed Round tokens.now result }
    ensures shorter { IfOk result (λ r. length r.1.now ≤ length tokens.now) }
{
    let from = tokens.len().saturating_add(1);
    let (promise, rest) = read_joined(alloc, place, timed, Joint::Or, tokens)?;
    Ok((promise, past_sign(rest, Sign::CloseRound, from)?))
}

/// Reads the unit behind `always` or `ever`. Neither stands within another.
#[cycle(promise)]
fn read_timed<'t>(
    alloc: Global,
    place: &Place<'_>,
    timed: bool,
    time: Time,
    tokens: &'t [Token],
) -> Read<'t>
    ensures read { Reads (context_of place.now) timed (Timed time) tokens.now result }
    ensures shorter { IfOk result (λ r. length r.1.now ≤ length tokens.now) }
{
    if timed {
        return Err(wrong(Why::Time, tokens.len().saturating_add(1)));
    }
    let (promise, rest) = read_any_unit(alloc, place, true, tokens)?;
    Ok((at_times(alloc, time, promise)?, rest))
}

/// The parts with one more behind them.
fn with(parts: Vec<Promise>, part: Promise) -> Result<Vec<Promise>, Unread>
    ensures { MatchResult result (λ all. all.items ≡ parts.items ++ part ∷ []) (λ e. e ≡ Unread.Memory) }
{
    let mut all = parts;
    match all.push(part) {
        Ok(()) => Ok(all),
        Err(_) => Err(Unread::Memory),
    }
}

/// The tokens behind a joint.
#[tactic(auto, unfolding(crate::specs::Promises::behind_joint))]
fn behind_joint(joint: Joint, tokens: &[Token]) -> Option<&[Token]>
    ensures behind { MatchOption result (behind_joint joint tokens.now ≡ None) (λ rest. behind_joint joint tokens.now ≡ Some rest.now) }
    ensures shorter { IfSome result (λ rest. length rest.now < length tokens.now) }
{
    match joint {
        Joint::Or => behind_word(tokens, "or"),
        Joint::And => behind_word(tokens, "and"),
    }
}

/// What joined parts are.
fn of_parts(joint: Joint, parts: Vec<Promise>) -> Promise
    ensures { result ≡ of_parts joint parts.items }
{
    match joint {
        Joint::Or => Promise::Any(Listed::from_vec(parts)),
        Joint::And => Promise::All(Listed::from_vec(parts)),
    }
}

/// What a unit is that speaks of all steps.
fn at_times(alloc: Global, time: Time, promise: Promise) -> Result<Promise, Unread>
    ensures { MatchResult result (λ timed. timed ≡ at_times time promise) (λ e. e ≡ Unread.Memory) }
{
    let parts = Listed::from_vec(with(Vec::new(alloc), promise)?);
    match time {
        Time::Always => Ok(Promise::Always(parts)),
        Time::Ever => Ok(Promise::Ever(parts)),
    }
}
