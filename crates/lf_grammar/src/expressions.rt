//! Expressions, from the loosest operators to the tightest.

ghost use Rattle.std.specs.Prelude.{◌≡◌, ◌+◌, ◌*◌, ◌<◌, ◌≤◌, length, IfOk, MatchResult, Some, None};
ghost use Rattle.lf_rules.specs.Sorts.{tree_sort};
ghost use Rattle.lf_rules.specs.Terms.{term_of};
ghost use Rattle.lf_rules.specs.Trees.{parts};
ghost use Rattle.lf_grammar.specs.Expressions.{All, Left, More, Right, Denied, Comparison, Compared, first_truth, first_operand, first_sum};
ghost use Rattle.lf_grammar.specs.Places.{context_of};
ghost use Rattle.lf_grammar.specs.Readings.{said, Finds, Reads};

use crate::atoms::{read_atom, read_item};
use crate::divisors::read_divisor;
use crate::fronts::{behind_comparison, behind_word};
use crate::level::{Level, behind_joint};
use crate::typed::{compared, joined, unary};
use crate::{Place, Token, Typed, Unread};
use lf_rules::Unary;
use std::alloc::Global;

/// What is read, and the tokens behind it.
pub(crate) type Read<'t> = Result<(Typed, &'t [Token]), Unread>;

/// Reads what comes first as a value of any sort, and gives it with the tokens behind it. It has fewer than three parts for
/// two tokens.
pub fn read_truth<'t>(alloc: Global, place: &Place<'_>, tokens: &'t [Token]) -> Read<'t>
    ensures read { Finds (first_truth (context_of place.now) tokens.now) result }
    ensures typed { IfOk result (λ r. tree_sort place.now.definition.now place.now.scope place.now.within (term_of r.0.tree) ≡ Some r.0.sort) }
    ensures few { IfOk result (λ r. 2 * parts (term_of r.0.tree) + 3 * length r.1.now < 3 * length tokens.now) }
    ensures shorter { IfOk result (λ r. length r.1.now ≤ length tokens.now) }
{
    read_all(alloc, place, Level::Or, tokens)
}

/// Reads what comes first as an operand of `and` and `or`, which is of any sort, and gives it with the tokens behind it. It has fewer than three parts for two
/// tokens.
pub fn read_operand<'t>(alloc: Global, place: &Place<'_>, tokens: &'t [Token]) -> Read<'t>
    ensures read { Finds (first_operand (context_of place.now) tokens.now) result }
    ensures typed { IfOk result (λ r. tree_sort place.now.definition.now place.now.scope place.now.within (term_of r.0.tree) ≡ Some r.0.sort) }
    ensures few { IfOk result (λ r. 2 * parts (term_of r.0.tree) + 3 * length r.1.now < 3 * length tokens.now) }
    ensures shorter { IfOk result (λ r. length r.1.now ≤ length tokens.now) }
{
    read_denied(alloc, place, tokens)
}

/// Reads what comes first as a sum, which is a number or a set unless it is an atom, and gives it with the tokens behind it. It has fewer than three parts
/// for two tokens.
pub fn read_sum<'t>(alloc: Global, place: &Place<'_>, tokens: &'t [Token]) -> Read<'t>
    ensures read { Finds (first_sum (context_of place.now) tokens.now) result }
    ensures typed { IfOk result (λ r. tree_sort place.now.definition.now place.now.scope place.now.within (term_of r.0.tree) ≡ Some r.0.sort) }
    ensures few { IfOk result (λ r. 2 * parts (term_of r.0.tree) + 3 * length r.1.now < 3 * length tokens.now) }
    ensures shorter { IfOk result (λ r. length r.1.now ≤ length tokens.now) }
{
    read_all(alloc, place, Level::Sum, tokens)
}

/// Reads operands that are joined so strongly, with what joins them.
#[cycle(reading)]
pub(crate) fn read_all<'t>(
    alloc: Global,
    place: &Place<'_>,
    level: Level,
    tokens: &'t [Token],
) -> Read<'t>
    ensures read { Reads (context_of place.now) (All level) tokens.now result }
    ensures shorter { IfOk result (λ r. length r.1.now ≤ length tokens.now) }
{
    let (found, rest) = read_left(alloc, place, level, tokens)?;
    read_more(alloc, place, level, found, rest)
}

/// Reads the first operand.
#[cycle(reading)]
fn read_left<'t>(alloc: Global, place: &Place<'_>, level: Level, tokens: &'t [Token]) -> Read<'t>
    ensures read { Reads (context_of place.now) (Left level) tokens.now result }
    ensures shorter { IfOk result (λ r. length r.1.now ≤ length tokens.now) }
{
    match level {
        Level::Items => read_item(alloc, place, tokens),
        Level::Or => read_all(alloc, place, Level::And, tokens),
        Level::And => read_denied(alloc, place, tokens),
        Level::Sum => read_all(alloc, place, Level::Term, tokens),
        Level::Term => read_atom(alloc, place, tokens),
    }
}

/// Goes on behind an operand, where another one is joined to it.
#[cycle(reading)]
pub(crate) fn read_more<'t>(
    alloc: Global,
    place: &Place<'_>,
    level: Level,
    found: Typed,
    tokens: &'t [Token],
) -> Read<'t>
    ensures read { Reads (context_of place.now) (More level (said found)) tokens.now result }
    ensures shorter { IfOk result (λ r. length r.1.now ≤ length tokens.now) }
{
    match behind_joint(level, tokens) {
        Some((by, after)) => {
            let (other, rest) = read_right(alloc, place, level, after)?;
            let both = joined(alloc, by, found, other)?;
            read_more(alloc, place, level, both, rest)
        }
        None => Ok((found, tokens)),
    }
}

/// Reads an operand that is joined to one before it.
#[cycle(reading)]
fn read_right<'t>(alloc: Global, place: &Place<'_>, level: Level, tokens: &'t [Token]) -> Read<'t>
    ensures read { Reads (context_of place.now) (Right level) tokens.now result }
    ensures shorter { IfOk result (λ r. length r.1.now ≤ length tokens.now) }
{
    match level {
        Level::Term => read_divisor(place, tokens),
        _ => read_left(alloc, place, level, tokens),
    }
}

/// Reads a comparison, with `not` before it as often as there is.
#[cycle(reading)]
fn read_denied<'t>(alloc: Global, place: &Place<'_>, tokens: &'t [Token]) -> Read<'t>
    ensures read { Reads (context_of place.now) Denied tokens.now result }
    ensures shorter { IfOk result (λ r. length r.1.now ≤ length tokens.now) }
{
    match behind_word(tokens, "not") {
        Some(after) => {
            let (found, rest) = read_denied(alloc, place, after)?;
            Ok((unary(alloc, Unary::Not, found)?, rest))
        }
        None => read_comparison(alloc, place, tokens),
    }
}

/// Reads a sum, or two that are compared.
#[cycle(reading)]
fn read_comparison<'t>(alloc: Global, place: &Place<'_>, tokens: &'t [Token]) -> Read<'t>
    ensures read { Reads (context_of place.now) Comparison tokens.now result }
    ensures shorter { IfOk result (λ r. length r.1.now ≤ length tokens.now) }
{
    let (one, rest) = read_all(alloc, place, Level::Sum, tokens)?;
    read_compared(alloc, place, one, rest)
}

/// Goes on behind a sum, where another one is compared to it.
#[cycle(reading)]
fn read_compared<'t>(alloc: Global, place: &Place<'_>, one: Typed, tokens: &'t [Token]) -> Read<'t>
    ensures read { Reads (context_of place.now) (Compared (said one)) tokens.now result }
    ensures shorter { IfOk result (λ r. length r.1.now ≤ length tokens.now) }
{
    match behind_comparison(tokens) {
        Some((by, after)) => {
            let (other, rest) = read_all(alloc, place, Level::Sum, after)?;
            Ok((compared(alloc, by, one, other)?, rest))
        }
        None => Ok((one, tokens)),
    }
}
