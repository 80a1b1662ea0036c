//! What numbers may be divided by.

ghost use Rattle.std.specs.Prelude.{◌≡◌, ◌≢◌, ◌&&◌, ◌≤◌, length, IfOk, Some, None, MatchResult, slice_get};
ghost use Rattle.std.specs.List.{list_all};
ghost use Rattle.lf_rules.specs.Sorts.{is_of, leaf_sort};
ghost use Rattle.lf_rules.specs.declared.expr.Leaf.TheVariants as leaves;
ghost use Rattle.lf_rules.specs.declared.sort.Sort.TheVariants as sorts;
ghost use Rattle.lf_grammar.specs.Expressions.{constant_never_0, divisor, first_divisor, is_not_0, never_0};
ghost use Rattle.lf_grammar.specs.Places.{context_of};
ghost use Rattle.lf_grammar.specs.Readings.{said, Finds};

use crate::expressions::Read;
use crate::typed::leaf;
use crate::{Place, Token, Typed, Unread, Why, wrong};
use lf_rules::{Given, Leaf, Sort, Value};

/// Reads what a number is divided by.
pub(crate) fn read_divisor<'t>(place: &Place<'_>, tokens: &'t [Token]) -> Read<'t>
    ensures read { Finds (first_divisor (context_of place.now) tokens.now) result }
    ensures shorter { IfOk result (λ r. length r.1.now ≤ length tokens.now) }
{
    match tokens.split_first() {
        Some((first, rest)) => match divided_by(place, first, tokens.len()) {
            Ok(found) => Ok((found, rest)),
            Err(e) => Err(e),
        },
        None => Err(wrong(Why::Value, 0)),
    }
}

/// What a number is divided by: a number that isn't 0, how many nodes there are, or a constant that may be named here and is a number, never 0. So many
/// tokens are left there.
fn divided_by(place: &Place<'_>, token: &Token, left: usize) -> Result<Typed, Unread>
    ensures { MatchResult result (λ x. divisor (context_of place.now) token.now ≡ Some (said x))
        (λ e. (e ≢ Unread.Memory) × (divisor (context_of place.now) token.now ≡ None)) }
{
    let found = match token {
        Token::Number(number) if *number != 0 => Leaf::Number(*number),
        Token::Word(word) => match place.leaf(word.as_str()) {
            Some(Leaf::Nodes) => Leaf::Nodes,
            Some(Leaf::Given(i)) if is_divisor(place, i) => Leaf::Given(i),
            _ => return Err(wrong(Why::Divisor, left)),
        },
        _ => return Err(wrong(Why::Divisor, left)),
    };
    Ok(leaf(found, Sort::Number, left, left.saturating_sub(1)))
}

/// Whether a constant may be named here, and is a number that is 0 at no node.
fn is_divisor(place: &Place<'_>, i: u8) -> bool
    ensures { result ≡ (is_of (leaf_sort place.now.definition.now place.now.scope place.now.within (leaves.Given i)) sorts.Number
        && constant_never_0 (slice_get place.now.definition.now.given i)) }
{
    match place
        .definition
        .leaf_sort(place.scope, place.within, Leaf::Given(i))
    {
        Some(Sort::Number) => is_never_0(place, i),
        _ => false,
    }
}

/// Whether a constant is a number that is 0 at no node.
fn is_never_0(place: &Place<'_>, i: u8) -> bool
    ensures { result ≡ constant_never_0 (slice_get place.now.definition.now.given i) }
{
    match place.definition.given.as_slice().get(usize::from(i)) {
        Some(constant) => is_given_never_0(&constant.value),
        None => false,
    }
}

/// Whether what a constant is is a number that is 0 at no node.
fn is_given_never_0(given: &Given) -> bool
    ensures { result ≡ never_0 given.now }
{
    match given {
        Given::One(value) => is_not_0(value),
        Given::Each(values) => are_not_0(values.as_slice()),
    }
}

/// Whether all values are numbers that aren't 0.
fn are_not_0(values: &[Value]) -> bool
    ensures { result ≡ list_all is_not_0 values.now }
{
    for value in values {
        if !is_not_0(value) {
            return false;
        }
    }
    true
}

/// Whether a value is a number that isn't 0.
fn is_not_0(value: &Value) -> bool
    ensures { result ≡ is_not_0 value.now }
{
    match value {
        Value::Number(number) => *number != 0,
        _ => false,
    }
}
