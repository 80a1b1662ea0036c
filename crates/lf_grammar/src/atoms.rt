//! What expressions are made of.

ghost use Rattle.std.specs.Prelude.{◌≡◌, ◌≤◌, length, IfOk, MatchResult, Some, None};
ghost use Rattle.lf_grammar.specs.Expressions.{Atom, Behind, Curly, Named, Round, Item, Members, Placed, Range, begins_sign, begins_word};
ghost use Rattle.lf_grammar.specs.Places.{context_of, leaf_of, row_of};
ghost use Rattle.lf_grammar.specs.Readings.{said, Reads};
ghost use Rattle.lf_grammar.specs.Typing.{typed};
ghost use Rattle.lf_rules.specs.Sorts.{leaf_sort};
ghost use Rattle.lf_rules.specs.Terms as terms;

use crate::bodies::read_body;
use crate::calls::{called, read_call};
use crate::expressions::{Read, read_all, read_more};
use crate::fronts::{behind_sign, behind_word, ends_item, past_sign};
use crate::level::Level;
use crate::typed::{at_place, between, how_many, leaf, only};
use crate::{Place, Sign, Token, Typed, Why, wrong};
use lf_rules::{Leaf, Over, Row, Sort};
use std::alloc::Global;

/// Reads a number, a name, what stands in brackets, a set, or a call.
#[cycle(reading)]
pub(crate) fn read_atom<'t>(alloc: Global, place: &Place<'_>, tokens: &'t [Token]) -> Read<'t>
    ensures read { Reads (context_of place.now) Atom tokens.now result }
    ensures shorter { IfOk result (λ r. length r.1.now ≤ length tokens.now) }
{
    let Some((first, after)) = tokens.split_first() else {
        return Err(wrong(Why::Value, 0));
    };
    match first {
        Token::Number(number) => {
            let number = Leaf::Number(*number);
            Ok((leaf(number, Sort::Number, tokens.len(), after.len()), after))
        }
        Token::Word(word) => read_word(alloc, place, word.as_str(), after),
        Token::Sign(sign) => read_brackets(alloc, place, *sign, after),
    }
}

/// Reads what a sign begins: what stands in round brackets, or a set.
#[cycle(reading)]
fn read_brackets<'t>(alloc: Global, place: &Place<'_>, sign: Sign, tokens: &'t [Token]) -> Read<'t>
    ensures read { Reads (context_of place.now) (Behind (begins_sign sign)) tokens.now result }
    ensures shorter { IfOk result (λ r. length r.1.now ≤ length tokens.now) }
{
    match sign {
        Sign::OpenRound => read_round(alloc, place, tokens),
        Sign::OpenCurly => read_set(alloc, place, tokens),
        _ => Err(wrong(Why::Value, tokens.len().saturating_add(1))),
    }
}

/// Reads what a word begins.
#[cycle(reading)]
fn read_word<'t>(alloc: Global, place: &Place<'_>, word: &str, tokens: &'t [Token]) -> Read<'t>
    ensures read { Reads (context_of place.now)
        (Behind (begins_word (context_of place.now) word.now (leaf_of place.now.fields.now place.now.names.now word.now))) tokens.now result }
    ensures shorter { IfOk result (λ r. length r.1.now ≤ length tokens.now) }
{
    match place.leaf(word) {
        Some(found) => read_named(alloc, place, found, tokens),
        None => match called(word) {
            Some(call) => read_call(alloc, place, call, tokens),
            None => Err(wrong(Why::Name, tokens.len().saturating_add(1))),
        },
    }
}

/// Reads what a name stands for: by itself, or with a place in brackets behind it.
#[cycle(reading)]
fn read_named<'t>(alloc: Global, place: &Place<'_>, found: Leaf, tokens: &'t [Token]) -> Read<'t>
    ensures read { Reads (context_of place.now)
        (Behind (Named (typed (terms.Leaf found) (leaf_sort place.now.definition.now place.now.scope place.now.within found))
        (row_of place.now.definition.now found))) tokens.now result }
    ensures shorter { IfOk result (λ r. length r.1.now ≤ length tokens.now) }
{
    let from = tokens.len().saturating_add(1);
    match behind_sign(tokens, Sign::OpenSquare) {
        Some(after) => match place.row(found) {
            Some(row) => read_place(alloc, place, row, after),
            None => Err(wrong(Why::Items, from)),
        },
        None => match place.definition.leaf_sort(place.scope, place.within, found) {
            Some(sort) => Ok((leaf(found, sort, from, tokens.len()), tokens)),
            None => Err(wrong(why_not(place, found), from)),
        },
    }
}

/// Why a name can't stand by itself.
fn why_not(place: &Place<'_>, found: Leaf) -> Why {
    match (found, place.row(found)) {
        (Leaf::It, _) => Why::It,
        (_, Some(Row::Table(_))) => Why::Table,
        _ => Why::Name,
    }
}

/// Reads the place of an item behind its `[`, and the `]`.
#[cycle(reading)]
fn read_place<'t>(alloc: Global, place: &Place<'_>, row: Row, tokens: &'t [Token]) -> Read<'t>
    ensures read { Reads (context_of place.now) (Placed row) tokens.now result }
    ensures shorter { IfOk result (λ r. length r.1.now ≤ length tokens.now) }
{
    let from = tokens.len().saturating_add(1);
    let (at, rest) = read_all(alloc, place, Level::Sum, tokens)?;
    let end = past_sign(rest, Sign::CloseSquare, from)?;
    Ok((at_place(alloc, place, row, at, end.len())?, end))
}

/// Reads what stands in round brackets behind the first of them.
#[cycle(reading)]
fn read_round<'t>(alloc: Global, place: &Place<'_>, tokens: &'t [Token]) -> Read<'t>
    ensures read { Reads (context_of place.now) (Behind Round) tokens.now result }
    ensures shorter { IfOk result (λ r. length r.1.now ≤ length tokens.now) }
{
    let from = tokens.len().saturating_add(1);
    let (found, rest) = read_all(alloc, place, Level::Or, tokens)?;
    let to = rest.len().saturating_sub(1);
    Ok((
        Typed { from, to, ..found },
        past_sign(rest, Sign::CloseRound, from)?,
    ))
}

/// Reads a set behind its `{`: its items with commas between, or a set and what its nodes have to be, and the `}`.
#[cycle(reading)]
fn read_set<'t>(alloc: Global, place: &Place<'_>, tokens: &'t [Token]) -> Read<'t>
    ensures read { Reads (context_of place.now) (Behind Curly) tokens.now result }
    ensures shorter { IfOk result (λ r. length r.1.now ≤ length tokens.now) }
{
    let from = tokens.len().saturating_add(1);
    match behind_sign(tokens, Sign::CloseCurly) {
        Some(rest) => Ok((leaf(Leaf::Empty, Sort::Nodes, from, rest.len()), rest)),
        None => {
            let (one, rest) = read_all(alloc, place, Level::Sum, tokens)?;
            let (found, end) = read_members(alloc, place, one, rest)?;
            let to = end.len();
            Ok((Typed { from, to, ..found }, end))
        }
    }
}

/// Goes on behind the first value of a set.
#[cycle(reading)]
fn read_members<'t>(alloc: Global, place: &Place<'_>, one: Typed, tokens: &'t [Token]) -> Read<'t>
    ensures read { Reads (context_of place.now) (Members (said one)) tokens.now result }
    ensures shorter { IfOk result (λ r. length r.1.now ≤ length tokens.now) }
{
    let from = one.from.saturating_add(1);
    match behind_word(tokens, "where") {
        Some(after) => read_body(alloc, place, Over::Those, one, after),
        None => {
            let (first, more) = read_range(alloc, place, one, tokens)?;
            let (found, rest) = read_more(alloc, place, Level::Items, first, more)?;
            Ok((found, past_sign(rest, Sign::CloseCurly, from)?))
        }
    }
}

/// Reads a node, the nodes from one to another, or those from one on.
#[cycle(reading)]
pub(crate) fn read_item<'t>(alloc: Global, place: &Place<'_>, tokens: &'t [Token]) -> Read<'t>
    ensures read { Reads (context_of place.now) Item tokens.now result }
    ensures shorter { IfOk result (λ r. length r.1.now ≤ length tokens.now) }
{
    let (one, rest) = read_all(alloc, place, Level::Sum, tokens)?;
    read_range(alloc, place, one, rest)
}

/// Goes on behind the first number of an item.
#[cycle(reading)]
fn read_range<'t>(alloc: Global, place: &Place<'_>, one: Typed, tokens: &'t [Token]) -> Read<'t>
    ensures read { Reads (context_of place.now) (Range (said one)) tokens.now result }
    ensures shorter { IfOk result (λ r. length r.1.now ≤ length tokens.now) }
{
    let Some(after) = behind_sign(tokens, Sign::To) else {
        return Ok((only(alloc, one)?, tokens));
    };
    if ends_item(after) {
        return Ok((between(alloc, one, how_many(after.len()))?, after));
    }
    let (last, rest) = read_all(alloc, place, Level::Sum, after)?;
    Ok((between(alloc, one, last)?, rest))
}
