//! Expressions with what they are.

ghost use Rattle.std.specs.Prelude.{◌≡◌, ◌≢◌, MatchResult};
ghost use Rattle.lf_rules.specs.Terms as terms;
ghost use Rattle.lf_grammar.specs.Typing.{by_one, by_two, at_place, over_set, as_set, plus_by, minus_by, compared, joined, by_call, only_by};
ghost use Rattle.lf_grammar.specs.Typing.{between, how_many};
ghost use Rattle.lf_grammar.specs.Readings.{said, said_of, Gives};

use crate::calls::Call;
use crate::level::Joint;
use crate::{Place, Sign, Slip, Token, Unread, Why};
use lf_rules::{
    Binary, Leaf, Over, Row, Sort, Tree, Unary, at_sort, binary_sort, over_sort, unary_sort,
};
use std::alloc::Global;

/// An expression, and what it is where it stands.
#[derive(Debug, Drop)]
pub struct Typed {
    pub tree: Tree,
    pub sort: Sort,
    /// How many tokens are left where it begins. No contract speaks of it.
    pub from: usize,
    /// How many are left behind it.
    pub to: usize,
}

/// What comes of an operator on one value.
pub(crate) fn unary(alloc: Global, operator: Unary, one: Typed) -> Result<Typed, Unread>
    ensures { Gives said (by_one operator (said one)) result }
{
    let Typed {
        tree,
        sort,
        from,
        to,
    } = one;
    match unary_sort(operator, Some(sort)) {
        Some(sort) => {
            let tree = Tree::Unary(operator, boxed(alloc, tree)?);
            Ok(Typed {
                tree,
                sort,
                from,
                to,
            })
        }
        None => Err(unfit(from, from, to)),
    }
}

/// What comes of an operator on two values.
pub(crate) fn binary(
    alloc: Global,
    operator: Binary,
    one: Typed,
    other: Typed,
) -> Result<Typed, Unread>
    ensures { Gives said (by_two operator (said one) (said other)) result }
{
    let (from, to) = (one.from.max(other.from), one.to.min(other.to));
    match binary_sort(operator, Some(one.sort), Some(other.sort)) {
        Some(sort) => {
            let tree = Tree::Binary(operator, boxed(alloc, one.tree)?, boxed(alloc, other.tree)?);
            Ok(Typed {
                tree,
                sort,
                from,
                to,
            })
        }
        None => Err(unfit(from, one.to.max(other.to), to)),
    }
}

/// What stands at a place, of which the bracket is closed where so many tokens are left.
pub(crate) fn at_place(
    alloc: Global,
    place: &Place<'_>,
    row: Row,
    at: Typed,
    to: usize,
) -> Result<Typed, Unread>
    ensures { Gives said (at_place place.now.definition.now place.now.scope row (said at)) result }
{
    let from = at.from.saturating_add(2);
    let items = place.definition.row_sort(place.scope, row);
    match at_sort(items, Some(at.sort)) {
        Some(sort) => {
            let tree = Tree::At(row, boxed(alloc, at.tree)?);
            Ok(Typed {
                tree,
                sort,
                from,
                to,
            })
        }
        None => Err(unfit(at.from, at.from, at.to)),
    }
}

/// What comes of a set and a body behind which so many tokens are left.
pub(crate) fn over_set(
    alloc: Global,
    over: Over,
    set: Typed,
    body: Typed,
    to: usize,
) -> Result<Typed, Unread>
    ensures { Gives said (over_set over (said set) (said body)) result }
{
    let before = match over {
        Over::Those => 1,
        Over::Least | Over::Greatest => 2,
    };
    let from = set.from.saturating_add(before);
    match over_sort(over, Some(set.sort), Some(body.sort)) {
        Some(sort) => {
            let tree = Tree::Over(over, boxed(alloc, set.tree)?, boxed(alloc, body.tree)?);
            Ok(Typed {
                tree,
                sort,
                from,
                to,
            })
        }
        None => Err(unfit(from, set.to, to)),
    }
}

/// The refusal of a value, or of two, by their sorts.
fn unfit(from: usize, at: usize, to: usize) -> Unread
    ensures { result ≢ Unread.Memory }
{
    Unread::Wrong(Slip {
        why: Why::Sort,
        from,
        at,
        to,
    })
}

/// A tree in a box.
fn boxed(alloc: Global, tree: Tree) -> Result<Box<Tree>, Unread>
    ensures { MatchResult result (λ b. b.value ≡ tree) (λ e. e ≡ Unread.Memory) }
{
    match Box::new(alloc, tree) {
        Ok(tree) => Ok(tree),
        Err(_) => Err(Unread::Memory),
    }
}

/// The set of one node alone, where the value is a number; a set stays.
pub fn as_set(alloc: Global, value: Typed) -> Result<Typed, Unread>
    ensures { Gives said (as_set (said value)) result }
{
    match value.sort {
        Sort::Number => unary(alloc, Unary::Only, value),
        _ => Ok(value),
    }
}

/// What `+` gives: a sum of numbers, or a set with a set or a node.
pub(crate) fn plus(alloc: Global, one: Typed, other: Typed) -> Result<Typed, Unread>
    ensures { Gives said (plus_by one.sort (said one) (said other)) result }
{
    match one.sort {
        Sort::Nodes => binary(alloc, Binary::Union, one, as_set(alloc, other)?),
        _ => binary(alloc, Binary::Add, one, other),
    }
}

/// What `-` gives: a difference of numbers, or a set without a set or a node.
pub(crate) fn minus(alloc: Global, one: Typed, other: Typed) -> Result<Typed, Unread>
    ensures { Gives said (minus_by one.sort (said one) (said other)) result }
{
    match one.sort {
        Sort::Nodes => binary(alloc, Binary::Without, one, as_set(alloc, other)?),
        _ => binary(alloc, Binary::Subtract, one, other),
    }
}

/// An expression that only begins, from where so many tokens are left to where so many are.
pub(crate) fn leaf(leaf: Leaf, sort: Sort, from: usize, to: usize) -> Typed
    ensures { said result ≡ record { term = terms.Leaf leaf; sort = sort } }
{
    Typed {
        tree: Tree::Leaf(leaf),
        sort,
        from,
        to,
    }
}

/// Two values, compared by a token.
pub(crate) fn compared(alloc: Global, by: &Token, one: Typed, other: Typed) -> Result<Typed, Unread>
    ensures { Gives said (compared by.now (said one) (said other)) result }
{
    match by {
        Token::Sign(Sign::Equal) => binary(alloc, Binary::Equal, one, other),
        Token::Sign(Sign::NotEqual) => {
            let same = binary(alloc, Binary::Equal, one, other)?;
            unary(alloc, Unary::Not, same)
        }
        Token::Sign(Sign::Less) => binary(alloc, Binary::Less, one, other),
        Token::Sign(Sign::AtMost) => binary(alloc, Binary::AtMost, one, other),
        Token::Sign(Sign::More) => binary(alloc, Binary::Less, other, one),
        Token::Sign(Sign::AtLeast) => binary(alloc, Binary::AtMost, other, one),
        _ => binary(alloc, Binary::In, one, other),
    }
}

/// Two values, joined by what stands between them.
pub(crate) fn joined(alloc: Global, by: Joint, one: Typed, other: Typed) -> Result<Typed, Unread>
    ensures { Gives said (joined by (said one) (said other)) result }
{
    match by {
        Joint::Comma => binary(alloc, Binary::Union, one, other),
        Joint::Or => binary(alloc, Binary::Or, one, other),
        Joint::And => binary(alloc, Binary::And, one, other),
        Joint::Plus => plus(alloc, one, other),
        Joint::Minus => minus(alloc, one, other),
        Joint::Remainder => binary(alloc, Binary::Remainder, one, other),
    }
}

/// What is said of one value, or of two, by a call behind which so many tokens are left.
pub(crate) fn by_call(
    alloc: Global,
    call: Call,
    one: Typed,
    other: Option<Typed>,
    to: usize,
) -> Result<Typed, Unread>
    ensures { Gives said (by_call call (said one) (said_of other)) result }
{
    let from = one.from.saturating_add(2);
    let one = Typed { from, to, ..one };
    match (call, other) {
        (Call::Of(operator), None) => unary(alloc, operator, one),
        (Call::OfTwo(operator), Some(other)) => binary(alloc, operator, one, other),
        (Call::Majority, Some(group)) => binary(alloc, Binary::Majority, one, group),
        (Call::Majority, None) => {
            let all = leaf(Leaf::All, Sort::Nodes, from, to);
            binary(alloc, Binary::Majority, one, all)
        }
        (Call::Of(_), Some(_)) | (Call::OfTwo(_), None) => Err(unfit(from, from, to)),
    }
}

/// The set of one node alone. A set is no node.
pub(crate) fn only(alloc: Global, one: Typed) -> Result<Typed, Unread>
    ensures { Gives said (only_by one.sort (said one)) result }
{
    match one.sort {
        Sort::Number => as_set(alloc, one),
        _ => Err(unfit(one.from, one.from, one.to)),
    }
}

/// The nodes from one to another.
pub(crate) fn between(alloc: Global, one: Typed, last: Typed) -> Result<Typed, Unread>
    ensures { Gives said (between (said one) (said last)) result }
{
    binary(alloc, Binary::Between, one, last)
}

/// How many nodes there are, which is one past the last node, where so many tokens are left.
pub(crate) fn how_many(left: usize) -> Typed
    ensures { said result ≡ how_many }
{
    leaf(Leaf::Nodes, Sort::Number, left, left)
}
