//! Texts that are expressions.

ghost use Rattle.std.specs.Prelude.{◌≡◌, Ok, Err};
ghost use Rattle.lf_rules.specs.Terms.{term_of};
ghost use Rattle.lf_grammar.specs.Expressions.{first_truth, first_sum};
ghost use Rattle.lf_grammar.specs.Places.{context_of};
ghost use Rattle.lf_grammar.specs.Readings.{said, found_by};
ghost use Rattle.lf_grammar.specs.Typing.{as_set};
ghost use Rattle.lf_texts.specs.Reading.{Says, Gives, wanted, read_by};
ghost use Rattle.lf_texts.specs.Values.{with_it, expression, of_sort, first_of_sort, first_nodes, nodes_in, value_in, guard_in, else_in, when_in};

use crate::TextError;
use crate::fronts::ended;
use lf_grammar::{Place, Token, Typed, Unread, as_set, behind_word, read_sum, read_truth};
use lf_rules::{Expr, Leaf, Sort, Tree, Within};
use std::alloc::Global;

/// When a rule is taken.
#[derive(Debug, Drop)]
pub struct When {
    /// Whether it is taken only where no rule of its chain was.
    pub is_else: bool,
    pub guard: Expr,
}

/// Reads a text as a set of nodes. A number stands for the set with it alone.
#[tactic(auto, unfolding(crate::specs::Values::nodes_in))]
pub fn read_nodes(alloc: Global, place: &Place<'_>, tokens: &[Token]) -> Result<Expr, TextError>
    ensures { Gives (λ e. e) (nodes_in (context_of place.now) tokens.now) result }
{
    let (nodes, rest) = first_nodes(alloc, place, tokens)?;
    ended(rest)?;
    Ok(nodes)
}

/// Reads a text as a value of any sort.
#[tactic(auto, unfolding(crate::specs::Values::value_in))]
pub fn read_value(
    alloc: Global,
    place: &Place<'_>,
    tokens: &[Token],
) -> Result<(Expr, Sort), TextError>
    ensures { Gives (λ r. r) (value_in (context_of place.now) tokens.now) result }
{
    let (found, rest) = first_value(alloc, place, tokens)?;
    ended(rest)?;
    let Typed { tree, sort, .. } = found;
    Ok((expression(tree)?, sort))
}

/// Reads a text as a truth value.
#[tactic(auto, unfolding(crate::specs::Values::guard_in))]
pub fn read_guard(alloc: Global, place: &Place<'_>, tokens: &[Token]) -> Result<Expr, TextError>
    ensures { Gives (λ e. e) (guard_in (context_of place.now) tokens.now) result }
{
    let (guard, rest) = first_of_sort(alloc, place, Sort::Truth, tokens)?;
    ended(rest)?;
    Ok(guard)
}

/// Reads a text that says when a rule is taken: a truth value, or `else` with one or with none behind it, which stands for `true`.
#[tactic(auto, unfolding(crate::specs::Values::when_in))]
pub fn read_when(alloc: Global, place: &Place<'_>, tokens: &[Token]) -> Result<When, TextError>
    ensures { Gives (λ w. w) (when_in (context_of place.now) tokens.now) result }
{
    match behind_word(tokens, "else") {
        Some(rest) => {
            let guard = read_else(alloc, place, rest)?;
            Ok(When {
                is_else: true,
                guard,
            })
        }
        None => {
            let guard = read_guard(alloc, place, tokens)?;
            Ok(When {
                is_else: false,
                guard,
            })
        }
    }
}

/// Reads what stands behind `else`.
fn read_else(alloc: Global, place: &Place<'_>, tokens: &[Token]) -> Result<Expr, TextError>
    ensures { Gives (λ e. e) (else_in (context_of place.now) tokens.now) result }
{
    if tokens.is_empty() {
        expression(Tree::Leaf(Leaf::Truth(true)))
    } else {
        read_guard(alloc, place, tokens)
    }
}

/// The same place, where `it` is something else.
pub fn with_it<'a>(place: &Place<'a>, within: Within) -> Place<'a>
    ensures { context_of result ≡ with_it within (context_of place.now) }
{
    Place {
        definition: place.definition,
        names: place.names,
        fields: place.fields,
        scope: place.scope,
        within,
    }
}

/// The value that comes first, of any sort, and the tokens behind it.
fn first_value<'t>(
    alloc: Global,
    place: &Place<'_>,
    tokens: &'t [Token],
) -> Result<(Typed, &'t [Token]), TextError>
    ensures { Gives found_by (wanted (first_truth (context_of place.now) tokens.now)) result }
{
    match read_truth(alloc, place, tokens) {
        Ok(found) => Ok(found),
        Err(Unread::Wrong(_)) => Err(TextError::Unfit),
        Err(Unread::Memory) => Err(TextError::Memory),
    }
}

/// The value of a sort that comes first, and the tokens behind it.
#[tactic(auto, unfolding(crate::specs::Values::first_of_sort))]
pub(crate) fn first_of_sort<'t>(
    alloc: Global,
    place: &Place<'_>,
    sort: Sort,
    tokens: &'t [Token],
) -> Result<(Expr, &'t [Token]), TextError>
    ensures { Gives read_by (first_of_sort (context_of place.now) sort tokens.now) result }
{
    let (found, rest) = first_value(alloc, place, tokens)?;
    Ok((of_sort(found, sort)?, rest))
}

/// The set of nodes that comes first, and the tokens behind it. A number stands for the set with it alone.
#[tactic(auto, unfolding(crate::specs::Values::first_nodes))]
pub(crate) fn first_nodes<'t>(
    alloc: Global,
    place: &Place<'_>,
    tokens: &'t [Token],
) -> Result<(Expr, &'t [Token]), TextError>
    ensures { Gives read_by (first_nodes (context_of place.now) tokens.now) result }
{
    let (found, rest) = first_sum(alloc, place, tokens)?;
    let nodes = set(alloc, found)?;
    Ok((of_sort(nodes, Sort::Nodes)?, rest))
}

/// The sum that comes first, and the tokens behind it.
pub(crate) fn first_sum<'t>(
    alloc: Global,
    place: &Place<'_>,
    tokens: &'t [Token],
) -> Result<(Typed, &'t [Token]), TextError>
    ensures { Gives found_by (wanted (first_sum (context_of place.now) tokens.now)) result }
{
    match read_sum(alloc, place, tokens) {
        Ok(found) => Ok(found),
        Err(Unread::Wrong(_)) => Err(TextError::Unfit),
        Err(Unread::Memory) => Err(TextError::Memory),
    }
}

/// The set of one node alone, where the value is a number; another value stays.
fn set(alloc: Global, value: Typed) -> Result<Typed, TextError>
    ensures { Gives said (wanted (as_set (said value))) result }
{
    match as_set(alloc, value) {
        Ok(set) => Ok(set),
        Err(Unread::Wrong(_)) => Err(TextError::Unfit),
        Err(Unread::Memory) => Err(TextError::Memory),
    }
}

/// An expression that has to be of a sort.
fn of_sort(found: Typed, sort: Sort) -> Result<Expr, TextError>
    ensures { Says (λ e. e) (of_sort sort (said found)) result }
{
    if found.sort.same(sort) {
        let Typed { tree, .. } = found;
        expression(tree)
    } else {
        Err(TextError::Unfit)
    }
}

/// The expression with this tree, which has no more than 256 parts.
pub(crate) fn expression(tree: Tree) -> Result<Expr, TextError>
    ensures { Says (λ e. e) (expression (term_of tree)) result }
{
    match Expr::new(tree) {
        Some(expression) => Ok(expression),
        None => Err(TextError::Unfit),
    }
}
