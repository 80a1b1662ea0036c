//! What promises are made of.

ghost use Rattle.std.specs.Prelude.{◌≡◌, ◌≢◌, ◌≤◌, length, IfOk};
ghost use Rattle.lf_grammar.specs.Places.{context_of};
ghost use Rattle.lf_grammar.specs.Readings.{said};
ghost use Rattle.lf_promises.specs.Units.{first_unit, first_one, asking, topic_in, first_value, first_key, first_guard, sized, truth_by};
ghost use Rattle.lf_promises.specs.Units.{first_shown, first_nodes, first_group, set_of, first_down, first_at};
ghost use Rattle.lf_promises.specs.Readings.{Finds, Gives};

use crate::fronts::{behind_many, behind_one_value, read_fact, read_node};
use crate::reading::Read;
use crate::{Many, Promise};
use lf_grammar::{
    Place, Slip, Token, Typed, Unread, Why, as_set, behind_word, read_operand, read_sum, wrong,
};
use lf_rules::{Expr, Leaf, Scope, Sort, Topic, Within};
use std::alloc::Global;

/// Reads a unit that has no other promise in it. `timed` says whether it stands behind `always` or `ever`.
#[tactic(auto, unfolding(crate::specs::Units::first_unit))]
pub(crate) fn read_unit<'t>(
    alloc: Global,
    place: &Place<'_>,
    timed: bool,
    tokens: &'t [Token],
) -> Read<'t>
    ensures unit { Finds (first_unit (context_of place.now) timed tokens.now) result }
    ensures shorter { IfOk result (λ r. length r.1.now ≤ length tokens.now) }
{
    match behind_one_value(tokens) {
        Some(after) => read_one(alloc, place, timed, after),
        None => read_shown(alloc, place, tokens),
    }
}

/// Reads what is to have one value. It speaks of all steps, so it doesn't stand behind `always` or `ever`.
fn read_one<'t>(alloc: Global, place: &Place<'_>, timed: bool, tokens: &'t [Token]) -> Read<'t>
    ensures one { Finds (first_one (context_of place.now) timed tokens.now) result }
    ensures shorter { IfOk result (λ r. length r.1.now ≤ length tokens.now) }
{
    if timed {
        return Err(wrong(Why::Time, tokens.len().saturating_add(2)));
    }
    match behind_word(tokens, "of") {
        Some(after) => read_topic(alloc, &asking(place), after),
        None => Err(wrong(Why::Of, tokens.len())),
    }
}

/// Where a topic stands: more may be named there than in the rest of a promise.
fn asking<'a>(place: &Place<'a>) -> Place<'a>
    ensures { context_of result ≡ asking (context_of place.now) }
{
    Place {
        definition: place.definition,
        names: place.names,
        fields: place.fields,
        scope: Scope::Outcome,
        within: Within::Nothing,
    }
}

/// Reads a value, its key and when it counts.
#[tactic(auto, unfolding(crate::specs::Units::topic_in))]
fn read_topic<'t>(alloc: Global, place: &Place<'_>, tokens: &'t [Token]) -> Read<'t>
    ensures topic { Finds (topic_in (context_of place.now) tokens.now) result }
    ensures shorter { IfOk result (λ r. length r.1.now ≤ length tokens.now) }
{
    let (value, after_value) = read_value(alloc, place, tokens)?;
    let (key, after_key) = read_key(alloc, place, after_value)?;
    let (guard, rest) = read_guard(alloc, place, after_key)?;
    Ok((Promise::One(Topic { value, key, guard }), rest))
}

/// Reads a value of any sort.
#[tactic(auto, unfolding(crate::specs::Units::first_value))]
fn read_value<'t>(
    alloc: Global,
    place: &Place<'_>,
    tokens: &'t [Token],
) -> Result<(Expr, &'t [Token]), Unread>
    ensures value { Finds (first_value (context_of place.now) tokens.now) result }
    ensures shorter { IfOk result (λ r. length r.1.now ≤ length tokens.now) }
{
    let (value, rest) = read_operand(alloc, place, tokens)?;
    Ok((sized(value)?, rest))
}

/// Reads the key behind `per`. Without it there is but one.
#[tactic(auto, unfolding(crate::specs::Units::first_key))]
fn read_key<'t>(
    alloc: Global,
    place: &Place<'_>,
    tokens: &'t [Token],
) -> Result<(Expr, &'t [Token]), Unread>
    ensures key { Finds (first_key (context_of place.now) tokens.now) result }
    ensures shorter { IfOk result (λ r. length r.1.now ≤ length tokens.now) }
{
    match behind_word(tokens, "per") {
        Some(after) => read_value(alloc, place, after),
        None => Ok((Expr::leaf(Leaf::Number(0)), tokens)),
    }
}

/// Reads the truth behind `where`. Without it every point counts.
#[tactic(auto, unfolding(crate::specs::Units::first_guard))]
fn read_guard<'t>(
    alloc: Global,
    place: &Place<'_>,
    tokens: &'t [Token],
) -> Result<(Expr, &'t [Token]), Unread>
    ensures guard { Finds (first_guard (context_of place.now) tokens.now) result }
    ensures shorter { IfOk result (λ r. length r.1.now ≤ length tokens.now) }
{
    match behind_word(tokens, "where") {
        Some(after) => {
            let (value, rest) = read_operand(alloc, place, after)?;
            Ok((truth_of(value)?, rest))
        }
        None => Ok((Expr::leaf(Leaf::Truth(true)), tokens)),
    }
}

/// The expression that a value is, unless it is too large.
fn sized(value: Typed) -> Result<Expr, Unread>
    ensures { Gives (sized (said value).term) result }
{
    match Expr::new(value.tree) {
        Some(expr) => Ok(expr),
        None => Err(misfit(value.from, value.to)),
    }
}

/// The expression that a truth is.
fn truth_of(value: Typed) -> Result<Expr, Unread>
    ensures { Gives (truth_by value.sort (said value).term) result }
{
    match value.sort {
        Sort::Truth => sized(value),
        _ => Err(misfit(value.from, value.to)),
    }
}

/// Reads a unit of facts that nodes show, or of a node that isn't up.
#[tactic(auto, unfolding(crate::specs::Units::first_shown))]
fn read_shown<'t>(alloc: Global, place: &Place<'_>, tokens: &'t [Token]) -> Read<'t>
    ensures shown { Finds (first_shown (context_of place.now) tokens.now) result }
    ensures shorter { IfOk result (λ r. length r.1.now ≤ length tokens.now) }
{
    match behind_many(tokens) {
        Some((many, after)) => read_nodes(alloc, place, many, after),
        None => match behind_word(tokens, "down") {
            Some(after) => read_down(after),
            None => read_at(place, tokens),
        },
    }
}

/// Reads of which nodes so many are to show which fact.
#[tactic(auto, unfolding(crate::specs::Units::first_nodes))]
fn read_nodes<'t>(alloc: Global, place: &Place<'_>, many: Many, tokens: &'t [Token]) -> Read<'t>
    ensures nodes { Finds (first_nodes (context_of place.now) many tokens.now) result }
    ensures shorter { IfOk result (λ r. length r.1.now ≤ length tokens.now) }
{
    let (fact, after) = read_fact(place.definition, tokens)?;
    let (of, rest) = read_group(alloc, place, after)?;
    Ok((Promise::Nodes { many, fact, of }, rest))
}

/// Reads of which nodes something is said: of those of a set behind `of`, and else of all.
#[tactic(auto, unfolding(crate::specs::Units::first_group))]
fn read_group<'t>(
    alloc: Global,
    place: &Place<'_>,
    tokens: &'t [Token],
) -> Result<(Option<Expr>, &'t [Token]), Unread>
    ensures set { Finds (first_group (context_of place.now) tokens.now) result }
    ensures shorter { IfOk result (λ r. length r.1.now ≤ length tokens.now) }
{
    match behind_word(tokens, "of") {
        Some(after) => {
            let (value, rest) = read_sum(alloc, place, after)?;
            let set = set_of(as_set(alloc, value)?)?;
            Ok((Some(set), rest))
        }
        None => Ok((None, tokens)),
    }
}

/// The set that a value is.
fn set_of(value: Typed) -> Result<Expr, Unread>
    ensures { Gives (set_of (said value)) result }
{
    match value.sort {
        Sort::Nodes => sized(value),
        _ => Err(misfit(value.from, value.to)),
    }
}

/// The refusal of a value that isn't what may stand there, by how many tokens are left where it begins, and behind it.
fn misfit(from: usize, to: usize) -> Unread
    ensures { result ≢ Unread.Memory }
{
    Unread::Wrong(Slip {
        why: Why::Sort,
        from,
        at: from,
        to,
    })
}

/// Reads which node isn't to be up.
#[tactic(auto, unfolding(crate::specs::Units::first_down))]
fn read_down(tokens: &[Token]) -> Read<'_>
    ensures node { Finds (first_down tokens.now) result }
    ensures shorter { IfOk result (λ r. length r.1.now ≤ length tokens.now) }
{
    let (node, rest) = read_node(tokens)?;
    Ok((Promise::Down { node }, rest))
}

/// Reads which fact is to be shown, and the node behind `at`.
#[tactic(auto, unfolding(crate::specs::Units::first_at))]
fn read_at<'t>(place: &Place<'_>, tokens: &'t [Token]) -> Read<'t>
    ensures fact { Finds (first_at (context_of place.now) tokens.now) result }
    ensures shorter { IfOk result (λ r. length r.1.now ≤ length tokens.now) }
{
    let (fact, rest) = read_fact(place.definition, tokens)?;
    match behind_word(rest, "at") {
        Some(after) => {
            let (node, end) = read_node(after)?;
            Ok((Promise::At { node, fact }, end))
        }
        None => Err(wrong(Why::Nodes, tokens.len())),
    }
}
