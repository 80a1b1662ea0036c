//! The outcome: a name, or a formula as a list.

ghost use Rattle.std.specs.Prelude.{◌≡◌, ◌≢◌, IfOk, IfErr};
ghost use Rattle.toml.specs.View.{view, items_view, table_view};
ghost use Rattle.lf_outcome.specs.Outcomes.{outcome_named};
ghost use Rattle.lf_outcome.specs.Formulas.{IsFormulaOf};
ghost use Rattle.lf_scenario.specs.Ranges.{IsInRange};
ghost use Rattle.lf_scenario.specs.Values.{required};
ghost use Rattle.lf_scenario.specs.Outcomes.{node_in, step_in, fact_in, down_of, down_in, shows_of, shows_in};
ghost use Rattle.lf_scenario.specs.Outcomes.{by_word, formula_in, parts_in, limited, list_formula, named_in, outcome_in};

use crate::limits::MOST_LISTED;
use crate::reading::Described;
use crate::value::{at, whole};
use crate::{Key, ScenarioError};
use lf_list::Listed;
use lf_outcome::{DEEPEST, Formula, Formulas, atoms, depth, named, outcome_named};
use lf_protocols::Fact;
use std::alloc::Global;
use toml::{Table, Value};

/// A node of a formula.
fn node_in(value: &Value, described: &Described) -> Result<u32, ScenarioError>
    requires { IsInRange described.now }
    ensures { result ≡ node_in described.now.bounds (view value.now) }
{
    let last = described.bounds.nodes() - 1;
    whole(value, Key::Outcome, 0, last).map_err(|_| ScenarioError::Formula)
}

/// A step of a formula.
fn step_in(value: &Value, described: &Described) -> Result<u32, ScenarioError>
    ensures { result ≡ step_in described.now.bounds (view value.now) }
{
    let last = described.bounds.horizon();
    whole(value, Key::Outcome, 1, last).map_err(|_| ScenarioError::Formula)
}

/// A fact of a formula.
fn fact_in(value: &Value, described: &Described) -> Result<Fact, ScenarioError>
    ensures { result ≡ fact_in described.now.protocol (view value.now) }
{
    match value {
        Value::String(word) => described
            .protocol
            .fact(word.as_str())
            .ok_or(ScenarioError::Formula),
        _ => Err(ScenarioError::Formula),
    }
}

/// The formula of the items after the word `down`.
fn down_in(items: &[Value], described: &Described) -> Result<Formula<Fact>, ScenarioError>
    requires { IsInRange described.now }
    ensures { result ≡ down_in described.now.bounds (items_view items.now) }
{
    if items.len() != 2 {
        return Err(ScenarioError::Formula);
    }
    down_of(&items[0], &items[1], described)
}

/// The formula that a node is down at a step.
fn down_of(
    first: &Value,
    second: &Value,
    described: &Described,
) -> Result<Formula<Fact>, ScenarioError>
    requires { IsInRange described.now }
    ensures { result ≡ down_of described.now.bounds (view first.now) (view second.now) }
{
    let node = node_in(first, described)?;
    let step = step_in(second, described)?;
    Ok(Formula::Down { node, step })
}

/// The formula of the items after the word `shows`.
fn shows_in(items: &[Value], described: &Described) -> Result<Formula<Fact>, ScenarioError>
    requires { IsInRange described.now }
    ensures { result ≡ shows_in described.now.protocol described.now.bounds (items_view items.now) }
{
    if items.len() != 3 {
        return Err(ScenarioError::Formula);
    }
    shows_of(&items[0], &items[1], &items[2], described)
}

/// The formula that a node shows a fact at a step.
fn shows_of(
    first: &Value,
    second: &Value,
    third: &Value,
    described: &Described,
) -> Result<Formula<Fact>, ScenarioError>
    requires { IsInRange described.now }
    ensures { result ≡ shows_of described.now.protocol described.now.bounds (view first.now) (view second.now) (view third.now) }
{
    let node = node_in(first, described)?;
    let step = step_in(second, described)?;
    let fact = fact_in(third, described)?;
    Ok(Formula::Shows { node, step, fact })
}

/// The formula of a list.
#[cycle(formula)]
fn formula_in(
    alloc: Global,
    value: &Value,
    described: &Described,
) -> Result<Formula<Fact>, ScenarioError>
    requires { IsInRange described.now }
    ensures ok { IfOk result (λ f. formula_in described.now.protocol described.now.bounds (view value.now) ≡ Ok f) }
    ensures err { IfErr result (λ e. e ≢ ScenarioError.Memory →
        formula_in described.now.protocol described.now.bounds (view value.now) ≡ Err e) }
{
    let Value::Array(items) = value else {
        return Err(ScenarioError::Formula);
    };
    let [first, rest @ ..] = items.as_slice() else {
        return Err(ScenarioError::Formula);
    };
    match first {
        Value::String(word) => by_word(alloc, word.as_str(), rest, described),
        _ => Err(ScenarioError::Formula),
    }
}

/// The formula of a list by its first word, with the items after it.
#[cycle(formula)]
fn by_word(
    alloc: Global,
    word: &str,
    rest: &[Value],
    described: &Described,
) -> Result<Formula<Fact>, ScenarioError>
    requires { IsInRange described.now }
    ensures ok { IfOk result (λ f. by_word word.now
        (parts_in described.now.protocol described.now.bounds (items_view rest.now))
        (down_in described.now.bounds (items_view rest.now))
        (shows_in described.now.protocol described.now.bounds (items_view rest.now)) ≡ Ok f) }
    ensures err { IfErr result (λ e. e ≢ ScenarioError.Memory → by_word word.now
        (parts_in described.now.protocol described.now.bounds (items_view rest.now))
        (down_in described.now.bounds (items_view rest.now))
        (shows_in described.now.protocol described.now.bounds (items_view rest.now)) ≡ Err e) }
{
    if word == "all" {
        Ok(Formula::All(parts_in(alloc, rest, described)?))
    } else if word == "any" {
        Ok(Formula::Any(parts_in(alloc, rest, described)?))
    } else if word == "down" {
        down_in(rest, described)
    } else if word == "shows" {
        shows_in(rest, described)
    } else {
        Err(ScenarioError::Formula)
    }
}

/// The formulas of some lists.
#[cycle(formula)]
fn parts_in(
    alloc: Global,
    items: &[Value],
    described: &Described,
) -> Result<Formulas<Fact>, ScenarioError>
    requires { IsInRange described.now }
    ensures ok { IfOk result (λ fs. parts_in described.now.protocol described.now.bounds (items_view items.now) ≡ Ok fs) }
    ensures err { IfErr result (λ e. e ≢ ScenarioError.Memory →
        parts_in described.now.protocol described.now.bounds (items_view items.now) ≡ Err e) }
{
    let mut parts = Vec::new(alloc);
    'items: for item in items {
        let part = formula_in(alloc, item, described)?;
        parts.push(part).map_err(|_| ScenarioError::Memory)?;
    }
    Ok(Listed::from_vec(parts))
}

/// The formula, where it isn't too deep and hasn't too many atoms.
fn limited(formula: Formula<Fact>) -> Result<Formula<Fact>, ScenarioError>
    ensures { result ≡ limited formula }
{
    if depth(&formula) <= DEEPEST && atoms(&formula) <= MOST_LISTED {
        Ok(formula)
    } else {
        Err(ScenarioError::Formula)
    }
}

/// The formula of the protocol's outcome with this name.
fn named_in(
    alloc: Global,
    name: &str,
    described: &Described,
) -> Result<Formula<Fact>, ScenarioError>
    ensures ok { IfOk result (λ f. named_in described.now.bounds (outcome_named described.now.protocol name.now) ≡ Ok f) }
    ensures err { IfErr result (λ e. e ≢ ScenarioError.Memory →
        named_in described.now.bounds (outcome_named described.now.protocol name.now) ≡ Err e) }
{
    let Some(outcome) = outcome_named(&described.protocol, name) else {
        return Err(ScenarioError::Outcome);
    };
    let nodes = described.bounds.nodes();
    let horizon = described.bounds.horizon();
    named(alloc, outcome, nodes, horizon).map_err(|_| ScenarioError::Memory)
}

/// The formula that a value says as a list: at points of the run, by facts of the protocol, at most `DEEPEST` deep, with at most `MOST_LISTED` atoms.
pub fn list_formula(
    alloc: Global,
    value: &Value,
    described: &Described,
) -> Result<Formula<Fact>, ScenarioError>
    requires { IsInRange described.now }
    ensures ok { IfOk result (λ f. list_formula described.now.protocol described.now.bounds (view value.now) ≡ Ok f) }
    ensures err { IfErr result (λ e. e ≢ ScenarioError.Memory →
        list_formula described.now.protocol described.now.bounds (view value.now) ≡ Err e) }
    ensures fits { IfOk result (IsFormulaOf described.now.protocol described.now.bounds) }
{
    limited(formula_in(alloc, value, described)?)
}

/// The formula of a value: that of a named outcome, or the one of a list.
fn outcome_in(
    alloc: Global,
    value: &Value,
    key: Key,
    described: &Described,
) -> Result<Formula<Fact>, ScenarioError>
    requires { IsInRange described.now }
    ensures ok { IfOk result (λ f. outcome_in described.now.protocol described.now.bounds key (view value.now) ≡ Ok f) }
    ensures err { IfErr result (λ e. e ≢ ScenarioError.Memory →
        outcome_in described.now.protocol described.now.bounds key (view value.now) ≡ Err e) }
{
    match value {
        Value::String(name) => named_in(alloc, name.as_str(), described),
        Value::Array(_) => list_formula(alloc, value, described),
        _ => Err(ScenarioError::WrongKind(key)),
    }
}

/// The formula of the table.
#[tactic(auto, unfolding(crate::specs::Values::required))]
pub(crate) fn read_formula(
    alloc: Global,
    table: &Table,
    described: &Described,
) -> Result<Formula<Fact>, ScenarioError>
    requires { IsInRange described.now }
    ensures ok { IfOk result (λ f. required (table_view table.now) Key.Outcome
        (outcome_in described.now.protocol described.now.bounds) ≡ Ok f) }
    ensures err { IfErr result (λ e. e ≢ ScenarioError.Memory → required (table_view table.now) Key.Outcome
        (outcome_in described.now.protocol described.now.bounds) ≡ Err e) }
    ensures fits { IfOk result (IsFormulaOf described.now.protocol described.now.bounds) }
{
    match at(table, Key::Outcome.name()) {
        Some(value) => outcome_in(alloc, value, Key::Outcome, described),
        None => Err(ScenarioError::Missing(Key::Outcome)),
    }
}
