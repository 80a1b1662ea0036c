//! Values of constants.

ghost use Rattle.std.specs.Prelude.{◌≡◌, []};
ghost use Rattle.toml.specs.View.{view, items_view};
ghost use Rattle.lf_own_scenario.specs.Values.{Gives, is_of_sort, all_of_sort, refusal, set_in, value_in, values_behind, listed, given_anew};

use lf_grammar::Place;
use lf_list::Listed;
use lf_protocol_file::ProtocolFile;
use lf_rules::{Given, Scope, Sort, Within};
use lf_scenario::{Key, ScenarioError};
use lf_texts::{TextError, read_nodes, text_tokens};
use std::alloc::Global;
use toml::Value;

/// The refusal of constants for a fault of a text.
fn refusal(fault: TextError) -> ScenarioError
    ensures { result ≡ refusal fault }
{
    match fault {
        TextError::Unfit => ScenarioError::WrongKind(Key::Given),
        TextError::PastLimit => ScenarioError::OutOfRange(Key::Given),
        TextError::Memory => ScenarioError::Memory,
    }
}

/// Whether a value is of a sort. A text stands for a set of nodes.
fn is_of_sort(sort: Sort, value: &Value) -> bool
    ensures { result ≡ is_of_sort sort (view value.now) }
{
    match value {
        Value::Integer(_) => Sort::Number.same(sort),
        Value::Boolean(_) => Sort::Truth.same(sort),
        Value::String(_) => Sort::Nodes.same(sort),
        _ => false,
    }
}

/// Whether all items are of a sort.
fn all_of_sort(sort: Sort, items: &[Value]) -> bool
    ensures { result ≡ all_of_sort sort (items_view items.now) }
{
    'items: for value in items {
        if !is_of_sort(sort, value) {
            return false;
        }
    }
    true
}

/// A text that is a set of nodes.
#[tactic(auto, unfolding(crate::specs::Values::set_in))]
fn set_in(alloc: Global, file: &ProtocolFile, text: &str) -> Result<lf_rules::Value, ScenarioError>
    ensures { Gives (λ v. v) (set_in file.now text.now) result }
{
    let tokens = text_tokens(alloc, text).map_err(refusal)?;
    let place = Place {
        definition: file.definition(),
        names: file.names(),
        fields: &[],
        scope: Scope::Given,
        within: Within::Nothing,
    };
    let nodes = read_nodes(alloc, &place, tokens.as_slice()).map_err(refusal)?;
    Ok(lf_rules::Value::Nodes(nodes))
}

/// A value: a number up to 255, a truth value, or a text that is a set of nodes.
fn value_in(
    alloc: Global,
    file: &ProtocolFile,
    value: &Value,
) -> Result<lf_rules::Value, ScenarioError>
    ensures { Gives (λ v. v) (value_in file.now (view value.now)) result }
{
    match value {
        Value::Integer(number) => match u8::try_from(*number) {
            Ok(number) => Ok(lf_rules::Value::Number(number)),
            Err(_) => Err(ScenarioError::OutOfRange(Key::Given)),
        },
        Value::Boolean(so) => Ok(lf_rules::Value::Truth(*so)),
        Value::String(text) => set_in(alloc, file, text.as_str()),
        _ => Err(ScenarioError::WrongKind(Key::Given)),
    }
}

/// The values of items, in order.
fn values_in(
    alloc: Global,
    file: &ProtocolFile,
    items: &[Value],
) -> Result<Listed<lf_rules::Value>, ScenarioError>
    ensures { Gives (λ vs. vs) (values_behind file.now [] (items_view items.now)) result }
{
    let mut values = Vec::new(alloc);
    'items: for item in items {
        let value = value_in(alloc, file, item)?;
        values.push(value).map_err(|_| ScenarioError::Memory)?;
    }
    Ok(Listed::from_vec(values))
}

/// What a scenario gives anew for a constant of a sort: one value for all nodes, or a list with one for each.
pub(crate) fn given_anew(
    alloc: Global,
    file: &ProtocolFile,
    nodes: u32,
    sort: Sort,
    value: &Value,
) -> Result<Given, ScenarioError>
    ensures { Gives (λ v. v) (given_anew file.now nodes sort (view value.now)) result }
{
    match value {
        Value::Array(items) => listed(alloc, file, nodes, sort, items.as_slice()),
        _ => {
            if !is_of_sort(sort, value) {
                return Err(ScenarioError::WrongKind(Key::Given));
            }
            Ok(Given::One(value_in(alloc, file, value)?))
        }
    }
}

/// A list of values of a sort, one for each node.
#[tactic(auto, using(crate::proofs::Counts::counted_items))]
fn listed(
    alloc: Global,
    file: &ProtocolFile,
    nodes: u32,
    sort: Sort,
    items: &[Value],
) -> Result<Given, ScenarioError>
    ensures { Gives (λ v. v) (listed file.now nodes sort (items_view items.now)) result }
{
    if !all_of_sort(sort, items) {
        return Err(ScenarioError::WrongKind(Key::Given));
    }
    if items.len() != nodes as usize {
        return Err(ScenarioError::OutOfRange(Key::Given));
    }
    Ok(Given::Each(values_in(alloc, file, items)?))
}
