//! Constants that a scenario may change.

ghost use Rattle.std.specs.Prelude.{◌≡◌, [], IfOk, Ok, Err};
ghost use Rattle.toml.specs.View.{view, items_view};
ghost use Rattle.lf_protocol_file.specs.Readings.{Gives};
ghost use Rattle.lf_protocol_file.specs.Constants.{value_sort, is_of_sort, are_all, listed_sort, given_sort, nodes_value, value_in, values_behind};
ghost use Rattle.lf_protocol_file.specs.Constants.{given_in, with_given, with_constant};

use crate::draft::{Draft, none_of, number_after, push};
use crate::{Fault, name_of, tokens_in};
use lf_list::Listed;
use lf_rules::{Constant, Given, Leaf, Scope, Sort};
use lf_texts::read_nodes;
use std::alloc::{AllocError, Global};
use toml::Value;

/// The draft with one more constant.
#[tactic(auto, unfolding(crate::specs::Constants::with_constant))]
pub fn with_constant(alloc: Global, draft: Draft, key: &str, value: &Value) -> Result<Draft, Fault>
    ensures { Gives (with_constant draft key.now (view value.now)) result }
{
    draft.check_new(key)?;
    let sort = given_sort(value)?;
    let value = given_in(alloc, &draft, value)?;
    let leaf = Leaf::Given(number_after(draft.definition.given.len()));
    let draft = draft.with_name(alloc, key, leaf)?;
    let name = name_of(alloc, key)?;
    let draft = with_given(draft, Constant { name, sort, value })?;
    Ok(draft)
}

/// The draft with a constant behind the others.
fn with_given(draft: Draft, constant: Constant) -> Result<Draft, AllocError>
    ensures { IfOk result (λ d. d ≡ with_given constant draft) }
{
    let mut draft = draft;
    push(&mut draft.definition.given, constant)?;
    Ok(draft)
}

/// What a constant is: of what sort its value is, or all of its values.
fn given_sort(value: &Value) -> Result<Sort, Fault>
    ensures { result ≡ given_sort (view value.now) }
{
    match value {
        Value::Array(items) => listed_sort(items.as_slice()),
        _ => value_sort(value),
    }
}

/// What all values of a list are, of which there are 1 to 8.
#[tactic(auto, using(crate::proofs::Counts::counted_items), unfolding(crate::specs::Constants::listed_sort))]
fn listed_sort(items: &[Value]) -> Result<Sort, Fault>
    ensures { result ≡ listed_sort (items_view items.now) }
{
    match items.split_first() {
        None => Err(Fault::PastLimit),
        Some((first, more)) => {
            let sort = value_sort(first)?;
            if !are_all(sort, more) {
                Err(Fault::WrongKind)
            } else if more.len() < 8 {
                Ok(sort)
            } else {
                Err(Fault::PastLimit)
            }
        }
    }
}

/// Whether all items are values of a sort.
fn are_all(sort: Sort, items: &[Value]) -> bool
    ensures { result ≡ are_all sort (items_view items.now) }
{
    'items: for value in items {
        if !is_of_sort(sort, value) {
            return false;
        }
    }
    true
}

/// Whether a value is of a sort.
fn is_of_sort(sort: Sort, value: &Value) -> bool
    ensures { result ≡ is_of_sort sort (view value.now) }
{
    match value_sort(value) {
        Ok(found) => found.same(sort),
        Err(_) => false,
    }
}

/// What a value is. A text is a set of nodes.
fn value_sort(value: &Value) -> Result<Sort, Fault>
    ensures { result ≡ value_sort (view value.now) }
{
    match value {
        Value::Integer(_) => Ok(Sort::Number),
        Value::Boolean(_) => Ok(Sort::Truth),
        Value::String(_) => Ok(Sort::Nodes),
        _ => Err(Fault::WrongKind),
    }
}

/// One value for all nodes, or one for each node.
#[tactic(auto, unfolding(crate::specs::Constants::given_in))]
fn given_in(alloc: Global, draft: &Draft, value: &Value) -> Result<Given, Fault>
    ensures { Gives (given_in draft.now (view value.now)) result }
{
    match value {
        Value::Array(items) => {
            let values = values_in(alloc, draft, items.as_slice())?;
            Ok(Given::Each(values))
        }
        _ => {
            let value = value_in(alloc, draft, value)?;
            Ok(Given::One(value))
        }
    }
}

/// The values of items.
fn values_in(
    alloc: Global,
    draft: &Draft,
    items: &[Value],
) -> Result<Listed<lf_rules::Value>, Fault>
    ensures { Gives (values_behind draft.now [] (items_view items.now)) result }
{
    let mut values = none_of(alloc);
    'items: for item in items {
        let value = value_in(alloc, draft, item)?;
        push(&mut values, value)?;
    }
    Ok(values)
}

/// A value: a number up to 255, a truth value, or a text that is a set of nodes.
fn value_in(alloc: Global, draft: &Draft, value: &Value) -> Result<lf_rules::Value, Fault>
    ensures { Gives (value_in draft.now (view value.now)) result }
{
    match value {
        Value::Integer(number) => match u8::try_from(*number) {
            Ok(number) => Ok(lf_rules::Value::Number(number)),
            Err(_) => Err(Fault::PastLimit),
        },
        Value::Boolean(truth) => Ok(lf_rules::Value::Truth(*truth)),
        _ => nodes_value(alloc, draft, value),
    }
}

/// A text that is a set of nodes.
#[tactic(auto, unfolding(crate::specs::Constants::nodes_value))]
fn nodes_value(alloc: Global, draft: &Draft, value: &Value) -> Result<lf_rules::Value, Fault>
    ensures { Gives (nodes_value draft.now (view value.now)) result }
{
    let tokens = tokens_in(alloc, value)?;
    let place = draft.place(&[], Scope::Given);
    let nodes = read_nodes(alloc, &place, tokens.as_slice())?;
    Ok(lf_rules::Value::Nodes(nodes))
}
