//! Values that are put into a scenario.

ghost use Rattle.std.specs.Prelude.{◌≡◌, IfOk, Some, option_map};
ghost use Rattle.toml.specs.Data.{get_member};
ghost use Rattle.toml.specs.View.{table_view, view};
ghost use Rattle.lf_sweep.specs.Members.{constants_of, with_constant, with_member, with_place};

use crate::varied::Place;
use std::alloc::{AllocError, Global};
use toml::{Table, Value};

/// The key of a scenario at which its protocol's constants stand.
pub(crate) const GIVEN: &str = "given";

/// Puts a value at a place of a scenario, in place of what stood there or of nothing.
pub(crate) fn put(
    alloc: Global,
    scenario: &mut Table,
    place: &Place,
    value: Value,
) -> Result<(), AllocError>
    ensures { IfOk result (λ _. table_view scenario.new ≡ with_place place.now (view value) (table_view scenario.old)) }
{
    match place {
        Place::Key(name) => {
            let _before = put_member(alloc, scenario, name.as_str(), value)?;
            Ok(())
        }
        Place::Constant(name) => put_constant(alloc, scenario, name.as_str(), value),
    }
}

/// Puts a value at a name in the table `given`, which is made where there is none.
fn put_constant(
    alloc: Global,
    scenario: &mut Table,
    name: &str,
    value: Value,
) -> Result<(), AllocError>
    ensures { IfOk result (λ _. table_view scenario.new ≡ with_constant name.now (view value) (table_view scenario.old)) }
{
    let before = put_member(alloc, scenario, GIVEN, Value::Boolean(false))?;
    let mut constants = constants_in(alloc, before);
    let _other = put_member(alloc, &mut constants, name, value)?;
    let _empty = put_member(alloc, scenario, GIVEN, Value::Table(constants))?;
    Ok(())
}

/// The table that is given, and an empty one where none is.
fn constants_in(alloc: Global, given: Option<Value>) -> Table
    ensures { table_view result ≡ constants_of (option_map view given) }
{
    match given {
        Some(value) => table_in(alloc, value),
        None => Table::new(alloc),
    }
}

/// The table that a value is, and an empty one in place of any other.
fn table_in(alloc: Global, value: Value) -> Table
    ensures { table_view result ≡ constants_of (Some (view value)) }
{
    match value {
        Value::Table(table) => table,
        _ => Table::new(alloc),
    }
}

/// Puts a value at a key, and answers what stood there.
fn put_member(
    alloc: Global,
    members: &mut Table,
    key: &str,
    value: Value,
) -> Result<Option<Value>, AllocError>
    ensures after { IfOk result (λ _. table_view members.new ≡ with_member key.now (view value) (table_view members.old)) }
    ensures before { IfOk result (λ before. option_map view before ≡ get_member key.now (table_view members.old)) }
{
    match members.insert(String::from_str(alloc, key)?, value) {
        Ok(before) => Ok(before),
        Err(_) => Err(AllocError),
    }
}
