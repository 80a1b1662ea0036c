//! The constants of a protocol in a scenario.

ghost use Rattle.std.specs.Prelude.{◌≡◌, ◌≤◌, true, IfOk};
ghost use Rattle.toml.specs.View.{table_view};
ghost use Rattle.lf_rule_machine.specs.Constants.{is_for};
ghost use Rattle.lf_rule_machine.specs.Machines.{is_machine};
ghost use Rattle.lf_own_scenario.specs.Values.{Gives};
ghost use Rattle.lf_own_scenario.specs.Constants.{seen, is_declared, all_declared, anew, left, constant_at, constants_in, found_in, given_in};

use crate::copying::copied;
use crate::values::given_anew;
use crate::zeros::definition_divides;
use lf_protocol_file::ProtocolFile;
use lf_rules::{Constant, Given};
use lf_scenario::{Key, ScenarioError, at};
use std::alloc::Global;
use toml::{Table, Value};

/// Whether a name is that of one of some constants.
fn is_declared(constants: &[Constant], name: &str) -> bool
    ensures { result ≡ is_declared constants.now name.now }
{
    constants
        .iter()
        .any(|constant| name == constant.name.as_str())
}

/// Whether each name of a table is that of one of some constants.
fn all_declared(constants: &[Constant], table: &Table) -> bool
    ensures { result ≡ all_declared constants.now (table_view table.now) }
{
    'members: for (name, _value) in table.iter() {
        if !is_declared(constants, name.as_str()) {
            return false;
        }
    }
    true
}

/// What a constant is in a scenario: what is given anew, and else what the file says, where that has an item for each node or none.
fn constant_at(
    alloc: Global,
    file: &ProtocolFile,
    nodes: u32,
    constant: &Constant,
    anew: Option<&Value>,
) -> Result<Given, ScenarioError>
    ensures { Gives (λ v. v) (constant_at file.now nodes constant.now (seen anew.entry)) result }
{
    match anew {
        Some(value) => given_anew(alloc, file, nodes, constant.sort, value),
        None => left(alloc, nodes, &constant.value),
    }
}

/// What a constant is that is left as the file says.
fn left(alloc: Global, nodes: u32, given: &Given) -> Result<Given, ScenarioError>
    ensures { Gives (λ v. v) (left nodes given.now) result }
{
    if !is_for(nodes, given) {
        return Err(ScenarioError::OutOfRange(Key::Given));
    }
    match copied(alloc, given) {
        Ok(given) => Ok(given),
        Err(_) => Err(ScenarioError::Memory),
    }
}

/// Whether a list has an item for each node.
fn is_for(nodes: u32, given: &Given) -> bool
    ensures { result ≡ is_for nodes given.now }
{
    match given {
        Given::One(_) => true,
        Given::Each(values) => values.len() == nodes as usize,
    }
}

/// What is given anew for a name, by what is given for all.
fn anew<'a>(given: Option<&'a Value>, name: &str) -> Option<&'a Value>
    ensures { seen result ≡ anew (seen given.entry) name.now }
{
    match given {
        Some(Value::Table(table)) => at(table, name),
        _ => None,
    }
}

/// What all constants are in a scenario, in order, by what is given anew.
fn constants_in(
    alloc: Global,
    file: &ProtocolFile,
    nodes: u32,
    given: Option<&Value>,
) -> Result<Vec<Given>, ScenarioError>
    ensures { Gives (λ vs. vs.items) (constants_in file.now nodes (seen given.entry)) result }
{
    let constants = file.definition().given.as_slice();
    let mut values = Vec::new(alloc);
    'constants: for constant in constants {
        let anew = anew(given, constant.name.as_str());
        let value = constant_at(alloc, file, nodes, constant, anew)?;
        values.push(value).map_err(|_| ScenarioError::Memory)?;
    }
    Ok(values)
}

/// What all constants are, where the value at the key `given` is no table, or one that names something else, it is refused.
fn found_in(
    alloc: Global,
    file: &ProtocolFile,
    nodes: u32,
    given: Option<&Value>,
) -> Result<Vec<Given>, ScenarioError>
    ensures { Gives (λ vs. vs.items) (found_in file.now nodes (seen given.entry)) result }
{
    match given {
        None => constants_in(alloc, file, nodes, given),
        Some(Value::Table(table)) => {
            if !all_declared(file.definition().given.as_slice(), table) {
                return Err(ScenarioError::OtherProtocol(Key::Given));
            }
            constants_in(alloc, file, nodes, given)
        }
        Some(_) => Err(ScenarioError::WrongKind(Key::Given)),
    }
}

/// What all constants are in a scenario.
///
/// It is refused where `given` is no table or names what is no constant, then for the first constant that can't be so, and then where the protocol divides by
/// a constant that is 0. What is read fits: among 2 to 8 nodes the protocol is a machine with it.
#[tactic(auto, unfolding(crate::specs::Constants::given_in))]
pub(crate) fn given_in(
    alloc: Global,
    file: &ProtocolFile,
    nodes: u32,
    table: &Table,
) -> Result<Vec<Given>, ScenarioError>
    ensures value { Gives (λ vs. vs.items) (given_in file.now nodes (table_view table.now)) result }
    ensures fitting { 2 ≤ nodes → nodes ≤ 8 → IfOk result (λ vs. is_machine file.now.definition nodes vs.items ≡ true) }
{
    let given = found_in(alloc, file, nodes, at(table, Key::Given.name()))?;
    if definition_divides(given.as_slice(), file.definition()) {
        return Err(ScenarioError::OutOfRange(Key::Given));
    }
    Ok(given)
}
