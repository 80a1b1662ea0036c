//! What the text of an outcome may name.

ghost use Rattle.std.specs.Prelude.{◌≡◌, ◌∷◌, ◌++◌, [], IfOk};
ghost use Rattle.lf_own_scenario.specs.Outcomes.{told_in, with_values};

use crate::copying::{copied, copied_facts, copied_lets, copied_name, copied_variables};
use lf_list::Listed;
use lf_rules::{Constant, Definition, Given};
use std::alloc::{AllocError, Global};

/// What the text of an outcome may name of a protocol: its variables, its named expressions and guards, and its constants, which are what they are in the
/// scenario.
pub(crate) fn told_in(
    alloc: Global,
    definition: &Definition,
    given: &[Given],
) -> Result<Definition, AllocError>
    ensures { IfOk result (λ told. told ≡ told_in definition.now given.now) }
{
    let mut constants = Vec::new(alloc);
    put_values(alloc, definition.given.as_slice(), given, &mut constants)?;
    let variables = copied_variables(alloc, definition.variables.as_slice())?;
    let lets = copied_lets(alloc, definition.lets.as_slice())?;
    let facts = copied_facts(alloc, definition.facts.as_slice())?;
    Ok(Definition {
        variables,
        notes: Listed::from_vec(Vec::new(alloc)),
        given: Listed::from_vec(constants),
        lets,
        facts,
        chains: Listed::from_vec(Vec::new(alloc)),
        trace: Listed::from_vec(Vec::new(alloc)),
    })
}

/// Puts constants with these values behind others.
fn put_values(
    alloc: Global,
    constants: &[Constant],
    given: &[Given],
    put: &mut Vec<Constant>,
) -> Result<(), AllocError>
    ensures { IfOk result (λ _. put.new.items ≡ put.old.items ++ with_values constants.now given.now) }
{
    match constants {
        [] => Ok(()),
        [constant, constants @ ..] => match given {
            [] => Ok(()),
            [value, given @ ..] => {
                put_value(alloc, constant, value, put)?;
                put_values(alloc, constants, given, put)
            }
        },
    }
}

/// Puts a constant with this value behind others.
fn put_value(
    alloc: Global,
    constant: &Constant,
    value: &Given,
    put: &mut Vec<Constant>,
) -> Result<(), AllocError>
    ensures { IfOk result (λ _. put.new.items ≡ put.old.items ++ with_values (constant.now ∷ []) (value.now ∷ [])) }
{
    let name = copied_name(alloc, &constant.name)?;
    let value = copied(alloc, value)?;
    match put.push(Constant {
        name,
        sort: constant.sort,
        value,
    }) {
        Ok(()) => Ok(()),
        Err(_) => Err(AllocError),
    }
}
