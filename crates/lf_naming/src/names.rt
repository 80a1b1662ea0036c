//! The names that stand in a definition.

ghost use Rattle.std.specs.Prelude.{◌≡◌, ◌++◌, IfOk, slice_get, string_bytes};
ghost use Rattle.std.specs.Option.{option_copied};
ghost use Rattle.lf_naming.specs.Names.{guard_name, not_if, or_nothing, variable_name, word_name};

use lf_rules::{Definition, Name, Variable};
use std::alloc::AllocError;

/// The name of a guard.
pub(crate) fn guard_name(definition: &Definition, guard: u8) -> &str
    ensures { result.now ≡ guard_name (slice_get definition.now.facts guard) }
{
    match definition.facts.as_slice().get(usize::from(guard)) {
        Some(guard) => guard.name.as_str(),
        None => "",
    }
}

/// The variable with a number.
pub(crate) fn variable_at(definition: &Definition, variable: u8) -> Option<&Variable>
    ensures { option_copied result ≡ slice_get definition.now.variables variable }
{
    definition.variables.as_slice().get(usize::from(variable))
}

/// The name of a variable.
pub(crate) fn variable_name(definition: &Definition, variable: u8) -> &str
    ensures { result.now ≡ variable_name (slice_get definition.now.variables variable) }
{
    match variable_at(definition, variable) {
        Some(variable) => variable.name.as_str(),
        None => "",
    }
}

/// A word of a variable.
pub(crate) fn word_name(definition: &Definition, variable: u8, word: u8) -> &str
    ensures { result.now ≡ word_name (slice_get definition.now.variables variable) word }
{
    match variable_at(definition, variable) {
        Some(variable) => name_at(variable.words.as_slice(), word),
        None => "",
    }
}

/// The name with a number, of several.
pub(crate) fn name_at(names: &[Name], number: u8) -> &str
    ensures { result.now ≡ or_nothing (slice_get names.now number) }
{
    match names.get(usize::from(number)) {
        Some(name) => name.as_str(),
        None => "",
    }
}

/// Appends a name, with `not_` before it where it is denied.
pub(crate) fn push_name(denied: bool, name: &str, text: &mut String) -> Result<(), AllocError>
    ensures { IfOk result (λ _. string_bytes text.new ≡ string_bytes text.old ++ not_if denied name.now) }
{
    if denied {
        text.push_str("not_")?;
    }
    text.push_str(name)
}
