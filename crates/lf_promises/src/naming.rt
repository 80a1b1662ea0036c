//! Whether a promise names only facts that there are.

ghost use Rattle.std.specs.Prelude.{◌≡◌, slice_get};
ghost use Rattle.std.specs.List.{list_all};
ghost use Rattle.std.specs.Option.{option_copied};
ghost use Rattle.lf_promises.specs.Facts.{has_told, has_word, is_flag, is_flag_kind, is_number, names_facts};

use crate::Promise;
use lf_rule_machine::Told;
use lf_rules::{Definition, Kind, Variable};

/// Whether each fact that a promise names is one of the definition's, denied or not.
///
/// A named guard, a variable and its word are there by their numbers, which are at most 255, and a flag is a variable of that kind. A table is no fact, and
/// its words are none. That a value was clamped or a note replaced is a fact of every definition. What a topic's expressions name isn't looked at: of a promise
/// that is read, `read_promise` says that they are of some sort.
#[cycle(naming)]
pub fn names_facts(definition: &Definition, promise: &Promise) -> bool
    ensures { result ≡ names_facts definition.now promise.now }
{
    match promise {
        Promise::All(parts) | Promise::Any(parts) | Promise::Always(parts) | Promise::Ever(parts) =>
            { all_name_facts(definition, parts.as_slice()) }
        Promise::Nodes { fact, .. } | Promise::At { fact, .. } => has_told(definition, fact.told),
        Promise::Down { .. } | Promise::One(_) => true,
    }
}

/// Whether all parts name only such facts.
#[cycle(naming)]
fn all_name_facts(definition: &Definition, parts: &[Promise]) -> bool
    ensures { result ≡ list_all (names_facts definition.now) parts.now }
{
    'parts: for part in parts {
        if !names_facts(definition, part) {
            return false;
        }
    }
    true
}

/// Whether what a fact is about is there.
fn has_told(definition: &Definition, told: Told) -> bool
    ensures { result ≡ has_told definition.now told }
{
    match told {
        Told::Named(guard) => is_number(guard, definition.facts.len()),
        Told::Word { variable, word } => {
            if !is_number(variable, definition.variables.len()) {
                return false;
            }
            has_word(definition, variable, word)
        }
        Told::Flag(variable) => {
            if !is_number(variable, definition.variables.len()) {
                return false;
            }
            is_flag(definition, variable)
        }
        Told::Clamped | Told::Replaced => true,
    }
}

/// Whether it is the number of one of so many things.
fn is_number(number: u8, count: usize) -> bool
    ensures { result ≡ is_number number count }
{
    usize::from(number) < count.min(256)
}

/// Whether a variable is there, is no table, and has a word with the number.
fn has_word(definition: &Definition, variable: u8, word: u8) -> bool
    ensures { result ≡ has_word (slice_get definition.now.variables variable) word }
{
    match variable_at(definition, variable) {
        Some(variable) => variable.cells.is_one() && is_number(word, variable.words.len()),
        None => false,
    }
}

/// Whether a variable is there, is no table, and is a flag.
fn is_flag(definition: &Definition, variable: u8) -> bool
    ensures { result ≡ is_flag (slice_get definition.now.variables variable) }
{
    match variable_at(definition, variable) {
        Some(variable) => variable.cells.is_one() && is_flag_kind(variable.kind),
        None => false,
    }
}

/// Whether a kind is that of flags.
fn is_flag_kind(kind: Kind) -> bool
    ensures { result ≡ is_flag_kind kind }
{
    match kind {
        Kind::Flag => true,
        _ => false,
    }
}

/// The variable with a number.
fn variable_at(definition: &Definition, variable: u8) -> Option<&Variable>
    ensures { option_copied result ≡ slice_get definition.now.variables variable }
{
    definition.variables.as_slice().get(usize::from(variable))
}
