//! The fact with a name.

ghost use Rattle.std.specs.Prelude.{◌≡◌, ◌≢◌, All, Contains, IfNone, IfSome, IsTrue, ◌↔◌, true, find, min, slice_get};
ghost use Rattle.lf_naming.specs.Names.{fact_name, not_if};
ghost use Rattle.lf_naming.specs.Facts.{both, fact_named, facts_of, flag_facts, guard_facts, has_name, own_flag, own_words, word_facts};

use crate::fact::told_name;
use crate::names::variable_at;
use lf_rule_machine::{Fact, Told};
use lf_rules::{Definition, Kind};

/// The fact with this name. None where there is none.
///
/// These are a definition's facts: each named guard, each word of each variable that is no table, each such variable that is a flag, that a value was clamped,
/// and that a note was replaced, each of them followed by its denial. Where several have the name it is the first of them. A guard, a variable or a word past
/// number 255 has none.
pub fn fact_named(definition: &Definition, word: &str) -> Option<Fact>
    ensures value { result ≡ fact_named definition.now word.now }
    ensures some { IfSome result (λ fact. Contains (facts_of definition.now) fact × (fact_name definition.now fact ≡ word.now)) }
    ensures none { IfNone result (All (λ fact. fact_name definition.now fact ≢ word.now) (facts_of definition.now)) }
{
    first_named(definition, word)
}

/// The first of a definition's facts that has a name.
fn first_named(definition: &Definition, word: &str) -> Option<Fact>
    ensures { result ≡ fact_named definition.now word.now }
{
    if let Some(guard) = guard_named(definition, word) {
        return Some(guard);
    }
    if let Some(own) = word_named(definition, word) {
        return Some(own);
    }
    if let Some(flag) = flag_named(definition, word) {
        return Some(flag);
    }
    if let Some(clamped) = told_named(definition, Told::Clamped, word) {
        return Some(clamped);
    }
    told_named(definition, Told::Replaced, word)
}

/// The fact of a named guard.
fn guard_named(definition: &Definition, word: &str) -> Option<Fact>
    ensures { result ≡ find (has_name definition.now word.now) (guard_facts definition.now) }
{
    'guards: for guard in 0..numbers(definition.facts.len()) {
        if let Some(fact) = told_named(definition, Told::Named(guard as u8), word) {
            return Some(fact);
        }
    }
    None
}

/// The fact of a word of any variable.
fn word_named(definition: &Definition, word: &str) -> Option<Fact>
    ensures { result ≡ find (has_name definition.now word.now) (word_facts definition.now) }
{
    'variables: for variable in 0..numbers(definition.variables.len()) {
        if let Some(fact) = own_word_named(definition, variable as u8, word) {
            return Some(fact);
        }
    }
    None
}

/// The fact of a word of a variable that is no table.
fn own_word_named(definition: &Definition, variable: u8, word: &str) -> Option<Fact>
    ensures { result ≡ find (has_name definition.now word.now) (own_words variable (slice_get definition.now.variables variable)) }
{
    let found = variable_at(definition, variable)?;
    if !found.cells.is_one() {
        return None;
    }
    'words: for own in 0..numbers(found.words.len()) {
        let told = Told::Word {
            variable,
            word: own as u8,
        };
        if let Some(fact) = told_named(definition, told, word) {
            return Some(fact);
        }
    }
    None
}

/// The fact of a variable that is a flag.
fn flag_named(definition: &Definition, word: &str) -> Option<Fact>
    ensures { result ≡ find (has_name definition.now word.now) (flag_facts definition.now) }
{
    'variables: for variable in 0..numbers(definition.variables.len()) {
        if let Some(fact) = own_flag_named(definition, variable as u8, word) {
            return Some(fact);
        }
    }
    None
}

/// The fact of a variable, where it is a flag and no table.
fn own_flag_named(definition: &Definition, variable: u8, word: &str) -> Option<Fact>
    ensures { result ≡ find (has_name definition.now word.now) (own_flag variable (slice_get definition.now.variables variable)) }
{
    let named = variable_at(definition, variable)?;
    if !named.cells.is_one() {
        return None;
    }
    match named.kind {
        Kind::Flag => told_named(definition, Told::Flag(variable), word),
        _ => None,
    }
}

/// How many of so many items have a number.
fn numbers(count: usize) -> usize
    ensures { result ≡ min count 256 }
{
    count.min(256)
}

/// Of a fact and its denial the one with this name.
fn told_named(definition: &Definition, told: Told, word: &str) -> Option<Fact>
    ensures { result ≡ find (has_name definition.now word.now) (both told) }
{
    let name = told_name(definition, told);
    if word == name {
        return Some(Fact {
            told,
            denied: false,
        });
    }
    if is_denial(word, name) {
        return Some(Fact { told, denied: true });
    }
    None
}

/// Whether a word is `not_` and a name.
fn is_denial(word: &str, name: &str) -> bool
    ensures { IsTrue result ↔ (word.now ≡ not_if true name.now) }
{
    match word.strip_prefix("not_") {
        Some(rest) => rest == name,
        None => false,
    }
}
