//! The names of facts.

ghost use Rattle.std.specs.Prelude.{◌≡◌, ◌++◌, IfOk, string_bytes};
ghost use Rattle.lf_naming.specs.Names.{fact_name, told_name};

use crate::names::{guard_name, push_name, variable_name, word_name};
use lf_rule_machine::{Fact, Told};
use lf_rules::Definition;
use std::alloc::AllocError;

/// Appends the name of a fact: that of what it is about, with `not_` before it where the fact denies it.
///
/// A named guard has its own name, a word and a flag theirs, and the others are `clamped` and `replaced`. The error is that memory has run out, and then the
/// text may have a part of it.
pub fn push_fact(definition: &Definition, fact: Fact, text: &mut String) -> Result<(), AllocError>
    ensures { IfOk result (λ _. string_bytes text.new ≡ string_bytes text.old ++ fact_name definition.now fact) }
{
    push_name(fact.denied, told_name(definition, fact.told), text)
}

/// The name of what a fact is about.
pub(crate) fn told_name(definition: &Definition, told: Told) -> &str
    ensures { result.now ≡ told_name definition.now told }
{
    match told {
        Told::Named(guard) => guard_name(definition, guard),
        Told::Word { variable, word } => word_name(definition, variable, word),
        Told::Flag(variable) => variable_name(definition, variable),
        Told::Clamped => "clamped",
        Told::Replaced => "replaced",
    }
}
