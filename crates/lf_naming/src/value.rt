//! The texts of values.

ghost use Rattle.std.specs.Prelude.{◌≡◌, ◌++◌, ◌<◌, IfOk, string_bytes};
ghost use Rattle.lf_naming.specs.Texts.{members_text, set_text, truth_text, value_text};
ghost use Rattle.lf_naming.specs.Pieces.{before_piece};

use crate::names::word_name;
use lf_rule_machine::sets;
use lf_rules::{Definition, Kind};
use std::alloc::AllocError;

/// Appends a value of a kind: a number in decimal digits, a word, `true` or `false`, or a set of nodes.
pub(crate) fn push_value(
    definition: &Definition,
    kind: Kind,
    value: u8,
    text: &mut String,
) -> Result<(), AllocError>
    ensures { IfOk result (λ _. string_bytes text.new ≡ string_bytes text.old ++ value_text definition.now kind value) }
{
    match kind {
        Kind::Flag => text.push_str(truth_word(value != 0)),
        Kind::Nodes => push_set(value, text),
        Kind::UpTo(_) => write!(text, "{value}"),
        Kind::Word { of, .. } => text.push_str(word_name(definition, of, value)),
    }
}

/// The word of a truth value.
fn truth_word(so: bool) -> &'static str
    ensures { result.now ≡ truth_text so }
{
    if so { "true" } else { "false" }
}

/// Appends a set of nodes, as `{0,2}`.
fn push_set(set: u8, text: &mut String) -> Result<(), AllocError>
    ensures { IfOk result (λ _. string_bytes text.new ≡ string_bytes text.old ++ set_text set) }
{
    text.push('{')?;
    push_members(set, text)?;
    text.push('}')
}

/// Appends the nodes of a set, ascending, with commas between.
fn push_members(set: u8, text: &mut String) -> Result<(), AllocError>
    ensures { IfOk result (λ _. string_bytes text.new ≡ string_bytes text.old ++ members_text set) }
{
    let mut place = 0;
    'nodes: for node in 0..8 {
        if sets::has(u64::from(set), node) {
            push_separator(place, ',', text)?;
            write!(text, "{node}")?;
            place += 1;
        }
    }
    Ok(())
}

/// Appends what stands before the piece with this place, from 0 on, of several: a separator before each but the first.
pub(crate) fn push_separator(
    place: usize,
    separator: char,
    text: &mut String,
) -> Result<(), AllocError>
    requires { separator < 128 }
    ensures { IfOk result (λ _. string_bytes text.new ≡ string_bytes text.old ++ before_piece separator place) }
{
    if place == 0 {
        return Ok(());
    }
    text.push(separator)
}
