//! The text of a packet.

ghost use Rattle.std.specs.Prelude.{◌≡◌, ◌++◌, IfOk, string_bytes};
ghost use Rattle.lf_naming.specs.Pieces.{pieces_behind};
ghost use Rattle.lf_naming.specs.Texts.{notes_text, packet_text, note_text};
ghost use Rattle.lf_rule_machine.specs.States.{notes_in};

use crate::note::push_note;
use lf_rule_machine::{Note, Packet};
use lf_rules::Definition;
use std::alloc::AllocError;

/// Appends the text of a packet in a trace: the texts of its notes, in order, with `+` between.
///
/// The error is that memory has run out, and then the text may have a part of it.
pub fn push_packet(
    definition: &Definition,
    packet: &Packet,
    text: &mut String,
) -> Result<(), AllocError>
    ensures { IfOk result (λ _. string_bytes text.new ≡ string_bytes text.old ++ packet_text definition.now packet.now) }
{
    push_first(definition, &packet.notes, text)
}

/// Appends the texts of notes, with `+` between.
fn push_first(
    definition: &Definition,
    notes: &[Option<Note>],
    text: &mut String,
) -> Result<(), AllocError>
    ensures { IfOk result (λ _. string_bytes text.new ≡ string_bytes text.old ++ notes_text definition.now notes.now) }
{
    match notes {
        [] => Ok(()),
        [None, notes @ ..] => push_first(definition, notes, text),
        [Some(note), notes @ ..] => {
            push_note(definition, note, text)?;
            push_behind(definition, notes, text)
        }
    }
}

/// Appends the texts of notes behind another one, each with `+` before it.
fn push_behind(
    definition: &Definition,
    notes: &[Option<Note>],
    text: &mut String,
) -> Result<(), AllocError>
    ensures { IfOk result (λ _. string_bytes text.new ≡ string_bytes text.old
        ++ pieces_behind 43 (note_text definition.now) (notes_in notes.now)) }
{
    match notes {
        [] => Ok(()),
        [None, notes @ ..] => push_behind(definition, notes, text),
        [Some(note), notes @ ..] => {
            text.push('+')?;
            push_note(definition, note, text)?;
            push_behind(definition, notes, text)
        }
    }
}
