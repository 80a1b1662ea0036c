//! The words of what a machine shows.

ghost use Rattle.std.specs.Prelude.{◌≡◌, ◌++◌, IfOk, string_bytes};
ghost use Rattle.lf_trace.specs.Words.{Words};

use lf_protocols::{Note, Protocol, State};
use lf_sim::Machine;
use std::alloc::AllocError;

/// A machine whose states and notes have words, by which a trace tells them.
///
/// They should hold no line feed: a trace has a line for each state and for each note.
pub trait Worded: Machine {
    /// What the methods write.
    ghost words: { Self → Words Self.State Self.Note };

    /// Adds the words of a state to a text. The error is that memory has run out, and then the text may have a part of them.
    fn push_state(&self, state: &Self::State, text: &mut String) -> Result<(), AllocError>
        ensures { IfOk result (λ _. string_bytes text.new ≡ string_bytes text.old ++ (words self.now).state state.now) };

    /// Adds the words of a note to a text. The error is that memory has run out, and then the text may have a part of them.
    fn push_note(&self, note: &Self::Note, text: &mut String) -> Result<(), AllocError>
        ensures { IfOk result (λ _. string_bytes text.new ≡ string_bytes text.old ++ (words self.now).note note.now) };
}

impl Worded for Protocol {
    ghost use Rattle.lf_trace.specs.Words.{words_of};

    ghost words = { words_of };

    fn push_state(&self, state: &State, text: &mut String) -> Result<(), AllocError> {
        self.push_state(state, text)
    }

    fn push_note(&self, note: &Note, text: &mut String) -> Result<(), AllocError> {
        self.push_note(note, text)
    }
}
