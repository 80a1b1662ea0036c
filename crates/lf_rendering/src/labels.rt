//! What nodes say: the words of the notes that each sends at a step, beside the point.

ghost use Rattle.std.specs.Prelude.{◌<◌, ◌≤◌};
ghost use Rattle.lf_sim.specs.Settings.{horizon_of, nodes_of};

use crate::escape::push_label;
use crate::layout::Layout;
use lf_sim::{Run, Setting};
use lf_trace::Worded;
use std::alloc::{AllocError, Global};

/// The notes that a node sends at a step, to be told.
#[derive(Drop)]
pub(crate) struct Saying<'a, M: Worded> {
    pub(crate) setting: &'a Setting<M>,
    pub(crate) run: &'a Run<M>,
    pub(crate) from: u32,
    pub(crate) step: u32,
    ghost sender: { from < nodes_of run.now },
    ghost last: { step ≤ horizon_of run.now },
}

impl<M: Worded> Saying<'_, M> {
    /// Adds the label, where the node sends anything.
    pub(crate) fn push(
        &self,
        alloc: Global,
        layout: Layout,
        text: &mut String,
    ) -> Result<(), AllocError> {
        let words = self.words(alloc)?;
        if words.is_empty() {
            return Ok(());
        }
        let place = layout.place(self.from, self.step);
        write!(
            text,
            "<text x='{}' y='{}'>",
            place.x.saturating_add(9),
            place.y.saturating_add(9)
        )?;
        push_label(words.as_str(), layout.room(), text)?;
        text.push_str("</text>\n")
    }

    /// The words of all notes, each once, behind it the receivers where not all others get it; empty where there is none.
    pub(crate) fn words(&self, alloc: Global) -> Result<String, AllocError> {
        let mut words = String::new(alloc);
        for to in 0..self.run.nodes() {
            if self.is_first(alloc, to)? {
                self.push_note(alloc, to, &mut words)?;
            }
        }
        Ok(words)
    }

    /// Adds the words of the note to a receiver, and who gets the same.
    fn push_note(&self, alloc: Global, to: u32, words: &mut String) -> Result<(), AllocError> {
        if !words.is_empty() {
            words.push_str("; ")?;
        }
        let note = self.words_to(alloc, to)?;
        words.push_str(note.as_str())?;
        let receivers = self.receivers(alloc, note.as_str())?;
        if receivers.len().saturating_add(1) < self.run.nodes() as usize {
            push_receivers(receivers.as_slice(), words)?;
        }
        Ok(())
    }

    /// Whether a note is sent to this node, and none with the same words to an earlier one.
    fn is_first(&self, alloc: Global, to: u32) -> Result<bool, AllocError> {
        let words = self.words_to(alloc, to)?;
        if words.is_empty() {
            return Ok(false);
        }
        let receivers = self.receivers(alloc, words.as_str())?;
        Ok(receivers.first() == Some(&to))
    }

    /// Who gets a note with these words, in order.
    fn receivers(&self, alloc: Global, words: &str) -> Result<Vec<u32>, AllocError> {
        let mut receivers = Vec::new(alloc);
        for to in 0..self.run.nodes() {
            if self.words_to(alloc, to)?.as_str() == words {
                receivers.push(to)?;
            }
        }
        Ok(receivers)
    }

    /// The words of the note to a receiver; empty where there is none.
    fn words_to(&self, alloc: Global, to: u32) -> Result<String, AllocError> {
        let mut words = String::new(alloc);
        if self.from != to {
            if let Some(note) = self.run.sent(self.from, to, self.step) {
                self.setting.machine.push_note(&note, &mut words)?;
            }
        }
        Ok(words)
    }
}

/// Adds who gets a note.
fn push_receivers(receivers: &[u32], words: &mut String) -> Result<(), AllocError> {
    words.push('>')?;
    for (i, to) in receivers.iter().enumerate() {
        if i > 0 {
            words.push(',')?;
        }
        write!(words, "{to}")?;
    }
    Ok(())
}
