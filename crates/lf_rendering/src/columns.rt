//! The columns of nodes: when each is down, what it rests on, its states, and the points at which the outcome looks.

ghost use Rattle.std.specs.Prelude.{◌<◌, ◌≤◌};
ghost use Rattle.lf_sim.specs.Settings.{IsRun, horizon_of, nodes_of, world_of};

use crate::escape::push_label;
use crate::layout::Layout;
use crate::marks::{Mark, Marks};
use crate::style::Look;
use lf_outcome::Reach;
use lf_sim::{Run, Setting};
use lf_trace::Worded;
use std::alloc::{AllocError, Global};

/// A node of a run, to be drawn.
#[derive(Drop)]
pub(crate) struct Column<'a, M: Worded> {
    pub(crate) setting: &'a Setting<M>,
    pub(crate) run: &'a Run<M>,
    pub(crate) layout: Layout,
    pub(crate) node: u32,
    ghost inside: { node < nodes_of run.now },
}

impl<M: Worded> Column<'_, M> {
    /// Adds a block beside the steps on which the outcome rests.
    pub(crate) fn push_rest(&self, reach: &Reach, text: &mut String) -> Result<(), AllocError> {
        self.push_block(0, reach.at(self.node), text)
    }

    /// Adds a block beside each step at which the node is down.
    pub(crate) fn push_downs(&self, text: &mut String) -> Result<(), AllocError> {
        for past in 0..self.run.horizon() {
            if !self.run.up(self.node, past + 1) {
                self.push_block(past + 1, past + 1, text)?;
            }
        }
        Ok(())
    }

    /// Adds a block from one step to another.
    fn push_block(&self, first: u32, last: u32, text: &mut String) -> Result<(), AllocError> {
        let half = self.layout.row() / 2;
        let top = self.layout.place(self.node, first);
        let end = self.layout.place(self.node, last);
        writeln!(
            text,
            "<rect x='{}' y='{}' width='{}' height='{}'/>",
            top.x.saturating_sub(14),
            top.y.saturating_sub(half),
            self.layout.pitch().saturating_sub(8),
            end.y
                .saturating_sub(top.y)
                .saturating_add(self.layout.row())
        )
    }

    /// Adds the line of the node's life.
    pub(crate) fn push_life(&self, text: &mut String) -> Result<(), AllocError> {
        let top = self.layout.place(self.node, 0);
        writeln!(
            text,
            "<path d='M{} {}V{}'/>",
            top.x,
            top.y,
            self.layout.floor()
        )
    }

    /// Adds the head of the column.
    pub(crate) fn push_head(&self, text: &mut String) -> Result<(), AllocError> {
        let top = self.layout.place(self.node, 0);
        writeln!(
            text,
            "<text x='{}' y='{}'>node {}</text>",
            top.x,
            top.y.saturating_sub(18),
            self.node
        )
    }

    /// Adds a ring around each point that has this mark.
    pub(crate) fn push_rings(
        &self,
        marks: &Marks,
        mark: Mark,
        text: &mut String,
    ) -> Result<(), AllocError> {
        for step in 0..=self.run.horizon() {
            if marks.at(self.node, step) == mark {
                let place = self.layout.place(self.node, step);
                writeln!(text, "<circle cx='{}' cy='{}' r='6'/>", place.x, place.y)?;
            }
        }
        Ok(())
    }

    /// Adds what has this look of the node's states: each stands where it differs in words from the one before, and where the node stops or goes on.
    pub(crate) fn push_states(
        &self,
        alloc: Global,
        look: Look,
        text: &mut String,
    ) -> Result<(), AllocError> {
        let mut before = String::new(alloc);
        let mut was_down = false;
        for step in 0..=self.run.horizon() {
            let words = self.words_at(alloc, step)?;
            let is_down = self.is_down(step);
            if is_down != was_down || words.as_str() != before.as_str() {
                self.push_state(words.as_str(), step, look, text)?;
                before = words;
                was_down = is_down;
            }
        }
        Ok(())
    }

    /// The words of the node's state after a step, or what has stopped it.
    fn words_at(&self, alloc: Global, step: u32) -> Result<String, AllocError>
        requires { step ≤ horizon_of self.now.run.now }
    {
        let mut words = String::new(alloc);
        if self.is_down(step) {
            words.push_str(if self.run.set().crashes(self.node, step) {
                "crashed"
            } else {
                "paused"
            })?;
        } else {
            let state = self.run.state(self.node, step);
            self.setting.machine.push_state(&state, &mut words)?;
        }
        Ok(words)
    }

    /// Whether the node isn't up at a step; before the first it is.
    fn is_down(&self, step: u32) -> bool {
        step != 0 && !self.run.up(self.node, step)
    }

    /// Adds of a state that begins at a step what has this look: a dot, or its words or their rim.
    fn push_state(
        &self,
        words: &str,
        step: u32,
        look: Look,
        text: &mut String,
    ) -> Result<(), AllocError> {
        let place = self.layout.place(self.node, step);
        if look == Look::Dot {
            writeln!(text, "<circle cx='{}' cy='{}' r='2.5'/>", place.x, place.y)
        } else if look == Look::Rim || (look == Look::Stopped) == self.is_down(step) {
            write!(
                text,
                "<text x='{}' y='{}'>",
                place.x.saturating_add(9),
                place.y.saturating_sub(2)
            )?;
            push_label(words, self.layout.room(), text)?;
            text.push_str("</text>\n")
        } else {
            Ok(())
        }
    }
}
