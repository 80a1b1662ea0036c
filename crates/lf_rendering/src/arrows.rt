//! Notes as arrows.

ghost use Rattle.std.specs.Prelude.{◌≢◌, ◌<◌, ◌≤◌};
ghost use Rattle.lf_sim.specs.Settings.{IsRun, world_of};

use crate::layout::{Layout, Place};
use crate::style::{Look, close};
use lf_sim::{Machine, Run, Setting};
use std::alloc::AllocError;

/// The notes of a run, to be drawn.
#[derive(Drop)]
pub(crate) struct Arrows<'a, M: Machine> {
    pub(crate) setting: &'a Setting<M>,
    pub(crate) run: &'a Run<M>,
    pub(crate) layout: Layout,
}

/// How a note is drawn.
#[derive(Clone, Copy)]
struct Arrow {
    look: Look,
    start: Place,
    end: Place,
}

impl<M: Machine> Arrows<'_, M> {
    /// Adds all arrows, those that need a look last.
    pub(crate) fn push(&self, text: &mut String) -> Result<(), AllocError>
        requires { IsRun (world_of self.now.setting.now) self.now.run.now }
    {
        self.push_all(Look::Sent, text)?;
        self.push_all(Look::Late, text)?;
        self.push_all(Look::Gone, text)?;
        self.push_all(Look::Cut, text)
    }

    /// Adds all arrows of a look.
    fn push_all(&self, look: Look, text: &mut String) -> Result<(), AllocError>
        requires { IsRun (world_of self.now.setting.now) self.now.run.now }
    {
        look.open(text)?;
        for past in 0..self.run.horizon() {
            self.push_step(look, past + 1, text)?;
        }
        close(text)
    }

    /// Adds those of the notes that are sent at a step.
    fn push_step(&self, look: Look, step: u32, text: &mut String) -> Result<(), AllocError>
        requires run { IsRun (world_of self.now.setting.now) self.now.run.now }
        requires first { 1 ≤ step }
        requires last { step ≤ (world_of self.now.setting.now).horizon }
    {
        for from in 0..self.run.nodes() {
            self.push_sender(look, from, step, text)?;
        }
        Ok(())
    }

    /// Adds those of a sender.
    fn push_sender(
        &self,
        look: Look,
        from: u32,
        step: u32,
        text: &mut String,
    ) -> Result<(), AllocError>
        requires run { IsRun (world_of self.now.setting.now) self.now.run.now }
        requires from { from < (world_of self.now.setting.now).rules.nodes }
        requires first { 1 ≤ step }
        requires last { step ≤ (world_of self.now.setting.now).horizon }
    {
        for to in 0..self.run.nodes() {
            if from != to && self.run.sent(from, to, step).is_some() {
                let arrow = self.arrow(from, to, step);
                if arrow.look == look {
                    push_arrow(arrow, text)?;
                }
            }
        }
        Ok(())
    }

    /// That of a note.
    fn arrow(&self, from: u32, to: u32, step: u32) -> Arrow
        requires run { IsRun (world_of self.now.setting.now) self.now.run.now }
        requires from { from < (world_of self.now.setting.now).rules.nodes }
        requires to { to < (world_of self.now.setting.now).rules.nodes }
        requires apart { from ≢ to }
        requires first { 1 ≤ step }
        requires last { step ≤ (world_of self.now.setting.now).horizon }
    {
        let arrival = self.setting.network.arrival(from, to, step);
        let start = self.layout.place(from, step);
        let end = self.layout.place(to, arrival);
        let (look, end) = if self.run.set().omits(from, to, step) {
            (Look::Cut, start.towards(end, 2, 5))
        } else if arrival > self.run.horizon() {
            let down = self.layout.floor().saturating_sub(start.y);
            let way = end.y.saturating_sub(start.y);
            (Look::Late, start.towards(end, down, way))
        } else if self.run.up(to, arrival) {
            (Look::Sent, end)
        } else {
            (Look::Gone, end)
        };
        Arrow { look, start, end }
    }
}

/// Adds an arrow, and its cross where it has one.
fn push_arrow(arrow: Arrow, text: &mut String) -> Result<(), AllocError> {
    let Arrow { look, start, end } = arrow;
    write!(
        text,
        "<path d='M{} {}L{} {}",
        start.x, start.y, end.x, end.y
    )?;
    text.push_str(if look == Look::Cut {
        "m-5 -5l10 10m0 -10l-10 10'/>\n"
    } else {
        "'/>\n"
    })
}
