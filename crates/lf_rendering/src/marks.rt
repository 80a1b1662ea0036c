//! At which points an outcome looks.

ghost use Rattle.lf_sim.specs.Settings.{IsRun, world_of};

use crate::entries::{differing, entries};
use lf_outcome::{Formula, first_failing, unfold};
use lf_sim::{Machine, Run, Setting};
use std::alloc::{AllocError, Global};

/// What an outcome makes of a point.
#[derive(Clone, Copy, PartialEq, Eq)]
pub(crate) enum Mark {
    /// It doesn't look there.
    Passed,
    /// It looks there.
    Asked,
    /// It looks there, and by what it finds it is first seen to fail.
    Fails,
}

/// The marks of all points: of up to 8 nodes, and of the steps 0 to 48.
#[derive(Clone, Copy)]
pub(crate) struct Marks {
    marks: [[Mark; 49]; 8],
}

impl Marks {
    /// Those of an outcome in a run of the setting. The error is that memory has run out.
    pub(crate) fn of<M: Machine>(
        alloc: Global,
        setting: &Setting<M>,
        formula: &Formula<M::Fact>,
        run: &Run<M>,
    ) -> Result<Marks, AllocError>
        requires { IsRun (world_of setting.now) run.now }
    {
        let looking = Looking {
            alloc,
            setting,
            run,
        };
        let mut marks = Marks {
            marks: [[Mark::Passed; 49]; 8],
        };
        let unfolded = unfold(alloc, formula)?;
        looking.ask(&unfolded, &mut marks)?;
        if let Some(first) = first_failing(setting, &unfolded, run) {
            looking.blame(&unfolded, first, &mut marks)?;
        }
        Ok(marks)
    }

    /// The mark of a point.
    pub(crate) fn at(&self, node: u32, step: u32) -> Mark {
        match self.marks.get(node as usize) {
            Some(row) => row.get(step as usize).copied().unwrap_or(Mark::Passed),
            None => Mark::Passed,
        }
    }

    /// Marks a point, where there is one.
    fn put(&mut self, node: u32, step: u32, mark: Mark) {
        if let Some(row) = self.marks.get_mut(node as usize) {
            if let Some(place) = row.get_mut(step as usize) {
                *place = mark;
            }
        }
    }
}

/// What is looked at.
#[derive(Drop)]
struct Looking<'a, M: Machine> {
    alloc: Global,
    setting: &'a Setting<M>,
    run: &'a Run<M>,
}

impl<M: Machine> Looking<'_, M> {
    /// Marks all points at which the formula looks: of one value for each key those at which something is entered. There is no Over in it: it is unfolded.
    #[cycle(ask)]
    fn ask(&self, formula: &Formula<M::Fact>, marks: &mut Marks) -> Result<(), AllocError>
        requires { IsRun (world_of self.now.setting.now) self.now.run.now }
    {
        match formula {
            Formula::All(parts) | Formula::Any(parts) => self.ask_all(parts.as_slice(), marks),
            Formula::Down { node, step } | Formula::Shows { node, step, .. } => {
                marks.put(*node, *step, Mark::Asked);
                Ok(())
            }
            Formula::One { nodes, last, topic } => self.ask_one(*nodes, *last, *topic, marks),
            Formula::Over { .. } => Ok(()),
        }
    }

    /// The same of each part.
    #[cycle(ask)]
    fn ask_all(&self, parts: &[Formula<M::Fact>], marks: &mut Marks) -> Result<(), AllocError>
        requires { IsRun (world_of self.now.setting.now) self.now.run.now }
    {
        for part in parts {
            self.ask(part, marks)?;
        }
        Ok(())
    }

    /// Marks the points at which so many nodes enter something under a topic, up to a last step.
    fn ask_one(&self, nodes: u32, last: u32, topic: u8, marks: &mut Marks) -> Result<(), AllocError>
        requires { IsRun (world_of self.now.setting.now) self.now.run.now }
    {
        let entries = entries(self.alloc, self.setting, self.run, nodes, last, topic)?;
        for entered in entries.as_slice() {
            marks.put(entered.point.node, entered.point.step, Mark::Asked);
        }
        Ok(())
    }

    /// Marks the points by which a formula is seen to fail that is first seen so by this step: of an `All` those of the parts that are seen to fail by then,
    /// of an `Any` those of all parts, as all are, and of one value for each key those whose entries have one key and different values by then. There is no
    /// Over in it: it is unfolded.
    #[cycle(blame)]
    fn blame(
        &self,
        formula: &Formula<M::Fact>,
        first: u32,
        marks: &mut Marks,
    ) -> Result<(), AllocError>
        requires { IsRun (world_of self.now.setting.now) self.now.run.now }
    {
        match formula {
            Formula::All(parts) | Formula::Any(parts) => {
                self.blame_all(parts.as_slice(), first, marks)
            }
            Formula::Down { node, step } | Formula::Shows { node, step, .. } => {
                marks.put(*node, *step, Mark::Fails);
                Ok(())
            }
            Formula::One { nodes, last, topic } => {
                self.blame_one(*nodes, (*last).min(first), *topic, marks)
            }
            Formula::Over { .. } => Ok(()),
        }
    }

    /// The same of each part that is seen to fail by this step, by its own first step.
    #[cycle(blame)]
    fn blame_all(
        &self,
        parts: &[Formula<M::Fact>],
        last: u32,
        marks: &mut Marks,
    ) -> Result<(), AllocError>
        requires { IsRun (world_of self.now.setting.now) self.now.run.now }
    {
        for part in parts {
            if let Some(first) = first_failing(self.setting, part, self.run) {
                if first <= last {
                    self.blame(part, first, marks)?;
                }
            }
        }
        Ok(())
    }

    /// Marks the points up to a last step at which so many nodes enter different values for one key under a topic.
    fn blame_one(
        &self,
        nodes: u32,
        last: u32,
        topic: u8,
        marks: &mut Marks,
    ) -> Result<(), AllocError>
        requires { IsRun (world_of self.now.setting.now) self.now.run.now }
    {
        let points = differing(self.alloc, self.setting, self.run, nodes, last, topic)?;
        for point in points.as_slice() {
            marks.put(point.node, point.step, Mark::Fails);
        }
        Ok(())
    }
}
