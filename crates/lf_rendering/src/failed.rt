//! Which atoms of an outcome fail.

ghost use Rattle.lf_sim.specs.Settings.{IsRun, world_of};

use crate::entries::differing;
use lf_outcome::{Formula, holds, unfold};
use lf_protocols::{Fact, Protocol};
use lf_sim::{Run, Setting};
use serde::Serialize;
use std::alloc::{AllocError, Global};

/// A point by which an atom of an outcome is false in a run, among what makes the outcome false.
#[derive(Serialize, Drop)]
pub(crate) struct Failed {
    node: u32,
    step: u32,
    /// The fact that isn't shown there; nothing where the node was to be down, or enters what differs.
    shows: Option<String>,
    /// The number of the topic under which it enters a key's value there that differs from another.
    #[serde(skip_serializing_if = "Option::is_none")]
    one_value: Option<u8>,
}

/// Where the atoms are gathered.
#[derive(Drop)]
struct Gathering<'a> {
    alloc: Global,
    setting: &'a Setting<Protocol>,
    run: &'a Run<Protocol>,
}

/// The atoms that make the formula false, in its order: of each part that is false its own, and of one value for each key each point whose entry has the key
/// of another one, and another value. None where the formula is true.
pub(crate) fn failed_atoms(
    alloc: Global,
    setting: &Setting<Protocol>,
    formula: &Formula<Fact>,
    run: &Run<Protocol>,
) -> Result<Vec<Failed>, AllocError>
    requires { IsRun (world_of setting.now) run.now }
{
    let gathering = Gathering {
        alloc,
        setting,
        run,
    };
    let mut failed = Vec::new(alloc);
    gathering.gather(&unfold(alloc, formula)?, &mut failed)?;
    Ok(failed)
}

impl Gathering<'_> {
    /// Adds the atoms that make the formula false, where it is. There is no Over in it: it is unfolded.
    #[cycle(gather)]
    fn gather(&self, formula: &Formula<Fact>, failed: &mut Vec<Failed>) -> Result<(), AllocError>
        requires { IsRun (world_of self.now.setting.now) self.now.run.now }
    {
        if holds(self.setting, formula, self.run) {
            return Ok(());
        }
        match formula {
            Formula::All(parts) | Formula::Any(parts) => self.gather_all(parts.as_slice(), failed),
            Formula::Down { node, step } => put(*node, *step, None, None, failed),
            Formula::Shows { node, step, fact } => {
                put(*node, *step, Some(self.fact_text(*fact)?), None, failed)
            }
            Formula::One { nodes, last, topic } => self.gather_one(*nodes, *last, *topic, failed),
            Formula::Over { .. } => Ok(()),
        }
    }

    /// The same of each part.
    #[cycle(gather)]
    fn gather_all(
        &self,
        parts: &[Formula<Fact>],
        failed: &mut Vec<Failed>,
    ) -> Result<(), AllocError>
        requires { IsRun (world_of self.now.setting.now) self.now.run.now }
    {
        for part in parts {
            self.gather(part, failed)?;
        }
        Ok(())
    }

    /// Adds the points up to a last step at which so many nodes enter different values for one key under a topic.
    fn gather_one(
        &self,
        nodes: u32,
        last: u32,
        topic: u8,
        failed: &mut Vec<Failed>,
    ) -> Result<(), AllocError>
        requires { IsRun (world_of self.now.setting.now) self.now.run.now }
    {
        let points = differing(self.alloc, self.setting, self.run, nodes, last, topic)?;
        for point in points.as_slice() {
            put(point.node, point.step, None, Some(topic), failed)?;
        }
        Ok(())
    }

    /// The name of a fact.
    fn fact_text(&self, fact: Fact) -> Result<String, AllocError> {
        let mut text = String::new(self.alloc);
        self.setting.machine.push_fact(fact, &mut text)?;
        Ok(text)
    }
}

/// Adds an atom.
fn put(
    node: u32,
    step: u32,
    shows: Option<String>,
    one_value: Option<u8>,
    failed: &mut Vec<Failed>,
) -> Result<(), AllocError> {
    failed.push(Failed {
        node,
        step,
        shows,
        one_value,
    })?;
    Ok(())
}
