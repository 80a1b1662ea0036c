//! Where a run first differs from another.

ghost use Rattle.std.specs.Prelude.{◌≡◌, ◌≤◌, IfOk, string_bytes};
ghost use Rattle.lf_sim.specs.Settings.{IsRun, set_of, world_of};
ghost use Rattle.lf_trace.specs.First.{first_difference, first_lines, first_pair};

use crate::Worded;
use crate::runs::Comparing;
use crate::titled::push_titled;
use lf_sim::{Run, Setting};
use std::alloc::{AllocError, Global};

/// The first point at which the nodes of two runs of this setting differ, as `beside` tells it: the number of the first step after which a node's words
/// differ, and the lines of the first such node. It is empty where no node's words ever differ.
///
/// The error is that memory has run out.
pub fn first_difference<M: Worded>(
    alloc: Global,
    setting: &Setting<M>,
    run: &Run<M>,
    other: &Run<M>,
) -> Result<String, AllocError>
    requires run { IsRun (world_of setting.now) run.now }
    requires other { IsRun (world_of setting.now) other.now }
    ensures { IfOk result (λ text. string_bytes text
        ≡ first_difference (M.words setting.now.machine) (world_of setting.now) (set_of other.now) (set_of run.now)) }
{
    let comparing = Comparing {
        alloc,
        setting,
        run,
        other,
    };
    'steps: for past in 0..run.horizon() {
        let lines = comparing.first_lines(past + 1)?;
        if !lines.as_str().is_empty() {
            return Ok(lines);
        }
    }
    Ok(String::new(alloc))
}

impl<M: Worded> Comparing<'_, M> {
    /// The lines of the first node whose words differ after a step, under the number of the step. Empty where none's do.
    fn first_lines(&self, number: u32) -> Result<String, AllocError>
        requires run { IsRun (world_of self.now.setting.now) self.now.run.now }
        requires other { IsRun (world_of self.now.setting.now) self.now.other.now }
        requires first { 1 ≤ number }
        requires last { number ≤ (world_of self.now.setting.now).horizon }
        ensures { IfOk result (λ text. string_bytes text
            ≡ first_lines (M.words self.now.setting.now.machine) (world_of self.now.setting.now) (set_of self.now.other.now) (set_of self.now.run.now) number) }
    {
        let pair = self.first_pair(number)?;
        let mut text = String::new(self.alloc);
        push_titled(number, pair.as_str(), &mut text)?;
        Ok(text)
    }

    /// The lines of the first node whose words differ after a step. Empty where none's do.
    fn first_pair(&self, number: u32) -> Result<String, AllocError>
        requires run { IsRun (world_of self.now.setting.now) self.now.run.now }
        requires other { IsRun (world_of self.now.setting.now) self.now.other.now }
        requires first { 1 ≤ number }
        requires last { number ≤ (world_of self.now.setting.now).horizon }
        ensures { IfOk result (λ text. string_bytes text
            ≡ first_pair (M.words self.now.setting.now.machine) (world_of self.now.setting.now) (set_of self.now.other.now) (set_of self.now.run.now) number) }
    {
        'nodes: for node in 0..self.run.nodes() {
            let mut lines = String::new(self.alloc);
            self.push_node(number, node, &mut lines)?;
            if !lines.as_str().is_empty() {
                return Ok(lines);
            }
        }
        Ok(String::new(self.alloc))
    }
}
