//! What changes from step to step.

ghost use Rattle.std.specs.Prelude.{◌≡◌, ◌+◌, ◌++◌, ◌<◌, ◌≤◌, IfOk, string_bytes};
ghost use Rattle.lf_sim.specs.Settings.{IsRun, set_of, world_of};
ghost use Rattle.lf_trace.specs.Traces.{note_lines};
ghost use Rattle.lf_trace.specs.Changes.{changed_line, changed_lines, changed_nodes, changes_by, standing_after, step_changes};

use crate::titled::push_titled;
use crate::{Step, Worded, end_word};
use lf_outcome::Formula;
use lf_sim::{Run, Setting};
use std::alloc::{AllocError, Global};

/// A run of a setting.
#[derive(Clone, Copy)]
struct Telling<'a, M: Worded> {
    alloc: Global,
    setting: &'a Setting<M>,
    run: &'a Run<M>,
}

/// What changes in a run of this setting: the lines of its trace without those of nodes that have the same words as after the step before, or, at step 1,
/// before it; a step of which nothing is left has no line. The last line is `reaches` or `misses`, as in the trace.
///
/// The error is that memory has run out.
pub fn changes<M: Worded>(
    alloc: Global,
    setting: &Setting<M>,
    formula: &Formula<M::Fact>,
    run: &Run<M>,
) -> Result<String, AllocError>
    requires { IsRun (world_of setting.now) run.now }
    ensures { IfOk result (λ text.
        string_bytes text ≡ changes_by (M.words setting.now.machine) (world_of setting.now) (set_of run.now) formula.now) }
{
    let telling = Telling {
        alloc,
        setting,
        run,
    };
    let mut text = String::new(alloc);
    'steps: for past in 0..run.horizon() {
        telling.push_step(past, &mut text)?;
    }
    writeln!(text, "{}", end_word(setting, formula, run))?;
    Ok(text)
}

impl<M: Worded> Telling<'_, M> {
    /// Adds what changes at the step after `past`.
    fn push_step(&self, past: u32, text: &mut String) -> Result<(), AllocError>
        requires run { IsRun (world_of self.now.setting.now) self.now.run.now }
        requires past { past < (world_of self.now.setting.now).horizon }
        ensures { IfOk result (λ _. string_bytes text.new ≡ string_bytes text.old
            ++ step_changes (M.words self.now.setting.now.machine) (world_of self.now.setting.now) (set_of self.now.run.now) past) }
    {
        let mut lines = String::new(self.alloc);
        self.push_nodes(past, &mut lines)?;
        self.push_notes(past, &mut lines)?;
        push_titled(past + 1, lines.as_str(), text)
    }

    /// Adds the lines of the notes that are sent at the step after `past`.
    fn push_notes(&self, past: u32, text: &mut String) -> Result<(), AllocError>
        requires run { IsRun (world_of self.now.setting.now) self.now.run.now }
        requires past { past < (world_of self.now.setting.now).horizon }
        ensures { IfOk result (λ _. string_bytes text.new ≡ string_bytes text.old
            ++ note_lines (M.words self.now.setting.now.machine) (world_of self.now.setting.now) (set_of self.now.run.now) (past + 1)) }
    {
        Step::new(self.setting, self.run, past + 1).push_notes(text)
    }

    /// Adds the lines of the nodes that change at the step after `past`.
    fn push_nodes(&self, past: u32, text: &mut String) -> Result<(), AllocError>
        requires run { IsRun (world_of self.now.setting.now) self.now.run.now }
        requires past { past < (world_of self.now.setting.now).horizon }
        ensures { IfOk result (λ _. string_bytes text.new ≡ string_bytes text.old
            ++ changed_nodes (M.words self.now.setting.now.machine) (world_of self.now.setting.now) (set_of self.now.run.now) past) }
    {
        'nodes: for node in 0..self.run.nodes() {
            self.push_node(past, node, text)?;
        }
        Ok(())
    }

    /// Adds the line of a node, where it changes at the step after `past`.
    fn push_node(&self, past: u32, node: u32, text: &mut String) -> Result<(), AllocError>
        requires run { IsRun (world_of self.now.setting.now) self.now.run.now }
        requires past { past < (world_of self.now.setting.now).horizon }
        requires node { node < (world_of self.now.setting.now).rules.nodes }
        ensures { IfOk result (λ _. string_bytes text.new ≡ string_bytes text.old
            ++ changed_line (M.words self.now.setting.now.machine) (world_of self.now.setting.now) (set_of self.now.run.now) past node) }
    {
        let before = self.words(past, node)?;
        let words = self.words(past + 1, node)?;
        if before.as_str() == words.as_str() {
            Ok(())
        } else {
            Step::new(self.setting, self.run, past + 1).push_node(node, text)
        }
    }

    /// A node's words after a step, or before the first.
    fn words(&self, step: u32, node: u32) -> Result<String, AllocError>
        requires run { IsRun (world_of self.now.setting.now) self.now.run.now }
        requires step { step ≤ (world_of self.now.setting.now).horizon }
        requires node { node < (world_of self.now.setting.now).rules.nodes }
        ensures { IfOk result (λ words. string_bytes words
            ≡ standing_after (M.words self.now.setting.now.machine) (world_of self.now.setting.now) (set_of self.now.run.now) step node) }
    {
        let mut words = String::new(self.alloc);
        if step == 0 {
            let state = self.run.state(node, 0);
            self.setting.machine.push_state(&state, &mut words)?;
        } else {
            Step::new(self.setting, self.run, step).push_standing(node, &mut words)?;
        }
        Ok(words)
    }
}
