//! How a run differs from another.

ghost use Rattle.std.specs.Prelude.{◌≡◌, ◌++◌, ◌<◌, ◌≤◌, IfOk, string_bytes, codes};
ghost use Rattle.lf_sim.specs.Settings.{IsRun, set_of, world_of};
ghost use Rattle.lf_trace.specs.Beside.{beside_by, ends, marked, node_pair, node_pairs, pair, sender_pairs, slot_pair, slot_pairs, step_beside};

use crate::titled::push_titled;
use crate::{Step, Worded, end_word};
use lf_outcome::Formula;
use lf_sim::{Run, Setting};
use std::alloc::{AllocError, Global};

/// Two runs of a setting.
#[derive(Clone, Copy)]
pub(crate) struct Comparing<'a, M: Worded> {
    pub(crate) alloc: Global,
    pub(crate) setting: &'a Setting<M>,
    pub(crate) run: &'a Run<M>,
    pub(crate) other: &'a Run<M>,
}

/// The lines in which the traces of two runs of this setting differ, under the numbers of their steps: `- LINE` is one of the other, and `+ LINE` one of the
/// run, which stands behind that of the same node or slot. The last lines are those of the ends, or `= WORD` where both end alike.
///
/// The error is that memory has run out.
pub fn beside<M: Worded>(
    alloc: Global,
    setting: &Setting<M>,
    formula: &Formula<M::Fact>,
    run: &Run<M>,
    other: &Run<M>,
) -> Result<String, AllocError>
    requires run { IsRun (world_of setting.now) run.now }
    requires other { IsRun (world_of setting.now) other.now }
    ensures { IfOk result (λ text. string_bytes text
        ≡ beside_by (M.words setting.now.machine) (world_of setting.now) (set_of other.now) (set_of run.now) formula.now) }
{
    let comparing = Comparing {
        alloc,
        setting,
        run,
        other,
    };
    let mut text = String::new(alloc);
    'steps: for past in 0..run.horizon() {
        comparing.push_step(past + 1, &mut text)?;
    }
    push_ends(
        end_word(setting, formula, other),
        end_word(setting, formula, run),
        &mut text,
    )?;
    Ok(text)
}

/// Adds how the runs end, of the other and of the run.
fn push_ends(other: &str, word: &str, text: &mut String) -> Result<(), AllocError>
    ensures { IfOk result (λ _. string_bytes text.new ≡ string_bytes text.old ++ ends other.now word.now) }
{
    if other == word {
        writeln!(text, "= {word}")
    } else {
        writeln!(text, "- {other}")?;
        writeln!(text, "+ {word}")
    }
}

/// Adds two lines where they differ, that of the other run and that of the run; an empty one is none.
fn push_pair(other: &str, line: &str, text: &mut String) -> Result<(), AllocError>
    ensures { IfOk result (λ _. string_bytes text.new ≡ string_bytes text.old ++ pair other.now line.now) }
{
    if other == line {
        return Ok(());
    }
    push_marked("- ", other, text)?;
    push_marked("+ ", line, text)
}

/// Adds a line behind its mark; an empty one is none.
fn push_marked(mark: &str, line: &str, text: &mut String) -> Result<(), AllocError>
    ensures { IfOk result (λ _. string_bytes text.new ≡ string_bytes text.old ++ marked mark.now line.now) }
{
    if line.is_empty() {
        return Ok(());
    }
    text.push_str(mark)?;
    text.push_str(line)
}

impl<M: Worded> Comparing<'_, M> {
    /// Adds how the runs differ at a step.
    fn push_step(&self, number: u32, text: &mut String) -> Result<(), AllocError>
        requires run { IsRun (world_of self.now.setting.now) self.now.run.now }
        requires other { IsRun (world_of self.now.setting.now) self.now.other.now }
        requires first { 1 ≤ number }
        requires last { number ≤ (world_of self.now.setting.now).horizon }
        ensures { IfOk result (λ _. string_bytes text.new ≡ string_bytes text.old
            ++ step_beside (M.words self.now.setting.now.machine) (world_of self.now.setting.now) (set_of self.now.other.now)
            (set_of self.now.run.now) number) }
    {
        let mut lines = String::new(self.alloc);
        self.push_nodes(number, &mut lines)?;
        self.push_slots(number, &mut lines)?;
        push_titled(number, lines.as_str(), text)
    }

    /// Adds how the nodes differ at a step.
    fn push_nodes(&self, number: u32, text: &mut String) -> Result<(), AllocError>
        requires run { IsRun (world_of self.now.setting.now) self.now.run.now }
        requires other { IsRun (world_of self.now.setting.now) self.now.other.now }
        requires first { 1 ≤ number }
        requires last { number ≤ (world_of self.now.setting.now).horizon }
        ensures { IfOk result (λ _. string_bytes text.new ≡ string_bytes text.old
            ++ node_pairs (M.words self.now.setting.now.machine) (world_of self.now.setting.now) (set_of self.now.other.now) (set_of self.now.run.now) number) }
    {
        'nodes: for node in 0..self.run.nodes() {
            self.push_node(number, node, text)?;
        }
        Ok(())
    }

    /// Adds how a node differs at a step.
    pub(crate) fn push_node(
        &self,
        number: u32,
        node: u32,
        text: &mut String,
    ) -> Result<(), AllocError>
        requires run { IsRun (world_of self.now.setting.now) self.now.run.now }
        requires other { IsRun (world_of self.now.setting.now) self.now.other.now }
        requires first { 1 ≤ number }
        requires last { number ≤ (world_of self.now.setting.now).horizon }
        requires node { node < (world_of self.now.setting.now).rules.nodes }
        ensures { IfOk result (λ _. string_bytes text.new ≡ string_bytes text.old
            ++ node_pair (M.words self.now.setting.now.machine) (world_of self.now.setting.now) (set_of self.now.other.now)
            (set_of self.now.run.now) number node) }
    {
        let mut other = String::new(self.alloc);
        Step::new(self.setting, self.other, number).push_node(node, &mut other)?;
        let mut line = String::new(self.alloc);
        Step::new(self.setting, self.run, number).push_node(node, &mut line)?;
        push_pair(other.as_str(), line.as_str(), text)
    }

    /// Adds how the notes differ that are sent at a step.
    fn push_slots(&self, number: u32, text: &mut String) -> Result<(), AllocError>
        requires run { IsRun (world_of self.now.setting.now) self.now.run.now }
        requires other { IsRun (world_of self.now.setting.now) self.now.other.now }
        requires first { 1 ≤ number }
        requires last { number ≤ (world_of self.now.setting.now).horizon }
        ensures { IfOk result (λ _. string_bytes text.new ≡ string_bytes text.old
            ++ slot_pairs (M.words self.now.setting.now.machine) (world_of self.now.setting.now) (set_of self.now.other.now) (set_of self.now.run.now) number) }
    {
        'senders: for from in 0..self.run.nodes() {
            self.push_slots_of(number, from, text)?;
        }
        Ok(())
    }

    /// Adds how the notes of a sender differ.
    fn push_slots_of(&self, number: u32, from: u32, text: &mut String) -> Result<(), AllocError>
        requires run { IsRun (world_of self.now.setting.now) self.now.run.now }
        requires other { IsRun (world_of self.now.setting.now) self.now.other.now }
        requires first { 1 ≤ number }
        requires last { number ≤ (world_of self.now.setting.now).horizon }
        requires from { from < (world_of self.now.setting.now).rules.nodes }
        ensures { IfOk result (λ _. string_bytes text.new ≡ string_bytes text.old
            ++ sender_pairs (M.words self.now.setting.now.machine) (world_of self.now.setting.now) (set_of self.now.other.now)
            (set_of self.now.run.now) number from) }
    {
        'receivers: for to in 0..self.run.nodes() {
            self.push_slot(number, from, to, text)?;
        }
        Ok(())
    }

    /// Adds how the note of a slot differs.
    pub(crate) fn push_slot(
        &self,
        number: u32,
        from: u32,
        to: u32,
        text: &mut String,
    ) -> Result<(), AllocError>
        requires run { IsRun (world_of self.now.setting.now) self.now.run.now }
        requires other { IsRun (world_of self.now.setting.now) self.now.other.now }
        requires first { 1 ≤ number }
        requires last { number ≤ (world_of self.now.setting.now).horizon }
        requires from { from < (world_of self.now.setting.now).rules.nodes }
        requires to { to < (world_of self.now.setting.now).rules.nodes }
        ensures { IfOk result (λ _. string_bytes text.new ≡ string_bytes text.old
            ++ slot_pair (M.words self.now.setting.now.machine) (world_of self.now.setting.now) (set_of self.now.other.now)
            (set_of self.now.run.now) number from to) }
    {
        let mut other = String::new(self.alloc);
        Step::new(self.setting, self.other, number).push_slot(from, to, &mut other)?;
        let mut line = String::new(self.alloc);
        Step::new(self.setting, self.run, number).push_slot(from, to, &mut line)?;
        push_pair(other.as_str(), line.as_str(), text)
    }
}
