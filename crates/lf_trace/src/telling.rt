//! The lines of a trace.

ghost use Rattle.std.specs.Prelude.{◌≡◌, ◌≢◌, ◌++◌, ◌<◌, ◌≤◌, IfOk, Some, string_bytes};
ghost use Rattle.lf_sim.specs.Settings.{IsRun, set_of, world_of};
ghost use Rattle.lf_trace.specs.Lines.{line};
ghost use Rattle.lf_trace.specs.Traces.{end_word, fate, fate_at, node_line, note_line, note_lines, sender_lines, slot_line, standing, step_lines_by, trace_by};

use crate::Worded;
use lf_outcome::{Formula, holds};
use lf_sim::{Machine, Run, Setting};
use std::alloc::{AllocError, Global};

/// A step of a run of a setting, to be told.
#[derive(Drop)]
pub struct Step<'a, M: Machine> {
    setting: &'a Setting<M>,
    run: &'a Run<M>,
    number: u32,
    ghost first: { 1 ≤ number },
    ghost last: { number ≤ (world_of setting.now).horizon },
}

/// The trace of a run of this setting: for each step in order `step T`, a line for each node, and one for each note that
/// is sent at the step; then `reaches` or `misses`, by the formula.
///
/// A node's line is `N WORDS`, its state after the step, or `N down` where it isn't up. A note's line is
/// `N>M NOTE ARRIVAL`, by sender and then by receiver: its last word is `omitted` where the set loses it, else `lost`
/// where it arrives after the last step or its receiver isn't up then, else the step at which it arrives. A line feed ends
/// each line. The error is that memory has run out.
pub fn trace<M: Worded>(
    alloc: Global,
    setting: &Setting<M>,
    formula: &Formula<M::Fact>,
    run: &Run<M>,
) -> Result<String, AllocError>
    requires { IsRun (world_of setting.now) run.now }
    ensures { IfOk result (λ text.
        string_bytes text ≡ trace_by (M.words setting.now.machine) (world_of setting.now) (set_of run.now) formula.now) }
{
    let mut text = String::new(alloc);
    'steps: for past in 0..run.horizon() {
        push_step(setting, run, past + 1, &mut text)?;
    }
    writeln!(text, "{}", end_word(setting, formula, run))?;
    Ok(text)
}

/// Adds to a text the lines of a step of a run of this setting: `step T`, a line for each node, and one for each note that is sent at the step.
pub fn push_step<M: Worded>(
    setting: &Setting<M>,
    run: &Run<M>,
    number: u32,
    text: &mut String,
) -> Result<(), AllocError>
    requires run { IsRun (world_of setting.now) run.now }
    requires first { 1 ≤ number }
    requires last { number ≤ (world_of setting.now).horizon }
    ensures { IfOk result (λ _. string_bytes text.new ≡ string_bytes text.old
        ++ step_lines_by (M.words setting.now.machine) (world_of setting.now) (set_of run.now) number) }
{
    Step::new(setting, run, number).push(text)
}

/// The last line's word.
pub fn end_word<M: Machine>(
    setting: &Setting<M>,
    formula: &Formula<M::Fact>,
    run: &Run<M>,
) -> &'static str
    requires { IsRun (world_of setting.now) run.now }
    ensures { result.now ≡ end_word (world_of setting.now) (set_of run.now) formula.now }
{
    if holds(setting, formula, run) {
        "reaches"
    } else {
        "misses"
    }
}

impl<'a, M: Worded> Step<'a, M> {
    /// The step with this number, of a run of this setting.
    pub fn new(setting: &'a Setting<M>, run: &'a Run<M>, number: u32) -> Step<'a, M>
        requires first { 1 ≤ number }
        requires last { number ≤ (world_of setting.now).horizon }
        ensures setting { result.setting ≡ setting.entry }
        ensures run { result.run ≡ run.entry }
        ensures number { result.number ≡ number }
    {
        Step {
            setting,
            run,
            number,
        }
    }

    /// Adds the lines of the step: `step T`, a line for each node, and one for each note that is sent at the step.
    pub fn push(&self, text: &mut String) -> Result<(), AllocError>
        requires run { IsRun (world_of self.now.setting.now) self.now.run.now }
        ensures { IfOk result (λ _. string_bytes text.new ≡ string_bytes text.old
            ++ step_lines_by (M.words self.now.setting.now.machine) (world_of self.now.setting.now) (set_of self.now.run.now) self.now.number) }
    {
        writeln!(text, "step {}", self.number)?;
        'nodes: for node in 0..self.run.nodes() {
            self.push_node(node, text)?;
        }
        self.push_notes(text)
    }

    /// Adds a node's line.
    pub fn push_node(&self, node: u32, text: &mut String) -> Result<(), AllocError>
        requires run { IsRun (world_of self.now.setting.now) self.now.run.now }
        requires node { node < (world_of self.now.setting.now).rules.nodes }
        ensures { IfOk result (λ _. string_bytes text.new ≡ string_bytes text.old
            ++ node_line (M.words self.now.setting.now.machine) (world_of self.now.setting.now) (set_of self.now.run.now) self.now.number node) }
    {
        write!(text, "{node} ")?;
        self.push_standing(node, text)?;
        text.push('\n')
    }

    /// Adds a node's words: its state after the step, or `down` where it isn't up.
    pub fn push_standing(&self, node: u32, text: &mut String) -> Result<(), AllocError>
        requires run { IsRun (world_of self.now.setting.now) self.now.run.now }
        requires node { node < (world_of self.now.setting.now).rules.nodes }
        ensures { IfOk result (λ _. string_bytes text.new ≡ string_bytes text.old
            ++ standing (M.words self.now.setting.now.machine) (world_of self.now.setting.now) (set_of self.now.run.now) self.now.number node) }
    {
        if self.run.up(node, self.number) {
            let state = self.run.state(node, self.number);
            self.setting.machine.push_state(&state, text)
        } else {
            text.push_str("down")
        }
    }

    /// Adds the lines of the notes that are sent at the step, by sender and then by receiver.
    pub fn push_notes(&self, text: &mut String) -> Result<(), AllocError>
        requires run { IsRun (world_of self.now.setting.now) self.now.run.now }
        ensures { IfOk result (λ _. string_bytes text.new ≡ string_bytes text.old
            ++ note_lines (M.words self.now.setting.now.machine) (world_of self.now.setting.now) (set_of self.now.run.now) self.now.number) }
    {
        'senders: for from in 0..self.run.nodes() {
            self.push_notes_of(from, text)?;
        }
        Ok(())
    }

    /// Adds the lines of the notes that a node sends at the step.
    fn push_notes_of(&self, from: u32, text: &mut String) -> Result<(), AllocError>
        requires run { IsRun (world_of self.now.setting.now) self.now.run.now }
        requires from { from < (world_of self.now.setting.now).rules.nodes }
        ensures { IfOk result (λ _. string_bytes text.new ≡ string_bytes text.old
            ++ sender_lines (M.words self.now.setting.now.machine) (world_of self.now.setting.now) (set_of self.now.run.now) self.now.number from) }
    {
        'receivers: for to in 0..self.run.nodes() {
            self.push_slot(from, to, text)?;
        }
        Ok(())
    }

    /// Adds the line of a slot, where its sender sends in it.
    pub fn push_slot(&self, from: u32, to: u32, text: &mut String) -> Result<(), AllocError>
        requires run { IsRun (world_of self.now.setting.now) self.now.run.now }
        requires from { from < (world_of self.now.setting.now).rules.nodes }
        requires to { to < (world_of self.now.setting.now).rules.nodes }
        ensures { IfOk result (λ _. string_bytes text.new ≡ string_bytes text.old
            ++ slot_line (M.words self.now.setting.now.machine) (world_of self.now.setting.now) (set_of self.now.run.now) self.now.number from to) }
    {
        if from == to {
            return Ok(());
        }
        match self.run.sent(from, to, self.number) {
            Some(note) => self.push_note(from, to, note, text),
            None => Ok(()),
        }
    }

    /// Adds a note's line.
    fn push_note(
        &self,
        from: u32,
        to: u32,
        note: M::Note,
        text: &mut String,
    ) -> Result<(), AllocError>
        requires run { IsRun (world_of self.now.setting.now) self.now.run.now }
        requires from { from < (world_of self.now.setting.now).rules.nodes }
        requires to { to < (world_of self.now.setting.now).rules.nodes }
        requires apart { from ≢ to }
        ensures { IfOk result (λ _. string_bytes text.new ≡ string_bytes text.old
            ++ note_line (M.words self.now.setting.now.machine) (world_of self.now.setting.now) (set_of self.now.run.now) self.now.number from to note) }
    {
        write!(text, "{from}>{to} ")?;
        self.setting.machine.push_note(&note, text)?;
        text.push_str(" ")?;
        self.push_fate(from, to, text)
    }

    /// Adds the rest of a note's line: what becomes of the note.
    fn push_fate(&self, from: u32, to: u32, text: &mut String) -> Result<(), AllocError>
        requires run { IsRun (world_of self.now.setting.now) self.now.run.now }
        requires from { from < (world_of self.now.setting.now).rules.nodes }
        requires to { to < (world_of self.now.setting.now).rules.nodes }
        requires apart { from ≢ to }
        ensures { IfOk result (λ _. string_bytes text.new ≡ string_bytes text.old
            ++ line (fate (world_of self.now.setting.now) (set_of self.now.run.now) self.now.number from to)) }
    {
        if self.run.set().omits(from, to, self.number) {
            text.push_str("omitted\n")
        } else {
            let arrival = self.setting.network.arrival(from, to, self.number);
            self.push_arrival(to, arrival, text)
        }
    }

    /// Adds the rest of the line of a note that arrives at this step, if its receiver is up there.
    fn push_arrival(&self, to: u32, arrival: u32, text: &mut String) -> Result<(), AllocError>
        requires run { IsRun (world_of self.now.setting.now) self.now.run.now }
        requires to { to < (world_of self.now.setting.now).rules.nodes }
        ensures { IfOk result (λ _. string_bytes text.new ≡ string_bytes text.old
            ++ line (fate_at (world_of self.now.setting.now) (set_of self.now.run.now) to arrival)) }
    {
        if self.run.up(to, arrival) {
            writeln!(text, "{arrival}")
        } else {
            text.push_str("lost\n")
        }
    }
}
