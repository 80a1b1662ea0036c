//! Where a run differs from another beyond that nodes are down in it.

ghost use Rattle.std.specs.Prelude.{◌≡◌, ◌≢◌, ◌++◌, ◌<◌, ◌≤◌, IfOk, string_bytes};
ghost use Rattle.lf_sim.specs.Runs.{is_up};
ghost use Rattle.lf_sim.specs.Settings.{IsRun, set_of, world_of};
ghost use Rattle.lf_trace.specs.Elsewhere.{elsewhere, heard_pair, heard_pairs, heard_pairs_of, nodes_elsewhere, step_elsewhere, told_or, up_pair, up_pairs};

use crate::Worded;
use crate::runs::Comparing;
use crate::titled::push_titled;
use lf_sim::{Run, Setting};
use std::alloc::{AllocError, Global};

/// Where a run of this setting differs from another beyond that nodes are down in it, up to a step: the lines of `beside` without those of nodes that are down
/// in the run and of notes that nobody receives there. Told are the first step with any, and of the later ones the last after which a node differs, with its
/// lines of nodes alone. It is empty where there is none.
///
/// The error is that memory has run out.
pub fn elsewhere<M: Worded>(
    alloc: Global,
    setting: &Setting<M>,
    run: &Run<M>,
    other: &Run<M>,
    limit: u32,
) -> Result<String, AllocError>
    requires run { IsRun (world_of setting.now) run.now }
    requires other { IsRun (world_of setting.now) other.now }
    requires limit { limit ≤ (world_of setting.now).horizon }
    ensures { IfOk result (λ text. string_bytes text
        ≡ elsewhere (M.words setting.now.machine) (world_of setting.now) (set_of other.now) (set_of run.now) limit) }
{
    let comparing = Comparing {
        alloc,
        setting,
        run,
        other,
    };
    let mut first = String::new(alloc);
    let mut last = String::new(alloc);
    'steps: for past in 0..limit {
        if first.as_str().is_empty() {
            first = comparing.step_elsewhere(past + 1)?;
        } else {
            last = comparing.later_of(past + 1, last)?;
        }
    }
    first.push_str(last.as_str())?;
    Ok(first)
}

impl<M: Worded> Comparing<'_, M> {
    /// What is told of the nodes at a step, or the text of before where that is nothing.
    fn later_of(&self, number: u32, before: String) -> Result<String, AllocError>
        requires run { IsRun (world_of self.now.setting.now) self.now.run.now }
        requires other { IsRun (world_of self.now.setting.now) self.now.other.now }
        requires first { 1 ≤ number }
        requires last { number ≤ (world_of self.now.setting.now).horizon }
        ensures { IfOk result (λ text. string_bytes text
            ≡ told_or (nodes_elsewhere (M.words self.now.setting.now.machine) (world_of self.now.setting.now)
            (set_of self.now.other.now) (set_of self.now.run.now) number)
            (string_bytes before)) }
    {
        let lines = self.nodes_elsewhere(number)?;
        if lines.as_str().is_empty() {
            Ok(before)
        } else {
            Ok(lines)
        }
    }

    /// How the nodes differ that are up after a step in the run, and the notes that are heard there.
    fn step_elsewhere(&self, number: u32) -> Result<String, AllocError>
        requires run { IsRun (world_of self.now.setting.now) self.now.run.now }
        requires other { IsRun (world_of self.now.setting.now) self.now.other.now }
        requires first { 1 ≤ number }
        requires last { number ≤ (world_of self.now.setting.now).horizon }
        ensures { IfOk result (λ text. string_bytes text
            ≡ step_elsewhere (M.words self.now.setting.now.machine) (world_of self.now.setting.now)
            (set_of self.now.other.now) (set_of self.now.run.now) number) }
    {
        let mut lines = String::new(self.alloc);
        self.push_up_nodes(number, &mut lines)?;
        self.push_heard(number, &mut lines)?;
        let mut text = String::new(self.alloc);
        push_titled(number, lines.as_str(), &mut text)?;
        Ok(text)
    }

    /// How the nodes differ that are up after a step in the run.
    fn nodes_elsewhere(&self, number: u32) -> Result<String, AllocError>
        requires run { IsRun (world_of self.now.setting.now) self.now.run.now }
        requires other { IsRun (world_of self.now.setting.now) self.now.other.now }
        requires first { 1 ≤ number }
        requires last { number ≤ (world_of self.now.setting.now).horizon }
        ensures { IfOk result (λ text. string_bytes text
            ≡ nodes_elsewhere (M.words self.now.setting.now.machine) (world_of self.now.setting.now)
            (set_of self.now.other.now) (set_of self.now.run.now) number) }
    {
        let mut lines = String::new(self.alloc);
        self.push_up_nodes(number, &mut lines)?;
        let mut text = String::new(self.alloc);
        push_titled(number, lines.as_str(), &mut text)?;
        Ok(text)
    }

    /// Adds how the nodes differ that are up after a step in the run.
    fn push_up_nodes(&self, number: u32, text: &mut String) -> Result<(), AllocError>
        requires run { IsRun (world_of self.now.setting.now) self.now.run.now }
        requires other { IsRun (world_of self.now.setting.now) self.now.other.now }
        requires first { 1 ≤ number }
        requires last { number ≤ (world_of self.now.setting.now).horizon }
        ensures { IfOk result (λ _. string_bytes text.new ≡ string_bytes text.old
            ++ up_pairs (M.words self.now.setting.now.machine) (world_of self.now.setting.now) (set_of self.now.other.now) (set_of self.now.run.now) number) }
    {
        'nodes: for node in 0..self.run.nodes() {
            self.push_up_node(number, node, text)?;
        }
        Ok(())
    }

    /// Adds how a node differs, where it is up.
    fn push_up_node(&self, number: u32, node: u32, text: &mut String) -> Result<(), AllocError>
        requires run { IsRun (world_of self.now.setting.now) self.now.run.now }
        requires other { IsRun (world_of self.now.setting.now) self.now.other.now }
        requires first { 1 ≤ number }
        requires last { number ≤ (world_of self.now.setting.now).horizon }
        requires node { node < (world_of self.now.setting.now).rules.nodes }
        ensures { IfOk result (λ _. string_bytes text.new ≡ string_bytes text.old
            ++ up_pair (M.words self.now.setting.now.machine) (world_of self.now.setting.now)
            (set_of self.now.other.now) (set_of self.now.run.now) number node) }
    {
        if self.run.up(node, number) {
            self.push_node(number, node, text)
        } else {
            Ok(())
        }
    }

    /// Adds how the notes differ that are heard, of those that are sent at a step.
    fn push_heard(&self, number: u32, text: &mut String) -> Result<(), AllocError>
        requires run { IsRun (world_of self.now.setting.now) self.now.run.now }
        requires other { IsRun (world_of self.now.setting.now) self.now.other.now }
        requires first { 1 ≤ number }
        requires last { number ≤ (world_of self.now.setting.now).horizon }
        ensures { IfOk result (λ _. string_bytes text.new ≡ string_bytes text.old
            ++ heard_pairs (M.words self.now.setting.now.machine) (world_of self.now.setting.now)
            (set_of self.now.other.now) (set_of self.now.run.now) number) }
    {
        'senders: for from in 0..self.run.nodes() {
            self.push_heard_of(number, from, text)?;
        }
        Ok(())
    }

    /// Adds how those of a sender differ.
    fn push_heard_of(&self, number: u32, from: u32, text: &mut String) -> Result<(), AllocError>
        requires run { IsRun (world_of self.now.setting.now) self.now.run.now }
        requires other { IsRun (world_of self.now.setting.now) self.now.other.now }
        requires first { 1 ≤ number }
        requires last { number ≤ (world_of self.now.setting.now).horizon }
        requires from { from < (world_of self.now.setting.now).rules.nodes }
        ensures { IfOk result (λ _. string_bytes text.new ≡ string_bytes text.old
            ++ heard_pairs_of (M.words self.now.setting.now.machine) (world_of self.now.setting.now)
            (set_of self.now.other.now) (set_of self.now.run.now) number from) }
    {
        'receivers: for to in 0..self.run.nodes() {
            self.push_heard_slot(number, from, to, text)?;
        }
        Ok(())
    }

    /// Adds how the note of a slot differs, where it is heard.
    fn push_heard_slot(
        &self,
        number: u32,
        from: u32,
        to: u32,
        text: &mut String,
    ) -> Result<(), AllocError>
        requires run { IsRun (world_of self.now.setting.now) self.now.run.now }
        requires other { IsRun (world_of self.now.setting.now) self.now.other.now }
        requires first { 1 ≤ number }
        requires last { number ≤ (world_of self.now.setting.now).horizon }
        requires from { from < (world_of self.now.setting.now).rules.nodes }
        requires to { to < (world_of self.now.setting.now).rules.nodes }
        ensures { IfOk result (λ _. string_bytes text.new ≡ string_bytes text.old
            ++ heard_pair (M.words self.now.setting.now.machine) (world_of self.now.setting.now)
            (set_of self.now.other.now) (set_of self.now.run.now) number from to) }
    {
        if from == to || !self.is_heard(number, from, to) {
            Ok(())
        } else {
            self.push_slot(number, from, to, text)
        }
    }

    /// Whether the receiver of a slot is up when its note arrives, in the run.
    fn is_heard(&self, number: u32, from: u32, to: u32) -> bool
        requires run { IsRun (world_of self.now.setting.now) self.now.run.now }
        requires first { 1 ≤ number }
        requires last { number ≤ (world_of self.now.setting.now).horizon }
        requires from { from < (world_of self.now.setting.now).rules.nodes }
        requires to { to < (world_of self.now.setting.now).rules.nodes }
        requires apart { from ≢ to }
        ensures { result ≡ is_up (world_of self.now.setting.now) (set_of self.now.run.now) to ((world_of self.now.setting.now).arrival from to number) }
    {
        let arrival = self.setting.network.arrival(from, to, number);
        self.run.up(to, arrival)
    }
}
