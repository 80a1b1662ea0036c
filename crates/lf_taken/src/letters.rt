//! What reaches a node at a step of a run.

ghost use Rattle.std.specs.Prelude.{◌≡◌, ◌+◌, ◌<◌, ◌≤◌, ◌++◌, IfOk};
ghost use Rattle.std.specs.Option.{option_to_list};
ghost use Rattle.lf_faults.specs.Faults.{set_wakes};
ghost use Rattle.lf_sim.specs.Runs.{did, letter, letters_from, letters, inbox};
ghost use Rattle.lf_sim.specs.Settings.{IsRun, set_of, world_of};

use lf_protocols::{Note, Protocol};
use lf_sim::{Letter, Run, Setting};
use std::alloc::{AllocError, Global};

/// A node at the step after `past` of a run of a setting.
#[derive(Clone, Copy)]
pub(crate) struct Point<'a> {
    pub setting: &'a Setting<Protocol>,
    pub run: &'a Run<Protocol>,
    pub node: u32,
    pub past: u32,
    ghost inside: { node < (world_of setting.now).rules.nodes },
    ghost early: { past < (world_of setting.now).horizon },
}

impl Point<'_> {
    /// Whether the node wakes at the step.
    pub fn wakes(&self) -> bool
        ensures { let w = world_of self.now.setting.now in
            result ≡ set_wakes w.pause_length (set_of self.now.run.now) self.now.node (self.now.past + 1) }
    {
        let length = self.setting.spec.pause_length();
        self.run.set().wakes(self.node, self.past + 1, length)
    }

    /// Its inbox: the letters that reach it, by sender and then by sending step.
    pub fn inbox(&self, alloc: Global) -> Result<Vec<Letter<Note>>, AllocError>
        requires run { IsRun (world_of self.now.setting.now) self.now.run.now }
        ensures { IfOk result (λ found. found.items ≡ inbox (world_of self.now.setting.now) (set_of self.now.run.now) self.now.node (self.now.past + 1)) }
    {
        let mut found = Vec::new(alloc);
        'senders: for from in 0..self.run.nodes() {
            self.push_letters(from, &mut found)?;
        }
        Ok(found)
    }

    /// Adds the letters from a node.
    fn push_letters(&self, from: u32, found: &mut Vec<Letter<Note>>) -> Result<(), AllocError>
        requires run { IsRun (world_of self.now.setting.now) self.now.run.now }
        requires from { from < (world_of self.now.setting.now).rules.nodes }
        ensures { let w = world_of self.now.setting.now in let faults = set_of self.now.run.now in
            IfOk result (λ _. found.new.items
            ≡ found.old.items ++ letters_from w faults (did w faults) self.now.node (self.now.past + 1) from (self.now.past + 1)) }
    {
        'steps: for sent in 0..self.past + 1 {
            self.push_letter(from, sent, found)?;
        }
        Ok(())
    }

    /// Adds the letter from a node that was sent at a step, if one reaches it.
    fn push_letter(
        &self,
        from: u32,
        sent: u32,
        found: &mut Vec<Letter<Note>>,
    ) -> Result<(), AllocError>
        requires run { IsRun (world_of self.now.setting.now) self.now.run.now }
        requires from { from < (world_of self.now.setting.now).rules.nodes }
        requires sent { sent ≤ self.now.past }
        ensures { let w = world_of self.now.setting.now in let faults = set_of self.now.run.now in
            IfOk result (λ _. found.new.items
            ≡ found.old.items ++ option_to_list (letter w faults (did w faults) self.now.node (self.now.past + 1) from sent)) }
    {
        if let Some(letter) = self.letter(from, sent) {
            found.push(letter)?;
        }
        Ok(())
    }

    /// What a node sent to it at a step, where it reaches it.
    fn letter(&self, from: u32, sent: u32) -> Option<Letter<Note>>
        requires run { IsRun (world_of self.now.setting.now) self.now.run.now }
        requires from { from < (world_of self.now.setting.now).rules.nodes }
        requires sent { sent ≤ self.now.past }
        ensures { let w = world_of self.now.setting.now in let faults = set_of self.now.run.now in
            result ≡ letter w faults (did w faults) self.now.node (self.now.past + 1) from sent }
    {
        if from == self.node {
            return None;
        }
        if sent == 0 {
            return None;
        }
        if self.setting.network.arrival(from, self.node, sent) != self.past + 1 {
            return None;
        }
        if self.run.set().omits(from, self.node, sent) {
            return None;
        }
        match self.run.sent(from, self.node, sent) {
            Some(note) => Some(Letter { from, sent, note }),
            None => None,
        }
    }
}
