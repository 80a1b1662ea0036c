//! A run before a step, and what it gives each node to go on from.

ghost use Rattle.std.specs.Prelude.{◌≡◌, ◌≢◌, ◌+◌, ◌*◌, ◌<◌, ◌≤◌, length, slice_get, Some, vec_capacity};
ghost use Rattle.lf_latency.specs.Arrivals.{arrival_of};
ghost use Rattle.lf_sim.specs.Runs.{letter, letters, before_step, did};
ghost use Rattle.lf_sim.specs.Schedules.{IsArriving};
ghost use Rattle.lf_sim.specs.Settings.{world_of};
ghost use Rattle.lf_sim.specs.Tables.{HasPast};
ghost use Rattle.lf_sim.specs.Turns.{turns_of, turn_seen};

use crate::effects::Effects;
use crate::grid::{LETTERS, cell_at};
use crate::sends::Seen;
use crate::{Letter, Machine, Setting, Slot, Turns};

/// What was done up to a step `t`, and under what.
#[derive(Drop)]
pub(crate) struct Past<'a, M: Machine> {
    pub(crate) setting: &'a Setting<M>,
    pub(crate) effects: &'a Effects,
    pub(crate) nodes: u32,
    pub(crate) t: u32,
    // By step, the start first, and then by node.
    pub(crate) cells: &'a Turns<M::State, M::Note>,
    ghost nodes_agree: { nodes ≡ (M.rules setting.now.machine).nodes },
    ghost few: { nodes ≤ 8 },
    ghost early: { t < setting.now.spec.horizon },
    ghost short: { t < 48 },
    ghost done: { HasPast (world_of setting.now) effects.now.set (turns_of cells.now) (t + 1) },
}

impl<M: Machine> Past<'_, M> {
    /// The state from which a node's step starts.
    pub(crate) fn before_step(&self, length: u32, node: u32, last: M::State) -> M::State
        requires node { node < self.now.nodes }
        requires length { length ≡ self.now.setting.now.spec.pause_length }
        requires brief { length ≤ 8 }
        ensures { result ≡
            before_step (world_of self.now.setting.now) self.now.effects.now.set node (self.now.t + 1) last }
    {
        let step = self.t + 1;
        if self.effects.wakes(node, step, length) {
            self.setting.machine.wake(node, step, last)
        } else {
            last
        }
    }

    /// Makes the inbox what reaches a node at the step after `t`, or leaves it empty where the node ignores it: from this state it
    /// does as with what reaches it.
    pub(crate) fn put_heeded(&self, inbox: &mut Vec<Letter<M::Note>>, to: u32, state: &M::State)
        requires to { to < self.now.nodes }
        requires letters { LETTERS ≤ vec_capacity inbox.old }
        ensures same { let w = world_of self.now.setting.now in let faults = self.now.effects.now.set in
            w.rules.step to (self.now.t + 1) state.now inbox.new.items ≡
            w.rules.step to (self.now.t + 1) state.now (letters w faults (did w faults) to (self.now.t + 1)) }
        ensures letters { vec_capacity inbox.new ≡ vec_capacity inbox.old }
    {
        if self.setting.machine.ignores_letters(to, self.t + 1, state) {
            inbox.clear();
        } else {
            self.put_letters(inbox, to);
        }
    }

    /// Makes the inbox what reaches a node at the step after `t`.
    fn put_letters(&self, inbox: &mut Vec<Letter<M::Note>>, to: u32)
        requires to { to < self.now.nodes }
        requires letters { LETTERS ≤ vec_capacity inbox.old }
        ensures items { let w = world_of self.now.setting.now in let faults = self.now.effects.now.set in
            inbox.new.items ≡ letters w faults (did w faults) to (self.now.t + 1) }
        ensures letters { vec_capacity inbox.new ≡ vec_capacity inbox.old }
    {
        inbox.clear();
        for slot in self.setting.arriving(to, self.t + 1) {
            if let Some(letter) = self.letter(*slot, to) {
                inbox.push_reserved(letter);
            }
        }
    }

    /// What was sent in a slot, unless it is lost.
    fn letter(&self, slot: Slot, to: u32) -> Option<Letter<M::Note>>
        requires to { to < self.now.nodes }
        requires slot { IsArriving (arrival_of self.now.setting.now.network) self.now.nodes to (self.now.t + 1) slot }
        ensures { let w = world_of self.now.setting.now in let faults = self.now.effects.now.set in
            result ≡ letter w faults (did w faults) to (self.now.t + 1) slot.from slot.sent }
    {
        let from = u32::from(slot.from);
        let sent = u32::from(slot.sent);
        let Some(note) = self.cell(from, sent).note(to) else {
            return None;
        };
        if self.effects.omits(from, to, sent) {
            None
        } else {
            Some(Letter { from, sent, note })
        }
    }

    /// What a node did at a step up to `t`.
    pub(crate) fn cell(&self, node: u32, step: u32) -> Seen<'_, M::State, M::Note>
        requires node { node < self.now.nodes }
        requires step { step ≤ self.now.t }
        ensures { turn_seen result ≡ did (world_of self.now.setting.now) self.now.effects.now.set node step }
    {
        cell_at(self.cells, self.nodes, node, step)
    }
}
