//! What every node does.

ghost use Rattle.std.specs.Prelude.{◌≡◌, IsTrue, ℕ, ◌<◌, ◌≤◌, ◌⊎◌, List, [], ◌∷◌, ◌++◌, length, None};
ghost use Rattle.lf_sim.specs.declared.letter.Letter.{Letter};
ghost use Rattle.lf_sim.specs.Outs.{note_to};
ghost use Rattle.lf_sim.specs.Machines.{Rules};
ghost use Rattle.lf_sim.specs.Turns.{turns_of, room_of};

use crate::{Entry, Letter, Stepped, Turns};

/// A protocol: what each node does at each step, as a written function of what it is given.
pub trait Machine {
    /// What a node keeps from one step to the next.
    type State: Copy + Eq;

    /// What nodes send to each other.
    type Note: Copy + Eq;

    /// What can be told of a state.
    type Fact: Copy + Eq;

    /// The functions that the methods compute.
    ghost rules: { Self → Rules Self.State Self.Note Self.Fact };

    /// How many nodes there are, 2..=8.
    fn nodes(&self) -> u32
        ensures value { result ≡ (rules self.now).nodes }
        ensures few { (2 ≤ result) × (result ≤ 8) };

    /// The state of a node before step 1.
    fn start(&self, node: u32) -> Self::State
        requires { node < (rules self.now).nodes }
        ensures { result ≡ (rules self.now).start node };

    /// What a node does at step `t`, from its state and the letters that reach it at that step.
    fn step(
        &self,
        node: u32,
        t: u32,
        state: Self::State,
        inbox: &[Letter<Self::Note>],
    ) -> Stepped<Self::State, Self::Note>
        requires node { node < (rules self.now).nodes }
        requires t { (1 ≤ t) × (t ≤ 48) }
        ensures { result ≡ (rules self.now).step node t state inbox.now };

    /// Puts what a node does at step `t` behind what others did, where there is memory for it.
    ///
    /// It is `step`, and a machine need not write it. One of several kinds may: then each kind puts its own, which costs
    /// less than to hand it on.
    fn put_step(
        &self,
        node: u32,
        t: u32,
        state: Self::State,
        inbox: &[Letter<Self::Note>],
        turns: &mut Turns<Self::State, Self::Note>,
    )
        requires node { node < (rules self.now).nodes }
        requires t { (1 ≤ t) × (t ≤ 48) }
        requires room { length (turns_of turns.old) < room_of turns.old }
        ensures items { turns_of turns.new ≡ turns_of turns.old ++ (rules self.now).step node t state inbox.now ∷ [] }
        ensures capacity { room_of turns.new ≡ room_of turns.old }
    {
        turns.push(&self.step(node, t, state, inbox));
    }

    /// What is left of a node's state where it restarts at step `t`, the first after a pause. The step then goes on
    /// from it.
    fn wake(&self, node: u32, t: u32, state: Self::State) -> Self::State
        requires node { node < (rules self.now).nodes }
        requires t { (1 ≤ t) × (t ≤ 48) }
        ensures { result ≡ (rules self.now).wake node t state };

    /// Whether two states are known to be equal.
    ///
    /// A machine need not write it: without it no two are. One that tells them apart lets a run be changed into that of
    /// another set of faults in less work.
    fn same_state(&self, _one: &Self::State, _other: &Self::State) -> bool
        ensures { IsTrue result → _one.now ≡ _other.now }
    {
        false
    }

    /// The same of two notes.
    fn same_note(&self, _one: &Self::Note, _other: &Self::Note) -> bool
        ensures { IsTrue result → _one.now ≡ _other.now }
    {
        false
    }

    /// Whether a node that goes on from this state at step `t` is known to ignore its letters: with every inbox it does the same.
    ///
    /// A machine need not write it. Where one does, letters to such nodes are passed over, and runs take less work.
    fn ignores_letters(&self, _node: u32, _t: u32, _state: &Self::State) -> bool
        requires node { _node < (rules self.now).nodes }
        requires t { (1 ≤ _t) × (_t ≤ 48) }
        ensures { IsTrue result → (inbox other : List (Letter Self.Note)) →
            (rules self.now).step _node _t _state.now inbox ≡ (rules self.now).step _node _t _state.now other }
    {
        false
    }

    /// Whether a node's state shows a fact.
    fn shows(&self, node: u32, state: Self::State, fact: Self::Fact) -> bool
        requires { node < (rules self.now).nodes }
        ensures { result ≡ (rules self.now).shows node state fact };

    /// What a node's state enters under a topic, by the topic's number: a value for a key. None where it enters nothing there, as all states do of a machine
    /// without topics.
    fn entry(&self, node: u32, state: &Self::State, topic: u8) -> Option<Entry>
        requires { node < (rules self.now).nodes }
        ensures { result ≡ (rules self.now).entry node state.now topic };

    /// No node sends a note to itself, or to a number that isn't a node.
    ghost silent: { (m : Self) (n t to : ℕ) (state : Self.State) (inbox : List (Letter Self.Note)) →
        n < (rules m).nodes → 1 ≤ t → t ≤ 48 → (to ≡ n) ⊎ ((rules m).nodes ≤ to) →
        note_to ((rules m).step n t state inbox).out to ≡ None };
}
