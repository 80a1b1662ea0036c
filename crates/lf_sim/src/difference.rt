//! Where what a node does differs from what it did.

ghost use Rattle.std.specs.Prelude.{◌≡◌, ℕ, ◌<◌, false, IsTrue};
ghost use Rattle.lf_sim.specs.Differences.{IsTold, differs};
ghost use Rattle.lf_sim.specs.Outs.{note_to};
ghost use Rattle.lf_sim.specs.Turns.{is_receiver, turn_seen};

use crate::sends::{Seen, Sends, is_receiver};
use crate::{Machine, Out};

/// Where a turn may differ from another: in the state, or in the note for a node, 0..=7.
#[derive(Clone, Copy, Drop)]
pub struct Difference {
    pub state: bool,
    pub to0: bool,
    pub to1: bool,
    pub to2: bool,
    pub to3: bool,
    pub to4: bool,
    pub to5: bool,
    pub to6: bool,
    pub to7: bool,
}

impl Difference {
    /// Where two turns of a machine may differ: everywhere but where the machine says that they are the same.
    pub(crate) fn between<M: Machine>(
        machine: &M,
        one: &Seen<'_, M::State, M::Note>,
        other: &Seen<'_, M::State, M::Note>,
    ) -> Difference
        ensures { IsTold result (turn_seen one.now) (turn_seen other.now) }
    {
        let state = !machine.same_state(&one.kept.state, &other.kept.state);
        match (&one.kept.sends, &other.kept.sends) {
            (Sends::Nothing, Sends::Nothing) => Difference::parted(state, 0, 0),
            (Sends::Nothing, Sends::Same { to, .. }) | (Sends::Same { to, .. }, Sends::Nothing) => {
                Difference::parted(state, *to, 0)
            }
            (
                Sends::Same { to, note },
                Sends::Same {
                    to: to_others,
                    note: other,
                },
            ) => {
                if machine.same_note(note, other) {
                    Difference::parted(state, *to, *to_others)
                } else {
                    Difference::either(state, *to, *to_others)
                }
            }
            (Sends::Each, Sends::Each) => Difference::by_notes(machine, state, one.out, other.out),
            _ => Difference::by_all_notes(machine, state, one, other),
        }
    }

    /// A difference in the notes for those who are receivers in one turn and not in the other.
    fn parted(state: bool, one: u8, other: u8) -> Difference
        ensures state { result.state ≡ state }
        ensures notes { (m : ℕ) → m < 8 → differs result m ≡ false → is_receiver one m ≡ is_receiver other m }
    {
        Difference {
            state,
            to0: is_parted(one, other, 0),
            to1: is_parted(one, other, 1),
            to2: is_parted(one, other, 2),
            to3: is_parted(one, other, 3),
            to4: is_parted(one, other, 4),
            to5: is_parted(one, other, 5),
            to6: is_parted(one, other, 6),
            to7: is_parted(one, other, 7),
        }
    }

    /// A difference in the notes for those who are receivers in either turn.
    fn either(state: bool, one: u8, other: u8) -> Difference
        ensures state { result.state ≡ state }
        ensures one { (m : ℕ) → m < 8 → differs result m ≡ false → is_receiver one m ≡ false }
        ensures other { (m : ℕ) → m < 8 → differs result m ≡ false → is_receiver other m ≡ false }
    {
        Difference {
            state,
            to0: is_either(one, other, 0),
            to1: is_either(one, other, 1),
            to2: is_either(one, other, 2),
            to3: is_either(one, other, 3),
            to4: is_either(one, other, 4),
            to5: is_either(one, other, 5),
            to6: is_either(one, other, 6),
            to7: is_either(one, other, 7),
        }
    }

    /// A difference in each note that the machine doesn't say to be the same, where the notes stand in different forms.
    ///
    /// It writes all notes out, and stands by itself so that no other turns pay for that: what a function holds in memory is cleared as it begins.
    fn by_all_notes<M: Machine>(
        machine: &M,
        state: bool,
        one: &Seen<'_, M::State, M::Note>,
        other: &Seen<'_, M::State, M::Note>,
    ) -> Difference
        ensures state { result.state ≡ state }
        ensures notes { (m : ℕ) → differs result m ≡ false → note_to (turn_seen one.now).out m ≡ note_to (turn_seen other.now).out m }
    {
        Difference::by_notes(machine, state, &one.notes(), &other.notes())
    }

    /// A difference in each note that the machine doesn't say to be the same.
    fn by_notes<M: Machine>(
        machine: &M,
        state: bool,
        one: &Out<M::Note>,
        other: &Out<M::Note>,
    ) -> Difference
        ensures state { result.state ≡ state }
        ensures notes { (m : ℕ) → differs result m ≡ false → note_to one.now m ≡ note_to other.now m }
    {
        Difference {
            state,
            to0: may_differ(machine, &one.to0, &other.to0),
            to1: may_differ(machine, &one.to1, &other.to1),
            to2: may_differ(machine, &one.to2, &other.to2),
            to3: may_differ(machine, &one.to3, &other.to3),
            to4: may_differ(machine, &one.to4, &other.to4),
            to5: may_differ(machine, &one.to5, &other.to5),
            to6: may_differ(machine, &one.to6, &other.to6),
            to7: may_differ(machine, &one.to7, &other.to7),
        }
    }

    /// Whether there is none.
    pub(crate) fn is_none(&self) -> bool
        ensures state { IsTrue result → self.now.state ≡ false }
        ensures notes { IsTrue result → (m : ℕ) → differs self.now m ≡ false }
    {
        !(self.state
            || self.to0
            || self.to1
            || self.to2
            || self.to3
            || self.to4
            || self.to5
            || self.to6
            || self.to7)
    }
}

/// Whether a node is a receiver in one turn and not in the other.
fn is_parted(one: u8, other: u8, node: u32) -> bool
    requires { node < 8 }
    ensures { result ≡ false → is_receiver one node ≡ is_receiver other node }
{
    is_receiver(one, node) != is_receiver(other, node)
}

/// Whether a node is a receiver in either turn.
fn is_either(one: u8, other: u8, node: u32) -> bool
    requires { node < 8 }
    ensures one { result ≡ false → is_receiver one node ≡ false }
    ensures other { result ≡ false → is_receiver other node ≡ false }
{
    is_receiver(one, node) || is_receiver(other, node)
}

/// Whether two notes may differ. Where neither is there, they don't.
fn may_differ<M: Machine>(machine: &M, one: &Option<M::Note>, other: &Option<M::Note>) -> bool
    ensures { result ≡ false → one.now ≡ other.now }
{
    match (one, other) {
        (Some(one), Some(other)) => !machine.same_note(one, other),
        (None, None) => false,
        _ => true,
    }
}
