//! Turns, kept short.

ghost use Rattle.std.specs.Prelude.{◌≡◌, ◌≢◌, ℕ, ◌<◌, ◌≤◌, IsTrue, vec_capacity, slice_index_or};
ghost use Rattle.lf_sim.specs.Outs.{nothing};

use crate::sends::{self, Kept, Seen, Sends};
use crate::{Alike, Out, Stepped};
use std::alloc::{AllocError, Global};

/// Turns, one behind another, in memory that was taken before.
///
/// In most steps a node sends nothing, or one note to several nodes: such a turn takes little memory. What the others send stands
/// in a list of its own, which is written and read for these alone.
#[derive(Drop)]
pub struct Turns<S, N> {
    kept: Vec<Kept<S, N>>,
    // By place, the notes of a turn that sends each node its own. What stands in the places of other turns is never read.
    outs: Vec<Out<N>>,
    // No notes: what stands for the places past the last of those.
    blank: Out<N>,
    ghost room: { vec_capacity kept ≤ vec_capacity outs },
    ghost blank_is: { blank ≡ nothing },
}

impl<S: Copy, N: Copy> Turns<S, N> {
    ghost use Rattle.std.specs.Prelude.{◌+◌, ◌-◌, ◌↔◌, [], ◌∷◌, ◌++◌, length, take, IfOk};
    ghost use Rattle.lf_sim.specs.Outs.{to_others};
    ghost use Rattle.lf_sim.specs.Turns.{turns_of, room_of, same_to, turn_seen, silent, turn_to};

    /// No turn, with memory for so many.
    pub fn with_capacity(alloc: Global, count: usize) -> Result<Turns<S, N>, AllocError>
        ensures none { IfOk result (λ turns. turns_of turns ≡ []) }
        ensures room { IfOk result (λ turns. count ≤ room_of turns) }
    {
        let kept = Vec::with_capacity(alloc, count)?;
        let outs = Vec::with_capacity(alloc, kept.capacity())?;
        Ok(Turns {
            kept,
            outs,
            blank: Out::none(),
        })
    }

    /// How many there are.
    pub fn len(&self) -> usize
        ensures { result ≡ length (turns_of self.now) }
    {
        self.kept.len()
    }

    /// Whether there is memory for one more.
    pub fn has_room(&self) -> bool
        ensures { IsTrue result ↔ (length (turns_of self.now) < room_of self.now) }
    {
        self.kept.len() < self.kept.capacity()
    }

    /// One of them, by its place.
    pub fn turn(&self, place: usize) -> Stepped<S, N>
        requires { place < length (turns_of self.now) }
        ensures { result ≡ slice_index_or (turns_of self.now) place result }
    {
        self.seen(place).turn()
    }

    /// Puts a turn behind the others, where there is memory for it.
    pub fn push(&mut self, turn: &Stepped<S, N>)
        requires { length (turns_of self.old) < room_of self.old }
        ensures items { turns_of self.new ≡ turns_of self.old ++ turn.now ∷ [] }
        ensures capacity { room_of self.new ≡ room_of self.old }
    {
        if turn.out.is_none() {
            self.push_silent(turn.state);
        } else {
            self.push_each(turn);
        }
    }

    /// The same of one that sends each node its own note.
    fn push_each(&mut self, turn: &Stepped<S, N>)
        requires { length (turns_of self.old) < room_of self.old }
        ensures items { turns_of self.new ≡ turns_of self.old ++ turn.now ∷ [] }
        ensures capacity { room_of self.new ≡ room_of self.old }
    {
        let place = self.kept.len();
        put_out(&mut self.outs, place, turn.out);
        self.kept.push_reserved(Kept {
            state: turn.state,
            sends: Sends::Each,
        });
    }

    /// The same of one that sends one note to the receivers.
    fn push_same(&mut self, state: S, to: u8, note: N)
        requires { length (turns_of self.old) < room_of self.old }
        ensures items { turns_of self.new ≡ turns_of self.old ++ turn_to state (same_to to note) ∷ [] }
        ensures capacity { room_of self.new ≡ room_of self.old }
    {
        self.kept.push_reserved(Kept {
            state,
            sends: Sends::Same { to, note },
        });
    }

    /// The same of one that sends nothing.
    pub fn push_silent(&mut self, state: S)
        requires { length (turns_of self.old) < room_of self.old }
        ensures items { turns_of self.new ≡ turns_of self.old ++ silent state ∷ [] }
        ensures capacity { room_of self.new ≡ room_of self.old }
    {
        self.kept.push_reserved(Kept {
            state,
            sends: Sends::Nothing,
        });
    }

    /// The same of one that sends a note to each node below `nodes` but `node`.
    pub fn push_to_others(&mut self, state: S, nodes: u32, node: u32, note: N)
        requires { length (turns_of self.old) < room_of self.old }
        ensures items { turns_of self.new ≡ turns_of self.old ++ turn_to state (to_others nodes node note) ∷ [] }
        ensures capacity { room_of self.new ≡ room_of self.old }
    {
        self.push_same(state, sends::others(nodes, node), note);
    }

    /// A turn, to look at where it stands.
    pub(crate) fn seen(&self, place: usize) -> Seen<'_, S, N>
        requires { place < length (turns_of self.now) }
        ensures { turn_seen result ≡ slice_index_or (turns_of self.now) place (turn_seen result) }
    {
        Seen {
            kept: &self.kept[place],
            out: self.out(place),
        }
    }

    /// The notes that stand at a place.
    fn out(&self, place: usize) -> &Out<N>
        ensures { result.now ≡ slice_index_or self.now.outs.items place nothing }
    {
        if place < self.outs.len() {
            &self.outs[place]
        } else {
            &self.blank
        }
    }

    /// Puts the last turn in the place of another one.
    pub(crate) fn put_last(&mut self, place: usize)
        requires { place + 1 < length (turns_of self.old) }
        ensures len { length (turns_of self.new) + 1 ≡ length (turns_of self.old) }
        ensures capacity { room_of self.new ≡ room_of self.old }
        ensures there { (d : Stepped S N) →
            slice_index_or (turns_of self.new) place d ≡ slice_index_or (turns_of self.old) (length (turns_of self.old) - 1) d }
        ensures others { (k : ℕ) (d : Stepped S N) → k ≢ place → k + 1 < length (turns_of self.old) →
            slice_index_or (turns_of self.new) k d ≡ slice_index_or (turns_of self.old) k d }
    {
        let last = self.kept.len() - 1;
        let moves = self.kept[last].sends_each();
        move_out(&mut self.outs, moves, last, place);
        let _stood = self.kept.swap_remove(place);
    }

    /// Lets the last turn go.
    pub(crate) fn drop_last(&mut self)
        requires { 0 < length (turns_of self.old) }
        ensures items { turns_of self.new ≡ take (length (turns_of self.old) - 1) (turns_of self.old) }
        ensures capacity { room_of self.new ≡ room_of self.old }
    {
        let _last = self.kept.pop();
    }
}

impl<S: Copy, N: Copy + Alike> Turns<S, N> {
    ghost use Rattle.std.specs.Prelude.{[], ◌∷◌, ◌++◌, length};
    ghost use Rattle.lf_sim.specs.Turns.{turns_of, room_of};

    /// Puts a turn behind the others, where there is memory for it. It takes little memory where no two of its notes differ.
    pub fn push_short(&mut self, turn: &Stepped<S, N>)
        requires { length (turns_of self.old) < room_of self.old }
        ensures items { turns_of self.new ≡ turns_of self.old ++ turn.now ∷ [] }
        ensures capacity { room_of self.new ≡ room_of self.old }
    {
        match sends::first(&turn.out) {
            None => self.push_silent(turn.state),
            Some(note) => {
                if sends::are_all(&turn.out, note) {
                    self.push_same(turn.state, sends::receivers_of(&turn.out), *note);
                } else {
                    self.push_each(turn);
                }
            }
        }
    }
}

/// Puts notes at a place. The places before it that were never written get none.
fn put_out<N: Copy>(outs: &mut Vec<Out<N>>, place: usize, out: Out<N>)
    requires { place < vec_capacity outs.old }
    ensures there { slice_index_or outs.new.items place nothing ≡ out }
    ensures others { (k : ℕ) → k ≢ place → slice_index_or outs.new.items k nothing ≡ slice_index_or outs.old.items k nothing }
    ensures capacity { vec_capacity outs.new ≡ vec_capacity outs.old }
{
    for _next in outs.len()..place + 1 {
        outs.push_reserved(Out::none());
    }
    outs[place] = out;
}

/// Puts the notes of a place at another one as well, if they are to be there.
fn move_out<N: Copy>(outs: &mut Vec<Out<N>>, moves: bool, from: usize, to: usize)
    requires { to < vec_capacity outs.old }
    ensures there { IsTrue moves → slice_index_or outs.new.items to nothing ≡ slice_index_or outs.old.items from nothing }
    ensures others { (k : ℕ) → k ≢ to → slice_index_or outs.new.items k nothing ≡ slice_index_or outs.old.items k nothing }
    ensures capacity { vec_capacity outs.new ≡ vec_capacity outs.old }
{
    if moves {
        copy_out(outs, from, to);
    }
}

/// Puts the notes of a place at another one as well.
fn copy_out<N: Copy>(outs: &mut Vec<Out<N>>, from: usize, to: usize)
    requires { to < vec_capacity outs.old }
    ensures there { slice_index_or outs.new.items to nothing ≡ slice_index_or outs.old.items from nothing }
    ensures others { (k : ℕ) → k ≢ to → slice_index_or outs.new.items k nothing ≡ slice_index_or outs.old.items k nothing }
    ensures capacity { vec_capacity outs.new ≡ vec_capacity outs.old }
{
    let out = out_at(outs, from);
    put_out(outs, to, out);
}

/// The notes of a place.
fn out_at<N: Copy>(outs: &[Out<N>], place: usize) -> Out<N>
    ensures { result ≡ slice_index_or outs.now place nothing }
{
    if place < outs.len() {
        outs[place]
    } else {
        Out::none()
    }
}
