//! What a step gives.

ghost use Rattle.std.specs.Prelude.{⊤, ◌≡◌, ◌≢◌, ◌↔◌, ℕ, ◌<◌, IsTrue};
ghost use Rattle.lf_sim.specs.Outs.{note_to, nothing, note_to_other, to_others, with_note};

use std::alloc::AllocError;

/// The notes that a node sends in one step, at most one to each of the nodes 0..=7.
#[derive(Copy, Debug, PartialEq, Eq, PartialOrd, Ord)]
pub struct Out<N> {
    pub to0: Option<N>,
    pub to1: Option<N>,
    pub to2: Option<N>,
    pub to3: Option<N>,
    pub to4: Option<N>,
    pub to5: Option<N>,
    pub to6: Option<N>,
    pub to7: Option<N>,
}

/// A node's state after a step, and the notes that it sends in it.
#[derive(Copy, Debug, PartialEq, Eq, PartialOrd, Ord)]
pub struct Stepped<S, N> {
    pub state: S,
    pub out: Out<N>,
}

// Clones are copies: told field by field, they take the prover ten times as long.
impl<S: Copy, N: Copy> Clone for Stepped<S, N> {
    ghost is_clone = { λ stepped copy. copy ≡ stepped };

    ghost is_infallible = { λ _. ⊤ };

    fn clone(&self) -> Result<Stepped<S, N>, AllocError> {
        Ok(*self)
    }
}

impl<N: Copy> Clone for Out<N> {
    ghost is_clone = { λ out copy. copy ≡ out };

    ghost is_infallible = { λ _. ⊤ };

    fn clone(&self) -> Result<Out<N>, AllocError> {
        Ok(*self)
    }
}

impl<N: Copy> Out<N> {
    /// No note.
    pub fn none() -> Out<N>
        ensures { result ≡ nothing }
    {
        Out {
            to0: None,
            to1: None,
            to2: None,
            to3: None,
            to4: None,
            to5: None,
            to6: None,
            to7: None,
        }
    }

    /// The same note for each node below `nodes` but `node`.
    pub fn to_others(nodes: u32, node: u32, note: N) -> Out<N>
        ensures { result ≡ to_others nodes node note }
    {
        Out {
            to0: to_other(nodes, node, note, 0),
            to1: to_other(nodes, node, note, 1),
            to2: to_other(nodes, node, note, 2),
            to3: to_other(nodes, node, note, 3),
            to4: to_other(nodes, node, note, 4),
            to5: to_other(nodes, node, note, 5),
            to6: to_other(nodes, node, note, 6),
            to7: to_other(nodes, node, note, 7),
        }
    }

    /// Whether there is no note.
    pub fn is_none(&self) -> bool
        ensures { IsTrue result ↔ (self.now ≡ nothing) }
    {
        self.to0.is_none()
            && self.to1.is_none()
            && self.to2.is_none()
            && self.to3.is_none()
            && self.to4.is_none()
            && self.to5.is_none()
            && self.to6.is_none()
            && self.to7.is_none()
    }

    /// The note for a node. None where there is none, and for numbers from 8 on.
    pub fn to(&self, node: u32) -> Option<N>
        ensures { result ≡ note_to self.now node }
    {
        match node {
            0 => self.to0,
            1 => self.to1,
            2 => self.to2,
            3 => self.to3,
            4 => self.to4,
            5 => self.to5,
            6 => self.to6,
            7 => self.to7,
            _ => None,
        }
    }

    /// Puts the note for a node in place of the one that was there. Nothing changes for numbers from 8 on.
    pub fn put(&mut self, node: u32, note: N)
        ensures value { self.new ≡ with_note self.old node note }
        ensures there { node < 8 → note_to self.new node ≡ Some note }
        ensures others { (m : ℕ) → m ≢ node → note_to self.new m ≡ note_to self.old m }
    {
        match node {
            0 => self.to0 = Some(note),
            1 => self.to1 = Some(note),
            2 => self.to2 = Some(note),
            3 => self.to3 = Some(note),
            4 => self.to4 = Some(note),
            5 => self.to5 = Some(note),
            6 => self.to6 = Some(note),
            7 => self.to7 = Some(note),
            _ => {}
        }
    }
}

/// The note for one node, where it is another than the sender.
fn to_other<N: Copy>(nodes: u32, node: u32, note: N, to: u32) -> Option<N>
    ensures { result ≡ note_to_other nodes node note to }
{
    if to < nodes && to != node {
        Some(note)
    } else {
        None
    }
}
