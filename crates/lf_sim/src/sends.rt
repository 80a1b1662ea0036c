//! What a turn sends, in short.

ghost use Rattle.std.specs.Prelude.{⊤, ◌≡◌, ◌<◌, IsTrue, IfNone, IfSome, is_some};
ghost use Rattle.lf_sim.specs.Outs.{note_to, nothing};
ghost use Rattle.lf_sim.specs.Turns.{is_receiver, is_other, sends_each, note_where, same_to, out_of, turn_seen, AreReceivers, AreAll};

use crate::{Out, Stepped};
use std::alloc::AllocError;

/// Values that can be told to be the same.
pub trait Alike {
    /// Whether two are known to be the same.
    fn is_alike(&self, other: &Self) -> bool
        ensures { IsTrue result → self.now ≡ other.now };
}

/// What a turn sends.
#[derive(Copy)]
pub(crate) enum Sends<N> {
    /// No note.
    Nothing,
    /// One note to some of the nodes, by a bit for each: 1 for node 0, 2 for node 1, 4 for node 2 and so on.
    Same { to: u8, note: N },
    /// The notes that stand for the turn in a list of such.
    Each,
}

/// A turn, in short: the state after it, and what it sends.
#[derive(Copy)]
pub(crate) struct Kept<S, N> {
    pub(crate) state: S,
    pub(crate) sends: Sends<N>,
}

/// A turn that is kept, to look at: in short, and the notes that stand for it where it sends each node its own.
#[derive(Clone, Copy, Drop)]
pub(crate) struct Seen<'a, S, N> {
    pub(crate) kept: &'a Kept<S, N>,
    pub(crate) out: &'a Out<N>,
}

// As at `Stepped`, clones are copies.
impl<N: Copy> Clone for Sends<N> {
    ghost is_clone = { λ sends copy. copy ≡ sends };

    ghost is_infallible = { λ _. ⊤ };

    fn clone(&self) -> Result<Sends<N>, AllocError> {
        Ok(*self)
    }
}

impl<S: Copy, N: Copy> Clone for Kept<S, N> {
    ghost is_clone = { λ kept copy. copy ≡ kept };

    ghost is_infallible = { λ _. ⊤ };

    fn clone(&self) -> Result<Kept<S, N>, AllocError> {
        Ok(*self)
    }
}

impl<S: Copy, N: Copy> Kept<S, N> {
    /// Whether its notes stand elsewhere.
    pub(crate) fn sends_each(&self) -> bool
        ensures { result ≡ sends_each self.now }
    {
        match &self.sends {
            Sends::Each => true,
            Sends::Nothing | Sends::Same { .. } => false,
        }
    }
}

impl<S: Copy, N: Copy> Seen<'_, S, N> {
    /// The whole turn.
    pub(crate) fn turn(&self) -> Stepped<S, N>
        ensures { result ≡ turn_seen self.now }
    {
        Stepped {
            state: self.kept.state,
            out: self.notes(),
        }
    }

    /// All its notes.
    pub(crate) fn notes(&self) -> Out<N>
        ensures { result ≡ out_of self.now.kept.now.sends self.now.out.now }
    {
        match &self.kept.sends {
            Sends::Nothing => Out::none(),
            Sends::Same { to, note } => same_to(*to, *note),
            Sends::Each => *self.out,
        }
    }

    /// Its note for a node. None where there is none, and for numbers from 8 on.
    pub(crate) fn note(&self, to: u32) -> Option<N>
        ensures { result ≡ note_to (turn_seen self.now).out to }
    {
        match &self.kept.sends {
            Sends::Nothing => None,
            Sends::Same {
                to: receivers,
                note,
            } => {
                if to < 8 && is_receiver(*receivers, to) {
                    Some(*note)
                } else {
                    None
                }
            }
            Sends::Each => self.out.to(to),
        }
    }
}

/// Whether a node is one of the receivers.
pub(crate) fn is_receiver(to: u8, node: u32) -> bool
    requires { node < 8 }
    ensures { result ≡ is_receiver to node }
{
    (to >> node) % 2 == 1
}

/// The note for each of the receivers.
fn same_to<N: Copy>(to: u8, note: N) -> Out<N>
    ensures { result ≡ same_to to note }
{
    Out {
        to0: where_receiver(to, 0, note),
        to1: where_receiver(to, 1, note),
        to2: where_receiver(to, 2, note),
        to3: where_receiver(to, 3, note),
        to4: where_receiver(to, 4, note),
        to5: where_receiver(to, 5, note),
        to6: where_receiver(to, 6, note),
        to7: where_receiver(to, 7, note),
    }
}

/// The note, where a node is one of the receivers.
fn where_receiver<N: Copy>(to: u8, node: u32, note: N) -> Option<N>
    requires { node < 8 }
    ensures { result ≡ note_where to note node }
{
    if is_receiver(to, node) {
        Some(note)
    } else {
        None
    }
}

/// The nodes below `nodes` but `node`, as receivers.
pub(crate) fn others(nodes: u32, node: u32) -> u8
    ensures { AreReceivers result (is_other nodes node) }
{
    receivers(
        is_other(nodes, node, 0),
        is_other(nodes, node, 1),
        is_other(nodes, node, 2),
        is_other(nodes, node, 3),
        is_other(nodes, node, 4),
        is_other(nodes, node, 5),
        is_other(nodes, node, 6),
        is_other(nodes, node, 7),
    )
}

/// Whether a number is that of a node, and of another than the sender.
fn is_other(nodes: u32, node: u32, to: u32) -> bool
    ensures { result ≡ is_other nodes node to }
{
    to < nodes && to != node
}

/// The first note, by receiver.
pub(crate) fn first<N>(out: &Out<N>) -> Option<&N>
    ensures { IfNone result (out.now ≡ nothing) }
{
    out.to0
        .as_ref()
        .or(out.to1.as_ref())
        .or(out.to2.as_ref())
        .or(out.to3.as_ref())
        .or(out.to4.as_ref())
        .or(out.to5.as_ref())
        .or(out.to6.as_ref())
        .or(out.to7.as_ref())
}

/// Whether each note is known to be this one.
pub(crate) fn are_all<N: Alike>(out: &Out<N>, note: &N) -> bool
    ensures { IsTrue result → AreAll note.now out.now }
{
    is_at_most(&out.to0, note)
        && is_at_most(&out.to1, note)
        && is_at_most(&out.to2, note)
        && is_at_most(&out.to3, note)
        && is_at_most(&out.to4, note)
        && is_at_most(&out.to5, note)
        && is_at_most(&out.to6, note)
        && is_at_most(&out.to7, note)
}

/// Whether a note, if there is one, is known to be this one.
fn is_at_most<N: Alike>(sent: &Option<N>, note: &N) -> bool
    ensures { IsTrue result → IfSome sent.now (λ x. x ≡ note.now) }
{
    match sent {
        Some(sent) => sent.is_alike(note),
        None => true,
    }
}

/// The nodes for which there is a note.
pub(crate) fn receivers_of<N>(out: &Out<N>) -> u8
    ensures { AreReceivers result (λ m. is_some (note_to out.now m)) }
{
    receivers(
        out.to0.is_some(),
        out.to1.is_some(),
        out.to2.is_some(),
        out.to3.is_some(),
        out.to4.is_some(),
        out.to5.is_some(),
        out.to6.is_some(),
        out.to7.is_some(),
    )
}

/// The nodes for which it is so, as receivers.
fn receivers(
    to0: bool,
    to1: bool,
    to2: bool,
    to3: bool,
    to4: bool,
    to5: bool,
    to6: bool,
    to7: bool,
) -> u8
    ensures to0 { is_receiver result 0 ≡ to0 }
    ensures to1 { is_receiver result 1 ≡ to1 }
    ensures to2 { is_receiver result 2 ≡ to2 }
    ensures to3 { is_receiver result 3 ≡ to3 }
    ensures to4 { is_receiver result 4 ≡ to4 }
    ensures to5 { is_receiver result 5 ≡ to5 }
    ensures to6 { is_receiver result 6 ≡ to6 }
    ensures to7 { is_receiver result 7 ≡ to7 }
{
    let low = u8::from(to0) + u8::from(to1) * 2 + u8::from(to2) * 4 + u8::from(to3) * 8;
    let high = u8::from(to4) + u8::from(to5) * 2 + u8::from(to6) * 4 + u8::from(to7) * 8;
    high * 16 + low
}
