//! What an inbox holds.

/// A note that has reached its receiver: the node that sent it, 0..=7, the step at which it did, 1..=48, and the note.
#[derive(Clone, Copy, Debug, PartialEq, Eq, PartialOrd, Ord)]
pub struct Letter<N> {
    pub from: u32,
    pub sent: u32,
    pub note: N,
}
