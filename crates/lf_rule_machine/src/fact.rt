//! What can be told of a state.

/// What a fact is about.
#[derive(Clone, Copy, Debug, PartialEq, Eq, PartialOrd, Ord)]
pub enum Told {
    /// A named guard of the protocol, by its number.
    Named(u8),
    /// A variable has a word, by the numbers of both.
    Word { variable: u8, word: u8 },
    /// A variable that is a flag is true.
    Flag(u8),
    /// A value once went past the greatest of its kind, or a cell was set that isn't there.
    Clamped,
    /// A note was once lost before it was sent: another one of its form took its place, or its packet had no room for it.
    Replaced,
}

/// That something is so of a node's state, or that it is not.
#[derive(Clone, Copy, Debug, PartialEq, Eq, PartialOrd, Ord)]
pub struct Fact {
    pub told: Told,
    /// Whether the fact says that it is not so.
    pub denied: bool,
}
