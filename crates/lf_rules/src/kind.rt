//! What values there are.

ghost use Rattle.std.specs.Prelude.{◌≡◌};
ghost use Rattle.lf_rules.specs.Kinds.{most_of, sort_of};

use crate::sort::Sort;

/// The values that a variable of a state or a field of a note may have.
///
/// Each value is a number: a truth value is 0 or 1, a word its place among the words of its variable, and a set of nodes the number whose bit n is
/// set where it has node n.
#[derive(Clone, Copy, Debug, PartialEq, Eq)]
pub enum Kind {
    /// A truth value.
    Flag,
    /// A set of nodes.
    Nodes,
    /// A number from 0 to this one, 1..=255.
    UpTo(u8),
    /// A word of the variable with the number `of`, which has `words` words, 2..=16.
    Word { of: u8, words: u8 },
}

impl Kind {
    /// The greatest value.
    pub fn most(self) -> u8
        ensures { result ≡ most_of self }
    {
        match self {
            Kind::Flag => 1,
            Kind::Nodes => u8::MAX,
            Kind::UpTo(most) => most,
            Kind::Word { words, .. } => words.saturating_sub(1),
        }
    }

    /// What an expression has to be whose value it takes.
    pub fn sort(self) -> Sort
        ensures { result ≡ sort_of self }
    {
        match self {
            Kind::Flag => Sort::Truth,
            Kind::Nodes => Sort::Nodes,
            Kind::UpTo(_) => Sort::Number,
            Kind::Word { of, .. } => Sort::Word(of),
        }
    }
}
