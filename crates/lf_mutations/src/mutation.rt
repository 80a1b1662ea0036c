//! What is changed.

ghost use Rattle.std.specs.Prelude.{◌≡◌};
ghost use Rattle.lf_mutations.specs.Mutations.{number_of};

/// A change of one thing of one rule.
///
/// Rules are numbered from 1, chain by chain, in the order in which they are written: a protocol has 128 at most. The places of a rule's assignments and
/// those of its sends are numbered from 1 too, in order: a rule has 16 assignments at most, and 8 sends.
#[derive(Clone, Copy, Debug, PartialEq, Eq)]
pub enum Mutation {
    /// The rule is never taken: its guard is `false`.
    Never { rule: u8 },
    /// The rule is taken wherever its turn comes: its guard is `true`.
    Always { rule: u8 },
    /// The rule leaves out the assignment at this place.
    Unset { rule: u8, place: u8 },
    /// The rule leaves out what it sends at this place.
    Unsent { rule: u8, place: u8 },
}

impl Mutation {
    /// The number of the rule that changes.
    pub fn rule(self) -> u8
        ensures { result ≡ number_of self }
    {
        match self {
            Mutation::Never { rule }
            | Mutation::Always { rule }
            | Mutation::Unset { rule, .. }
            | Mutation::Unsent { rule, .. } => rule,
        }
    }
}
