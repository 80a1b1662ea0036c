//! What can be told of a state.

ghost use Rattle.std.specs.Prelude.{◌≡◌};
ghost use Rattle.lf_protocols.specs.Words.{fact_word};
ghost use Rattle.lf_protocols.specs.Facts.{is_denial};

/// A fact about a state of one of the protocols.
#[derive(Clone, Copy, Debug, PartialEq, Eq, PartialOrd, Ord)]
pub enum Fact {
    /// The node has the data.
    Has,
    /// The opposite of `Has`.
    Lacks,
    /// The node has committed.
    Committed,
    /// The opposite of `Committed`.
    NotCommitted,
    /// The node has aborted.
    Aborted,
    /// The opposite of `Aborted`.
    NotAborted,
    /// The node has voted for the commit, and knows no more.
    Blocked,
    /// The opposite of `Blocked`.
    Free,
    /// The node holds what was written.
    Holds,
    /// The opposite of `Holds`.
    Empty,
    /// The node knows that the write is done.
    Done,
    /// The opposite of `Done`.
    NotDone,
    /// The node is a primary.
    Primary,
    /// The opposite of `Primary`.
    Backup,
    /// The node knows that another has become the primary.
    Claimed,
    /// The opposite of `Claimed`.
    Unclaimed,
    /// A fact of a protocol of rules.
    Ruled(lf_rule_machine::Fact),
}

impl Fact {
    /// The fact's word: its name in lower case, with `_` between two words.
    pub fn word(&self) -> &'static str
        ensures { result.now ≡ fact_word self.now }
    {
        match self {
            Fact::Has => "has",
            Fact::Lacks => "lacks",
            Fact::Committed => "committed",
            Fact::NotCommitted => "not_committed",
            Fact::Aborted => "aborted",
            Fact::NotAborted => "not_aborted",
            Fact::Blocked => "blocked",
            Fact::Free => "free",
            Fact::Holds => "holds",
            Fact::Empty => "empty",
            Fact::Done => "done",
            Fact::NotDone => "not_done",
            Fact::Primary => "primary",
            Fact::Backup => "backup",
            Fact::Claimed => "claimed",
            Fact::Unclaimed => "unclaimed",
            Fact::Ruled(_) => "",
        }
    }

    /// Whether it is the fact of its pair that a state shows which knows nothing of the pair.
    pub(crate) fn is_denial(self) -> bool
        ensures { result ≡ is_denial self }
    {
        match self {
            Fact::Has | Fact::Committed | Fact::Aborted | Fact::Blocked => false,
            Fact::Holds | Fact::Done | Fact::Primary | Fact::Claimed => false,
            Fact::Lacks | Fact::NotCommitted | Fact::NotAborted | Fact::Free => true,
            Fact::Empty | Fact::NotDone | Fact::Backup | Fact::Unclaimed => true,
            Fact::Ruled(fact) => fact.denied,
        }
    }
}
