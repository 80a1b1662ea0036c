//! What a scenario names.

/// A protocol.
#[derive(Clone, Copy, Debug, PartialEq, Eq)]
pub enum ProtocolName {
    /// Node 0 sends again, step after step.
    Retry,
    /// Each node sends on what it has.
    Redundant,
    /// Node 0 asks all for their votes, and then commits or aborts.
    TwoPhase,
    /// As `TwoPhase`, with a round between the votes and the commit.
    ThreePhase,
    /// Node 1 stands by for node 0, which serves node 2.
    PrimaryBackup,
}
