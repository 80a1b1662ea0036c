//! What nodes keep.

ghost use Rattle.std.specs.Prelude.{◌≡◌};
ghost use Rattle.lf_protocols.specs.Words.{state_text, phase_word, replica_text};

use crate::Nodes;

/// What a node keeps from one step to the next: a variant for each protocol, round that protocol's own state.
///
/// A node ignores the states of other protocols than its own; no run has one.
#[derive(Clone, Copy, Debug, PartialEq, Eq, PartialOrd, Ord)]
pub enum State {
    /// A state of retry.
    Retry(Holding),
    /// A state of redundant.
    Redundant(Relay),
    /// A state of two_phase.
    TwoPhase(Progress),
    /// A state of three_phase.
    ThreePhase(Progress),
    /// A state of primary_backup.
    PrimaryBackup(Replica),
    /// A state of a protocol of rules.
    Ruled(lf_rule_machine::State),
}

/// Whether a node of retry has the data.
#[derive(Clone, Copy, Debug, PartialEq, Eq, PartialOrd, Ord)]
pub enum Holding {
    Has,
    Lacks,
}

/// Whether a node of redundant has the data. Where it has, `sent` is the number of steps at which it has sent it, at
/// most the protocol's `tries`.
#[derive(Clone, Copy, Debug, PartialEq, Eq, PartialOrd, Ord)]
pub enum Relay {
    Has { sent: u32 },
    Lacks,
}

/// How far a node of two_phase or three_phase has come: its phase, and the step from which its time-out counts.
#[derive(Clone, Copy, Debug, PartialEq, Eq, PartialOrd, Ord)]
pub struct Progress {
    pub phase: Phase,
    pub since: u32,
}

/// A phase of a commit. Node 0 alone is ever in `Voting` and `Precommitting`, and the others alone in `Prepared` and
/// `Precommitted`. Only three_phase has `Precommitting` and `Precommitted`.
#[derive(Clone, Copy, Debug, PartialEq, Eq, PartialOrd, Ord)]
pub enum Phase {
    Idle,
    /// It waits for the votes: which nodes' yes it has noted, and whether it has noted a no.
    Voting { agreed: Nodes, refused: bool },
    /// It has voted yes.
    Prepared,
    /// It waits for the answers to PRECOMMIT: which nodes' ack it has noted.
    Precommitting { acked: Nodes },
    /// It has answered PRECOMMIT.
    Precommitted,
    Committed,
    Aborted,
}

/// What a node of primary_backup knows.
#[derive(Clone, Copy, Debug, PartialEq, Eq, PartialOrd, Ord)]
pub struct Replica {
    /// It holds what was written.
    pub holds: bool,
    /// It knows that the write is done.
    pub done: bool,
    /// It is a primary.
    pub primary: bool,
    /// It knows that another has become the primary.
    pub claimed: bool,
    /// The step from which its time-out counts.
    pub since: u32,
}

impl State {
    /// The state's text in a trace. Of a delivery `has` or `lacks`, of a commit the phase's name in lower case, and of a
    /// replica `holds` or `empty`, `done` or `not_done`, `primary` or `backup`, and `claimed` or `unclaimed`, with single
    /// blanks.
    pub fn text(&self) -> &'static str
        ensures { result.now ≡ state_text self.now }
    {
        match self {
            State::Retry(Holding::Has) | State::Redundant(Relay::Has { .. }) => "has",
            State::Retry(Holding::Lacks) | State::Redundant(Relay::Lacks) => "lacks",
            State::TwoPhase(progress) | State::ThreePhase(progress) => phase_word(progress.phase),
            State::PrimaryBackup(replica) => replica_text(replica),
            State::Ruled(_) => "",
        }
    }
}

/// The word of a phase.
fn phase_word(phase: Phase) -> &'static str
    ensures { result.now ≡ phase_word phase }
{
    match phase {
        Phase::Idle => "idle",
        Phase::Voting { .. } => "voting",
        Phase::Prepared => "prepared",
        Phase::Precommitting { .. } => "precommitting",
        Phase::Precommitted => "precommitted",
        Phase::Committed => "committed",
        Phase::Aborted => "aborted",
    }
}

/// The text of a replica: whether it holds what was written, is done, is a primary, and knows of a claim.
fn replica_text(replica: &Replica) -> &'static str
    ensures { result.now ≡ replica_text replica.now }
{
    match (
        replica.holds,
        replica.done,
        replica.primary,
        replica.claimed,
    ) {
        (true, true, true, true) => "holds done primary claimed",
        (true, true, true, false) => "holds done primary unclaimed",
        (true, true, false, true) => "holds done backup claimed",
        (true, true, false, false) => "holds done backup unclaimed",
        (true, false, true, true) => "holds not_done primary claimed",
        (true, false, true, false) => "holds not_done primary unclaimed",
        (true, false, false, true) => "holds not_done backup claimed",
        (true, false, false, false) => "holds not_done backup unclaimed",
        (false, true, true, true) => "empty done primary claimed",
        (false, true, true, false) => "empty done primary unclaimed",
        (false, true, false, true) => "empty done backup claimed",
        (false, true, false, false) => "empty done backup unclaimed",
        (false, false, true, true) => "empty not_done primary claimed",
        (false, false, true, false) => "empty not_done primary unclaimed",
        (false, false, false, true) => "empty not_done backup claimed",
        (false, false, false, false) => "empty not_done backup unclaimed",
    }
}
