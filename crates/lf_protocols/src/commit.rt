//! What two_phase and three_phase have in common.

ghost use Rattle.std.specs.Prelude.{◌≡◌};
ghost use Rattle.lf_protocols.specs.CommitTable.{commit_start, commit_wake, commit_open, commit_announce, commit_enter};
ghost use Rattle.lf_protocols.specs.Folds.{commit_begin};
ghost use Rattle.lf_protocols.specs.CommitTable.{commit_poll, commit_participate, commit_end_poll, commit_shows};

use crate::{Fact, Nodes, Note, Phase, Progress, turns};
use lf_sim::{Out, Stepped};

/// What a node has come to in a step: its state, and the notes set so far.
pub type Turn = Stepped<Progress, Note>;

/// The state before step 1.
pub fn start() -> Progress
    ensures { result ≡ commit_start }
{
    Progress {
        phase: Phase::Idle,
        since: 0,
    }
}

/// What is left of a state at waking, at step `t`.
pub fn wake(t: u32, progress: Progress) -> Progress
    ensures { result ≡ commit_wake t progress }
{
    Progress {
        since: t,
        ..progress
    }
}

/// What node 0 does before its inbox.
pub fn open(nodes: u32, t: u32, state: Progress) -> Turn
    ensures { result ≡ commit_open nodes t state }
{
    if t != 1 {
        return turns::begin(state);
    }
    let phase = Phase::Voting {
        agreed: Nodes::none(),
        refused: false,
    };
    Stepped {
        state: Progress { phase, since: 1 },
        out: Out::to_others(nodes, 0, Note::Prepare),
    }
}

/// What a node does before its inbox.
pub fn begin(nodes: u32, node: u32, t: u32, state: Progress) -> Turn
    ensures { result ≡ commit_begin nodes node t state }
{
    if node == 0 {
        open(nodes, t, state)
    } else {
        turns::begin(state)
    }
}

/// What node 0 does with a letter.
pub fn poll(mut turn: Turn, from: u32, note: Note) -> Turn
    ensures { result ≡ commit_poll turn.state.phase from note turn }
{
    if let Phase::Voting {
        mut agreed,
        refused,
    } = turn.state.phase
    {
        match note {
            Note::Yes => {
                agreed.insert(from);
                turn.state.phase = Phase::Voting { agreed, refused };
            }
            Note::No => {
                turn.state.phase = Phase::Voting {
                    agreed,
                    refused: true,
                };
            }
            _ => {}
        }
    }
    turn
}

/// What a participant that votes so does with a letter at step `t`.
pub fn participate(t: u32, vote: bool, mut turn: Turn, note: Note) -> Turn
    ensures { result ≡ commit_participate t turn.state.phase note vote turn }
{
    match (turn.state.phase, note) {
        (Phase::Idle, Note::Prepare) if vote => {
            turn = enter(Phase::Prepared, t, turn);
            turn.out.put(0, Note::Yes);
        }
        (Phase::Idle, Note::Prepare) => {
            turn.state.phase = Phase::Aborted;
            turn.out.put(0, Note::No);
        }
        (Phase::Idle | Phase::Prepared, Note::Commit) => turn.state.phase = Phase::Committed,
        (Phase::Idle | Phase::Prepared, Note::Abort) => turn.state.phase = Phase::Aborted,
        _ => {}
    }
    turn
}

/// The turn in a phase that begins at step `t`.
pub fn enter(phase: Phase, t: u32, turn: Turn) -> Turn
    ensures { result ≡ commit_enter phase t turn }
{
    Stepped {
        state: Progress { phase, since: t },
        out: turn.out,
    }
}

/// Node 0's turn with a phase that all others are told of.
pub fn announce(nodes: u32, turn: Turn, phase: Phase, note: Note) -> Turn
    ensures { result ≡ commit_announce nodes phase note turn }
{
    Stepped {
        state: Progress {
            phase,
            ..turn.state
        },
        out: Out::to_others(nodes, 0, note),
    }
}

/// What node 0 does after its inbox while it votes, where it goes on to `agreed` once all have voted yes.
pub fn end_poll(
    nodes: u32,
    patience: u32,
    t: u32,
    votes: Nodes,
    refused: bool,
    turn: Turn,
    agreed: Turn,
) -> Turn
    ensures { result ≡ commit_end_poll nodes patience t votes refused turn agreed }
{
    if refused {
        announce(nodes, turn, Phase::Aborted, Note::Abort)
    } else if votes.has_participants(nodes) {
        agreed
    } else if turns::is_time_out(patience, t, turn.state.since) {
        announce(nodes, turn, Phase::Aborted, Note::Abort)
    } else {
        turn
    }
}

/// Whether a state shows a fact.
pub fn shows(progress: Progress, fact: Fact) -> bool
    ensures { result ≡ commit_shows progress.phase fact }
{
    match fact {
        Fact::Committed => progress.phase == Phase::Committed,
        Fact::NotCommitted => progress.phase != Phase::Committed,
        Fact::Aborted => progress.phase == Phase::Aborted,
        Fact::NotAborted => progress.phase != Phase::Aborted,
        Fact::Blocked => progress.phase == Phase::Prepared,
        Fact::Free => progress.phase != Phase::Prepared,
        other => other.is_denial(),
    }
}
