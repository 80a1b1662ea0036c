//! What a node of three_phase does.

ghost use Rattle.std.specs.Prelude.{◌≡◌, ◌<◌, [], ◌∷◌, ◌++◌, length};
ghost use Rattle.lf_sim.specs.Turns.{turns_of, room_of};
ghost use Rattle.lf_protocols.specs.declared.state.State.TheVariants.{ThreePhase};
ghost use Rattle.lf_protocols.specs.Protocols.{wrapped};
ghost use Rattle.lf_protocols.specs.Folds.{three_phase_hear_one, three_phase_finish};
ghost use Rattle.lf_protocols.specs.ThreePhaseTable.{three_phase_hear, three_phase_end, three_phase_join, three_phase_wait, three_phase_step};

use crate::commit::Turn;
use crate::{Nodes, Note, Phase, Progress, State, commit, turns};
use lf_sim::{Letter, Stepped, Turns};

/// What node 0 does with a letter.
fn hear(mut turn: Turn, from: u32, note: Note) -> Turn
    ensures { result ≡ three_phase_hear turn.state.phase from note turn }
{
    match (turn.state.phase, note) {
        (Phase::Precommitting { mut acked }, Note::Ack) => {
            acked.insert(from);
            turn.state.phase = Phase::Precommitting { acked };
            turn
        }
        _ => commit::poll(turn, from, note),
    }
}

/// What node 0 does once it has handled its inbox.
fn end(nodes: u32, patience: u32, t: u32, turn: Turn) -> Turn
    ensures { result ≡ three_phase_end nodes patience t turn.state.phase turn }
{
    match turn.state.phase {
        Phase::Voting { agreed, refused } => {
            let phase = Phase::Precommitting {
                acked: Nodes::none(),
            };
            let told = commit::announce(nodes, turn, phase, Note::Precommit);
            let precommitting = commit::enter(phase, t, told);
            commit::end_poll(nodes, patience, t, agreed, refused, turn, precommitting)
        }
        Phase::Precommitting { acked } => {
            if acked.has_participants(nodes) || turns::is_time_out(patience, t, turn.state.since) {
                commit::announce(nodes, turn, Phase::Committed, Note::Commit)
            } else {
                turn
            }
        }
        _ => turn,
    }
}

/// What a participant that votes so does with a letter at step `t`.
fn join(t: u32, vote: bool, mut turn: Turn, note: Note) -> Turn
    ensures { result ≡ three_phase_join t turn.state.phase note vote turn }
{
    match (turn.state.phase, note) {
        (Phase::Prepared, Note::Precommit) => {
            turn = commit::enter(Phase::Precommitted, t, turn);
            turn.out.put(0, Note::Ack);
            turn
        }
        (Phase::Precommitted, Note::Commit) => {
            turn.state.phase = Phase::Committed;
            turn
        }
        _ => commit::participate(t, vote, turn, note),
    }
}

/// What a participant does once it has handled its inbox.
fn wait(patience: u32, t: u32, mut turn: Turn) -> Turn
    ensures { result ≡ three_phase_wait patience t turn.state.phase turn }
{
    if turns::is_time_out(patience, t, turn.state.since) {
        match turn.state.phase {
            Phase::Prepared => turn.state.phase = Phase::Aborted,
            Phase::Precommitted => turn.state.phase = Phase::Committed,
            _ => {}
        }
    }
    turn
}

/// What a node does with a letter at step `t`.
pub fn hear_one(votes: [bool; 8], node: u32, t: u32, turn: Turn, letter: Letter<Note>) -> Turn
    requires { node < 8 }
    ensures { result ≡ three_phase_hear_one votes node t turn letter }
{
    if node == 0 {
        hear(turn, letter.from, letter.note)
    } else {
        join(t, votes[node as usize], turn, letter.note)
    }
}

/// What a node does once it has handled its inbox.
pub fn finish(nodes: u32, patience: u32, node: u32, t: u32, turn: Turn) -> Turn
    ensures { result ≡ three_phase_finish nodes patience node t turn }
{
    if node == 0 {
        end(nodes, patience, t, turn)
    } else {
        wait(patience, t, turn)
    }
}

/// What a node does at step `t`.
pub fn step(
    nodes: u32,
    patience: u32,
    votes: [bool; 8],
    node: u32,
    t: u32,
    state: Progress,
    inbox: &[Letter<Note>],
) -> Stepped<Progress, Note>
    requires { node < 8 }
    ensures { result ≡ three_phase_step nodes patience votes node t state inbox.now }
{
    if node == 0 {
        let heard = inbox
            .iter()
            .fold(commit::open(nodes, t, state), |turn, letter| {
                hear(turn, letter.from, letter.note)
            });
        end(nodes, patience, t, heard)
    } else {
        let vote = votes[node as usize];
        let heard = inbox.iter().fold(turns::begin(state), |turn, letter| {
            join(t, vote, turn, letter.note)
        });
        wait(patience, t, heard)
    }
}

/// Puts what a node does at step `t` behind other turns, where there is memory for it.
pub fn put_step(
    nodes: u32,
    patience: u32,
    votes: [bool; 8],
    node: u32,
    t: u32,
    state: Progress,
    inbox: &[Letter<Note>],
    turns: &mut Turns<State, Note>,
)
    requires node { node < 8 }
    requires room { length (turns_of turns.old) < room_of turns.old }
    ensures items { turns_of turns.new ≡ turns_of turns.old ++ wrapped ThreePhase (three_phase_step nodes patience votes node t state inbox.now) ∷ [] }
    ensures capacity { room_of turns.new ≡ room_of turns.old }
{
    let turn = step(nodes, patience, votes, node, t, state, inbox);
    turns.push_short(&Stepped {
        state: State::ThreePhase(turn.state),
        out: turn.out,
    });
}
