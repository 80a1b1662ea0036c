//! What a node of two_phase does.

ghost use Rattle.std.specs.Prelude.{◌≡◌, ◌<◌, [], ◌∷◌, ◌++◌, length};
ghost use Rattle.lf_sim.specs.Turns.{turns_of, room_of};
ghost use Rattle.lf_protocols.specs.declared.state.State.TheVariants.{TwoPhase};
ghost use Rattle.lf_protocols.specs.Protocols.{wrapped};
ghost use Rattle.lf_protocols.specs.Folds.{two_phase_hear_one, two_phase_finish};
ghost use Rattle.lf_protocols.specs.TwoPhaseTable.{two_phase_end, two_phase_step};

use crate::{Note, Phase, Progress, State, commit, turns};
use lf_sim::{Letter, Stepped, Turns};

/// What node 0 does once it has handled its inbox.
fn end(nodes: u32, patience: u32, t: u32, turn: commit::Turn) -> commit::Turn
    ensures { result ≡ two_phase_end nodes patience t turn.state.phase turn }
{
    match turn.state.phase {
        Phase::Voting { agreed, refused } => {
            let done = commit::announce(nodes, turn, Phase::Committed, Note::Commit);
            commit::end_poll(nodes, patience, t, agreed, refused, turn, done)
        }
        _ => turn,
    }
}

/// What a node does with a letter at step `t`.
pub fn hear(
    votes: [bool; 8],
    node: u32,
    t: u32,
    turn: commit::Turn,
    letter: Letter<Note>,
) -> commit::Turn
    requires { node < 8 }
    ensures { result ≡ two_phase_hear_one votes node t turn letter }
{
    if node == 0 {
        commit::poll(turn, letter.from, letter.note)
    } else {
        commit::participate(t, votes[node as usize], turn, letter.note)
    }
}

/// What a node does once it has handled its inbox.
pub fn finish(nodes: u32, patience: u32, node: u32, t: u32, turn: commit::Turn) -> commit::Turn
    ensures { result ≡ two_phase_finish nodes patience node t turn }
{
    if node == 0 {
        end(nodes, patience, t, turn)
    } else {
        turn
    }
}

/// What a node does at step `t`.
pub fn step(
    nodes: u32,
    patience: u32,
    votes: [bool; 8],
    node: u32,
    t: u32,
    state: Progress,
    inbox: &[Letter<Note>],
) -> Stepped<Progress, Note>
    requires { node < 8 }
    ensures { result ≡ two_phase_step nodes patience votes node t state inbox.now }
{
    if node == 0 {
        let heard = inbox
            .iter()
            .fold(commit::open(nodes, t, state), |turn, letter| {
                commit::poll(turn, letter.from, letter.note)
            });
        end(nodes, patience, t, heard)
    } else {
        let vote = votes[node as usize];
        inbox.iter().fold(turns::begin(state), |turn, letter| {
            commit::participate(t, vote, turn, letter.note)
        })
    }
}

/// Puts what a node does at step `t` behind other turns, where there is memory for it.
pub fn put_step(
    nodes: u32,
    patience: u32,
    votes: [bool; 8],
    node: u32,
    t: u32,
    state: Progress,
    inbox: &[Letter<Note>],
    turns: &mut Turns<State, Note>,
)
    requires node { node < 8 }
    requires room { length (turns_of turns.old) < room_of turns.old }
    ensures items { turns_of turns.new ≡ turns_of turns.old ++ wrapped TwoPhase (two_phase_step nodes patience votes node t state inbox.now) ∷ [] }
    ensures capacity { room_of turns.new ≡ room_of turns.old }
{
    let turn = step(nodes, patience, votes, node, t, state, inbox);
    turns.push_short(&Stepped {
        state: State::TwoPhase(turn.state),
        out: turn.out,
    });
}
