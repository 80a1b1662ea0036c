//! What a node of retry does.

ghost use Rattle.std.specs.Prelude.{◌≡◌, ◌<◌, [], ◌∷◌, ◌++◌, length};
ghost use Rattle.lf_sim.specs.Turns.{turns_of, room_of};
ghost use Rattle.lf_protocols.specs.declared.state.State.TheVariants.{Retry};
ghost use Rattle.lf_protocols.specs.Protocols.{wrapped};
ghost use Rattle.lf_protocols.specs.RetryTable.{retry_start, retry_hear, retry_hear_all, retry_send, retry_step, retry_shows};

use crate::{Fact, Holding, Note, State};
use lf_sim::{Letter, Out, Stepped, Turns};

/// The state before step 1.
pub fn start(node: u32) -> Holding
    ensures { result ≡ retry_start node }
{
    if node == 0 {
        Holding::Has
    } else {
        Holding::Lacks
    }
}

/// The state after a letter.
pub fn hear(before: Holding, note: Note) -> Holding
    ensures { result ≡ retry_hear before note }
{
    match note {
        Note::Payload => Holding::Has,
        _ => before,
    }
}

/// What a node sends at step `t`.
pub fn send(nodes: u32, tries: u32, node: u32, t: u32) -> Out<Note>
    ensures { result ≡ retry_send nodes tries node t }
{
    if node == 0 && t <= tries {
        Out::to_others(nodes, node, Note::Payload)
    } else {
        Out::none()
    }
}

/// The state after the inbox.
fn hear_all(state: Holding, inbox: &[Letter<Note>]) -> Holding
    ensures { result ≡ retry_hear_all state inbox.now }
{
    inbox
        .iter()
        .fold(state, |before, letter| match letter.note {
            Note::Payload => Holding::Has,
            _ => before,
        })
}

/// What a node does at step `t`.
pub fn step(
    nodes: u32,
    tries: u32,
    node: u32,
    t: u32,
    state: Holding,
    inbox: &[Letter<Note>],
) -> Stepped<Holding, Note>
    ensures { result ≡ retry_step nodes tries node t state inbox.now }
{
    let state = hear_all(state, inbox);
    Stepped {
        state,
        out: send(nodes, tries, node, t),
    }
}

/// Puts what a node does at step `t` behind other turns, where there is memory for it.
pub fn put_step(
    nodes: u32,
    tries: u32,
    node: u32,
    t: u32,
    state: Holding,
    inbox: &[Letter<Note>],
    turns: &mut Turns<State, Note>,
)
    requires room { length (turns_of turns.old) < room_of turns.old }
    ensures items { turns_of turns.new ≡ turns_of turns.old ++ wrapped Retry (retry_step nodes tries node t state inbox.now) ∷ [] }
    ensures capacity { room_of turns.new ≡ room_of turns.old }
{
    let state = State::Retry(hear_all(state, inbox));
    if node == 0 && t <= tries {
        turns.push_to_others(state, nodes, node, Note::Payload);
    } else {
        turns.push_silent(state);
    }
}

/// Whether a state shows a fact.
pub fn shows(state: Holding, fact: Fact) -> bool
    ensures { result ≡ retry_shows state fact }
{
    match (state, fact) {
        (Holding::Has, Fact::Has) | (Holding::Lacks, Fact::Lacks) => true,
        (Holding::Has, Fact::Lacks) | (Holding::Lacks, Fact::Has) => false,
        (_, other) => other.is_denial(),
    }
}
