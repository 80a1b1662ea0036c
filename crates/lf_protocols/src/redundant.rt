//! What a node of redundant does.

ghost use Rattle.std.specs.Prelude.{◌≡◌, ◌<◌, [], ◌∷◌, ◌++◌, length};
ghost use Rattle.lf_sim.specs.Turns.{turns_of, room_of};
ghost use Rattle.lf_protocols.specs.declared.state.State.TheVariants.{Redundant};
ghost use Rattle.lf_protocols.specs.Protocols.{wrapped};
ghost use Rattle.lf_protocols.specs.RedundantTable.{redundant_start, redundant_hear, redundant_hear_all, redundant_send, redundant_step, redundant_shows};

use crate::{Fact, Note, Relay, State};
use lf_sim::{Letter, Out, Stepped, Turns};

/// The state before step 1.
pub fn start(node: u32) -> Relay
    ensures { result ≡ redundant_start node }
{
    if node == 0 {
        Relay::Has { sent: 0 }
    } else {
        Relay::Lacks
    }
}

/// The state after a letter.
pub fn hear(relay: Relay, note: Note) -> Relay
    ensures { result ≡ redundant_hear relay note }
{
    match (relay, note) {
        (Relay::Lacks, Note::Payload) => Relay::Has { sent: 0 },
        _ => relay,
    }
}

/// The state after the inbox.
fn hear_all(state: Relay, inbox: &[Letter<Note>]) -> Relay
    ensures { result ≡ redundant_hear_all state inbox.now }
{
    inbox
        .iter()
        .fold(state, |relay, letter| match (relay, letter.note) {
            (Relay::Lacks, Note::Payload) => Relay::Has { sent: 0 },
            _ => relay,
        })
}

/// What a node does once it has handled its inbox.
pub fn send(nodes: u32, tries: u32, node: u32, state: Relay) -> Stepped<Relay, Note>
    ensures { result ≡ redundant_send nodes tries node state }
{
    match state {
        Relay::Has { sent } if sent < tries => Stepped {
            state: Relay::Has { sent: sent + 1 },
            out: Out::to_others(nodes, node, Note::Payload),
        },
        Relay::Has { .. } | Relay::Lacks => Stepped {
            state,
            out: Out::none(),
        },
    }
}

/// What a node does at a step.
pub fn step(
    nodes: u32,
    tries: u32,
    node: u32,
    state: Relay,
    inbox: &[Letter<Note>],
) -> Stepped<Relay, Note>
    ensures { result ≡ redundant_step nodes tries node state inbox.now }
{
    send(nodes, tries, node, hear_all(state, inbox))
}

/// Puts what a node does at a step behind other turns, where there is memory for it.
pub fn put_step(
    nodes: u32,
    tries: u32,
    node: u32,
    state: Relay,
    inbox: &[Letter<Note>],
    turns: &mut Turns<State, Note>,
)
    requires room { length (turns_of turns.old) < room_of turns.old }
    ensures items { turns_of turns.new ≡ turns_of turns.old ++ wrapped Redundant (redundant_step nodes tries node state inbox.now) ∷ [] }
    ensures capacity { room_of turns.new ≡ room_of turns.old }
{
    match hear_all(state, inbox) {
        Relay::Has { sent } if sent < tries => {
            let state = State::Redundant(Relay::Has { sent: sent + 1 });
            turns.push_to_others(state, nodes, node, Note::Payload);
        }
        heard => turns.push_silent(State::Redundant(heard)),
    }
}

/// Whether a state shows a fact.
pub fn shows(state: Relay, fact: Fact) -> bool
    ensures { result ≡ redundant_shows state fact }
{
    match (state, fact) {
        (Relay::Has { .. }, Fact::Has) | (Relay::Lacks, Fact::Lacks) => true,
        (Relay::Has { .. }, Fact::Lacks) | (Relay::Lacks, Fact::Has) => false,
        (_, other) => other.is_denial(),
    }
}
