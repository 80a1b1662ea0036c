//! What a node of a protocol of rules does, among the others.

ghost use Rattle.std.specs.Prelude.{◌≡◌, ◌<◌, [], ◌∷◌, ◌++◌, length};
ghost use Rattle.lf_sim.specs.Turns.{turns_of, room_of};
ghost use Rattle.std.specs.List.{fold};
ghost use Rattle.lf_protocols.specs.RuledTurns.{as_any, as_ruled, any_out, ruled_out, any_turn, ruled_turn, begin_by_rules};
ghost use Rattle.lf_protocols.specs.RuledTurns.{hear_by_rules, end_by_rules, step_by_rules};

use crate::{Note, State};
use lf_rule_machine as rules;
use lf_rule_machine::Ruled;
use lf_sim::{Letter, Out, Stepped, Turns};

/// What a node has come to within a step.
pub type Turn = Stepped<rules::State, rules::Packet>;

/// What a node does at step `t`.
pub fn step(
    ruled: &Ruled,
    node: u32,
    t: u32,
    state: rules::State,
    inbox: &[Letter<Note>],
) -> Stepped<State, Note>
    ensures { result ≡ any_turn (step_by_rules ruled.now node t state inbox.now) }
{
    let mut turn = ruled.begin(node, t, state);
    for letter in inbox {
        hear_one(ruled, node, t, &mut turn, letter);
    }
    ruled.end(node, t, &mut turn);
    any_turn(&turn)
}

/// Puts what a node does at step `t` behind other turns, where there is memory for it.
pub fn put_step(
    ruled: &Ruled,
    node: u32,
    t: u32,
    state: rules::State,
    inbox: &[Letter<Note>],
    turns: &mut Turns<State, Note>,
)
    requires room { length (turns_of turns.old) < room_of turns.old }
    ensures items { turns_of turns.new ≡ turns_of turns.old ++ any_turn (step_by_rules ruled.now node t state inbox.now) ∷ [] }
    ensures capacity { room_of turns.new ≡ room_of turns.old }
{
    turns.push_short(&step(ruled, node, t, state, inbox));
}

/// Takes in a letter. A note of another protocol is ignored.
fn hear_one(ruled: &Ruled, node: u32, t: u32, turn: &mut Turn, letter: &Letter<Note>)
    ensures { turn.new ≡ hear_by_rules ruled.now node t turn.old letter.now }
{
    if let Note::Ruled(note) = letter.note {
        let own = Letter {
            from: letter.from,
            sent: letter.sent,
            note,
        };
        ruled.hear(node, t, turn, &own);
    }
}

/// What a node does before its inbox.
pub fn begin(ruled: &Ruled, node: u32, t: u32, state: rules::State) -> Stepped<State, Note>
    ensures { result ≡ any_turn (begin_by_rules ruled.now node t state) }
{
    any_turn(&ruled.begin(node, t, state))
}

/// What it comes to with a letter, from the state and the notes that it has come to.
pub fn hear(
    ruled: &Ruled,
    node: u32,
    t: u32,
    state: rules::State,
    out: Out<Note>,
    letter: Letter<Note>,
) -> Stepped<State, Note>
    ensures { result ≡ any_turn (hear_by_rules ruled.now node t (ruled_turn state out) letter) }
{
    let mut turn = ruled_turn(state, &out);
    hear_one(ruled, node, t, &mut turn, &letter);
    any_turn(&turn)
}

/// What it comes to after its inbox.
pub fn end(
    ruled: &Ruled,
    node: u32,
    t: u32,
    state: rules::State,
    out: Out<Note>,
) -> Stepped<State, Note>
    ensures { result ≡ any_turn (end_by_rules ruled.now node t (ruled_turn state out)) }
{
    let mut turn = ruled_turn(state, &out);
    ruled.end(node, t, &mut turn);
    any_turn(&turn)
}

/// A turn of rules as one of all protocols.
fn any_turn(turn: &Turn) -> Stepped<State, Note>
    ensures { result ≡ any_turn turn.now }
{
    Stepped {
        state: State::Ruled(turn.state),
        out: any_out(&turn.out),
    }
}

/// Notes of rules as notes of all protocols.
fn any_out(out: &Out<rules::Packet>) -> Out<Note>
    ensures { result ≡ any_out out.now }
{
    Out {
        to0: as_any(out.to0),
        to1: as_any(out.to1),
        to2: as_any(out.to2),
        to3: as_any(out.to3),
        to4: as_any(out.to4),
        to5: as_any(out.to5),
        to6: as_any(out.to6),
        to7: as_any(out.to7),
    }
}

/// A note of rules as one of all protocols.
fn as_any(note: Option<rules::Packet>) -> Option<Note>
    ensures { result ≡ as_any note }
{
    match note {
        Some(note) => Some(Note::Ruled(note)),
        None => None,
    }
}

/// A turn of all protocols as one of rules.
fn ruled_turn(state: rules::State, out: &Out<Note>) -> Turn
    ensures { result ≡ ruled_turn state out.now }
{
    Stepped {
        state,
        out: ruled_out(out),
    }
}

/// Those of some notes that are notes of rules.
fn ruled_out(out: &Out<Note>) -> Out<rules::Packet>
    ensures { result ≡ ruled_out out.now }
{
    Out {
        to0: as_ruled(out.to0),
        to1: as_ruled(out.to1),
        to2: as_ruled(out.to2),
        to3: as_ruled(out.to3),
        to4: as_ruled(out.to4),
        to5: as_ruled(out.to5),
        to6: as_ruled(out.to6),
        to7: as_ruled(out.to7),
    }
}

/// A note as one of rules, where it is one.
fn as_ruled(note: Option<Note>) -> Option<rules::Packet>
    ensures { result ≡ as_ruled note }
{
    match note {
        Some(Note::Ruled(note)) => Some(note),
        _ => None,
    }
}
