//! What a node of primary_backup does.

ghost use Rattle.std.specs.Prelude.{◌≡◌, ℕ, ◌<◌, false, [], ◌∷◌, ◌++◌, length};
ghost use Rattle.lf_sim.specs.Turns.{turns_of, room_of};
ghost use Rattle.lf_protocols.specs.declared.state.State.TheVariants.{PrimaryBackup};
ghost use Rattle.lf_protocols.specs.Protocols.{wrapped};
ghost use Rattle.lf_protocols.specs.PrimaryBackupTable.{primary_backup_start, primary_backup_wake, primary_backup_step, primary_backup_shows};
ghost use Rattle.lf_protocols.specs.PrimaryBackupTable.{primary_hear, primary_end, backup_hear, backup_end, primary_step, backup_step};
ghost use Rattle.lf_protocols.specs.Folds.{primary_backup_begin, primary_backup_hear_one, primary_backup_finish};
ghost use Rattle.lf_protocols.specs.PrimaryBackupTable.{claim, client_open, client_hear, client_step};

use crate::{Fact, Note, Replica, State, turns};
use lf_sim::{Letter, Out, Stepped, Turns};

/// What a node has come to in a step: its state, and the notes set so far.
type Turn = Stepped<Replica, Note>;

/// The state before step 1.
pub fn start(node: u32) -> Replica
    ensures { result ≡ primary_backup_start node }
{
    Replica {
        holds: false,
        done: false,
        primary: node == 0,
        claimed: false,
        since: 0,
    }
}

/// What is left of a state at waking, at step `t`.
pub fn wake(t: u32, replica: Replica) -> Replica
    ensures { result ≡ primary_backup_wake t replica }
{
    Replica {
        since: t,
        ..replica
    }
}

/// What node 0 does with a letter.
fn primary_hear(mut turn: Turn, note: Note) -> Turn
    ensures { result ≡ primary_hear note turn }
{
    match note {
        Note::Write => {
            turn.state.holds = true;
            turn.out.put(1, Note::Repl);
        }
        Note::Ack => turn.out.put(2, Note::Done),
        _ => {}
    }
    turn
}

/// What node 0 does once it has handled its inbox.
fn primary_end(mut turn: Turn) -> Turn
    ensures { result ≡ primary_end turn }
{
    if turn.out.to1 != Some(Note::Repl) {
        turn.out.put(1, Note::Beat);
    }
    turn
}

/// What node 1 does with a letter at step `t`.
fn backup_hear(t: u32, mut turn: Turn, note: Note) -> Turn
    ensures { result ≡ backup_hear t note turn }
{
    match note {
        Note::Repl => {
            turn.state.since = t;
            turn.state.holds = true;
            turn.out.put(0, Note::Ack);
        }
        Note::Beat => turn.state.since = t,
        _ => {}
    }
    turn
}

/// What node 1 does once it has handled its inbox.
fn backup_end(nodes: u32, patience: u32, t: u32, mut turn: Turn) -> Turn
    ensures { result ≡ backup_end nodes patience t turn }
{
    if !turn.state.primary && turns::is_time_out(patience, t, turn.state.since) {
        turn.state.primary = true;
        turn.out = claim(nodes, turn.out);
    }
    turn
}

/// Node 1's notes, with a claim to each node from 2 on.
fn claim(nodes: u32, out: Out<Note>) -> Out<Note>
    ensures { result ≡ claim nodes out }
{
    Out {
        to0: out.to0,
        to1: out.to1,
        ..Out::to_others(nodes, 1, Note::Claim)
    }
}

/// What a node from 2 on does before its inbox.
fn client_open(node: u32, t: u32, state: Replica) -> Turn
    ensures { result ≡ client_open node t state }
{
    let mut out = Out::none();
    if node == 2 && t == 1 {
        out.put(0, Note::Write);
    }
    Stepped { state, out }
}

/// What a node from 2 on does with a letter.
fn client_hear(node: u32, mut turn: Turn, note: Note) -> Turn
    ensures { result ≡ client_hear node note turn }
{
    match note {
        Note::Done if node == 2 => turn.state.done = true,
        Note::Claim => turn.state.claimed = true,
        _ => {}
    }
    turn
}

/// What node 0 does at a step.
fn primary_step(state: Replica, inbox: &[Letter<Note>]) -> Turn
    ensures { result ≡ primary_step state inbox.now }
{
    primary_end(
        inbox.iter().fold(
            turns::begin(state),
            |turn, letter| primary_hear(turn, letter.note),
        ),
    )
}

/// What node 1 does at step `t`.
fn backup_step(nodes: u32, patience: u32, t: u32, state: Replica, inbox: &[Letter<Note>]) -> Turn
    ensures { result ≡ backup_step nodes patience t state inbox.now }
{
    let heard = inbox.iter().fold(
        turns::begin(state),
        |turn, letter| backup_hear(t, turn, letter.note),
    );
    backup_end(nodes, patience, t, heard)
}

/// What a node from 2 on does at step `t`.
fn client_step(node: u32, t: u32, state: Replica, inbox: &[Letter<Note>]) -> Turn
    ensures { result ≡ client_step node t state inbox.now }
{
    inbox.iter().fold(
        client_open(node, t, state),
        |turn, letter| client_hear(node, turn, letter.note),
    )
}

/// What a node does before its inbox.
pub fn begin(node: u32, t: u32, state: Replica) -> Turn
    ensures { result ≡ primary_backup_begin node t state }
{
    if node < 2 {
        turns::begin(state)
    } else {
        client_open(node, t, state)
    }
}

/// What a node does with a letter at step `t`.
pub fn hear(node: u32, t: u32, turn: Turn, letter: Letter<Note>) -> Turn
    ensures { result ≡ primary_backup_hear_one node t turn letter }
{
    match node {
        0 => primary_hear(turn, letter.note),
        1 => backup_hear(t, turn, letter.note),
        _ => client_hear(node, turn, letter.note),
    }
}

/// What a node does once it has handled its inbox.
pub fn finish(nodes: u32, patience: u32, node: u32, t: u32, turn: Turn) -> Turn
    ensures { result ≡ primary_backup_finish nodes patience node t turn }
{
    match node {
        0 => primary_end(turn),
        1 => backup_end(nodes, patience, t, turn),
        _ => turn,
    }
}

/// What a node does at step `t`.
pub fn step(
    nodes: u32,
    patience: u32,
    node: u32,
    t: u32,
    state: Replica,
    inbox: &[Letter<Note>],
) -> Turn
    ensures { result ≡ primary_backup_step nodes patience node t state inbox.now }
{
    match node {
        0 => primary_step(state, inbox),
        1 => backup_step(nodes, patience, t, state, inbox),
        _ => client_step(node, t, state, inbox),
    }
}

/// Puts what a node does at step `t` behind other turns, where there is memory for it.
pub fn put_step(
    nodes: u32,
    patience: u32,
    node: u32,
    t: u32,
    state: Replica,
    inbox: &[Letter<Note>],
    turns: &mut Turns<State, Note>,
)
    requires room { length (turns_of turns.old) < room_of turns.old }
    ensures items { turns_of turns.new ≡ turns_of turns.old ++ wrapped PrimaryBackup (primary_backup_step nodes patience node t state inbox.now) ∷ [] }
    ensures capacity { room_of turns.new ≡ room_of turns.old }
{
    let turn = step(nodes, patience, node, t, state, inbox);
    turns.push_short(&Stepped {
        state: State::PrimaryBackup(turn.state),
        out: turn.out,
    });
}

/// Whether a state shows a fact.
pub fn shows(replica: Replica, fact: Fact) -> bool
    ensures { result ≡ primary_backup_shows replica fact }
{
    match fact {
        Fact::Holds => replica.holds,
        Fact::Empty => !replica.holds,
        Fact::Done => replica.done,
        Fact::NotDone => !replica.done,
        Fact::Primary => replica.primary,
        Fact::Backup => !replica.primary,
        Fact::Claimed => replica.claimed,
        Fact::Unclaimed => !replica.claimed,
        other => other.is_denial(),
    }
}
