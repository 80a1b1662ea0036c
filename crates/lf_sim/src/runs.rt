//! A run, round by round.

ghost use Rattle.std.specs.Prelude.{◌≡◌, ℕ, ◌+◌, ◌*◌, ◌<◌, ◌≤◌, [], ◌∷◌, ◌++◌, length, IfOk, slice_get, Some, vec_capacity};
ghost use Rattle.lf_sim.specs.Runs.{did};
ghost use Rattle.lf_sim.specs.Tables.{HasPast, table};
ghost use Rattle.lf_sim.specs.Settings.{world_of, set_of, nodes_of, horizon_of, up_of, state_of, sent_of, IsRun};
ghost use Rattle.lf_sim.specs.Turns.{turns_of, room_of};

use crate::effects::Effects;
use crate::grid::{CELLS, Grid, LETTERS};
use crate::past::Past;
use crate::{Letter, Machine, Run, Setting, Turns};
use lf_faults::FaultSet;
use std::alloc::{AllocError, Global};

/// The run of a machine under a set of faults: what every node did after each step.
///
/// It takes memory three times, and only for that it fails.
pub fn run<M: Machine>(
    alloc: Global,
    setting: &Setting<M>,
    set: &FaultSet,
) -> Result<Run<M>, AllocError>
    ensures run { IfOk result (IsRun (world_of setting.now)) }
    ensures set { IfOk result (λ run. set_of run ≡ set.now) }
{
    let cells = Turns::with_capacity(alloc, CELLS)?;
    let inbox = Vec::with_capacity(alloc, LETTERS)?;
    Ok(played(setting, set, cells, inbox))
}

/// The law that two runs of one setting under one set are the same: who is up, the states, and the notes.
pub fn runs_agree<M: Machine>(setting: &Setting<M>, one: &Run<M>, other: &Run<M>)
    requires one { IsRun (world_of setting.now) one.now }
    requires other { IsRun (world_of setting.now) other.now }
    requires set { set_of one.now ≡ set_of other.now }
    ensures nodes { nodes_of one.now ≡ nodes_of other.now }
    ensures horizon { horizon_of one.now ≡ horizon_of other.now }
    ensures up { (n t : ℕ) → up_of one.now n t ≡ up_of other.now n t }
    ensures state { (n t : ℕ) → n < nodes_of one.now → t ≤ horizon_of one.now →
        state_of one.now n t ≡ state_of other.now n t }
    ensures sent { (n m t : ℕ) → n < nodes_of one.now → t ≤ horizon_of one.now →
        sent_of one.now n m t ≡ sent_of other.now n m t }
{}

/// The run, in this memory.
fn played<M: Machine>(
    setting: &Setting<M>,
    set: &FaultSet,
    cells: Turns<M::State, M::Note>,
    inbox: Vec<Letter<M::Note>>,
) -> Run<M>
    requires blank { turns_of cells ≡ [] }
    requires cells { CELLS ≤ room_of cells }
    requires letters { LETTERS ≤ vec_capacity inbox }
    ensures run { IsRun (world_of setting.now) result }
    ensures set { set_of result ≡ set.now }
{
    let mut cells = cells;
    let mut inbox = inbox;
    let nodes = setting.spec.nodes();
    let horizon = setting.spec.horizon();
    let effects = Effects::new(set);
    put_starts(setting, &effects, nodes, &mut cells);
    for t in 0..horizon {
        put_turns(setting, &effects, nodes, &mut cells, &mut inbox, t);
    }
    let pause_length = setting.spec.pause_length();
    Run {
        set: *set,
        grid: Grid {
            nodes,
            horizon,
            pause_length,
            cells,
            inbox,
        },
    }
}

/// Puts the start of each node.
fn put_starts<M: Machine>(
    setting: &Setting<M>,
    effects: &Effects,
    nodes: u32,
    cells: &mut Turns<M::State, M::Note>,
)
    requires nodes { nodes ≡ (M.rules setting.now.machine).nodes }
    requires few { nodes ≤ 8 }
    requires blank { turns_of cells.old ≡ [] }
    requires room { CELLS ≤ room_of cells.old }
    ensures cells { turns_of cells.new ≡ table (world_of setting.now) effects.now.set 1 }
    ensures capacity { room_of cells.new ≡ room_of cells.old }
{
    for node in 0..nodes {
        cells.push_silent(setting.machine.start(node));
    }
}

/// Puts what each node does at the step after `t`.
fn put_turns<M: Machine>(
    setting: &Setting<M>,
    effects: &Effects,
    nodes: u32,
    cells: &mut Turns<M::State, M::Note>,
    inbox: &mut Vec<Letter<M::Note>>,
    t: u32,
)
    requires nodes { nodes ≡ (M.rules setting.now.machine).nodes }
    requires few { nodes ≤ 8 }
    requires step { t < setting.now.spec.horizon }
    requires short { t < 48 }
    requires before { turns_of cells.old ≡ table (world_of setting.now) effects.now.set (t + 1) }
    requires room { CELLS ≤ room_of cells.old }
    requires letters { LETTERS ≤ vec_capacity inbox.old }
    ensures cells { turns_of cells.new ≡ table (world_of setting.now) effects.now.set (t + 2) }
    ensures capacity { room_of cells.new ≡ room_of cells.old }
    ensures letters { vec_capacity inbox.new ≡ vec_capacity inbox.old }
{
    for node in 0..nodes {
        put_turn(setting, effects, nodes, cells, inbox, t, node);
    }
}

/// Puts what a node does at the step after `t`, with memory for its inbox.
pub(crate) fn put_turn<M: Machine>(
    setting: &Setting<M>,
    effects: &Effects,
    nodes: u32,
    cells: &mut Turns<M::State, M::Note>,
    inbox: &mut Vec<Letter<M::Note>>,
    t: u32,
    node: u32,
)
    requires nodes { nodes ≡ (M.rules setting.now.machine).nodes }
    requires few { nodes ≤ 8 }
    requires node { node < nodes }
    requires step { t < setting.now.spec.horizon }
    requires short { t < 48 }
    requires before { HasPast (world_of setting.now) effects.now.set (turns_of cells.old) (t + 1) }
    requires room { length (turns_of cells.old) < room_of cells.old }
    requires letters { LETTERS ≤ vec_capacity inbox.old }
    ensures cells { turns_of cells.new ≡ turns_of cells.old ++ did (world_of setting.now) effects.now.set node (t + 1) ∷ [] }
    ensures len { length (turns_of cells.new) ≡ length (turns_of cells.old) + 1 }
    ensures capacity { room_of cells.new ≡ room_of cells.old }
    ensures letters { vec_capacity inbox.new ≡ vec_capacity inbox.old }
{
    let past = Past {
        setting,
        effects,
        nodes,
        t,
        cells,
    };
    let last = past.cell(node, t).kept.state;
    let length = setting.spec.pause_length();
    if effects.leaves_up(node, t + 1, length) {
        let state = past.before_step(length, node, last);
        past.put_heeded(inbox, node, &state);
        setting.machine.put_step(node, t + 1, state, inbox, cells);
    } else {
        cells.push_silent(last);
    }
}
