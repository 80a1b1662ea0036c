//! How the steps of examples are compared.

ghost use Rattle.std.specs.Prelude.{◌<◌, ◌≤◌};

use crate::states::state;
use crate::texts::{add_letters, agrees, columns, number, out, protocol, words};
use lf_protocols::{Protocol, State};
use lf_sim::{Letter, Machine, Stepped};
use std::alloc::Global;
use std::process::Abort;

/// A step of any machine.
fn turn<M: Machine>(
    machine: &M,
    node: u32,
    t: u32,
    state: M::State,
    inbox: &[Letter<M::Note>],
) -> Stepped<M::State, M::Note>
    requires node { node < (M.rules machine.now).nodes }
    requires t { (1 ≤ t) × (t ≤ 48) }
{
    machine.step(node, t, state, inbox)
}

/// A node of a machine and a step, with a state of some protocol.
#[derive(Clone, Copy)]
struct Place {
    node: u32,
    t: u32,
    state: State,
}

/// The node, the step and the state of a row, and its other columns.
fn place_of<'a>(states: &str, row: &'a str) -> Option<(Place, &'a str)> {
    let (head, rest) = columns(row);
    let (before, rest) = columns(rest);
    let (node, t) = words(head);
    match (number(node), number(t), state(states, before)) {
        (Some(node), Some(t), Some(state)) => Some((Place { node, t, state }, rest)),
        _ => None,
    }
}

/// Whether the step from the place with these letters leads to this state, and sends these notes.
fn leads_to(
    alloc: Global,
    machine: &Protocol,
    place: Place,
    inbox: &str,
    after: Option<State>,
    notes: &str,
) -> bool {
    let Place { node, t, state } = place;
    let mut letters = Vec::new(alloc);
    if !add_letters(&mut letters, inbox) || node >= machine.nodes() || t < 1 || 48 < t {
        return false;
    }
    let turned = turn(machine, node, t, state, letters.as_slice());
    after == Some(turned.state) && out(notes) == Some(turned.out)
}

/// Whether the step of the row is as it says, of a machine with states of the protocol of this name.
pub(crate) fn is_step(alloc: Global, machine: &str, states: &str, row: &str) -> bool {
    let (Some(machine), Some((place, rest))) = (protocol(machine), place_of(states, row)) else {
        return false;
    };
    let (inbox, rest) = columns(rest);
    let (after, notes) = columns(rest);
    leads_to(alloc, &machine, place, inbox, state(states, after), notes)
}

/// Whether what the node of the row wakes with is as it says.
fn is_waking(machine: &str, states: &str, row: &str) -> bool {
    let (Some(machine), Some((place, after))) = (protocol(machine), place_of(states, row)) else {
        return false;
    };
    let Place {
        node,
        t,
        state: before,
    } = place;
    if node >= machine.nodes() || t < 1 || 48 < t {
        return false;
    }
    state(states, after) == Some(machine.wake(node, t, before))
}

/// Whether the state of the row's node before the first step is as it says.
fn is_start(machine: &str, states: &str, row: &str) -> bool {
    let (node, start) = columns(row);
    let (Some(machine), Some(node)) = (protocol(machine), number(node)) else {
        return false;
    };
    node < machine.nodes() && state(states, start) == Some(machine.start(node))
}

/// Whether a row of such a table is as it says, of a machine with states of its own.
fn is_right(alloc: Global, what: &str, machine: &str, row: &str) -> bool {
    let (states, _) = words(machine);
    match what {
        "steps" => is_step(alloc, machine, states, row),
        "wakings" => is_waking(machine, states, row),
        "starts" => is_start(machine, states, row),
        _ => false,
    }
}

/// For each line of a table of `steps` a node and a step, its state before, its inbox, its state after, and the notes that it
/// sends; of `wakings` a node and a step, its state before and what it wakes with; of `starts` a node and its state before the
/// first step.
pub(crate) fn are_right(rt: &impl Abort, alloc: Global, what: &str, machine: &str, table: &str) {
    for row in table.lines() {
        agrees(rt, is_right(alloc, what, machine, row), row);
    }
}
