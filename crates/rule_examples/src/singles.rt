//! A machine whose packets have one note each: what the laws of single notes say of its runs.

ghost use Rattle.std.specs.Prelude.{◌≡◌, ℕ, ◌≤◌, IsTrue, List, length};
ghost use Rattle.lf_faults.specs.declared.fault.Parts.{Parts};
ghost use Rattle.lf_sim.specs.Runs.{World, view};
ghost use Rattle.lf_rule_machine.specs.declared.state.State.{State};
ghost use Rattle.lf_rule_machine.specs.declared.state.Packet.{Packet};
ghost use Rattle.lf_rule_machine.specs.declared.fact.Fact.{Fact};
ghost use Rattle.lf_rule_machine.specs.Ruleds.{rules_of};
ghost use Rattle.lf_rule_machine.specs.SingleRuns.{world_of_notes};

use crate::build::{
    chain, definition, form, leaf, machine, more, one, plain, rule, send, set, yes,
};
use lf_rule_machine::{Packet, Ruled, State, one_form_sends_single_notes, runs_with_single_notes};
use lf_rules::{Event, Kind, Leaf};
use std::alloc::Global;

/// Whether a machine has but one form of notes.
fn has_one_form(machine: &Ruled) -> bool
    ensures { IsTrue result → length machine.now.definition.notes ≤ 1 }
{
    machine.definition().notes.as_slice().len() <= 1
}

/// In each run of a machine with one form of notes the views are those of the run in which nodes send each other single notes.
fn views_are_those_of_notes(machine: &Ruled)
    requires { length machine.now.definition.notes ≤ 1 }
    ensures { (w : World State Packet Fact) (faults : List Parts) → w.rules ≡ rules_of machine.now → (node t : ℕ) →
        view w faults node t ≡ view (world_of_notes machine.now w) faults node t }
{
    runs_with_single_notes();
    one_form_sends_single_notes();
    let _definition = machine.definition();
}

/// The machine in which each node that begins a step sends the others the one note, and each that hears it keeps its sender.
fn telling(alloc: Global) -> Option<Ruled> {
    let tells = rule(
        yes(),
        Ok(Vec::new(alloc)),
        one(alloc, send(alloc, 0, leaf(Leaf::All))),
    );
    let keeps = rule(
        yes(),
        one(alloc, set(0, leaf(Leaf::Sender))),
        Ok(Vec::new(alloc)),
    );
    let begins = chain(leaf(Leaf::All), Event::Begin, one(alloc, tells));
    let hears = chain(leaf(Leaf::All), Event::Note(0), one(alloc, keeps));
    let variables = one(alloc, plain(alloc, Kind::UpTo(7)));
    let notes = one(alloc, form(alloc, Ok(Vec::new(alloc))));
    let chains = more(one(alloc, begins), hears);
    machine(alloc, definition(alloc, variables, notes, chains), 3, &[])
}

/// Whether the laws of single notes hold of each run of a machine, since it has one form of notes.
fn keeps_its_meaning(machine: &Ruled) -> bool {
    if !has_one_form(machine) {
        return false;
    }
    views_are_those_of_notes(machine);
    true
}

/// Whether node 1 sends packets, each with one note.
fn sends_one_note_each(machine: &Ruled) -> bool {
    let step = machine.begin(1, 1, State::zeros());
    match (step.out.to(0), step.out.to(1), step.out.to(2)) {
        (Some(one), None, Some(other)) => has_one_note(&one) && has_one_note(&other),
        _ => false,
    }
}

fn has_one_note(packet: &Packet) -> bool {
    match packet.notes {
        [Some(_), None, None, None] => true,
        _ => false,
    }
}

#[test]
fn packets_of_one_note(rt: HostRuntime) {
    let holds = match telling(rt.alloc()) {
        Some(machine) => keeps_its_meaning(&machine) && sends_one_note_each(&machine),
        None => false,
    };
    assert!(rt; holds);
}
