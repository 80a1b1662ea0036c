//! A run of a machine with two forms of notes in which each packet has one note: what the law of single notes says of it.

ghost use Rattle.std.specs.Prelude.{◌≡◌, ℕ, ◌<◌, ◌≤◌, false, true, not, IsTrue, IfSome};
ghost use Rattle.std.specs.List.{list_all};
ghost use Rattle.lf_sim.specs.Runs.{view};
ghost use Rattle.lf_sim.specs.Settings.{IsRun, cell_of, horizon_of, nodes_of, set_of, state_of, world_of};
ghost use Rattle.lf_rules.specs.declared.rule.Event.TheVariants as events;
ghost use Rattle.lf_rule_machine.specs.Events.{same_event};
ghost use Rattle.lf_rule_machine.specs.SingleRuns.{AreSingles, IsSingle, IsSingleRun, world_of_notes};

use crate::build::{
    chain, definition, form, leaf, machine, more, one, only, plain, rule, send, set, unary, yes,
};
use lf_faults::{FaultSet, FaultSpec};
use lf_latency::{Links, Network};
use lf_rule_machine::{Packet, Ruled, kept_notes_are_single, runs_with_single_notes};
use lf_rules::{Chain, Definition, Event, Kind, Leaf, Unary};
use lf_sim::{Out, Run, Setting, run};
use std::alloc::Global;

/// Whether a packet, where there is one, has one note.
fn is_single(packet: &Option<Packet>) -> bool
    ensures { IsTrue result → IfSome packet.now IsSingle }
{
    match packet {
        None => true,
        Some(packet) => match packet.notes {
            [Some(_), None, None, None] => true,
            _ => false,
        },
    }
}

/// Whether each packet that a node sends in a step has one note.
fn are_single(out: &Out<Packet>) -> bool
    ensures { IsTrue result → AreSingles out.now }
{
    is_single(&out.to0)
        && is_single(&out.to1)
        && is_single(&out.to2)
        && is_single(&out.to3)
        && is_single(&out.to4)
        && is_single(&out.to5)
        && is_single(&out.to6)
        && is_single(&out.to7)
}

/// Whether each packet that a node sends in a run has one note.
fn sends_single_notes(run: &Run<Ruled>, node: u32) -> bool
    requires { node < nodes_of run.now }
    ensures { IsTrue result → (t : ℕ) → t ≤ horizon_of run.now → IfSome (cell_of run.now node t) (λ c. AreSingles c.out) }
{
    for step in 0..run.horizon() + 1 {
        if !are_single(&run.turn(node, step).out) {
            return false;
        }
    }
    true
}

/// Whether each packet that is sent in a run has one note.
fn has_single_notes(run: &Run<Ruled>) -> bool
    ensures { IsTrue result → (n t : ℕ) → n < nodes_of run.now → t ≤ horizon_of run.now → IfSome (cell_of run.now n t) (λ c. AreSingles c.out) }
{
    for node in 0..run.nodes() {
        if !sends_single_notes(run, node) {
            return false;
        }
    }
    true
}

/// Where each packet that is sent in a run has one note, the views are those of the run in which nodes send each other single notes.
fn views_are_of_single_notes(setting: &Setting<Ruled>, run: &Run<Ruled>)
    requires run { IsRun (world_of setting.now) run.now }
    requires singles { (n t : ℕ) → n < nodes_of run.now → t ≤ horizon_of run.now → IfSome (cell_of run.now n t) (λ c. AreSingles c.out) }
    ensures { (n t : ℕ) → view (world_of setting.now) (set_of run.now) n t
        ≡ view (world_of_notes setting.now.machine (world_of setting.now)) (set_of run.now) n t }
{
    runs_with_single_notes();
    let _definition = setting.machine.definition();
}

/// Whether no view of a node in a run remembers a note that was lost before it was sent.
fn keeps_notes(run: &Run<Ruled>, node: u32) -> bool
    requires { node < nodes_of run.now }
    ensures { IsTrue result → (t : ℕ) → t ≤ horizon_of run.now → IfSome (state_of run.now node t) (λ s. s.replaced ≡ false) }
{
    for step in 0..run.horizon() + 1 {
        if run.state(node, step).replaced {
            return false;
        }
    }
    true
}

/// Whether no view in a run remembers such a note.
fn has_kept_notes(run: &Run<Ruled>) -> bool
    ensures { IsTrue result → (n t : ℕ) → n < nodes_of run.now → t ≤ horizon_of run.now →
        IfSome (state_of run.now n t) (λ s. s.replaced ≡ false) }
{
    for node in 0..run.nodes() {
        if !keeps_notes(run, node) {
            return false;
        }
    }
    true
}

/// Whether nodes do nothing at the start.
fn starts_with_zeros(definition: &Definition) -> bool
    ensures { IsTrue result → list_all (λ chain. not (same_event chain.on events.Start)) definition.now.chains ≡ true }
{
    for chain in definition.chains.as_slice() {
        if is_of_start(chain) {
            return false;
        }
    }
    true
}

/// Whether a chain is gone through at the start.
fn is_of_start(chain: &Chain) -> bool
    ensures { result ≡ same_event chain.now.on events.Start }
{
    match chain.on {
        Event::Start => true,
        _ => false,
    }
}

/// Where no view in a run remembers a note that was lost, none does in the run in which nodes send each other single notes: so the law of kept notes says of it
/// that each packet has one note.
fn kept_notes_were_single(setting: &Setting<Ruled>, run: &Run<Ruled>)
    requires run { IsRun (world_of setting.now) run.now }
    requires singles { (n t : ℕ) → n < nodes_of run.now → t ≤ horizon_of run.now → IfSome (cell_of run.now n t) (λ c. AreSingles c.out) }
    requires kept { (n t : ℕ) → n < nodes_of run.now → t ≤ horizon_of run.now → IfSome (state_of run.now n t) (λ s. s.replaced ≡ false) }
    requires zeros { list_all (λ chain. not (same_event chain.on events.Start)) setting.now.machine.definition.chains ≡ true }
    ensures { IsSingleRun setting.now.machine (world_of setting.now) (set_of run.now) }
{
    views_are_of_single_notes(setting, run);
    kept_notes_are_single();
    let _definition = setting.machine.definition();
}

/// The machine in which node 0 asks the others at each step, and each that is asked answers by another form of notes.
fn asking(alloc: Global) -> Option<Ruled> {
    let asks = rule(
        yes(),
        Ok(Vec::new(alloc)),
        one(alloc, send(alloc, 0, leaf(Leaf::All))),
    );
    let asker = unary(alloc, Unary::Only, leaf(Leaf::Sender));
    let answers = rule(
        yes(),
        Ok(Vec::new(alloc)),
        one(alloc, send(alloc, 1, asker)),
    );
    let keeps = rule(
        yes(),
        one(alloc, set(0, leaf(Leaf::Sender))),
        Ok(Vec::new(alloc)),
    );
    let chains = more(
        one(alloc, chain(only(alloc, 0), Event::Begin, one(alloc, asks))),
        chain(leaf(Leaf::All), Event::Note(0), one(alloc, answers)),
    );
    let chains = more(
        chains,
        chain(leaf(Leaf::All), Event::Note(1), one(alloc, keeps)),
    );
    let variables = one(alloc, plain(alloc, Kind::UpTo(7)));
    let notes = more(
        one(alloc, form(alloc, Ok(Vec::new(alloc)))),
        form(alloc, Ok(Vec::new(alloc))),
    );
    machine(alloc, definition(alloc, variables, notes, chains), 3, &[])
}

/// The machine on a network of three nodes, up to step 4.
fn asked(alloc: Global) -> Option<Setting<Ruled>> {
    let network = Network::new([0; 32], Links::new(3, 1, 1), 3, 4);
    Setting::new(asking(alloc)?, network, FaultSpec::new(3, 4, 3, 1, 1)?)
}

/// Whether the law of single notes holds of a run without faults, since each of its packets has one note, and node 0 came to know a node that answered.
fn keeps_its_meaning(alloc: Global, setting: &Setting<Ruled>) -> bool {
    let Ok(run) = run(alloc, setting, &FaultSet::empty()) else {
        return false;
    };
    if !has_single_notes(&run) {
        return false;
    }
    views_are_of_single_notes(setting, &run);
    keeps_its_notes(setting, &run) && knows_an_answer(&run)
}

/// Whether the law of kept notes holds of a run whose packets have one note each: no view remembers a lost note, and nodes start with zeros.
fn keeps_its_notes(setting: &Setting<Ruled>, run: &Run<Ruled>) -> bool
    requires run { IsRun (world_of setting.now) run.now }
    requires singles { (n t : ℕ) → n < nodes_of run.now → t ≤ horizon_of run.now → IfSome (cell_of run.now n t) (λ c. AreSingles c.out) }
{
    if !has_kept_notes(run) {
        return false;
    }
    if !starts_with_zeros(setting.machine.definition()) {
        return false;
    }
    kept_notes_were_single(setting, run);
    true
}

fn knows_an_answer(run: &Run<Ruled>) -> bool {
    run.nodes() == 3 && run.horizon() == 4 && run.state(0, 4).values[0] != 0
}

#[test]
fn packets_of_one_note_among_two_forms(rt: HostRuntime) {
    let holds = match asked(rt.alloc()) {
        Some(setting) => keeps_its_meaning(rt.alloc(), &setting),
        None => false,
    };
    assert!(rt; holds);
}
