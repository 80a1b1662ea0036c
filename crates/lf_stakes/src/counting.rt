//! In how many runs each rule is taken.

ghost use Rattle.std.specs.Prelude.{◌≡◌, ℕ, ◌+◌, ◌<◌, ◌≤◌, ◌^◌, ◌++◌, [], IfOk, All, length, slice_index, if◌then◌else◌};
ghost use Rattle.lf_rules.specs.Forms.{rules_in};
ghost use Rattle.lf_sim.specs.Runs.{each_below};
ghost use Rattle.lf_sim.specs.Settings.{IsRun, set_of, world_of};
ghost use Rattle.lf_taken.specs.Points.{taken_after};
ghost use Rattle.lf_stakes.specs.Stakes.{counts_of, has_number, rules_of};

use lf_faults::FaultSet;
use lf_protocols::{Kind, Protocol};
use lf_rules::Chain;
use lf_sim::{Run, Setting, run};
use lf_taken::taken;
use std::alloc::{AllocError, Global};

/// For each rule of the protocol, by its number, in how many of these sets' runs some node takes it at some step: the first is of rule 1. There are no
/// counts where the protocol isn't one of rules. Each set is run once. The error is that memory has run out.
pub fn rules_taken(
    alloc: Global,
    setting: &Setting<Protocol>,
    sets: &[FaultSet],
) -> Result<Vec<usize>, AllocError>
    ensures { IfOk result (λ counts. counts.items ≡ counts_of setting.now.machine (world_of setting.now) sets.now) }
{
    let mut counts = vec![in alloc; 0; rules_of(&setting.machine)]?;
    for set in sets {
        let run = run(alloc, setting, set)?;
        let numbers = taken_in(alloc, setting, &run)?;
        count(counts.as_mut_slice(), numbers.as_slice());
    }
    Ok(counts)
}

/// How many rules a protocol has: none where it isn't one of rules.
fn rules_of(protocol: &Protocol) -> usize
    ensures { result ≡ rules_of protocol.now }
{
    match protocol.kind() {
        Kind::Ruled(ruled) => rules_in(ruled.definition().chains.as_slice()),
        _ => 0,
    }
}

/// How many rules chains have in all.
fn rules_in(chains: &[Chain]) -> usize
    requires { rules_in chains.now ≤ 128 }
    ensures { result ≡ rules_in chains.now }
{
    let mut rules = 0;
    for chain in chains {
        rules += chain.rules.len();
    }
    rules
}

/// The numbers of the rules that the nodes take at the steps of a run, once for each time.
fn taken_in(
    alloc: Global,
    setting: &Setting<Protocol>,
    run: &Run<Protocol>,
) -> Result<Vec<usize>, AllocError>
    requires { IsRun (world_of setting.now) run.now }
    ensures { let w = world_of setting.now in
        IfOk result (λ numbers. numbers.items
        ≡ each_below (λ n. each_below (taken_after setting.now.machine w (set_of run.now) n) w.horizon) w.rules.nodes) }
{
    let mut numbers = Vec::new(alloc);
    for node in 0..run.nodes() {
        push_taken(alloc, setting, run, node, &mut numbers)?;
    }
    Ok(numbers)
}

/// Adds those that a node takes.
fn push_taken(
    alloc: Global,
    setting: &Setting<Protocol>,
    run: &Run<Protocol>,
    node: u32,
    numbers: &mut Vec<usize>,
) -> Result<(), AllocError>
    requires run { IsRun (world_of setting.now) run.now }
    requires node { node < (world_of setting.now).rules.nodes }
    ensures { let w = world_of setting.now in
        IfOk result (λ _. numbers.new.items
        ≡ numbers.old.items ++ each_below (taken_after setting.now.machine w (set_of run.now) node) w.horizon) }
{
    for past in 0..run.horizon() {
        let more = taken(alloc, setting, run, node, past)?;
        numbers.extend_from_slice(more.as_slice())?;
    }
    Ok(())
}

/// Counts one run more for each rule whose number is among those taken in it.
fn count(counts: &mut [usize], numbers: &[usize])
    requires { All (λ count. count + 1 < 2 ^ 64) counts.old }
    ensures { (i : ℕ) → i < length counts.old →
        slice_index counts.new i ≡ slice_index counts.old i + (if has_number (i + 1) numbers.now then 1 else 0) }
{
    for i in 0..counts.len() {
        if numbers.contains(&(i + 1)) {
            counts[i] += 1;
        }
    }
}
