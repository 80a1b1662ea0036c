//! What is wrong with words that are to name a set of faults.

use crate::hint::{Hint, Words, bound, in_quotes, said};
use crate::misspelt::misspelt;
use lf_faults::{Fault, FaultSet, FaultSpec, Parts, read_fault};

/// How faults are joined.
pub(crate) const JOINED: &str = "faults are joined by single commas, no blanks";

/// Why words name no set of faults that these bounds allow: the first word that can't be added to those before it.
pub(crate) fn faults_hint(spec: &FaultSpec, words: &str) -> Option<Hint> {
    if words.is_empty() {
        return None;
    }
    let mut set = FaultSet::empty();
    for word in words.split(',') {
        match added(spec, &set, word) {
            Ok(larger) => set = larger,
            Err(_) if word.is_empty() => return Some(said("a comma too many", JOINED)),
            Err(bar) => return Some(said(in_quotes(word).as_str(), bar.as_str())),
        }
    }
    None
}

/// The set with the fault that a word spells, or what bars it.
fn added(spec: &FaultSpec, set: &FaultSet, word: &str) -> Result<FaultSet, Words> {
    let Some(fault) = read_fault(word) else {
        return Err(misspelt(spec, word));
    };
    if set.contains(&fault) {
        return Err(Words::of("named twice"));
    }
    if let Some(bar) = bar_of(spec, set, &fault) {
        return Err(bar);
    }
    match set.insert(fault) {
        Some(larger) if larger.len() <= spec.budget() as usize => Ok(larger),
        _ => Err(bound("budget", spec.budget(), "no set has more faults")),
    }
}

/// What bars a fault that the set hasn't, but for the budget.
fn bar_of(spec: &FaultSpec, set: &FaultSet, fault: &Fault) -> Option<Words> {
    let parts = fault.parts();
    bar_of_numbers(spec, parts).or(match parts {
        Parts::Omit { .. } => None,
        Parts::Crash { node, .. } => bar_of_crash(spec, set, node),
        Parts::Pause { node, .. } => bar_of_pause(spec, set, node),
    })
}

/// What bars a fault with these parts, in whatever set: its first number that is out of range.
pub(crate) fn bar_of_numbers(spec: &FaultSpec, parts: Parts) -> Option<Words> {
    match parts {
        Parts::Omit { from, to, .. } if from == to => {
            Some(Words::of("no note goes from a node to itself"))
        }
        Parts::Omit { from, to, step } => {
            bar_of_point(spec.nodes(), spec.horizon(), from.max(to), step).or(bar_of_omission(
                spec, step,
            ))
        }
        Parts::Crash { node, step } | Parts::Pause { node, step } => {
            bar_of_point(spec.nodes(), spec.horizon(), node, step)
        }
    }
}

/// What bars a node at a step, among so many nodes and steps.
pub(crate) fn bar_of_point(nodes: u32, horizon: u32, node: u32, step: u32) -> Option<Words> {
    let last = nodes.saturating_sub(1);
    if node > last {
        return Some(Words::of(format_args!("the nodes are from 0 to {last}")));
    }
    if step < 1 || horizon < step {
        return Some(Words::of(format_args!("the step is from 1 to {horizon}")));
    }
    None
}

/// What bars an omission at a step.
fn bar_of_omission(spec: &FaultSpec, step: u32) -> Option<Words> {
    let last = spec.last_omission();
    if step > last {
        return Some(bound("last_omission", last, "no later note is omitted"));
    }
    None
}

/// What bars a crash more.
fn bar_of_crash(spec: &FaultSpec, set: &FaultSet, at: u32) -> Option<Words> {
    let mut count: u32 = 0;
    for fault in set.items() {
        if let Parts::Crash { node, .. } = fault.parts() {
            if node == at {
                return Some(Words::of("its node crashes already"));
            }
            count = count.saturating_add(1);
        }
    }
    if count < spec.crashes() {
        None
    } else {
        Some(bound("crashes", spec.crashes(), "no more nodes crash"))
    }
}

/// What bars a pause more.
fn bar_of_pause(spec: &FaultSpec, set: &FaultSet, at: u32) -> Option<Words> {
    let mut count: u32 = 0;
    for fault in set.items() {
        if let Parts::Pause { node, .. } = fault.parts() {
            if node == at {
                return Some(Words::of("its node pauses already"));
            }
            count = count.saturating_add(1);
        }
    }
    if count < spec.pauses() {
        None
    } else {
        Some(bound("pauses", spec.pauses(), "no more nodes pause"))
    }
}
