//! Two runs beside each other: of a built-in protocol, and of the same as rules.

use crate::made::Made;
use lf_protocols::{Fact, Note, Protocol};
use lf_rule_machine::Ruled;
use lf_rules::{Given, Rules};
use lf_sim::{Machine, Run, Setting, run};
use std::alloc::{AllocError, Global};
use std::process::Abort;
use std::sync::Arc;

/// The facts of all protocols.
const FACTS: [Fact; 16] = [
    Fact::Has,
    Fact::Lacks,
    Fact::Committed,
    Fact::NotCommitted,
    Fact::Aborted,
    Fact::NotAborted,
    Fact::Blocked,
    Fact::Free,
    Fact::Holds,
    Fact::Empty,
    Fact::Done,
    Fact::NotDone,
    Fact::Primary,
    Fact::Backup,
    Fact::Claimed,
    Fact::Unclaimed,
];

/// The two agree in a made setting. Each comparison ends here: an assertion is dear to prove.
pub(crate) fn agrees(rt: &impl Abort, truth: bool, of: u64) {
    assert!(rt; truth, "at {of}");
}

/// Two protocols that ought to do the same, and their runs.
#[derive(Clone, Copy)]
struct Pair<'a> {
    alloc: Global,
    built: &'a Protocol,
    ruled: &'a Protocol,
    one: &'a Run<Protocol>,
    other: &'a Run<Protocol>,
}

/// Whether a built-in protocol and one of rules, with these values of its constants, do the same in a setting.
pub(crate) fn are_alike(
    alloc: Global,
    rules: &Arc<Rules>,
    given: Result<Vec<Given>, AllocError>,
    built: Option<Protocol>,
    made: Option<Made>,
) -> bool {
    match (given, built, made) {
        (Ok(given), Some(built), Some(made)) => {
            let ruled = ruled(alloc, rules, built.nodes(), given.as_slice());
            do_the_same(alloc, made, built, ruled)
        }
        _ => false,
    }
}

/// The protocol of rules among so many nodes.
fn ruled(alloc: Global, rules: &Arc<Rules>, nodes: u32, given: &[Given]) -> Option<Protocol> {
    let rules = rules.clone().ok()?;
    let ruled = Ruled::new(alloc, rules, nodes, given).unwrap_or(None)?;
    Some(Protocol::ruled(ruled))
}

/// The same of protocols.
fn do_the_same(alloc: Global, made: Made, built: Protocol, ruled: Option<Protocol>) -> bool {
    let Some(ruled) = ruled else {
        return false;
    };
    let built = Setting::new(built, made.network, made.spec);
    let ruled = Setting::new(ruled, made.network, made.spec);
    match (built, ruled) {
        (Some(built), Some(ruled)) => run_alike(alloc, &made, &built, &ruled),
        _ => false,
    }
}

/// The same of settings.
fn run_alike(
    alloc: Global,
    made: &Made,
    built: &Setting<Protocol>,
    ruled: &Setting<Protocol>,
) -> bool {
    match (run(alloc, built, &made.set), run(alloc, ruled, &made.set)) {
        (Ok(one), Ok(other)) => {
            let pair = Pair {
                alloc,
                built: &built.machine,
                ruled: &ruled.machine,
                one: &one,
                other: &other,
            };
            one.nodes() == other.nodes()
                && one.horizon() == other.horizon()
                && pair.same_runs()
                && pair.same_facts()
        }
        _ => false,
    }
}

impl Pair<'_> {
    /// Whether the same nodes are up and the same notes are sent in the two runs.
    fn same_runs(&self) -> bool {
        let mut same = true;
        for step in 0..self.one.horizon() + 1 {
            same = same && self.same_step(step);
        }
        same
    }

    /// The same at a step.
    fn same_step(&self, step: u32) -> bool {
        let mut same = true;
        for node in 0..self.one.nodes() {
            same = same
                && self.one.up(node, step) == self.other.up(node, step)
                && self.same_notes(node, step);
        }
        same
    }

    /// The same of what a node sends at a step.
    fn same_notes(&self, node: u32, step: u32) -> bool {
        if node >= self.one.nodes() || node >= self.other.nodes() {
            return false;
        }
        if step > self.one.horizon() || step > self.other.horizon() {
            return false;
        }
        let mut same = true;
        for to in 0..9 {
            let built = self.one.sent(node, to, step);
            same = same && self.same_note(built, self.other.sent(node, to, step));
        }
        same
    }

    /// Whether two notes have the same text, or there is none on either side.
    fn same_note(&self, built: Option<Note>, ruled: Option<Note>) -> bool {
        match (built, ruled) {
            (Some(built), Some(ruled)) => self.same_text(&built, &ruled),
            (None, None) => true,
            _ => false,
        }
    }

    fn same_text(&self, built: &Note, ruled: &Note) -> bool {
        let mut one = String::new(self.alloc);
        let mut other = String::new(self.alloc);
        self.built.push_note(built, &mut one).is_ok()
            && self.ruled.push_note(ruled, &mut other).is_ok()
            && one.as_str() == other.as_str()
    }

    /// Whether the two have the same facts, and the same are shown in the two runs.
    fn same_facts(&self) -> bool {
        let mut same = true;
        for fact in &FACTS {
            let word = fact.word();
            same = same
                && match (self.built.fact(word), self.ruled.fact(word)) {
                    (Some(fact), Some(named)) => self.shows_same(fact, named),
                    (None, None) => true,
                    _ => false,
                };
        }
        same
    }

    /// Whether a fact of each is shown at the same points.
    fn shows_same(&self, fact: Fact, named: Fact) -> bool {
        let mut same = true;
        for step in 0..self.one.horizon() + 1 {
            same = same && self.shows_same_at(fact, named, step);
        }
        same
    }

    /// The same at a step.
    fn shows_same_at(&self, fact: Fact, named: Fact, step: u32) -> bool {
        let mut same = true;
        for node in 0..self.one.nodes() {
            same = same
                && shown(self.built, self.one, fact, node, step)
                    == shown(self.ruled, self.other, named, node, step);
        }
        same
    }
}

/// Whether a fact is shown at a point. None where it is no point of the run.
fn shown(
    machine: &Protocol,
    run: &Run<Protocol>,
    fact: Fact,
    node: u32,
    step: u32,
) -> Option<bool> {
    if node < machine.nodes() && node < run.nodes() && step <= run.horizon() {
        Some(machine.shows(node, run.state(node, step), fact))
    } else {
        None
    }
}
