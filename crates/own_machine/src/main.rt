//! A machine of one's own, run under faults, judged and searched: three nodes that tell each other a number.
#![tactic(auto)]

ghost use Rattle.std.specs.Prelude.{◌≡◌};
ghost use Rattle.own_machine.specs.Gossip.{learned, told};

use lf_faults::{Fault, FaultSet, FaultSpec, fault_text};
use lf_latency::{Links, Network};
use lf_list::Listed;
use lf_outcome::{Formula, holds};
use lf_plain::first_missing;
use lf_sim::{Entry, Letter, Machine, Out, Setting, Stepped, run};
use lf_trace::{Worded, trace};
use std::alloc::{AllocError, Global};
use std::io;

/// Three nodes, of which node 0 knows a number. Who knows it tells all others at each step.
#[derive(Clone, Copy, Debug, PartialEq, Eq, Drop)]
struct Gossip;

impl Machine for Gossip {
    ghost use Rattle.own_machine.specs.Gossip.{gossip, learned};
    ghost use Rattle.own_machine.specs.GossipLemmas.{told-silent};

    // The number that a node knows, or 0.
    type State = u32;

    type Note = u32;

    // That a node knows this number.
    type Fact = u32;

    ghost rules = { λ machine. gossip };

    fn nodes(&self) -> u32 {
        3
    }

    fn start(&self, node: u32) -> u32 {
        if node == 0 { 7 } else { 0 }
    }

    fn step(&self, node: u32, _t: u32, known: u32, inbox: &[Letter<u32>]) -> Stepped<u32, u32> {
        let state = learned(known, inbox);
        Stepped {
            state,
            out: told(node, state),
        }
    }

    fn wake(&self, _node: u32, _t: u32, known: u32) -> u32 {
        known
    }

    fn shows(&self, _node: u32, known: u32, fact: u32) -> bool {
        known == fact
    }

    fn entry(&self, _node: u32, _known: &u32, _topic: u8) -> Option<Entry> {
        None
    }

    ghost silent = { λ machine n t to known inbox node first last nobody. told-silent n (learned known inbox) to nobody };
}

impl Worded for Gossip {
    ghost use Rattle.own_machine.specs.Gossip.{words};

    ghost words = { λ machine. words };

    fn push_state(&self, known: &u32, text: &mut String) -> Result<(), AllocError> {
        if *known == 0 {
            text.push_str("knows nothing")
        } else {
            write!(text, "knows {known}")
        }
    }

    fn push_note(&self, number: &u32, text: &mut String) -> Result<(), AllocError> {
        write!(text, "number {number}")
    }
}

/// What a node knows after its inbox.
fn learned(known: u32, inbox: &[Letter<u32>]) -> u32
    ensures { result ≡ learned known inbox.now }
{
    match inbox.first() {
        Some(letter) if known == 0 => letter.note,
        _ => known,
    }
}

/// What a node sends that knows this.
fn told(node: u32, known: u32) -> Out<u32>
    ensures { result ≡ told node known }
{
    if known == 0 {
        Out::none()
    } else {
        Out::to_others(3, node, known)
    }
}

/// Three steps, in which each note takes one; up to three notes may be lost, at the steps 1 and 2.
fn setting() -> Option<Setting<Gossip>> {
    let network = Network::new([0; 32], Links::new(3, 1, 0), 3, 3);
    let bounds = FaultSpec::new(3, 3, 2, 0, 3)?;
    Setting::new(Gossip, network, bounds)
}

/// Node 2 knows the number after step 3, or isn't up.
fn promise(alloc: Global) -> Result<Formula<u32>, AllocError> {
    let down = Formula::Down { node: 2, step: 3 };
    let knows = Formula::Shows {
        node: 2,
        step: 3,
        fact: 7,
    };
    Ok(Formula::Any(Listed::from_vec(Vec::from_array(alloc, [down, knows])?)))
}

/// Prints whether the run of these faults keeps the promise.
fn tell(
    rt: &HostRuntime,
    setting: &Setting<Gossip>,
    formula: &Formula<u32>,
    name: &str,
    faults: &[Option<Fault>],
) -> io::Result<()> {
    let mut set = FaultSet::empty();
    for fault in faults.iter().copied().flatten() {
        set = set.insert(fault).unwrap_or(set);
    }
    let played = run(rt.alloc(), setting, &set)?;
    let verdict = if holds(setting, formula, &played) {
        "reaches"
    } else {
        "misses"
    };
    println!(rt; "{name}: {verdict}")
}

/// Prints the first of the smallest sets of faults that break the promise, and what happens under it.
fn tell_least(
    rt: &HostRuntime,
    setting: &Setting<Gossip>,
    formula: &Formula<u32>,
) -> io::Result<()> {
    let Some(set) = first_missing(rt.alloc(), setting, formula)? else {
        return println!(rt; "none");
    };
    println!(rt; "least {}", set.len())?;
    for fault in set.items() {
        println!(rt; "{}", fault_text(rt.alloc(), fault)?)?;
    }
    let played = run(rt.alloc(), setting, &set)?;
    print!(rt; "{}", trace(rt.alloc(), setting, formula, &played)?)
}

fn main(rt: HostRuntime) -> io::Result<()> {
    let Some(setting) = setting() else {
        return println!(rt; "no such setting");
    };
    let formula = promise(rt.alloc())?;
    // twice the direct note, and then the one that node 1 sends on
    let lost = [
        Fault::omit(0, 2, 1),
        Fault::omit(0, 2, 2),
        Fault::omit(1, 2, 2),
    ];
    tell(&rt, &setting, &formula, "no fault", &lost[..0])?;
    tell(&rt, &setting, &formula, "two faults", &lost[..2])?;
    tell(&rt, &setting, &formula, "three faults", &lost)?;
    tell_least(&rt, &setting, &formula)
}
