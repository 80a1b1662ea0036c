//! Late arrivals: lists that are read, and what is told of runs by them.

ghost use Rattle.lf_latency.specs.Arrivals.{IsPlace};

use crate::texts::{agrees, columns, setting};
use lf_delays::{push_delays, read_delays, told_delays};
use lf_faults::FaultSet;
use lf_latency::{Links, Network};
use lf_protocols::Protocol;
use lf_sim::{Setting, run};
use lf_trace::read_faults;
use std::alloc::Global;

/// A network of three nodes and 20 steps, on which a note takes 1 to 4 steps.
fn network() -> Network {
    Network::new([7; 32], Links::new(3, 1, 3), 3, 20)
}

/// The step at which the note of a slot arrives by a list.
fn arrival(alloc: Global, list: &str, from: u32, to: u32, step: u32) -> Option<u32>
    requires { IsPlace from to step }
{
    match read_delays(alloc, &network(), list) {
        Ok(Some(arrivals)) => Some(arrivals.arrival(from, to, step)),
        _ => None,
    }
}

#[test]
fn lists_of_late_arrivals_are_read(rt: HostRuntime) {
    let alloc = rt.alloc();
    let two = "2>0 @5 8,0>1 @9 13";
    agrees(&rt, arrival(alloc, "", 0, 1, 9) == Some(10), "no notes");
    agrees(&rt, arrival(alloc, two, 0, 1, 9) == Some(13), "the second");
    agrees(&rt, arrival(alloc, two, 2, 0, 5) == Some(8), "the first");
    agrees(&rt, arrival(alloc, two, 1, 0, 9) == Some(10), "another");
    agrees(
        &rt,
        arrival(alloc, "1>2 @20 21", 1, 2, 20) == Some(21),
        "as early as it can",
    );
}

/// The lines of the late notes of the run of a set.
fn told_of(alloc: Global, setting: &Setting<Protocol>, set: &FaultSet) -> Option<String> {
    let run = run(alloc, setting, set).ok()?;
    let delays = told_delays(alloc, setting, &run).ok()?;
    let mut text = String::new(alloc);
    push_delays(&mut text, delays.as_slice()).ok()?;
    Some(text)
}

/// The lines of the late notes of the run of a protocol, the numbers of its setting, a list of faults and one of late arrivals.
fn told(alloc: Global, head: &str) -> Option<String> {
    let (protocol, rest) = columns(head);
    let (numbers, rest) = columns(rest);
    let (faults, list) = columns(rest);
    let set = read_faults(faults)?;
    let setting = setting(protocol, numbers)?;
    match read_delays(alloc, &setting.network, list) {
        Ok(Some(arrivals)) => told_of(alloc, &setting.choosing(&arrivals), &set),
        _ => None,
    }
}

/// Runs, in blocks with `#` between any two. A block's first line is a protocol, the numbers of its setting, a list of faults and one of
/// late arrivals, and the others are what is told of the run's late notes.
const RUNS: &str = concat!(
    // A note that is late.
    "retry 2 1|6 1 0 2 1 1 1 3 0||0>1 @1 4\narrive 0>1 @1 4\n",
    // One that isn't.
    "#retry 2 1|6 1 0 2 1 1 1 3 0||0>1 @1 2\n",
    "#retry 2 1|6 1 0 2 1 1 1 3 0||\n",
    // One that is omitted, and one that isn't sent.
    "#retry 2 1|6 1 0 2 1 1 1 3 0|omit 0>1 @1|0>1 @1 4\n",
    "#retry 2 1|6 1 0 2 1 1 1 3 0||1>0 @3 6\n",
    // A node passes the data on once it has it. The list is in another order.
    "#redundant 2 1|6 1 0 2 1 1 1 3 0||1>0 @4 6,0>1 @1 4\narrive 0>1 @1 4\narrive 1>0 @4 6\n",
    // One that arrives after the last step.
    "#redundant 2 1|6 1 0 2 1 1 1 3 0||1>0 @4 8,0>1 @1 4\narrive 0>1 @1 4\narrive 1>0 @4 8\n",
);

/// Whether of the run of the first line the others are told.
fn is_told(alloc: Global, block: &str) -> bool {
    let (head, lines) = block.split_once('\n').unwrap_or((block, ""));
    match told(alloc, head) {
        Some(found) => found.as_str() == lines,
        None => false,
    }
}

#[test]
fn late_notes_are_told(rt: HostRuntime) {
    for block in RUNS.split('#') {
        agrees(&rt, is_told(rt.alloc(), block), block);
    }
}
