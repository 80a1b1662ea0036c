//! The texts of faults, written and read back, and texts that are refused.

use crate::rows::{agrees, agrees_at};
use lf_faults::{Fault, fault_text, read_fault};
use std::alloc::Global;

/// Whether there is a fault, and its text reads back.
fn reads_back(alloc: Global, fault: Option<Fault>) -> bool {
    let Some(fault) = fault else {
        return false;
    };
    match fault_text(alloc, &fault) {
        Ok(text) => read_fault(text.as_str()) == Some(fault),
        Err(_) => false,
    }
}

/// Whether every omission of a node at a step reads back.
fn omissions_read_back(alloc: Global, node: u32, step: u32) -> bool {
    for to in 0..8 {
        if to != node && !reads_back(alloc, Fault::omit(node, to, step)) {
            return false;
        }
    }
    true
}

/// Whether every fault of a node at a step reads back.
fn all_read_back(alloc: Global, node: u32, step: u32) -> bool {
    reads_back(alloc, Fault::crash(node, step))
        && reads_back(alloc, Fault::pause(node, step))
        && omissions_read_back(alloc, node, step)
}

#[test]
fn every_fault_reads_back(rt: HostRuntime) {
    for step in 1..=48 {
        for node in 0..8 {
            let read_back = all_read_back(rt.alloc(), node, step);
            agrees_at(&rt, read_back, &[u64::from(node), u64::from(step)]);
        }
    }
}

/// Whether there is a fault, and the text is read as it and is its text.
fn is_text_of(alloc: Global, text: &str, fault: Option<Fault>) -> bool {
    let Some(fault) = fault else {
        return false;
    };
    match fault_text(alloc, &fault) {
        Ok(written) => read_fault(text) == Some(fault) && written.as_str() == text,
        Err(_) => false,
    }
}

#[test]
fn reads_and_writes_these(rt: HostRuntime) {
    for (text, fault) in [
        ("omit 0>1 @1", Fault::omit(0, 1, 1)),
        ("omit 7>0 @48", Fault::omit(7, 0, 48)),
        ("crash 3 @10", Fault::crash(3, 10)),
        ("pause 2 @9", Fault::pause(2, 9)),
    ] {
        agrees(&rt, is_text_of(rt.alloc(), text, fault), text);
    }
}

/// Texts of no fault, with `|` between them. The first is empty.
const REFUSED: &str = concat!(
    "|pause",
    "|pause ",
    "|crash 0",
    "|crash 0 @",
    "|crash 0 1",
    "|crash 0 @01",
    "|crash 0 @0",
    "|crash 0 @00",
    "|crash 0 @49",
    "|crash 0 @480",
    "|crash 0 @+1",
    "|crash 0 @-1",
    "|crash +0 @1",
    "|crash 00 @1",
    "|crash 8 @1",
    "|crash 9 @1",
    "|crash 10 @1",
    "|crash  0 @1",
    "|crash 0  @1",
    "|crash 0 @ 1",
    "|crash0 @1",
    "|crash 0@1",
    "| crash 0 @1",
    "|crash 0 @1 ",
    "|crash 0 @1\n",
    "|crash 0 @1\r\n",
    "|crash\t0 @1",
    "|Crash 0 @1",
    "|CRASH 0 @1",
    "|crash 0 @１",
    "|crash é @1",
    "|crash 0>1 @1",
    "|omit 1>1 @1",
    "|omit 0 @1",
    "|omit 0>8 @1",
    "|omit 8>0 @1",
    "|omit 0>1 @49",
    "|omit 0>1 @0",
    "|omit 0> 1 @1",
    "|omit 0 >1 @1",
    "|omit 0>1@1",
    "|omit 0-1 @1",
    "|omit 0>1 @1,",
    "|pause 0 @50",
);

#[test]
fn refuses_these(rt: HostRuntime) {
    for text in REFUSED.split('|') {
        agrees(&rt, read_fault(text).is_none(), text);
    }
}
