//! The text of a fault: `omit 0>1 @12`, `crash 3 @10`, `pause 2 @9`.

ghost use Rattle.std.specs.Prelude.{◌≡◌, ◌≢◌, ◌<◌, ◌≤◌, ◌↔◌, ◌++◌, ℕ, List, IsSome, IfSome, IfOk, MatchOption, string_bytes, codes};
ghost use Rattle.std.specs.Fmt.{decimal};
ghost use Rattle.lf_faults.specs.declared.fault.Parts.{Parts};
ghost use Rattle.lf_faults.specs.Faults.{IsFault};
ghost use Rattle.lf_faults.specs.Texts.{node_at_step, slot_at, spelling, Reads};

use crate::{Fault, Parts};
use std::alloc::{AllocError, Global};

/// The one text of the fault, as `omit 0>1 @12`, `crash 3 @10` or `pause 2 @9`.
///
/// Numbers are decimal, with no sign and no leading zero. The error is that memory has run out.
pub fn fault_text(alloc: Global, fault: &Fault) -> Result<String, AllocError>
    ensures { IfOk result (λ text. string_bytes text ≡ spelling fault.now) }
{
    match fault.parts() {
        Parts::Omit { from, to, step } => format!(in alloc; "omit {from}>{to} @{step}"),
        Parts::Crash { node, step } => format!(in alloc; "crash {node} @{step}"),
        Parts::Pause { node, step } => format!(in alloc; "pause {node} @{step}"),
    }
}

/// The fault that the text spells. None where the text is not exactly what `fault_text` writes of a fault.
pub fn read_fault(text: &str) -> Option<Fault>
    ensures fault { (f : Parts) → IsFault f → ((result ≡ Some f) ↔ (text.now ≡ spelling f)) }
    ensures some { IsSome result ↔ ((f : Parts) × IsFault f × (text.now ≡ spelling f)) }
    ensures in_range { IfSome result IsFault }
{
    let bytes = text.as_bytes();
    if let Some(rest) = after(bytes, b"omit ") {
        return read_omission(rest);
    }
    if let Some(rest) = after(bytes, b"crash ") {
        let (node, step) = read_node_at_step(rest)?;
        return Fault::crash(node, step);
    }
    let (node, step) = read_node_at_step(after(bytes, b"pause ")?)?;
    Fault::pause(node, step)
}

/// The omission that `0>1 @12` stands for.
fn read_omission(bytes: &[u8]) -> Option<Fault>
    ensures { Reads (codes "omit " ++ bytes.now) result }
{
    let slot = read_slot(bytes)?;
    Fault::omit(slot.from, slot.to, slot.step)
}

/// A sender, a receiver and the step at which the one sends to the other.
#[derive(Clone, Copy, Debug, PartialEq, Eq)]
pub struct Slot {
    /// The sender.
    pub from: u32,
    /// The receiver.
    pub to: u32,
    /// The step at which it sends.
    pub step: u32,
}

/// The slot that `0>1 @12` names: two digits, and a step of one or two digits whose first is not 0.
///
/// Whether a network has such nodes and such a step isn't asked here. None where the bytes are anything else.
pub fn read_slot(bytes: &[u8]) -> Option<Slot>
    ensures { MatchOption result
        ((from to step : ℕ) → from < 10 → to < 10 → 1 ≤ step → step < 100 → bytes.now ≢ slot_at from to step)
        (λ slot. (slot.from < 10) × (slot.to < 10) × (1 ≤ slot.step) × (slot.step < 100)
        × (bytes.now ≡ slot_at slot.from slot.to slot.step)) }
{
    let (from, rest) = read_digit(bytes)?;
    let (to, step) = read_node_at_step(after(rest, b">")?)?;
    Some(Slot { from, to, step })
}

/// The node and the step of `3 @10`. Whether they are in a fault's ranges is tested where the fault is made.
fn read_node_at_step(bytes: &[u8]) -> Option<(u32, u32)>
    ensures { MatchOption result
        ((node step : ℕ) → node < 10 → 1 ≤ step → step < 100 → bytes.now ≢ node_at_step node step)
        (λ r. (r.0 < 10) × (1 ≤ r.1) × (r.1 < 100) × (bytes.now ≡ node_at_step r.0 r.1)) }
{
    let (node, rest) = read_digit(bytes)?;
    let step = read_step(after(rest, b" @")?)?;
    Some((node, step))
}

/// The step that the bytes are: one or two digits, of which the first is not 0. None where they are anything else.
pub fn read_step(bytes: &[u8]) -> Option<u32>
    ensures { MatchOption result
        ((step : ℕ) → 1 ≤ step → step < 100 → bytes.now ≢ decimal step)
        (λ step. (1 ≤ step) × (step < 100) × (bytes.now ≡ decimal step)) }
{
    let (first, rest) = read_digit(bytes)?;
    if first == 0 {
        return None;
    }
    if rest.is_empty() {
        return Some(first);
    }
    let (second, rest) = read_digit(rest)?;
    if rest.is_empty() {
        Some(10 * first + second)
    } else {
        None
    }
}

/// The digit that the bytes begin with, and what follows it.
fn read_digit(bytes: &[u8]) -> Option<(u32, &[u8])>
    ensures { MatchOption result
        ((digit : ℕ) (rest : List ℕ) → digit < 10 → bytes.now ≢ decimal digit ++ rest)
        (λ r. (r.0 < 10) × (bytes.now ≡ decimal r.0 ++ r.1.now)) }
{
    let (first, rest) = bytes.split_first()?;
    if !first.is_ascii_digit() {
        return None;
    }
    Some((u32::from(*first - b'0'), rest))
}

/// What follows the prefix. None where the bytes begin otherwise.
fn after<'a>(bytes: &'a [u8], prefix: &[u8]) -> Option<&'a [u8]>
    ensures { MatchOption result
        ((rest : List ℕ) → bytes.entry.now ≢ prefix.now ++ rest)
        (λ rest. bytes.entry.now ≡ prefix.now ++ rest.now) }
{
    bytes.strip_prefix(prefix)
}
