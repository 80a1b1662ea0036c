//! Which sets of faults are allowed.

ghost use Rattle.std.specs.Prelude.{◌≡◌, ℕ, ◌<◌, ◌≤◌, ◌↔◌, IsTrue};
ghost use Rattle.std.specs.List.{count_by, AllByRecursion};
ghost use Rattle.lf_faults.specs.Allowed.{IsAdmitted, IsAllowed, CanAdd, HasRoom, is_crash, is_pause, is_crash_of, is_pause_of};
ghost use Rattle.lf_faults.specs.Faults.{inserted};

use crate::{Fault, FaultSet, FaultSpec, Parts};

/// How many crashes of a node there are.
fn crashes_of(set: &FaultSet, at: u32) -> usize
    ensures { result ≡ count_by (is_crash_of at) set.now }
{
    set.items()
        .iter()
        .filter(|fault| match fault.parts() {
            Parts::Crash { node, .. } => at == node,
            Parts::Omit { .. } | Parts::Pause { .. } => false,
        })
        .count()
}

/// How many pauses of a node there are.
fn pauses_of(set: &FaultSet, at: u32) -> usize
    ensures { result ≡ count_by (is_pause_of at) set.now }
{
    set.items()
        .iter()
        .filter(|fault| match fault.parts() {
            Parts::Pause { node, .. } => at == node,
            Parts::Omit { .. } | Parts::Crash { .. } => false,
        })
        .count()
}

/// How many crashes there are.
fn crashes_in(set: &FaultSet) -> usize
    ensures { result ≡ count_by is_crash set.now }
{
    set.items()
        .iter()
        .filter(|fault| matches!(fault.parts(), Parts::Crash { .. }))
        .count()
}

/// How many pauses there are.
fn pauses_in(set: &FaultSet) -> usize
    ensures { result ≡ count_by is_pause set.now }
{
    set.items()
        .iter()
        .filter(|fault| matches!(fault.parts(), Parts::Pause { .. }))
        .count()
}

/// Whether each is a fault of the bounds.
fn admits_each(spec: &FaultSpec, set: &FaultSet) -> bool
    ensures { IsTrue result ↔ AllByRecursion (IsAdmitted spec.now) set.now }
{
    set.items().iter().all(|fault| spec.admits_fault(fault))
}

/// Whether no node below `nodes` crashes twice or pauses twice.
fn once_each(nodes: u32, set: &FaultSet) -> bool
    ensures { IsTrue result ↔ ((n : ℕ) → n < nodes → (count_by (is_crash_of n) set.now ≤ 1) × (count_by (is_pause_of n) set.now ≤ 1)) }
{
    for node in 0..nodes {
        if crashes_of(set, node) > 1 || pauses_of(set, node) > 1 {
            return false;
        }
    }
    true
}

/// Whether the set is allowed: its faults are of the bounds, with at most one crash and at most one pause of each node,
/// at most as many crashes, pauses and faults as the bounds say.
pub fn admits(spec: &FaultSpec, set: &FaultSet) -> bool
    ensures { IsTrue result ↔ IsAllowed spec.now set.now }
{
    if set.len() > spec.budget() as usize {
        return false;
    }
    if crashes_in(set) > spec.crashes() as usize {
        return false;
    }
    if pauses_in(set) > spec.pauses() as usize {
        return false;
    }
    if !once_each(spec.nodes(), set) {
        return false;
    }
    admits_each(spec, set)
}

/// Whether one fault more may be added to an allowed set: it isn't there, and the set with it is allowed.
pub fn fits(spec: &FaultSpec, set: &FaultSet, fault: &Fault) -> bool
    requires { IsAllowed spec.now set.now }
    ensures { IsTrue result ↔ CanAdd spec.now set.now fault.now }
{
    if set.len() >= spec.budget() as usize {
        return false;
    }
    if !spec.admits_fault(fault) {
        return false;
    }
    if set.contains(fault) {
        return false;
    }
    has_room(spec, set, fault)
}

/// Whether the bounds on crashes and pauses leave room for the fault.
fn has_room(spec: &FaultSpec, set: &FaultSet, fault: &Fault) -> bool
    ensures { IsTrue result ↔ HasRoom spec.now set.now fault.now }
{
    match fault.parts() {
        Parts::Omit { .. } => true,
        Parts::Crash { node, .. } => {
            crashes_of(set, node) == 0 && crashes_in(set) < spec.crashes() as usize
        }
        Parts::Pause { node, .. } => {
            pauses_of(set, node) == 0 && pauses_in(set) < spec.pauses() as usize
        }
    }
}

/// Whether a fault may be added to a set: it isn't there, and the set with it is allowed.
pub fn can_add(spec: &FaultSpec, set: &FaultSet, fault: Fault) -> bool
    ensures { IsTrue result ↔ CanAdd spec.now set.now fault }
{
    if !admits(spec, set) {
        return false;
    }
    fits(spec, set, &fault)
}

/// The set with one fault more, which may be added.
pub fn with(spec: &FaultSpec, set: &FaultSet, fault: Fault) -> FaultSet
    requires { CanAdd spec.now set.now fault }
    ensures { result ≡ inserted fault set.now }
{
    let _limits = spec.budget();
    match set.insert(fault) {
        Some(larger) => larger,
        None => *set,
    }
}
