//! The order of the allowed sets, against an enumeration written apart from it; and a few examples.

ghost use Rattle.lf_faults.specs.Allowed.{IsAllowed, IsLast};

use crate::rows::agrees;
use lf_faults::{Fault, FaultSet, FaultSpec, Parts, admits, can_add, next_set, with};
use std::alloc::{AllocError, Global};

/// The fault of a node at a step, of this kind: an omission to the node of this number, or behind all of those a crash or a pause.
fn fault_of(nodes: u32, kind: u32, node: u32, step: u32) -> Option<Fault> {
    if kind < nodes {
        Fault::omit(kind, node, step)
    } else if kind == nodes {
        Fault::crash(node, step)
    } else {
        Fault::pause(node, step)
    }
}

/// Every fault between the nodes and within the horizon, in order.
fn all_faults(alloc: Global, nodes: u32, horizon: u32) -> Result<Vec<Fault>, AllocError> {
    let mut faults = Vec::new(alloc);
    for step in 1..=horizon {
        for kind in 0..nodes.saturating_add(2) {
            for node in 0..nodes {
                if let Some(fault) = fault_of(nodes, kind, node, step) {
                    faults.push(fault)?;
                }
            }
        }
    }
    Ok(faults)
}

/// The set with a fault more, where the fault is behind those of the set.
fn longer(set: &FaultSet, fault: &Fault) -> Option<FaultSet> {
    match set.items().last() {
        Some(last) if last >= fault => None,
        _ => set.insert(*fault),
    }
}

/// Every set of one fault more than the given ones, which are in order, in order.
fn larger(alloc: Global, sets: &[FaultSet], faults: &[Fault]) -> Result<Vec<FaultSet>, AllocError> {
    let mut found = Vec::new(alloc);
    for set in sets {
        for fault in faults {
            if let Some(more) = longer(set, fault) {
                found.push(more)?;
            }
        }
    }
    Ok(found)
}

/// Whether two faults are crashes of one node, or pauses of one node.
fn clash(one: &Fault, other: &Fault) -> bool {
    match (one.parts(), other.parts()) {
        (Parts::Crash { node: n, .. }, Parts::Crash { node: m, .. }) => n == m,
        (Parts::Pause { node: n, .. }, Parts::Pause { node: m, .. }) => n == m,
        _ => false,
    }
}

/// Whether the bounds allow the set, by looking at each pair of its faults.
fn plainly_allowed(set: &FaultSet, last_omission: u32, crashes: usize, pauses: usize) -> bool {
    let faults = set.items();
    let mut crashed = 0usize;
    let mut paused = 0usize;
    for (place, fault) in faults.iter().enumerate() {
        match fault.parts() {
            Parts::Omit { step, .. } => {
                if step > last_omission {
                    return false;
                }
            }
            Parts::Crash { .. } => crashed = crashed.saturating_add(1),
            Parts::Pause { .. } => paused = paused.saturating_add(1),
        }
        for (other_place, other) in faults.iter().enumerate() {
            if place != other_place && clash(fault, other) {
                return false;
            }
        }
    }
    crashed <= crashes && paused <= pauses
}

/// The set behind one, if the bounds allow this one.
fn behind(spec: &FaultSpec, set: &FaultSet) -> Option<FaultSet> {
    if admits(spec, set) {
        next_set(spec, set)
    } else {
        None
    }
}

/// How many sets of a level are allowed, where the walk comes by just those. What it comes by next is put behind them.
fn passed(
    spec: &FaultSpec,
    numbers: [u32; 6],
    level: &[FaultSet],
    next: &mut Option<FaultSet>,
) -> Option<usize> {
    let [_, _, last_omission, crashes, _, pauses] = numbers;
    let mut count = 0usize;
    for set in level {
        if plainly_allowed(set, last_omission, crashes as usize, pauses as usize) {
            if *next != Some(*set) {
                return None;
            }
            count = count.saturating_add(1);
            *next = behind(spec, set);
        }
    }
    Some(count)
}

/// The bounds of these numbers.
fn bounds(numbers: [u32; 6]) -> Option<FaultSpec> {
    let [nodes, horizon, last_omission, crashes, budget, pauses] = numbers;
    FaultSpec::new(nodes, horizon, last_omission, crashes, budget)?.with_pauses(pauses, 1)
}

/// Walks from the empty set, and compares each set with those of the faults. Tells how many there are, where they are the same.
fn walk_over(
    alloc: Global,
    spec: &FaultSpec,
    numbers: [u32; 6],
    faults: &[Fault],
) -> Option<usize> {
    let mut level = vec![in alloc; FaultSet::empty()].ok()?;
    let mut next = Some(FaultSet::empty());
    let mut count = 0usize;
    for _ in 0..=spec.budget() {
        count = count.saturating_add(passed(spec, numbers, &level, &mut next)?);
        level = larger(alloc, &level, faults).ok()?;
    }
    if next.is_none() { Some(count) } else { None }
}

/// The same within the bounds of these numbers.
fn walk(alloc: Global, numbers: [u32; 6]) -> Option<usize> {
    let spec = bounds(numbers)?;
    match all_faults(alloc, spec.nodes(), spec.horizon()) {
        Ok(faults) => walk_over(alloc, &spec, numbers, faults.as_slice()),
        Err(_) => None,
    }
}

/// Bounds: nodes, horizon, last_omission, crashes, budget, pauses.
const BOUNDS: [[u32; 6]; 12] = [
    [2, 1, 0, 0, 0, 0],
    [2, 1, 0, 0, 1, 0],
    [2, 1, 0, 1, 3, 0],
    [2, 2, 1, 1, 3, 1],
    [2, 3, 2, 2, 4, 2],
    [2, 2, 1, 2, 4, 2],
    [3, 2, 1, 0, 2, 0],
    [3, 2, 1, 1, 3, 0],
    [3, 2, 1, 0, 3, 1],
    [3, 2, 1, 3, 3, 3],
    [3, 3, 2, 1, 2, 1],
    [4, 2, 1, 2, 2, 2],
];

#[test]
fn the_walk_is_the_enumeration(rt: HostRuntime) {
    for numbers in BOUNDS {
        let is_same = walk(rt.alloc(), numbers).is_some();
        assert!(&rt; is_same, "under {numbers:?}");
    }
    // no omission, one of two or both, with at most one of four crashes and at most one of four pauses
    let count = walk(rt.alloc(), [2, 2, 1, 1, 3, 1]);
    agrees(&rt, count == Some(25 + 2 * 25 + 9), "the count");
}

/// The last allowed set, by a loop that takes the next set at each step: it ends, as is proved of it.
fn last_set(spec: &FaultSpec) -> FaultSet
    ensures allowed { IsAllowed spec.now result }
    ensures last { IsLast spec.now result }
{
    let _limits = spec.nodes();
    let mut set = FaultSet::empty();
    'sets: while let Some(next) = next_set(spec, &set) {
        set = next;
    }
    set
}

#[test]
fn a_loop_over_next_set_ends(rt: HostRuntime) {
    let last = match FaultSpec::new(2, 2, 0, 1, 2) {
        Some(spec) => Some(last_set(&spec)),
        None => None,
    };
    let expected = match Fault::crash(1, 2) {
        Some(fault) => FaultSet::empty().insert(fault),
        None => None,
    };
    agrees(&rt, last.is_some() && last == expected, "the last set");
}

/// How many sets the walk comes by, or 100 000 where there are more.
fn count(spec: &FaultSpec) -> usize {
    let mut set = FaultSet::empty();
    let mut count = 0usize;
    for _ in 0..100_000 {
        count = count.saturating_add(1);
        match behind(spec, &set) {
            Some(next) => set = next,
            None => break,
        }
    }
    count
}

#[test]
fn no_larger_set_is_looked_for_where_none_is(rt: HostRuntime) {
    let count = match FaultSpec::new(8, 48, 0, 2, 6) {
        Some(spec) => count(&spec),
        None => 0,
    };
    // the empty set, a crash of any of 8 nodes at any of 48 steps, and two of different nodes
    agrees(&rt, count == 1 + 384 + 384 * 336 / 2, "the count");
}

/// The set with one fault more, if this one could be added, and then no more.
fn grown(spec: &FaultSpec, set: &FaultSet, fault: Fault) -> Option<FaultSet> {
    if !can_add(spec, set, fault) {
        return None;
    }
    let more = with(spec, set, fault);
    if can_add(spec, &more, fault) {
        None
    } else {
        Some(more)
    }
}

/// Whether a set omits, crashes, pauses and wakes as one of an omission from 0 to 1, a crash of 0 and a pause of 0, all at the step 2.
fn has_effects(set: &FaultSet) -> bool {
    set.omits(0, 1, 2)
        && set.crashes(0, 2)
        && set.crashes(0, 4)
        && !set.crashes(0, 1)
        && !set.crashes(1, 4)
        && set.pauses(0, 2, 2)
        && set.pauses(0, 3, 2)
        && !set.pauses(0, 4, 2)
        && !set.pauses(0, 1, 2)
        && set.wakes(0, 4, 2)
        && !set.wakes(0, 3, 2)
}

/// Whether a set has these three faults in this order, and its first two come before it.
fn is_in_order(set: &FaultSet, faults: [Fault; 3]) -> bool {
    if set.len() != 3 {
        return false;
    }
    let two = set.prefix(2);
    set.items() == faults.as_slice() && two.is_before(set) && !set.is_before(&two)
}

/// Whether three faults, added one by one in another order, make a set in order, with their effects, that has no room for one more.
fn grows(spec: &FaultSpec, faults: [Fault; 3], more: Fault) -> Option<bool> {
    let [omission, crash, pause] = faults;
    let set = grown(spec, &FaultSet::empty(), pause)?;
    let set = grown(spec, &set, omission)?;
    let set = grown(spec, &set, crash)?;
    Some(is_in_order(&set, faults) && has_effects(&set) && !can_add(spec, &set, more))
}

/// Whether a set grows in order until the budget is met.
fn grows_in_order() -> Option<bool> {
    let spec = FaultSpec::new(3, 4, 2, 1, 3)?.with_pauses(1, 2)?;
    let faults = [
        Fault::omit(0, 1, 2)?,
        Fault::crash(0, 2)?,
        Fault::pause(0, 2)?,
    ];
    grows(&spec, faults, Fault::omit(1, 0, 1)?)
}

#[test]
fn sets_grow_in_order(rt: HostRuntime) {
    let grows = grows_in_order() == Some(true);
    agrees(&rt, grows, "an omission, a crash and a pause");
}
