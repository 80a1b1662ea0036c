//! The allowed sets with at most one fault.

ghost use Rattle.std.specs.Prelude.{◌≡◌, ◌≤◌, IfOk, IfNone, IfSome, ℕ, List, length, true};
ghost use Rattle.lf_faults.specs.declared.fault.Parts.{Parts};
ghost use Rattle.lf_faults.specs.Allowed.{IsAllowed, IsInLimits, IsNext};
ghost use Rattle.lf_faults.specs.Faults.{set_is_before};
ghost use Rattle.lf_stakes.specs.Singles.{AreSingles, IsLastSingle};

use lf_faults::{FaultSet, FaultSpec, next_set, orders_are_total};
use std::alloc::{AllocError, Global};

/// The allowed sets with at most one fault, each once, in the order in which the searches try them: first the empty set, and then those of one fault, by step,
/// at a step omissions before crashes before pauses, and then by sender or node, and by receiver. Only the empty set where the bounds allow no fault.
/// The error is that memory has run out.
pub fn single_sets(alloc: Global, spec: &FaultSpec) -> Result<Vec<FaultSet>, AllocError>
    ensures { IfOk result (λ sets. AreSingles spec.now sets.items) }
{
    orders_are_total();
    limits_are_kept(spec);
    let mut set = FaultSet::empty();
    let mut sets = vec![in alloc; set]?;
    'sets: while let Some(next) = next_single(spec, &set) {
        sets.push(next)?;
        set = next;
    }
    Ok(sets)
}

/// The next allowed set, in the order of sets, where it has no more than one fault.
fn next_single(spec: &FaultSpec, set: &FaultSet) -> Option<FaultSet>
    requires { IsAllowed spec.now set.now }
    ensures some { IfSome result (IsNext spec.now set.now) }
    ensures single { IfSome result (λ next. length next ≤ 1) }
    ensures none { IfNone result (IsLastSingle spec.now set.now) }
{
    let next = next_set(spec, set)?;
    if next.len() <= 1 { Some(next) } else { None }
}

/// Bounds keep their limits. Their type says so, and a call of this tells it to the prover.
fn limits_are_kept(spec: &FaultSpec)
    ensures { IsInLimits spec.now }
{
    let _nodes = spec.nodes();
}
