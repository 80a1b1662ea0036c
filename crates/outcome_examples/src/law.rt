//! The light-cone law at a run, with no premise left.

ghost use Rattle.std.specs.Prelude.{◌↔◌, IsTrue};
ghost use Rattle.std.specs.List.{Contains};

use crate::texts::{agrees, columns, setting};
use lf_cone::{agree, edges, sharp};
use lf_faults::{Fault, FaultSet, can_add, read_fault, with};
use lf_outcome::{Formula, Outcome, evidence, holds, named};
use lf_protocols::{Fact, Protocol};
use lf_sim::{Setting, run};
use lf_trace::read_faults;
use std::alloc::{AllocError, Global};

/// Whether a fault is one of these.
fn is_among(faults: &[Fault], fault: &Fault) -> bool
    ensures { IsTrue result ↔ Contains faults.now fault.now }
{
    faults.contains(fault)
}

/// Whether a set with one fault more reaches an outcome: by the law at the run of the set without it, where the sharp reach of its evidence
/// is closed and makes the outcome true, and the fault may be added and is no required edge; and by the wider set's own run.
fn reaches_by_law(
    alloc: Global,
    setting: &Setting<Protocol>,
    formula: &Formula<Fact>,
    set: &FaultSet,
    more: Fault,
) -> Result<bool, AllocError> {
    if !can_add(&setting.spec, set, more) {
        return Ok(false);
    }
    let found = run(alloc, setting, set)?;
    let Some(points) = evidence(alloc, setting, formula, &found)? else {
        return Ok(false);
    };
    let reach = sharp(setting, &found, points.as_slice());
    let required = edges(alloc, setting, &found, &reach, &[])?;
    if is_among(required.as_slice(), &more) {
        return Ok(false);
    }
    let wider = with(&setting.spec, set, more);
    agree(setting, formula, &found, &reach, &wider);
    let wider_found = run(alloc, setting, &wider)?;
    Ok(holds(setting, formula, &wider_found))
}

/// Sets of faults, and a fault more that changes nothing of what the data's delivery rests on: a note that nobody sends, and one that comes
/// after the last step.
const WIDER: &str = concat!("omit 0>1 @1|omit 1>2 @1\n", "omit 0>1 @1|omit 0>1 @3\n",);

/// Whether by the law the set of a row with the fault more reaches that each node has the data, over links of two steps.
fn row_reaches(alloc: Global, row: &str) -> bool {
    let (set, more) = columns(row);
    let (Some(setting), Some(set), Some(more)) = (
        setting("redundant 3 4", "4 3 1 2 0 1 2 0 0"),
        read_faults(set),
        read_fault(more),
    ) else {
        return false;
    };
    match named(alloc, Outcome::Delivered, 3, 4) {
        Ok(formula) => {
            matches!(
                reaches_by_law(alloc, &setting, &formula, &set, more),
                Ok(true)
            )
        }
        Err(_) => false,
    }
}

#[test]
fn the_law_at_a_wider_set_has_no_premise_left(rt: HostRuntime) {
    for row in WIDER.lines() {
        agrees(&rt, row_reaches(rt.alloc(), row), row);
    }
}
