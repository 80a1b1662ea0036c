//! The checker, for any machine.

ghost use Rattle.std.specs.Prelude.{◌≡◌, ◌↔◌, IsTrue, IfOk, MatchOption};
ghost use Rattle.lf_certificate.specs.Accepted.{last_depth};
ghost use Rattle.lf_check.specs.Verdicts.{IsVerdict};
ghost use Rattle.lf_faults.specs.Allowed.{IsAllowed};
ghost use Rattle.lf_sim.specs.Settings.{world_of};

use crate::Verdict;
use crate::same::are_same_answers;
use crate::site::Judged;
use crate::walk::{Walk, visit};
use lf_certificate::Reason;
use lf_faults::{FaultSet, FaultSpec, admits};
use lf_outcome::Formula;
use lf_sim::{Machine, Setting};
use lf_tree::Tree;
use std::alloc::{AllocError, Global};

/// Judges a tree for a setting of any machine and a formula: yes exactly where it is accepted, and else no with its first
/// fault. The error is that memory has run out.
pub fn judge<M: Machine>(
    alloc: Global,
    setting: &Setting<M>,
    formula: &Formula<M::Fact>,
    tree: &Tree,
) -> Result<Verdict, AllocError>
    ensures { IfOk result (IsVerdict (world_of setting.now) setting.now.spec formula.now tree.now) }
{
    if !is_allowed(&setting.spec, &tree.answer) {
        return Ok(Verdict::No {
            reason: Reason::AnswerNotAllowed,
            path: Vec::new(alloc),
        });
    }
    let judged = Judged {
        setting,
        formula,
        last: last_depth(&setting.spec, &tree.answer),
    };
    let mut walk = Walk::new(alloc);
    let found = visit(alloc, &judged, &mut walk, &tree.root, FaultSet::empty(), 0)?;
    if let Some(reason) = found {
        return Ok(Verdict::No {
            reason,
            path: walk.path,
        });
    }
    if !are_same_answers(&walk.first, &tree.answer) {
        return Ok(Verdict::No {
            reason: Reason::AnswerNotFirst,
            path: Vec::new(alloc),
        });
    }
    Ok(Verdict::Yes)
}

/// Whether the answer, if there is one, is an allowed set.
pub(crate) fn is_allowed(spec: &FaultSpec, answer: &Option<FaultSet>) -> bool
    ensures { IsTrue result ↔ MatchOption answer.now (Unit {0}) (IsAllowed spec.now) }
{
    let Some(answer) = answer else {
        return true;
    };
    admits(spec, answer)
}

/// How many branches stand above the last sets: as many as the answer has faults, or as the bounds allow.
pub(crate) fn last_depth(spec: &FaultSpec, answer: &Option<FaultSet>) -> u32
    ensures { result ≡ last_depth spec.now answer.now }
{
    match answer {
        Some(answer) => answer.len() as u32,
        None => spec.budget(),
    }
}
