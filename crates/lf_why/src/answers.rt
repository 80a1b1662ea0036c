//! Why an answer is one.

ghost use Rattle.std.specs.Prelude.{IfOk, string_bytes};
ghost use Rattle.lf_certificate.specs.Grown.{IsTreeOf};
ghost use Rattle.lf_sim.specs.Settings.{world_of};
ghost use Rattle.lf_why.specs.Answers.{IsWhy};

use crate::nones::why_none;
use crate::sets::why_set;
use lf_outcome::Formula;
use lf_sim::{Setting, run};
use lf_trace::Worded;
use lf_tree::Tree;
use std::alloc::{AllocError, Global};

/// Why the answer of a search is one, by its tree: what `why_set` tells of a set of faults, and what `why_none` tells where there is none.
///
/// The error is that memory has run out.
pub fn why<M: Worded>(
    alloc: Global,
    setting: &Setting<M>,
    formula: &Formula<M::Fact>,
    tree: &Tree,
) -> Result<String, AllocError>
    requires { IsTreeOf (world_of setting.now) setting.now.spec formula.now tree.now }
    ensures { IfOk result (λ text.
        IsWhy (M.words setting.now.machine) (world_of setting.now) setting.now.spec formula.now tree.now (string_bytes text)) }
{
    match &tree.answer {
        Some(set) => {
            let played = run(alloc, setting, set)?;
            why_set(alloc, setting, formula, &played)
        }
        None => why_none(alloc, setting, formula, tree),
    }
}
