//! The checker, for scenarios.

ghost use Rattle.std.specs.Prelude.{IfOk};
ghost use Rattle.lf_check.specs.Verdicts.{IsVerdict};
ghost use Rattle.lf_sim.specs.Settings.{world_of};

use crate::rows::judge_rows;
use crate::{Verdict, judge};
use lf_outcome::Scenario;
use lf_tree::Tree;
use lf_watch::{NoWatch, Watch};
use std::alloc::{AllocError, Global};
use std::thread::Threads;

/// Judges a tree for what a scenario runs and promises: yes exactly where it is accepted, and else no with its first fault.
/// The error is that memory has run out.
pub fn check(alloc: Global, scenario: &Scenario, tree: &Tree) -> Result<Verdict, AllocError>
    ensures { IfOk result (IsVerdict (world_of scenario.now.setting) scenario.now.setting.spec scenario.now.formula tree.now) }
{
    judge(alloc, scenario.setting(), scenario.formula(), tree)
}

/// The same, where the nodes of the tree are judged in as many threads as there are processors.
pub fn check_rows(
    rt: &(impl Threads + Sync),
    alloc: Global,
    scenario: &Scenario,
    tree: &Tree,
) -> Result<Verdict, AllocError>
    ensures { IfOk result (IsVerdict (world_of scenario.now.setting) scenario.now.setting.spec scenario.now.formula tree.now) }
{
    check_rows_watched(rt, alloc, scenario, tree, &NoWatch)
}

/// The same as `check_rows`, with a watch that is told how many nodes were judged, each time that some more were.
pub fn check_rows_watched<W: Watch>(
    rt: &(impl Threads + Sync),
    alloc: Global,
    scenario: &Scenario,
    tree: &Tree,
    watch: &W,
) -> Result<Verdict, AllocError>
    ensures { IfOk result (IsVerdict (world_of scenario.now.setting) scenario.now.setting.spec scenario.now.formula tree.now) }
{
    judge_rows(
        rt,
        alloc,
        scenario.setting(),
        scenario.formula(),
        tree,
        watch,
    )
}
