//! Working a job.

ghost use Rattle.std.specs.Prelude.{◌≡◌, ◌≤◌, IfOk, length};
ghost use Rattle.std.specs.Arc.{arc_value};
ghost use Rattle.lf_marks.specs.Answers.{mark_for, reach_of, edges_of};
ghost use Rattle.lf_sim.specs.Settings.{IsRun, set_of, world_of};
ghost use Rattle.lf_certificate.specs.Found.{IsFound};
ghost use Rattle.lf_residual.specs.Judging.{IsJudged};
ghost use Rattle.lf_work.specs.Jobs.{IsOfJob};
ghost use Rattle.lf_work.specs.Scratches.{IsScratchFor};

use crate::finding::Finding;
use crate::job::Job;
use crate::running::run_of;
use crate::scratch::Scratch;
use lf_cone::{put_edges, sharp};
use lf_faults::{Fault, FaultSet};
use lf_list::Listed;
use lf_marks::{Answer, Grown};
use lf_outcome::{Formula, Point, Reach};
use lf_protocols::{Fact, Protocol};
use lf_residual::Judged;
use lf_sim::{Run, Setting};
use std::alloc::{AllocError, Global};

/// Runs the set of a job, and tells what its run shows. The error is that memory has run out.
pub fn work(job: &Job) -> Result<Finding, AllocError>
    ensures { IfOk result (IsOfJob job.now) }
{
    let mut scratch = Scratch::new(*job.excluded.allocator());
    work_reusing(job, &mut scratch)
}

/// The same, in the memory of the job that was worked last. It takes memory for what the finding holds, and else only where the memory
/// that it is given doesn't suffice.
pub fn work_reusing(job: &Job, scratch: &mut Scratch) -> Result<Finding, AllocError>
    ensures finding { IfOk result (IsOfJob job.now) }
    ensures scratch { IsScratchFor (arc_value job.now.scenario) scratch.new }
{
    scratch.suit(job);
    work_suited(job, scratch)
}

/// The same, for a scratch that is known to be of the job's scenario, as a new one is, one that was made so, and one after a job of the same
/// book: the scenarios aren't compared.
pub fn work_suited(job: &Job, scratch: &mut Scratch) -> Result<Finding, AllocError>
    requires { IsScratchFor (arc_value job.now.scenario) scratch.old }
    ensures finding { IfOk result (IsOfJob job.now) }
    ensures scratch { IsScratchFor (arc_value job.now.scenario) scratch.new }
{
    let answer = worked(job, scratch)?;
    let job = job.again(scratch.spent.take())?;
    Ok(Finding { job, answer })
}

/// The same as `work_reusing`, where nobody else needs the job any more: the finding takes it over.
pub fn work_up(job: Job, scratch: &mut Scratch) -> Result<Finding, AllocError>
    ensures { IfOk result (IsOfJob job) }
{
    scratch.suit(&job);
    work_on(job, scratch)
}

/// The same as `work_suited`, where nobody else needs the job any more: the finding takes it over.
pub fn work_on(job: Job, scratch: &mut Scratch) -> Result<Finding, AllocError>
    requires { IsScratchFor (arc_value job.scenario) scratch.old }
    ensures finding { IfOk result (IsOfJob job) }
    ensures scratch { IsScratchFor (arc_value job.scenario) scratch.new }
{
    let answer = worked(&job, scratch)?;
    Ok(Finding { job, answer })
}

/// What is found of a job's set.
fn worked(job: &Job, scratch: &mut Scratch) -> Result<Answer, AllocError>
    requires { IsScratchFor (arc_value job.now.scenario) scratch.old }
    ensures found { IfOk result (λ answer. IsFound (world_of (arc_value job.now.scenario).setting) (arc_value job.now.scenario).setting.spec
        (arc_value job.now.scenario).formula job.now.set job.now.excluded.items (mark_for answer)) }
    ensures scratch { IsScratchFor (arc_value job.now.scenario) scratch.new }
{
    let scenario = job.scenario();
    let setting = scenario.setting();
    let played = run_of(job, scratch.played.take())?;
    let answer = found(
        setting,
        scenario.formula(),
        &played.run,
        &played.judged,
        job.excluded.as_slice(),
        &mut scratch.points,
        &mut scratch.edges,
    )?;
    scratch.played = Some(played);
    Ok(answer)
}

/// What a run shows of its set, where some faults are excluded, and the formula is judged in it. The lists of points and edges are used as memory.
fn found(
    setting: &Setting<Protocol>,
    formula: &Formula<Fact>,
    run: &Run<Protocol>,
    judged: &Judged,
    excluded: &[Fault],
    points: &mut Vec<Point>,
    required: &mut Vec<Fault>,
) -> Result<Answer, AllocError>
    requires run { IsRun (world_of setting.now) run.now }
    requires judged { IsJudged (world_of setting.now) (set_of run.now) formula.now judged.now }
    ensures { IfOk result (λ answer. IsFound (world_of setting.now) setting.now.spec formula.now (set_of run.now) excluded.now (mark_for answer)) }
{
    if run.set().len() >= setting.spec.budget() as usize {
        return Ok(if judged.holds() {
            Answer::Reaches
        } else {
            Answer::Misses
        });
    }
    if !judged.fill_evidence(setting, formula, run, points)? {
        return Ok(Answer::Misses);
    }
    let reach = sharp(setting, run, points.as_slice());
    put_edges(setting, run, &reach, excluded, required)?;
    let edges = required.as_slice();
    let alloc = *required.allocator();
    Ok(Answer::Branch(grown(alloc, reach, edges)?))
}

/// A branch with these edges, in memory of its own.
fn grown(alloc: Global, reach: Reach, edges: &[Fault]) -> Result<Grown, AllocError>
    requires { length edges.now ≤ 65535 }
    ensures reach { IfOk result (λ g. reach_of g ≡ reach) }
    ensures edges { IfOk result (λ g. edges_of g ≡ edges.now) }
{
    let mut own = Vec::with_capacity(alloc, edges.len())?;
    own.extend_from_slice(edges)?;
    Grown::new(alloc, reach, Listed::from_vec(own))
}
