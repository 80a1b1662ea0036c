//! The run of a job's set.

ghost use Rattle.std.specs.Prelude.{◌≡◌, IfOk, IfSome, IsTrue};
ghost use Rattle.std.specs.Arc.{arc_value};
ghost use Rattle.lf_sim.specs.Settings.{IsRun, set_of, world_of};
ghost use Rattle.lf_residual.specs.Judging.{IsJudged};
ghost use Rattle.lf_work.specs.Scratches.{IsPlayedFor, IsScratchFor};

use crate::job::Job;
use crate::scratch::{Played, Scratch};
use lf_residual::Judged;
use lf_sim::{rerun, run};
use std::alloc::AllocError;
use std::sync::Arc;

impl Scratch {
    /// Makes it one of the job's scenario: it loses the run of another one, and what a job left. It takes no memory.
    pub fn suit(&mut self, job: &Job)
        ensures { IsScratchFor (arc_value job.now.scenario) self.new }
    {
        if !suits(job, &self.played) {
            self.played = None;
        }
        self.spent = None;
    }
}

/// Whether a run, if there is one, is of the job's scenario, or of one that is the same by value.
fn suits(job: &Job, played: &Option<Played>) -> bool
    ensures { IsTrue result → IfSome played.now (IsPlayedFor (arc_value job.now.scenario)) }
{
    match played {
        Some(played) => played.scenario.same(job.scenario()),
        None => true,
    }
}

/// The run of a job's set, with the formula judged in it. It is made of one of the job's scenario that is no longer needed, if there is one.
pub(crate) fn run_of(job: &Job, used: Option<Played>) -> Result<Played, AllocError>
    requires { IfSome used (IsPlayedFor (arc_value job.now.scenario)) }
    ensures scenario { IfOk result (IsPlayedFor (arc_value job.now.scenario)) }
    ensures run { IfOk result (λ played. IsRun (world_of (arc_value job.now.scenario).setting) played.run) }
    ensures judged { IfOk result (λ played. IsJudged (world_of (arc_value job.now.scenario).setting) (set_of played.run)
        (arc_value job.now.scenario).formula played.judged) }
    ensures set { IfOk result (λ played. set_of played.run ≡ job.now.set) }
{
    let Some(used) = used else {
        let alloc = *job.excluded.allocator();
        let scenario = Arc::try_clone(&job.scenario)?;
        let setting = scenario.setting();
        let run = run(alloc, setting, &job.set)?;
        let judged = Judged::of(alloc, setting, scenario.formula(), &run)?;
        return Ok(Played {
            scenario,
            run,
            judged,
        });
    };
    let Played {
        scenario,
        mut run,
        mut judged,
    } = used;
    let setting = scenario.setting();
    let changed = rerun(setting, &mut run, &job.set);
    judged.judge_again(setting, scenario.formula(), &run, &changed);
    Ok(Played {
        scenario,
        run,
        judged,
    })
}
