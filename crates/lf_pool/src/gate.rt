//! How a worker works its jobs.

ghost use Rattle.std.specs.Prelude.{IfOk};
ghost use Rattle.std.specs.Arc.{arc_value};
ghost use Rattle.lf_work.specs.Jobs.{IsOfJob};
ghost use Rattle.lf_work.specs.Scratches.{IsScratchFor};

use lf_work::{Finding, Job, Scratch, work_suited};
use std::alloc::AllocError;
use std::rt::Clock;

/// A worker's only way to work a job. It is called outside the lock.
pub trait Gate: Sync {
    /// Works a job, in the memory of the job that the worker worked last, which is made one of the job's scenario before. The error is that memory
    /// has run out.
    fn run<R: Clock>(&self, rt: &R, job: &Job, scratch: &mut Scratch) -> Result<Finding, AllocError>
        requires { IsScratchFor (arc_value job.now.scenario) scratch.old }
        ensures finding { IfOk result (IsOfJob job.now) }
        ensures scratch { IsScratchFor (arc_value job.now.scenario) scratch.new };
}

/// Works each job at once.
#[derive(Clone, Copy, Debug, Drop)]
pub struct NoGate;

impl Gate for NoGate {
    fn run<R: Clock>(
        &self,
        _rt: &R,
        job: &Job,
        scratch: &mut Scratch,
    ) -> Result<Finding, AllocError> {
        work_suited(job, scratch)
    }
}
