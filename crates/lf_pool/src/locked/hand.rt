//! What a worker has in hand.

ghost use Rattle.std.specs.Prelude.{◌≡◌, IfOk, IfErr};
ghost use Rattle.std.specs.Arc.{arc_value};
ghost use Rattle.lf_work.specs.Jobs.{IsOfJob};
ghost use Rattle.lf_work.specs.Scratches.{IsScratchFor};

use crate::gate::Gate;
use lf_work::{Finding, Job, Scratch};
use std::alloc::AllocError;
use std::rt::Clock;

/// How many sets a worker has in hand. A hold that gives one out raises it, and one that takes one back, with what was found of it or as it was, lowers
/// it; nothing else does. It can't be let go, but is closed once no set is in hand. So no worker can lose a set that a hold gave it.
pub(crate) struct Hand {
    pub(super) held: u64,
}

impl Hand {
    /// No set in hand.
    pub(crate) fn new() -> Hand
        ensures { result.held ≡ 0 }
    {
        Hand { held: 0 }
    }

    /// Lets it go, with no set in hand.
    pub(crate) fn close(self)
        requires { self.held ≡ 0 }
    {
        let Hand { held: _ } = self;
    }
}

/// A set to work that a hold gave out. Only a hold makes one.
#[derive(Drop)]
pub(crate) struct Claim {
    pub(super) job: Job,
}

/// What was found of a set that a hold gave out. Only working a claim makes one.
#[derive(Drop)]
pub(crate) struct Found {
    pub(super) finding: Finding,
}

impl Claim {
    /// The job.
    pub(crate) fn job(&self) -> &Job
        ensures { result.now ≡ self.now.job }
    {
        &self.job
    }

    /// Works it by the gate, with a scratch of its scenario. The error is that memory has run out, and hands it back.
    pub(crate) fn work<R: Clock, G: Gate>(
        self,
        rt: &R,
        gate: &G,
        scratch: &mut Scratch,
    ) -> Result<Found, (AllocError, Claim)>
        requires suited { IsScratchFor (arc_value self.job.scenario) scratch.old }
        ensures found { IfOk result (λ found. IsOfJob self.job found.finding) }
        ensures back { IfErr result (λ back. back.1 ≡ self) }
        ensures scratch { IsScratchFor (arc_value self.job.scenario) scratch.new }
    {
        let Claim { job } = self;
        match gate.run(rt, &job, scratch) {
            Ok(finding) => {
                scratch.keep(job.spend());
                Ok(Found { finding })
            }
            Err(error) => Err((error, Claim { job })),
        }
    }
}
