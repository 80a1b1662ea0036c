//! What comes of a job.

ghost use Rattle.std.specs.Arc.{arc_value};
ghost use Rattle.lf_marks.specs.Answers.{mark_for};
ghost use Rattle.lf_sim.specs.Settings.{world_of};
ghost use Rattle.lf_certificate.specs.Found.{IsFound};

use crate::job::Job;
use crate::spent::Spent;
use lf_faults::{Fault, FaultSet};
use lf_marks::Answer;
use lf_outcome::{Reach, Scenario};

/// A job with its answer, which is what the run of the job's set shows: whether it misses the outcome, and where it reaches it and has
/// fewer faults than the budget, the sharp reach of what the outcome rests on and the edges that are required within it. The type keeps
/// that all of this is so: only a run makes a finding.
#[derive(Drop)]
pub struct Finding {
    pub(crate) job: Job,
    pub(crate) answer: Answer,
    ghost found: { ∥ IsFound (world_of (arc_value job.scenario).setting) (arc_value job.scenario).setting.spec (arc_value job.scenario).formula
        job.set job.excluded.items (mark_for answer) ∥₁ },
}

impl Finding {
    ghost use Rattle.std.specs.Prelude.{◌≡◌, ◌≢◌, ◌↔◌, ℕ, List, false, IsTrue, MatchOption};
    ghost use Rattle.lf_faults.specs.declared.fault.Parts.{Parts};
    ghost use Rattle.lf_marks.specs.Steps as mark;
    ghost use Rattle.lf_outcome.specs.Truth.{reaches};
    ghost use Rattle.lf_certificate.specs.Found.{IsBranch};
    ghost use Rattle.lf_work.specs.Jobs.{IsSpentOf};

    /// The job that was worked.
    pub fn job(&self) -> &Job
        ensures { result.now ≡ self.now.job }
    {
        &self.job
    }

    /// The scenario that was searched.
    pub fn scenario(&self) -> &Scenario
        ensures { result.now ≡ arc_value self.now.job.scenario }
    {
        self.job.scenario()
    }

    /// The set that was run.
    pub fn set(&self) -> FaultSet
        ensures { result ≡ self.now.job.set }
    {
        self.job.set()
    }

    /// The faults that no set beneath it is to hold.
    pub fn excluded(&self) -> &[Fault]
        ensures { result.now ≡ self.now.job.excluded.items }
    {
        self.job.excluded()
    }

    /// The places of the kids that lead to the set.
    pub fn path(&self) -> &[usize]
        ensures { result.now ≡ self.now.job.path.items }
    {
        self.job.path()
    }

    /// The ticket by which the set was claimed.
    pub fn ticket(&self) -> u64
        ensures { result ≡ self.now.job.ticket }
    {
        self.job.ticket()
    }

    /// Whether the run of the set misses the outcome.
    pub fn misses(&self) -> bool
        ensures { IsTrue result ↔ (reaches (world_of (arc_value self.now.job.scenario).setting) self.now.job.set
            (arc_value self.now.job.scenario).formula ≡ false) }
    {
        match &self.answer {
            Answer::Misses => true,
            Answer::Reaches => false,
            Answer::Branch(_) => false,
        }
    }

    /// The sharp reach and the required edges, where the set reaches the outcome and has fewer faults than the budget.
    pub fn branch(&self) -> Option<(&Reach, &[Fault])>
        ensures { MatchOption result
            ((reach : List ℕ) (edges : List Parts) → mark_for self.now.answer ≢ mark.Branch reach edges)
            (λ found. (mark_for self.now.answer ≡ mark.Branch found.0.now found.1.now)
            × IsBranch (world_of (arc_value self.now.job.scenario).setting) (arc_value self.now.job.scenario).setting.spec
            (arc_value self.now.job.scenario).formula self.now.job.set self.now.job.excluded.items found.0.now found.1.now) }
    {
        match &self.answer {
            Answer::Branch(grown) => Some((grown.reach(), grown.edges())),
            Answer::Misses | Answer::Reaches => None,
        }
    }

    /// What its job leaves, and the answer.
    pub fn into_parts(self) -> (Spent, Answer)
        ensures spent { IsSpentOf (arc_value self.job.scenario) result.0 }
        ensures value { result.1 ≡ self.answer }
        ensures found { IsFound (world_of (arc_value self.job.scenario).setting) (arc_value self.job.scenario).setting.spec
            (arc_value self.job.scenario).formula self.job.set self.job.excluded.items (mark_for result.1) }
    {
        let Finding { job, answer } = self;
        (job.spend(), answer)
    }
}
