//! What one job leaves to the next.

ghost use Rattle.std.specs.Arc.{arc_value};
ghost use Rattle.lf_sim.specs.Settings.{IsRun, set_of, world_of};
ghost use Rattle.lf_residual.specs.Judging.{IsJudged};

use crate::spent::Spent;
use lf_faults::Fault;
use lf_outcome::{Point, Scenario};
use lf_protocols::Protocol;
use lf_residual::Judged;
use lf_sim::Run;
use std::alloc::Global;
use std::sync::Arc;

/// A run of a scenario, and the scenario's formula, judged in it.
#[derive(Drop)]
pub(crate) struct Played {
    pub(crate) scenario: Arc<Scenario>,
    pub(crate) run: Run<Protocol>,
    pub(crate) judged: Judged,
    ghost plays: { IsRun (world_of (arc_value scenario).setting) run },
    ghost tells: { IsJudged (world_of (arc_value scenario).setting) (set_of run) (arc_value scenario).formula judged },
}

/// What working a job leaves, and the next takes: the run of its set, of which the next run is made, memory, and what the job itself leaves.
#[derive(Drop)]
pub struct Scratch {
    /// The run of the last set.
    pub(crate) played: Option<Played>,
    /// Memory for the points on which the outcome rests.
    pub(crate) points: Vec<Point>,
    /// Memory for required edges.
    pub(crate) edges: Vec<Fault>,
    /// What a job left, of which the next finding's is made.
    pub(crate) spent: Option<Spent>,
}

impl Scratch {
    ghost use Rattle.std.specs.Prelude.{◌≡◌, IfSome, None, Some};
    ghost use Rattle.lf_outcome.specs.declared.scenario.Scenario.{Scenario};
    ghost use Rattle.lf_work.specs.Jobs.{IsSpentOf};
    ghost use Rattle.lf_work.specs.Scratches.{IsScratchFor};

    /// Nothing: the first job that is worked takes memory. It serves for any scenario.
    pub fn new(alloc: Global) -> Scratch
        ensures { (s : Scenario) → IsScratchFor s result }
    {
        Scratch {
            played: None,
            points: Vec::new(alloc),
            edges: Vec::new(alloc),
            spent: None,
        }
    }

    /// Keeps what a job of its scenario left, in place of what it kept before. It takes no memory.
    pub fn keep(&mut self, spent: Spent)
        requires { IsScratchFor (arc_value spent.scenario) self.old }
        ensures spent { self.new.spent ≡ Some spent }
        ensures scratch { IsScratchFor (arc_value spent.scenario) self.new }
    {
        self.spent = Some(spent);
    }

    /// Gives what it kept away, if anything. It takes no memory.
    pub fn take_spent(&mut self) -> Option<Spent>
        ensures value { result ≡ self.old.spent }
        ensures none { self.new.spent ≡ None }
        ensures spent { (s : Scenario) → IsScratchFor s self.old → IfSome result (IsSpentOf s) }
        ensures scratch { (s : Scenario) → IsScratchFor s self.old → IsScratchFor s self.new }
    {
        self.spent.take()
    }
}
