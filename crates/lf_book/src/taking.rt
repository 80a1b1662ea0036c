//! Taking a set to work it.

ghost use Rattle.std.specs.Prelude.{◌≡◌, ◌<◌, false, IsSome, IfOk, IfSome, OnErr};
ghost use Rattle.std.specs.Arc.{arc_value};
ghost use Rattle.lf_book.specs.Books.{scenario_of, state_of, IfNoJob, IsTaken, IsNear, IsJobFor};
ghost use Rattle.lf_book.specs.declared.taking.Taken.TheVariants as taken;
ghost use Rattle.lf_marks.specs.Steps.{IsUnmarked};
ghost use Rattle.lf_marks.specs.Steps as mark;
ghost use Rattle.lf_certificate.specs.States.{last_ticket};
ghost use Rattle.lf_work.specs.Jobs.{IsSpentOf};

use crate::book::Book;
use crate::facts::marks_have_shape;
use lf_faults::Fault;
use lf_marks::{Claimable, Steps};
use lf_outcome::Scenario;
use lf_work::{Job, Spent};
use std::alloc::AllocError;
use std::marker::Brand;
use std::sync::Arc;
use std::sync::ledger::{Blank, Ledger};

/// The ticket that is never given.
const LAST_TICKET: u64 = u64::MAX;

/// What a take gives.
#[derive(Drop)]
pub enum Taken {
    /// A set to work, which its ticket claims now.
    Job(Job),
    /// No set is open, but some are worked: when they are filed or given back there may be more to do.
    Busy,
    /// Each set of the level is answered: `deepen` tells what is next.
    LevelDone,
    /// The search has ended.
    Finished,
    /// A set is open, but all tickets were given.
    Spent,
}

impl Book {
    /// Claims an open set of the level, if there is one, for whoever works it. The error is that memory has run out. After it, and after
    /// any answer but a job, the book is as it was.
    pub fn take(&mut self) -> Result<Taken, AllocError>
        ensures taken { IfOk result (IsTaken self.old self.new) }
        ensures unchanged { IfOk result (λ taken. IfNoJob taken (self.new ≡ self.old)) }
        ensures err { OnErr result (self.new ≡ self.old) }
        ensures scenario { scenario_of self.new ≡ scenario_of self.old }
    {
        self.take_with(None)
    }

    /// The same, where a job is made of what another one of the book's scenario left: then it takes no memory for it, if that has enough.
    pub fn take_with(&mut self, spent: Option<Spent>) -> Result<Taken, AllocError>
        requires { IfSome spent (IsSpentOf (scenario_of self.old)) }
        ensures taken { IfOk result (IsTaken self.old self.new) }
        ensures unchanged { IfOk result (λ taken. IfNoJob taken (self.new ≡ self.old)) }
        ensures err { OnErr result (self.new ≡ self.old) }
        ensures scenario { scenario_of self.new ≡ scenario_of self.old }
    {
        self.take_from::<Brand>(spent, Blank::new(1))
    }

    /// The same, with steps of its own.
    fn take_from<L: Ledger>(
        &mut self,
        spent: Option<Spent>,
        blank: Blank,
    ) -> Result<Taken, AllocError>
        requires name { blank.name ≡ L.name }
        requires parts { blank.parts ≡ L.parts }
        requires some { 0 < blank.parts }
        requires spent { IfSome spent (IsSpentOf (scenario_of self.old)) }
        ensures taken { IfOk result (IsTaken self.old self.new) }
        ensures unchanged { IfOk result (λ taken. IfNoJob taken (self.new ≡ self.old)) }
        ensures err { OnErr result (self.new ≡ self.old) }
        ensures scenario { scenario_of self.new ≡ scenario_of self.old }
    {
        let mut steps = Steps::<L>::new(blank);
        self.take_near(spent, &mut steps)
    }

    /// The same, with its steps counted: a step is a look at a set on the way to an open one. For a job there are at most one, and one for
    /// each kid of the sets above its own; for any other answer there is at most one.
    pub fn take_counted<L: Ledger>(&mut self, steps: &mut Steps<L>) -> Result<Taken, AllocError>
        ensures taken { IfOk result (IsTaken self.old self.new) }
        ensures steps { IfOk result (λ taken. IsNear (state_of self.old).marks taken steps.old steps.new) }
        ensures unchanged { IfOk result (λ taken. IfNoJob taken (self.new ≡ self.old)) }
        ensures err { OnErr result (self.new ≡ self.old) }
        ensures scenario { scenario_of self.new ≡ scenario_of self.old }
    {
        self.take_near(None, steps)
    }

    /// The same, where a job is made of what another one left.
    fn take_near<L: Ledger>(
        &mut self,
        spent: Option<Spent>,
        steps: &mut Steps<L>,
    ) -> Result<Taken, AllocError>
        requires { IfSome spent (IsSpentOf (scenario_of self.old)) }
        ensures taken { IfOk result (IsTaken self.old self.new) }
        ensures steps { IfOk result (λ taken. IsNear (state_of self.old).marks taken steps.old steps.new) }
        ensures unchanged { IfOk result (λ taken. IfNoJob taken (self.new ≡ self.old)) }
        ensures err { OnErr result (self.new ≡ self.old) }
        ensures scenario { scenario_of self.new ≡ scenario_of self.old }
    {
        if self.finished {
            return Ok(Taken::Finished);
        }
        let counts = self.marks.counts();
        if counts.ready == 0 {
            if counts.claimed == 0 {
                return Ok(Taken::LevelDone);
            }
            return Ok(Taken::Busy);
        }
        if self.next == LAST_TICKET {
            return Ok(Taken::Spent);
        }
        Ok(Taken::Job(self.claim(spent, steps)?))
    }

    /// Claims an open set, and tells its job. All memory is taken before the book is changed.
    fn claim<L: Ledger>(
        &mut self,
        spent: Option<Spent>,
        steps: &mut Steps<L>,
    ) -> Result<Job, AllocError>
        requires going { (state_of self.old).finished ≡ false }
        requires ready { ¬ IsUnmarked (state_of self.old).marks mark.Open }
        requires room { (state_of self.old).next < last_ticket }
        requires spent { IfSome spent (IsSpentOf (scenario_of self.old)) }
        ensures taken { IfOk result (λ job. IsTaken self.old self.new (taken.Job job)) }
        ensures steps { IfOk result (λ job. IsNear (state_of self.old).marks (taken.Job job) steps.old steps.new) }
        ensures err { OnErr result (self.new ≡ self.old) }
        ensures scenario { scenario_of self.new ≡ scenario_of self.old }
    {
        let ticket = self.next;
        let Spent {
            scenario,
            excluded,
            path,
        } = self.spent_or_new(spent)?;
        let found = self.marks.find_open(path, steps)?;
        let Some(Claimable { path, room }) = found else {
            unreachable!()
        };
        let job = self.job(scenario, excluded, path, ticket)?;
        self.marks.claim(ticket, room, steps);
        marks_have_shape(&self.marks);
        self.next += 1;
        Ok(job)
    }

    /// What another job of the book's scenario left, or else what a first one is made of.
    fn spent_or_new(&self, spent: Option<Spent>) -> Result<Spent, AllocError>
        requires { IfSome spent (IsSpentOf (scenario_of self.now)) }
        ensures { IfOk result (IsSpentOf (scenario_of self.now)) }
    {
        match spent {
            Some(spent) => Ok(spent),
            None => Spent::new(self.alloc, &self.scenario),
        }
    }

    /// The job of a set, by a ticket. What is excluded is written into a list that is no longer needed, whatever it holds.
    fn job(
        &self,
        scenario: Arc<Scenario>,
        excluded: Vec<Fault>,
        path: Vec<usize>,
        ticket: u64,
    ) -> Result<Job, AllocError>
        requires scenario { arc_value scenario ≡ scenario_of self.now }
        requires stands { IsSome ((state_of self.now).marks path.items) }
        ensures { IfOk result (IsJobFor self.now path.items ticket) }
    {
        let task = self.task(excluded, path.as_slice())?;
        Ok(Job::new(scenario, task.set, task.excluded, path, ticket))
    }
}
