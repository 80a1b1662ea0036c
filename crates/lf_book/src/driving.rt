//! A book driven through a list of events.

ghost use Rattle.std.specs.Prelude.{◌≡◌, [], map, slice_get, IfOk, OnOk, OnErr, All};
ghost use Rattle.lf_book.specs.Books.{scenario_of, state_of};
ghost use Rattle.lf_book.specs.Drives.{Does, DoesFile, DoesGiveBack, DoesTake, Drives, DrivesSome, without};
ghost use Rattle.lf_book.specs.Holding.{IsHeldOf, held_of};

use crate::book::Book;
use crate::deepening::Deepened;
use crate::taking::Taken;
use lf_work::{Job, work};
use std::alloc::AllocError;

/// What is to happen to a book.
#[derive(Clone, Copy, Debug, PartialEq, Eq)]
pub enum Event {
    /// A set is taken.
    Take,
    /// The job at this place among those that are held is worked, and its finding filed.
    File(usize),
    /// The job at this place is given back.
    GiveBack(usize),
    /// The next level, or the end.
    Deepen,
    /// All claims are opened again.
    Reclaim,
}

/// What came of an event.
#[derive(Clone, Copy, Debug, PartialEq, Eq)]
pub enum Reply {
    /// A set was taken, by this ticket.
    Took(u64),
    /// No set is open, but some are worked.
    Busy,
    /// Each set of the level is answered.
    LevelDone,
    /// The search has ended.
    Finished,
    /// A set is open, but all tickets were given.
    Spent,
    /// The job's finding was filed.
    Filed,
    /// The job's finding was refused, with this number of a refusal.
    Refused(u32),
    /// The job's set is open again.
    GaveBack,
    /// No claim stands with the job's ticket.
    NotGiven,
    /// What `deepen` answered.
    Deepened(Deepened),
    /// All claims are open.
    Reclaimed,
    /// No job stands at the place.
    NoJob,
}

impl Book {
    /// Drives the book through events, from the first on, and tells what came of each. The jobs that it takes it holds in the order taken, until
    /// they are filed or given back; those that are left at the end stay claimed.
    ///
    /// The error is that memory has run out: then the events before stand, and the one that was refused changed nothing. The set of a job
    /// that it was to file stays claimed.
    pub fn drive(&mut self, events: &[Event]) -> Result<Vec<Reply>, AllocError>
        ensures driven { IfOk result (λ replies. Drives (scenario_of self.old) [] events.now replies.items (state_of self.old) (state_of self.new)) }
        ensures err { OnErr result (DrivesSome (scenario_of self.old) events.now (state_of self.old) (state_of self.new)) }
        ensures scenario { scenario_of self.new ≡ scenario_of self.old }
    {
        let alloc = self.alloc;
        let mut jobs = Vec::new(alloc);
        let mut replies = Vec::with_capacity(alloc, events.len())?;
        'events: for event in events {
            let reply = self.reply(*event, &mut jobs)?;
            replies.push_reserved(reply);
        }
        Ok(replies)
    }

    /// What comes of one event.
    fn reply(&mut self, event: Event, jobs: &mut Vec<Job>) -> Result<Reply, AllocError>
        requires { All (IsHeldOf (scenario_of self.old) (state_of self.old)) jobs.old.items }
        ensures does { IfOk result (λ reply. Does (scenario_of self.old) (map held_of jobs.old.items) event reply (map held_of jobs.new.items)
            (state_of self.old) (state_of self.new)) }
        ensures held { OnOk result (All (IsHeldOf (scenario_of self.new) (state_of self.new)) jobs.new.items) }
        ensures err { OnErr result (self.new ≡ self.old) }
        ensures scenario { scenario_of self.new ≡ scenario_of self.old }
    {
        match event {
            Event::Take => self.reply_to_take(jobs),
            Event::File(place) => self.reply_to_file(jobs, place),
            Event::GiveBack(place) => Ok(self.reply_to_give_back(jobs, place)),
            Event::Deepen => Ok(Reply::Deepened(self.deepen())),
            Event::Reclaim => {
                self.reclaim();
                Ok(Reply::Reclaimed)
            }
        }
    }

    /// Takes a set, and holds its job. Room for the job is made first.
    fn reply_to_take(&mut self, jobs: &mut Vec<Job>) -> Result<Reply, AllocError>
        requires { All (IsHeldOf (scenario_of self.old) (state_of self.old)) jobs.old.items }
        ensures takes { IfOk result (λ reply. DoesTake (map held_of jobs.old.items) reply (map held_of jobs.new.items)
            (state_of self.old) (state_of self.new)) }
        ensures held { OnOk result (All (IsHeldOf (scenario_of self.new) (state_of self.new)) jobs.new.items) }
        ensures err { OnErr result (self.new ≡ self.old) }
        ensures scenario { scenario_of self.new ≡ scenario_of self.old }
    {
        jobs.reserve(1)?;
        match self.take()? {
            Taken::Job(job) => {
                let ticket = job.ticket();
                jobs.push_reserved(job);
                Ok(Reply::Took(ticket))
            }
            Taken::Busy => Ok(Reply::Busy),
            Taken::LevelDone => Ok(Reply::LevelDone),
            Taken::Finished => Ok(Reply::Finished),
            Taken::Spent => Ok(Reply::Spent),
        }
    }

    /// Works a job that is held, and files what is found.
    fn reply_to_file(&mut self, jobs: &mut Vec<Job>, place: usize) -> Result<Reply, AllocError>
        requires { All (IsHeldOf (scenario_of self.old) (state_of self.old)) jobs.old.items }
        ensures files { IfOk result (λ reply. DoesFile (scenario_of self.old) (slice_get (map held_of jobs.old.items) place) reply
            (state_of self.old) (state_of self.new)) }
        ensures left { OnOk result (map held_of jobs.new.items ≡ without (map held_of jobs.old.items) place) }
        ensures held { OnOk result (All (IsHeldOf (scenario_of self.new) (state_of self.new)) jobs.new.items) }
        ensures err { OnErr result (self.new ≡ self.old) }
        ensures scenario { scenario_of self.new ≡ scenario_of self.old }
    {
        if place >= jobs.len() {
            return Ok(Reply::NoJob);
        }
        let job = jobs.remove(place);
        match self.file(work(&job)?) {
            Ok(()) => Ok(Reply::Filed),
            Err((refusal, _finding)) => Ok(Reply::Refused(refusal.number())),
        }
    }

    /// Gives a job back that is held.
    fn reply_to_give_back(&mut self, jobs: &mut Vec<Job>, place: usize) -> Reply
        requires { All (IsHeldOf (scenario_of self.old) (state_of self.old)) jobs.old.items }
        ensures gives { DoesGiveBack (slice_get (map held_of jobs.old.items) place) result (state_of self.old) (state_of self.new) }
        ensures left { map held_of jobs.new.items ≡ without (map held_of jobs.old.items) place }
        ensures held { All (IsHeldOf (scenario_of self.new) (state_of self.new)) jobs.new.items }
        ensures scenario { scenario_of self.new ≡ scenario_of self.old }
    {
        if place >= jobs.len() {
            return Reply::NoJob;
        }
        match self.give_back(jobs.remove(place)) {
            Ok(()) => Reply::GaveBack,
            Err(_job) => Reply::NotGiven,
        }
    }
}
