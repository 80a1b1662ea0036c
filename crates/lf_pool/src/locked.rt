//! What lies under the lock.

ghost use Rattle.std.specs.Prelude.{◌≡◌, ◌+◌, ◌<◌, ◌≤◌, ◌^◌, Some, IfOk, IfSome, OnOk, OnErr, IfErr, IsTrue, vec_len};
ghost use Rattle.std.specs.Arc.{arc_value};
ghost use Rattle.lf_book.specs.Books.{scenario_of, task_of_finding, IsFiled, IsRefusedFor};
ghost use Rattle.lf_work.specs.Jobs.{IsSpentOf};
ghost use Rattle.lf_pool.specs.Holds.{IsAnsweredCount, IsOfBook};
ghost use Rattle.lf_pool.specs.Searches.{searched-prop};

use crate::facts::books_are_closed;
use crate::handful::handful;
use crate::searched::Searched;
use crate::share::Share;
use lf_book::{Book, Deepened, Refusal, Taken};
use lf_outcome::Scenario;
use lf_work::{Finding, Spent};
use std::alloc::{AllocError, Global};
use std::snapshot::Snapshot;
use std::sync::{Arc, ledger};

mod hand;

pub(crate) use hand::{Claim, Found, Hand};

/// A book of the scenario that is searched, which is closed as every book is, and the total of the sets that were filed: as many as are answered.
#[derive(Drop)]
pub(crate) struct Locked<L: Searched> {
    book: Book,
    total: ledger::Book<L>,
    ghost counted: { IsAnsweredCount book total.total },
    ghost searches: { L.scenario ≡ Some (scenario_of book) } by { searched-prop L.scenario (Some (scenario_of book)) },
}

/// What the first hold of a turn gives.
#[derive(Drop)]
pub(crate) enum Begun {
    /// A set to work, which its ticket claims now.
    Job(Claim),
    /// No set is open, but some are worked.
    Busy,
    /// The level was done: this comes after it.
    Deepened(Deepened),
    /// The search has ended.
    Finished,
    /// A set is open, but all tickets were given.
    Spent,
}

impl<L: Searched> Locked<L> {
    ghost use Rattle.std.specs.Prelude.{[], length, vec_capacity, Ok, MatchBool, MatchOption};
    ghost use Rattle.std.specs.List.{All, sum_by};
    ghost use Rattle.lf_book.specs.Books.{state_of, task_of_job, IsGivenBack, IsGivenFor, IsTaken};
    ghost use Rattle.lf_book.specs.declared.taking.Taken.TheVariants as taken;
    ghost use Rattle.lf_pool.specs.Holds.{AreEnded, AreFiled, AreFindingsIn, AreGivenBack, AreJobsIn, AreTaken, HasGoneOn, IsBegun, IsBusy, IsFindingClaimed};
    ghost use Rattle.lf_pool.specs.Holds.{IsFindingIn, IsJobClaimed, IsLeftIn, WasBegun, WasFiled, WasRefused, given_out};
    ghost use Rattle.lf_pool.specs.declared.locked.Begun.TheVariants as begun;
    ghost use Rattle.lf_pool.specs.declared.handful.TheConstants.{HANDFUL};
    ghost use Rattle.lf_certificate.specs.States.{IsStart};

    /// A book of the scenario at its start, and nothing filed. The error is that memory has run out.
    pub(crate) fn new(
        alloc: Global,
        scenario: Arc<Scenario>,
        total: ledger::Book<L>,
    ) -> Result<Locked<L>, AllocError>
        requires scenario { L.scenario ≡ Some (arc_value scenario) }
        requires none { total.total ≡ 0 }
        ensures scenario { IfOk result (λ locked. scenario_of locked.book ≡ arc_value scenario) }
        ensures start { IfOk result (λ locked. IsStart (state_of locked.book)) }
    {
        let book = Book::begin(alloc, scenario)?;
        Ok(Locked { book, total })
    }

    /// The book, for clauses alone.
    pub(crate) fn shown(&self) -> Snapshot<Book>
        ensures { result.value ≡ self.now.book }
    {
        Snapshot::of(&self.book)
    }

    /// Takes a set, and where the level is done deepens the book. The error is that memory has run out, and changes nothing.
    pub(crate) fn begin(&mut self, hand: &mut Hand) -> Result<Begun, AllocError>
        requires none { hand.old.held ≡ 0 }
        ensures begun { IfOk result (IsBegun self.old.book self.new.book) }
        ensures found { IfOk result (WasBegun L.scenario) }
        ensures busy { result ≡ Ok begun.Busy → IsBusy self.new.book }
        ensures err { OnErr result (self.new.book ≡ self.old.book) }
        ensures hand { IfOk result (λ begun. hand.new.held ≡ given_out begun) }
        ensures empty { OnErr result (hand.new.held ≡ 0) }
        ensures scenario { scenario_of self.new.book ≡ scenario_of self.old.book }
        ensures total { self.new.total ≡ self.old.total }
    {
        self.take_or_deepen(hand)
    }

    /// The same.
    fn take_or_deepen(&mut self, hand: &mut Hand) -> Result<Begun, AllocError>
        requires none { hand.old.held ≡ 0 }
        ensures begun { IfOk result (IsBegun self.old.book self.new.book) }
        ensures busy { result ≡ Ok begun.Busy → IsBusy self.new.book }
        ensures err { OnErr result (self.new.book ≡ self.old.book) }
        ensures hand { IfOk result (λ begun. hand.new.held ≡ given_out begun) }
        ensures empty { OnErr result (hand.new.held ≡ 0) }
        ensures scenario { scenario_of self.new.book ≡ scenario_of self.old.book }
        ensures total { self.new.total ≡ self.old.total }
    {
        let Locked { book, total: _ } = self;
        match book.take()? {
            Taken::Job(job) => {
                hand.held += 1;
                Ok(Begun::Job(Claim { job }))
            }
            Taken::Busy => Ok(Begun::Busy),
            Taken::LevelDone => Ok(Begun::Deepened(book.deepen())),
            Taken::Finished => Ok(Begun::Finished),
            Taken::Spent => Ok(Begun::Spent),
        }
    }

    /// Files a finding, which may be known to be of a job that a book of the search gave out, and raises the total and the worker's share by one.
    /// Nothing changes where it is of no claim of the book.
    pub(crate) fn file(
        &mut self,
        share: &mut Share<L>,
        hand: &mut Hand,
        found: Found,
        given: bool,
    ) -> bool
        requires given { IsTrue given → IsFindingIn L.scenario found }
        requires held { 0 < hand.old.held }
        ensures filed { MatchBool result
            (IsFiled found.finding self.old.book self.new.book × (share.new.filed ≡ share.old.filed + 1))
            ((¬ IsFindingClaimed self.old.book found.finding) × (self.new.book ≡ self.old.book) × (share.new.filed ≡ share.old.filed)) }
        ensures found { MatchBool result (WasFiled L.scenario) (WasRefused L.scenario) }
        ensures hand { hand.new.held + 1 ≡ hand.old.held }
        ensures scratch { share.new.scratch ≡ share.old.scratch }
        ensures scenario { scenario_of self.new.book ≡ scenario_of self.old.book }
    {
        hand.held -= 1;
        let Found { finding } = found;
        let Locked { book, total } = self;
        books_are_closed(book);
        let Ok(left) = file_in(book, finding, given) else {
            return false;
        };
        books_are_closed(book);
        share.keep(left);
        let Share { filed, part, .. } = share;
        total.add(part, 1);
        total.audit(part);
        *filed += 1;
        true
    }

    /// Gives a job back: its set is open again. Nothing changes where no such claim stands.
    pub(crate) fn give_back(&mut self, hand: &mut Hand, claim: Claim) -> bool
        requires { 0 < hand.old.held }
        ensures given { MatchBool result (IsGivenBack claim.job self.old.book self.new.book)
            ((¬ IsJobClaimed self.old.book claim.job) × (self.new.book ≡ self.old.book)) }
        ensures hand { hand.new.held + 1 ≡ hand.old.held }
        ensures scenario { scenario_of self.new.book ≡ scenario_of self.old.book }
        ensures total { self.new.total ≡ self.old.total }
    {
        hand.held -= 1;
        let Claim { job } = claim;
        let Locked { book, total: _ } = self;
        book.give_back(job).is_ok()
    }

    /// Takes a handful of sets where many are open, one after another, and none where few are. The list has room for them. Each job is made of what
    /// an earlier one left, as long as there is such.
    pub(crate) fn take_some(
        &mut self,
        hand: &mut Hand,
        jobs: &mut Vec<Claim>,
        spent: &mut Vec<Spent>,
    )
        requires none { jobs.old.items ≡ [] }
        requires held { hand.old.held < 2 ^ 32 }
        requires left { All (IsLeftIn L.scenario) spent.old.items }
        requires room { HANDFUL ≤ vec_capacity jobs.old }
        ensures taken { AreTaken jobs.new.items self.old.book self.new.book }
        ensures same { AreJobsIn L.scenario jobs.new.items }
        ensures left { All (IsLeftIn L.scenario) spent.new.items }
        ensures few { length jobs.new.items ≤ HANDFUL }
        ensures room { vec_capacity jobs.new ≡ vec_capacity jobs.old }
        ensures hand { hand.new.held ≡ hand.old.held + length jobs.new.items }
        ensures scenario { scenario_of self.new.book ≡ scenario_of self.old.book }
        ensures total { self.new.total ≡ self.old.total }
    {
        'jobs: for _taken in 0..handful(self.book.counts().ready) {
            let Some(job) = self.take_job(hand, spent.pop()) else {
                break;
            };
            jobs.push_reserved(job);
        }
    }

    /// Takes a set. None where there is none to take, and where memory has run out. Its job is made of what another one left, if there is such.
    fn take_job(&mut self, hand: &mut Hand, spent: Option<Spent>) -> Option<Claim>
        requires left { IfSome spent (IsLeftIn L.scenario) }
        requires held { hand.old.held < 2 ^ 33 }
        ensures taken { MatchOption result ((self.new.book ≡ self.old.book) × (hand.new.held ≡ hand.old.held))
            (λ claim. IsTaken self.old.book self.new.book (taken.Job claim.job) × (hand.new.held ≡ hand.old.held + 1)) }
        ensures given { IfSome result (λ claim. IsGivenFor (scenario_of self.old.book) claim.job.path.items (task_of_job claim.job)) }
        ensures scenario { scenario_of self.new.book ≡ scenario_of self.old.book }
        ensures total { self.new.total ≡ self.old.total }
    {
        let Locked { book, total: _ } = self;
        books_are_closed(book);
        match book.take_with(spent) {
            Ok(Taken::Job(job)) => {
                hand.held += 1;
                Some(Claim { job })
            }
            Ok(Taken::Busy | Taken::LevelDone | Taken::Finished | Taken::Spent) | Err(_) => None,
        }
    }

    /// Files what a worker found, and takes its next handful.
    pub(crate) fn go_on(
        &mut self,
        share: &mut Share<L>,
        hand: &mut Hand,
        jobs: &mut Vec<Claim>,
        findings: &mut Vec<Found>,
    )
        requires none { jobs.old.items ≡ [] }
        requires findings { AreFindingsIn L.scenario findings.old.items }
        requires held { (length findings.old.items ≤ hand.old.held) × (hand.old.held < 2 ^ 32) }
        requires room { HANDFUL ≤ vec_capacity jobs.old }
        ensures went { HasGoneOn findings.old.items jobs.new.items self.old.book self.new.book }
        ensures same { AreJobsIn L.scenario jobs.new.items }
        ensures few { length jobs.new.items ≤ HANDFUL }
        ensures none { findings.new.items ≡ [] }
        ensures rooms { (vec_capacity jobs.new ≡ vec_capacity jobs.old) × (vec_capacity findings.new ≡ vec_capacity findings.old) }
        ensures hand { hand.new.held + length findings.old.items ≡ hand.old.held + length jobs.new.items }
        ensures share { share.old.filed ≤ share.new.filed }
        ensures scratch { share.new.scratch ≡ share.old.scratch }
        ensures scenario { scenario_of self.new.book ≡ scenario_of self.old.book }
    {
        let _filed = self.file_all(share, hand, findings);
        self.take_some(hand, jobs, &mut share.spent);
    }

    /// Ends a handful: files what was found, then gives back the jobs that are left. Both lists are empty then, with their room. It answers how
    /// much was filed; by so many the worker's share is raised.
    pub(crate) fn end_some(
        &mut self,
        share: &mut Share<L>,
        hand: &mut Hand,
        jobs: &mut Vec<Claim>,
        findings: &mut Vec<Found>,
    ) -> u64
        requires findings { AreFindingsIn L.scenario findings.old.items }
        requires held { length findings.old.items + length jobs.old.items ≤ hand.old.held }
        ensures ended { AreEnded findings.old.items jobs.old.items result self.old.book self.new.book }
        ensures none { (jobs.new.items ≡ []) × (findings.new.items ≡ []) }
        ensures room { (vec_capacity jobs.new ≡ vec_capacity jobs.old) × (vec_capacity findings.new ≡ vec_capacity findings.old) }
        ensures hand { hand.new.held + (length findings.old.items + length jobs.old.items) ≡ hand.old.held }
        ensures share { share.new.filed ≡ share.old.filed + result }
        ensures scenario { scenario_of self.new.book ≡ scenario_of self.old.book }
    {
        let filed = self.file_all(share, hand, findings);
        self.give_back_all(hand, jobs);
        filed
    }

    /// Files findings of the search, the last one first, and tells how many the book didn't refuse. By so many the total and the worker's share are
    /// raised. No set and no exclusions are compared: they are those of the claim.
    fn file_all(&mut self, share: &mut Share<L>, hand: &mut Hand, findings: &mut Vec<Found>) -> u64
        requires findings { AreFindingsIn L.scenario findings.old.items }
        requires held { length findings.old.items ≤ hand.old.held }
        ensures filed { AreFiled findings.old.items result self.old.book self.new.book }
        ensures none { findings.new.items ≡ [] }
        ensures room { vec_capacity findings.new ≡ vec_capacity findings.old }
        ensures hand { hand.new.held + length findings.old.items ≡ hand.old.held }
        ensures share { share.new.filed ≡ share.old.filed + result }
        ensures scratch { share.new.scratch ≡ share.old.scratch }
        ensures scenario { scenario_of self.new.book ≡ scenario_of self.old.book }
    {
        let before = share.filed;
        'findings: while let Some(finding) = findings.pop() {
            let _filed = self.file(share, hand, finding, true);
        }
        share.filed - before
    }

    /// Gives jobs back, the last one first: their sets are open again.
    fn give_back_all(&mut self, hand: &mut Hand, jobs: &mut Vec<Claim>)
        requires { length jobs.old.items ≤ hand.old.held }
        ensures given { AreGivenBack jobs.old.items self.old.book self.new.book }
        ensures none { jobs.new.items ≡ [] }
        ensures room { vec_capacity jobs.new ≡ vec_capacity jobs.old }
        ensures hand { hand.new.held + length jobs.old.items ≡ hand.old.held }
        ensures scenario { scenario_of self.new.book ≡ scenario_of self.old.book }
        ensures total { self.new.total ≡ self.old.total }
    {
        'jobs: while let Some(job) = jobs.pop() {
            let _given = self.give_back(hand, job);
        }
    }

    /// The book, and the sum of all shares.
    pub(crate) fn gather(self, shares: Vec<Share<L>>) -> (Book, u64)
        requires all { vec_len shares ≡ L.parts }
        requires some { 0 < L.parts }
        ensures book { result.0 ≡ self.book }
        ensures counted { IsAnsweredCount result.0 result.1 }
        ensures sum { result.1 ≡ sum_by (λ share. share.filed) shares.items }
    {
        books_are_closed(&self.book);
        let Locked { book, mut total } = self;
        let mut shares = shares;
        let Some(last) = shares.pop() else {
            unreachable!()
        };
        let Share {
            filed: mut sum,
            part: mut all,
            ..
        } = last;
        'shares: while let Some(share) = shares.pop() {
            let Share { filed, part, .. } = share;
            all.merge(part);
            total.audit(&mut all);
            sum += filed;
        }
        total.audit(&mut all);
        (book, sum)
    }
}

/// Files a finding, which may be known to be of a job that a book of the same scenario gave out. Then it answers what the job leaves.
fn file_in(
    book: &mut Book,
    finding: Finding,
    given: bool,
) -> Result<Option<Spent>, (Refusal, Finding)>
    requires { IsTrue given → IsOfBook book.old finding }
    ensures filed { OnOk result (IsFiled finding book.old book.new) }
    ensures refused { IfErr result (λ back. IsRefusedFor book.old finding.job.ticket (arc_value finding.job.scenario) finding.job.path.items
        (task_of_finding finding) back.0) }
    ensures left { IfOk result (λ left. IfSome left (λ spent. IsTrue given × IsSpentOf (arc_value finding.job.scenario) spent)) }
    ensures unchanged { OnErr result (book.new ≡ book.old) }
    ensures scenario { scenario_of book.new ≡ scenario_of book.old }
{
    if given {
        let left = book.file_given(finding)?;
        return Ok(Some(left));
    }
    book.file(finding)?;
    Ok(None)
}
