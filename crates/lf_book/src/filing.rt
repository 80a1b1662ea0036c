//! What becomes of claims.

ghost use Rattle.std.specs.Prelude.{◌≡◌, ◌≢◌, ◌↔◌, ℕ, true, false, List, Some, OnOk, OnErr, IfOk, IfErr, IsTrue, MatchOption};
ghost use Rattle.std.specs.Arc.{arc_value};
ghost use Rattle.lf_book.specs.Books.{scenario_of, state_of, task_of_job, task_of_finding, number_of};
ghost use Rattle.lf_book.specs.Books.{IsRefusedFor, IsFiled, IsFoundOf, IsGivenBack, IsClaimOf, IsGivenFor};
ghost use Rattle.lf_faults.specs.Faults.{set_is_before};
ghost use Rattle.lf_marks.specs.Answers.{mark_for};
ghost use Rattle.lf_marks.specs.Marks.{mark_at, level_of};
ghost use Rattle.lf_marks.specs.Steps.{Answered, GaveBack, Reclaimed, IsMarked, IsShape};
ghost use Rattle.lf_marks.specs.Steps as marking;
ghost use Rattle.lf_outcome.specs.Sameness.{AreSame};
ghost use Rattle.lf_certificate.specs.Events.{Reclaims};
ghost use Rattle.lf_work.specs.Jobs.{IsSpentOf};

use crate::book::Book;
use crate::facts::marks_have_shape;
use lf_faults::FaultSet;
use lf_marks::{Answer, Marks};
use lf_work::{Finding, Job, Spent};
use thiserror::Error;

/// Why a finding is refused.
#[derive(Clone, Copy, Debug, PartialEq, Eq, Error)]
pub enum Refusal {
    /// No claim stands with its ticket.
    #[error("no set is claimed by the ticket of the finding")]
    NoClaim,
    /// It is of another scenario.
    #[error("the finding is of another scenario")]
    OtherScenario,
    /// It is of another set, another path or other exclusions than the claim.
    #[error("the finding is of another set than its ticket claims, or of another path to it, or excludes other faults")]
    OtherSet,
}

impl Refusal {
    /// The number by which a reply names the refusal, 1..=3.
    pub fn number(self) -> u32
        ensures { result ≡ number_of self }
    {
        match self {
            Refusal::NoClaim => 1,
            Refusal::OtherScenario => 2,
            Refusal::OtherSet => 3,
        }
    }
}

impl Book {
    /// Files a finding: its set is answered, and what is required beneath it waits for the next level. It is refused, and handed back, where
    /// it is of no claim of the book, with the first refusal that holds. It takes no memory, and looks for the claim at most once.
    pub fn file(&mut self, finding: Finding) -> Result<(), (Refusal, Finding)>
        ensures ok { OnOk result (IsClaimOf self.old finding.job.ticket (arc_value finding.job.scenario) finding.job.path.items (task_of_finding finding)) }
        ensures filed { OnOk result (IsFiled finding self.old self.new) }
        ensures found { OnOk result (IsFoundOf finding) }
        ensures refused { IfErr result (λ back. IsRefusedFor self.old finding.job.ticket (arc_value finding.job.scenario) finding.job.path.items
            (task_of_finding finding) back.0) }
        ensures back { IfErr result (λ back. back.1 ≡ finding) }
        ensures unchanged { OnErr result (self.new ≡ self.old) }
        ensures scenario { scenario_of self.new ≡ scenario_of self.old }
    {
        let same = self.scenario.same(finding.scenario());
        if let Some(refusal) = self.refusal(finding.job(), same) {
            return Err((refusal, finding));
        }
        let _spent = self.file_claimed(finding);
        Ok(())
    }

    /// The same, for a finding that is known to be of the book's scenario: the scenarios aren't compared.
    pub fn file_same(&mut self, finding: Finding) -> Result<(), (Refusal, Finding)>
        requires { AreSame (scenario_of self.old) (arc_value finding.job.scenario) }
        ensures ok { OnOk result (IsClaimOf self.old finding.job.ticket (arc_value finding.job.scenario) finding.job.path.items (task_of_finding finding)) }
        ensures filed { OnOk result (IsFiled finding self.old self.new) }
        ensures found { OnOk result (IsFoundOf finding) }
        ensures refused { IfErr result (λ back. IsRefusedFor self.old finding.job.ticket (arc_value finding.job.scenario) finding.job.path.items
            (task_of_finding finding) back.0) }
        ensures back { IfErr result (λ back. back.1 ≡ finding) }
        ensures unchanged { OnErr result (self.new ≡ self.old) }
        ensures scenario { scenario_of self.new ≡ scenario_of self.old }
    {
        if let Some(refusal) = self.refusal(finding.job(), true) {
            return Err((refusal, finding));
        }
        let _spent = self.file_claimed(finding);
        Ok(())
    }

    /// The same, for a finding that is known to be of the book's scenario, and of a job that a book of that scenario gave out: its set and its
    /// exclusions aren't compared, since they are the same in every such book. It answers what the finding's job leaves, for a later one.
    pub fn file_given(&mut self, finding: Finding) -> Result<Spent, (Refusal, Finding)>
        requires same { AreSame (scenario_of self.old) (arc_value finding.job.scenario) }
        requires given { IsGivenFor (arc_value finding.job.scenario) finding.job.path.items (task_of_finding finding) }
        ensures ok { OnOk result (IsClaimOf self.old finding.job.ticket (arc_value finding.job.scenario) finding.job.path.items (task_of_finding finding)) }
        ensures filed { OnOk result (IsFiled finding self.old self.new) }
        ensures found { OnOk result (IsFoundOf finding) }
        ensures spent { IfOk result (IsSpentOf (arc_value finding.job.scenario)) }
        ensures refused { IfErr result (λ back. IsRefusedFor self.old finding.job.ticket (arc_value finding.job.scenario) finding.job.path.items
            (task_of_finding finding) back.0) }
        ensures back { IfErr result (λ back. back.1 ≡ finding) }
        ensures unchanged { OnErr result (self.new ≡ self.old) }
        ensures scenario { scenario_of self.new ≡ scenario_of self.old }
    {
        if let Some(refusal) = self.refusal_given(finding.job()) {
            return Err((refusal, finding));
        }
        Ok(self.file_claimed(finding))
    }

    /// The same, for a finding that is known to be of a claim of the book, as one is of a job that was taken in the same turn: nothing is
    /// compared. It answers what the finding's job leaves, for a later one.
    pub fn file_claimed(&mut self, finding: Finding) -> Spent
        requires { IsClaimOf self.old finding.job.ticket (arc_value finding.job.scenario) finding.job.path.items (task_of_finding finding) }
        ensures filed { IsFiled finding self.old self.new }
        ensures found { IsFoundOf finding }
        ensures spent { IsSpentOf (arc_value finding.job.scenario) result }
        ensures scenario { scenario_of self.new ≡ scenario_of self.old }
    {
        let ticket = finding.ticket();
        let set = finding.set();
        let (spent, answer) = finding.into_parts();
        self.least = lowered(self.least, set, &answer);
        mark_answered(&mut self.marks, ticket, answer);
        spent
    }

    /// Gives a job back: its set is open again. It is refused, and handed back, where no claim with its ticket, scenario, path, set and
    /// exclusions stands. It takes no memory, and looks for the claim at most once.
    pub fn give_back(&mut self, job: Job) -> Result<(), Job>
        ensures ok { OnOk result (IsClaimOf self.old job.ticket (arc_value job.scenario) job.path.items (task_of_job job)) }
        ensures given { OnOk result (IsGivenBack job self.old self.new) }
        ensures refused { OnErr result (¬ IsClaimOf self.old job.ticket (arc_value job.scenario) job.path.items (task_of_job job)) }
        ensures back { IfErr result (λ back. back ≡ job) }
        ensures unchanged { OnErr result (self.new ≡ self.old) }
        ensures scenario { scenario_of self.new ≡ scenario_of self.old }
    {
        let same = self.scenario.same(job.scenario());
        if let Some(_refusal) = self.refusal(&job, same) {
            return Err(job);
        }
        self.open_claimed(job);
        Ok(())
    }

    /// Gives a job of a claim of the book back.
    fn open_claimed(&mut self, job: Job)
        requires { IsClaimOf self.old job.ticket (arc_value job.scenario) job.path.items (task_of_job job) }
        ensures given { IsGivenBack job self.old self.new }
        ensures scenario { scenario_of self.new ≡ scenario_of self.old }
    {
        mark_open(&mut self.marks, job.ticket());
    }

    /// Opens all sets again that are claimed. It takes no memory, and time in proportion to the number of claims.
    pub fn reclaim(&mut self)
        ensures reclaimed { Reclaims (state_of self.old) (state_of self.new) }
        ensures scenario { scenario_of self.new ≡ scenario_of self.old }
    {
        mark_unclaimed(&mut self.marks);
    }

    /// Why a job is of no claim of the book, where it is known whether their scenarios are the same. None where it is of one. Its ticket is looked
    /// for among the claims only where it doesn't claim the set at the path.
    fn refusal(&self, job: &Job, same: bool) -> Option<Refusal>
        requires { IsTrue same ↔ AreSame (scenario_of self.now) (arc_value job.now.scenario) }
        ensures { MatchOption result
            (IsClaimOf self.now job.now.ticket (arc_value job.now.scenario) job.now.path.items (task_of_job job.now))
            (IsRefusedFor self.now job.now.ticket (arc_value job.now.scenario) job.now.path.items (task_of_job job.now)) }
    {
        if !self.marks.is_claimed_at(job.ticket(), job.path()) {
            return Some(self.refusal_elsewhere(job, same));
        }
        if !same {
            return Some(Refusal::OtherScenario);
        }
        if !self.is_task(job.path(), &job.set(), job.excluded()) {
            return Some(Refusal::OtherSet);
        }
        None
    }

    /// Why a job that a book of the same scenario gave out is of no claim of the book. None where it is of one.
    fn refusal_given(&self, job: &Job) -> Option<Refusal>
        requires same { AreSame (scenario_of self.now) (arc_value job.now.scenario) }
        requires given { IsGivenFor (arc_value job.now.scenario) job.now.path.items (task_of_job job.now) }
        ensures { MatchOption result
            (IsClaimOf self.now job.now.ticket (arc_value job.now.scenario) job.now.path.items (task_of_job job.now))
            (IsRefusedFor self.now job.now.ticket (arc_value job.now.scenario) job.now.path.items (task_of_job job.now)) }
    {
        if self.marks.is_claimed_at(job.ticket(), job.path()) {
            return None;
        }
        Some(self.refusal_elsewhere(job, true))
    }

    /// Why a job is refused whose ticket doesn't claim the set at its path.
    fn refusal_elsewhere(&self, job: &Job, same: bool) -> Refusal
        requires elsewhere { (state_of self.now).marks job.now.path.items ≢ Some (marking.Claimed job.now.ticket) }
        requires same { IsTrue same ↔ AreSame (scenario_of self.now) (arc_value job.now.scenario) }
        ensures { IsRefusedFor self.now job.now.ticket (arc_value job.now.scenario) job.now.path.items (task_of_job job.now) result }
    {
        if !self.marks.has_claim(job.ticket()) {
            return Refusal::NoClaim;
        }
        if !same {
            return Refusal::OtherScenario;
        }
        Refusal::OtherSet
    }
}

/// Answers the set that the ticket claims.
fn mark_answered(marks: &mut Marks, ticket: u64, answer: Answer)
    requires { IsMarked (mark_at marks.old) (marking.Claimed ticket) }
    ensures answered { (p : List ℕ) → mark_at marks.old p ≡ Some (marking.Claimed ticket)
        → Answered p ticket (mark_for answer) (mark_at marks.old) (mark_at marks.new) }
    ensures level { level_of marks.new ≡ level_of marks.old }
    ensures shape { IsShape (level_of marks.new) (mark_at marks.new) }
{
    marks.answer(ticket, answer);
    marks_have_shape(marks);
}

/// Opens the set again that the ticket claims.
fn mark_open(marks: &mut Marks, ticket: u64)
    requires { IsMarked (mark_at marks.old) (marking.Claimed ticket) }
    ensures gave_back { (p : List ℕ) → mark_at marks.old p ≡ Some (marking.Claimed ticket) → GaveBack p ticket (mark_at marks.old) (mark_at marks.new) }
    ensures level { level_of marks.new ≡ level_of marks.old }
    ensures shape { IsShape (level_of marks.new) (mark_at marks.new) }
{
    marks.give_back(ticket);
    marks_have_shape(marks);
}

/// Opens all sets again that are claimed.
fn mark_unclaimed(marks: &mut Marks)
    ensures reclaimed { Reclaimed (mark_at marks.old) (mark_at marks.new) }
    ensures level { level_of marks.new ≡ level_of marks.old }
    ensures shape { IsShape (level_of marks.new) (mark_at marks.new) }
{
    marks.reclaim();
    marks_have_shape(marks);
}

/// The first of the sets that miss, now that a set is answered. `first` was the first so far.
fn lowered(first: Option<FaultSet>, set: FaultSet, answer: &Answer) -> Option<FaultSet>
    ensures reaches { mark_for answer.now ≢ marking.Misses → result ≡ first }
    ensures misses { mark_for answer.now ≡ marking.Misses → MatchOption first (result ≡ Some set) (λ least.
        (set_is_before set least ≡ true → result ≡ Some set) × (set_is_before set least ≡ false → result ≡ Some least)) }
{
    let Answer::Misses = answer else {
        return first;
    };
    match first {
        Some(least) => {
            if set.is_before(&least) {
                Some(set)
            } else {
                first
            }
        }
        None => Some(set),
    }
}
