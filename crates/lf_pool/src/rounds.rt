//! The rounds of a worker, in each of which it works a handful of sets.

ghost use Rattle.std.specs.Prelude.{◌≡◌, ◌⊎◌, ◌+◌, ◌^◌, ◌<◌, ◌≤◌, [], ◌∷◌, ◌++◌, IfOk, IfErr, OnOk, OnErr, length, vec_capacity};
ghost use Rattle.std.specs.Arc.{arc_value};
ghost use Rattle.std.specs.List.{All};
ghost use Rattle.lf_work.specs.Jobs.{IsOfJob};
ghost use Rattle.lf_work.specs.Scratches.{IsScratchFor};
ghost use Rattle.lf_pool.specs.Holds.{AreFindingsIn, AreJobsIn, IsAtWork, IsLeftIn};
ghost use Rattle.lf_pool.specs.declared.handful.TheConstants.{HANDFUL};
ghost use Rattle.lf_pool.specs.declared.locked.hand.Found.{Found};

use crate::gate::Gate;
use crate::handful::HANDFUL;
use crate::hands::Hands;
use crate::locked::{Claim, Found, Hand};
use crate::searched::Searched;
use crate::share::Share;
use crate::shared::SharedBook;
use lf_work::{Scratch, Spent};
use std::alloc::AllocError;
use std::mem::swap;
use std::rt::Clock;
use std::sync::Wait;

/// How much a worker has found before it tries for its next handful, while it has sets to work: half a handful.
const FOUND: usize = HANDFUL / 2;

impl<L: Searched> SharedBook<L> {
    /// Many turns of a worker at once, as long as many sets are open: it takes a handful of them, works each by the gate outside the lock, and
    /// files what it found in a hold in which it takes the next handful. Where few sets are open, and where the worker has no lists, it does
    /// nothing. It answers how much was filed, and by so much the share is raised. The error is that memory has run out: what was found before
    /// is filed, and the other sets were given back.
    pub(crate) fn work_some<R: Wait + Clock, G: Gate>(
        &self,
        rt: &R,
        share: &mut Share<L>,
        gate: &G,
    ) -> Result<u64, AllocError>
        ensures filed { IfOk result (λ filed. share.new.filed ≡ share.old.filed + filed) }
        ensures err { OnErr result (share.old.filed ≤ share.new.filed) }
    {
        let Some(mut hands) = share.hands.take() else {
            return Ok(0);
        };
        let before = share.filed;
        let mut hand = Hand::new();
        let worked = self.work_rounds(rt, share, gate, &mut hand, &mut hands);
        hand.close();
        share.hands = Some(hands);
        worked?;
        Ok(share.filed - before)
    }

    /// The same, with the worker's lists. No set is in hand before it, nor after it.
    fn work_rounds<R: Wait + Clock, G: Gate>(
        &self,
        rt: &R,
        share: &mut Share<L>,
        gate: &G,
        hand: &mut Hand,
        hands: &mut Hands,
    ) -> Result<(), AllocError>
        requires { hand.old.held ≡ 0 }
        ensures share { share.old.filed ≤ share.new.filed }
        ensures hand { hand.new.held ≡ 0 }
    {
        let Hands {
            jobs,
            next,
            findings,
        } = hands;
        self.take_handful(rt, hand, jobs, &mut share.spent);
        let Some(last) = jobs.last() else {
            return Ok(());
        };
        share.scratch.suit(last.job());
        let mut worked = Ok(());
        for _ in rt.forever() {
            worked = self.work_round(rt, share, gate, hand, jobs, next, findings);
            if worked.is_err() {
                break;
            }
            swap(jobs, next);
            if jobs.is_empty() {
                break;
            }
        }
        self.end_all(rt, share, hand, jobs, next, findings);
        worked
    }

    /// Works a handful of jobs, the last one first. Meanwhile it takes the next handful once it gets the lock without waiting, and at its end it
    /// waits for the lock if it hasn't got it. In that hold it files what it found before. The error is that memory has run out.
    fn work_round<R: Wait + Clock, G: Gate>(
        &self,
        rt: &R,
        share: &mut Share<L>,
        gate: &G,
        hand: &mut Hand,
        jobs: &mut Vec<Claim>,
        next: &mut Vec<Claim>,
        findings: &mut Vec<Found>,
    ) -> Result<(), AllocError>
        requires none { next.old.items ≡ [] }
        requires held { hand.old.held ≡ length jobs.old.items + (length next.old.items + length findings.old.items) }
        requires work { IsAtWork L.scenario jobs.old.items next.old.items findings.old.items share.old.scratch }
        requires few { (length jobs.old.items ≤ HANDFUL) × (length findings.old.items ≤ HANDFUL) }
        requires rooms { (HANDFUL ≤ vec_capacity next.old) × (HANDFUL + HANDFUL ≤ vec_capacity findings.old) }
        ensures all { OnOk result (jobs.new.items ≡ []) }
        ensures held { hand.new.held ≡ length jobs.new.items + (length next.new.items + length findings.new.items) }
        ensures work { IsAtWork L.scenario jobs.new.items next.new.items findings.new.items share.new.scratch }
        ensures few { OnOk result ((length next.new.items ≤ HANDFUL) × (length findings.new.items ≤ HANDFUL)) }
        ensures rooms { (vec_capacity jobs.new ≡ vec_capacity jobs.old) × (vec_capacity next.new ≡ vec_capacity next.old)
            × (vec_capacity findings.new ≡ vec_capacity findings.old) }
        ensures share { share.old.filed ≤ share.new.filed }
    {
        'jobs: while let Some(job) = jobs.pop() {
            if let Err((error, job)) = put_found(rt, gate, &mut share.scratch, job, findings) {
                jobs.push_reserved(job);
                return Err(error);
            }
            if next.is_empty() && findings.len() >= FOUND {
                self.try_on(share, hand, next, findings);
            }
        }
        if next.is_empty() {
            self.go_on(rt, share, hand, next, findings);
        }
        Ok(())
    }

    /// Takes a handful of sets where many are open.
    fn take_handful<R: Wait>(
        &self,
        rt: &R,
        hand: &mut Hand,
        jobs: &mut Vec<Claim>,
        spent: &mut Vec<Spent>,
    )
        requires none { jobs.old.items ≡ [] }
        requires held { hand.old.held ≡ 0 }
        requires left { All (IsLeftIn L.scenario) spent.old.items }
        requires room { HANDFUL ≤ vec_capacity jobs.old }
        ensures same { AreJobsIn L.scenario jobs.new.items }
        ensures left { All (IsLeftIn L.scenario) spent.new.items }
        ensures few { length jobs.new.items ≤ HANDFUL }
        ensures room { vec_capacity jobs.new ≡ vec_capacity jobs.old }
        ensures held { hand.new.held ≡ length jobs.new.items }
    {
        self.lock.lock(rt).take_some(hand, jobs, spent);
    }

    /// Files what was found and takes a handful, once the lock is free.
    fn go_on<R: Wait>(
        &self,
        rt: &R,
        share: &mut Share<L>,
        hand: &mut Hand,
        jobs: &mut Vec<Claim>,
        findings: &mut Vec<Found>,
    )
        requires none { jobs.old.items ≡ [] }
        requires findings { AreFindingsIn L.scenario findings.old.items }
        requires held { (length findings.old.items ≤ hand.old.held) × (hand.old.held < 2 ^ 32) }
        requires room { HANDFUL ≤ vec_capacity jobs.old }
        ensures same { AreJobsIn L.scenario jobs.new.items }
        ensures few { length jobs.new.items ≤ HANDFUL }
        ensures held { hand.new.held + length findings.old.items ≡ hand.old.held + length jobs.new.items }
        ensures none { findings.new.items ≡ [] }
        ensures rooms { (vec_capacity jobs.new ≡ vec_capacity jobs.old) × (vec_capacity findings.new ≡ vec_capacity findings.old) }
        ensures share { share.old.filed ≤ share.new.filed }
        ensures scratch { share.new.scratch ≡ share.old.scratch }
    {
        self.lock.lock(rt).go_on(share, hand, jobs, findings);
        self.changed.notify_all();
    }

    /// The same where the lock is free at once. Else nothing changes.
    fn try_on(
        &self,
        share: &mut Share<L>,
        hand: &mut Hand,
        jobs: &mut Vec<Claim>,
        findings: &mut Vec<Found>,
    )
        requires none { jobs.old.items ≡ [] }
        requires findings { AreFindingsIn L.scenario findings.old.items }
        requires held { (length findings.old.items ≤ hand.old.held) × (hand.old.held < 2 ^ 32) }
        requires room { HANDFUL ≤ vec_capacity jobs.old }
        ensures same { AreJobsIn L.scenario jobs.new.items }
        ensures few { length jobs.new.items ≤ HANDFUL }
        ensures held { hand.new.held + length findings.old.items ≡ hand.old.held + (length jobs.new.items + length findings.new.items) }
        ensures done { ((jobs.new.items ≡ []) × (findings.new.items ≡ findings.old.items)) ⊎ (findings.new.items ≡ []) }
        ensures rooms { (vec_capacity jobs.new ≡ vec_capacity jobs.old) × (vec_capacity findings.new ≡ vec_capacity findings.old) }
        ensures share { share.old.filed ≤ share.new.filed }
        ensures scratch { share.new.scratch ≡ share.old.scratch }
    {
        let Some(mut locked) = self.lock.try_lock() else {
            return;
        };
        locked.go_on(share, hand, jobs, findings);
        drop(locked);
        self.changed.notify_all();
    }

    /// Files what was found, gives jobs back, and wakes all that wait.
    fn end_all<R: Wait>(
        &self,
        rt: &R,
        share: &mut Share<L>,
        hand: &mut Hand,
        jobs: &mut Vec<Claim>,
        next: &mut Vec<Claim>,
        findings: &mut Vec<Found>,
    )
        requires findings { AreFindingsIn L.scenario findings.old.items }
        requires held { hand.old.held ≡ length jobs.old.items + (length next.old.items + length findings.old.items) }
        ensures held { hand.new.held ≡ 0 }
        ensures none { (jobs.new.items ≡ []) × (next.new.items ≡ []) × (findings.new.items ≡ []) }
        ensures rooms { (vec_capacity jobs.new ≡ vec_capacity jobs.old) × (vec_capacity next.new ≡ vec_capacity next.old)
            × (vec_capacity findings.new ≡ vec_capacity findings.old) }
        ensures share { share.old.filed ≤ share.new.filed }
    {
        let mut locked = self.lock.lock(rt);
        let _filed = locked.end_some(share, hand, jobs, findings);
        let _more = locked.end_some(share, hand, next, findings);
        drop(locked);
        self.changed.notify_all();
    }
}

/// Works a job of the scratch's scenario by the gate, and puts what is found at the end of a list with room for it. The error is that memory has run out, and
/// hands the job back.
fn put_found<R: Clock, G: Gate>(
    rt: &R,
    gate: &G,
    scratch: &mut Scratch,
    job: Claim,
    findings: &mut Vec<Found>,
) -> Result<(), (AllocError, Claim)>
    requires suited { IsScratchFor (arc_value job.job.scenario) scratch.old }
    requires room { length findings.old.items < vec_capacity findings.old }
    ensures found { OnOk result ((found : Found) × (findings.new.items ≡ findings.old.items ++ found ∷ []) × IsOfJob job.job found.finding) }
    ensures back { IfErr result (λ back. (back.1 ≡ job) × (findings.new ≡ findings.old)) }
    ensures scratch { IsScratchFor (arc_value job.job.scenario) scratch.new }
    ensures room { vec_capacity findings.new ≡ vec_capacity findings.old }
{
    match job.work(rt, gate, scratch) {
        Ok(found) => {
            findings.push_reserved(found);
            Ok(())
        }
        Err(back) => Err(back),
    }
}
