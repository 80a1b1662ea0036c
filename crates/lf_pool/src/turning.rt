//! The turns of a worker.

ghost use Rattle.std.specs.Prelude.{◌≡◌, ◌≢◌, ◌+◌, Option, Ok, IfOk, IsTrue};
ghost use Rattle.lf_pool.specs.Holds.{IsBusy, IsLastTurn, IsTurn, WasBegun};
ghost use Rattle.lf_outcome.specs.declared.scenario.Scenario.{Scenario};
ghost use Rattle.std.specs.Sync.Mutex.{mutex_guard_value};
ghost use Rattle.lf_pool.specs.declared.locked.Begun.TheVariants as begun;
ghost use Rattle.lf_pool.specs.declared.turning.Turn.TheVariants as turn;

use crate::gate::Gate;
use crate::locked::{Begun, Claim, Found, Hand, Locked};
use crate::searched::Searched;
use crate::share::Share;
use crate::shared::SharedBook;
use lf_book::Deepened;
use std::alloc::AllocError;
use std::rt::Clock;
use std::sync::{MutexGuard, Wait};

/// What a turn did.
#[derive(Clone, Copy, Debug, PartialEq, Eq)]
pub enum Turn {
    /// A set was taken and worked, and what was found is filed.
    Filed,
    /// A set was taken and worked, and the book refused what was found.
    Refused,
    /// All open sets are worked by others: the worker waited once.
    Waited,
    /// The level was done: this came after it.
    Deepened(Deepened),
    /// The search has ended.
    Finished,
    /// The next level has more sets than may be kept, so many.
    Full {
        /// How many sets wait.
        count: u64,
    },
    /// A set is open, but all tickets were given.
    Spent,
}

impl<L: Searched> SharedBook<L> {
    /// One turn of a worker: it takes a set, works it by the gate outside the lock, and files what it found. Where the level is done it
    /// deepens the book, and where all open sets are worked by others it waits once for a change. The error is that memory has run
    /// out: the set was given back. The share is raised by one where a finding was filed, and is else as it was. What it answers is what a hold did to a
    /// book of the scenario, or found.
    pub fn work_one<R: Wait + Clock, G: Gate>(
        &self,
        rt: &R,
        share: &mut Share<L>,
        gate: &G,
    ) -> Result<Turn, AllocError>
        ensures turn { IfOk result (IsTurn L.scenario) }
        ensures filed { result ≡ Ok turn.Filed → share.new.filed ≡ share.old.filed + 1 }
        ensures other { result ≢ Ok turn.Filed → share.new.filed ≡ share.old.filed }
    {
        let mut hand = Hand::new();
        let turn = self.turn(rt, share, gate, &mut hand);
        hand.close();
        turn
    }

    /// The same. No set is in hand before it, nor after it.
    fn turn<R: Wait + Clock, G: Gate>(
        &self,
        rt: &R,
        share: &mut Share<L>,
        gate: &G,
        hand: &mut Hand,
    ) -> Result<Turn, AllocError>
        requires { hand.old.held ≡ 0 }
        ensures turn { IfOk result (IsTurn L.scenario) }
        ensures filed { result ≡ Ok turn.Filed → share.new.filed ≡ share.old.filed + 1 }
        ensures other { result ≢ Ok turn.Filed → share.new.filed ≡ share.old.filed }
        ensures hand { hand.new.held ≡ 0 }
    {
        let mut guard = self.lock.lock(rt);
        let claim = match guard.begin(hand)? {
            Begun::Job(claim) => claim,
            Begun::Busy => {
                self.wait_once(rt, guard);
                return Ok(Turn::Waited);
            }
            Begun::Deepened(deepened) => {
                drop(guard);
                self.changed.notify_all();
                return Ok(turn_of(deepened));
            }
            Begun::Finished => return Ok(Turn::Finished),
            Begun::Spent => return Ok(Turn::Spent),
        };
        drop(guard);
        share.scratch.suit(claim.job());
        match claim.work(rt, gate, &mut share.scratch) {
            Ok(found) => Ok(self.file(rt, share, hand, found)),
            Err((error, claim)) => {
                self.give_back(rt, hand, claim);
                Err(error)
            }
        }
    }

    /// Waits once for a change, where no set is open and some are worked by others.
    fn wait_once<R: Wait>(&self, rt: &R, guard: MutexGuard<'_, Locked<L>>)
        requires { IsBusy (mutex_guard_value guard).book }
    {
        let _woken = self.changed.wait(rt, guard);
    }

    /// Files what was found, and wakes all that wait.
    fn file<R: Wait>(&self, rt: &R, share: &mut Share<L>, hand: &mut Hand, found: Found) -> Turn
        requires { hand.old.held ≡ 1 }
        ensures turn { IsTurn L.scenario result }
        ensures hand { hand.new.held ≡ 0 }
        ensures filed { result ≡ turn.Filed → share.new.filed ≡ share.old.filed + 1 }
        ensures other { result ≢ turn.Filed → share.new.filed ≡ share.old.filed }
    {
        let filed = self.lock.lock(rt).file(share, hand, found, false);
        self.changed.notify_all();
        if filed { Turn::Filed } else { Turn::Refused }
    }

    /// Gives a job back, and wakes all that wait.
    fn give_back<R: Wait>(&self, rt: &R, hand: &mut Hand, claim: Claim)
        requires { hand.old.held ≡ 1 }
        ensures { hand.new.held ≡ 0 }
    {
        let _given = self.lock.lock(rt).give_back(hand, claim);
        self.changed.notify_all();
    }
}

/// The turn that deepened a book.
fn turn_of(deepened: Deepened) -> Turn
    ensures turn { (s : Option Scenario) → WasBegun s (begun.Deepened deepened) → IsTurn s result }
    ensures other { result ≢ turn.Filed }
{
    match deepened {
        Deepened::Full { count } => Turn::Full { count },
        other => Turn::Deepened(other),
    }
}

/// Whether a worker has no more to do after such a turn.
pub(crate) fn is_last(turn: &Turn) -> bool
    ensures { IsTrue result → (s : Option Scenario) → IsTurn s turn.now → IsLastTurn s turn.now }
{
    match turn {
        Turn::Finished | Turn::Full { .. } | Turn::Spent => true,
        Turn::Filed | Turn::Refused | Turn::Waited | Turn::Deepened(_) => false,
    }
}
