//! The book that workers share.

ghost use Rattle.std.specs.Prelude.{◌≡◌, ◌+◌, ◌<◌, Some, IfOk, IfErr, OnOk, vec_len};
ghost use Rattle.std.specs.Arc.{arc_value};
ghost use Rattle.std.specs.List.{All, sum_by};
ghost use Rattle.lf_book.specs.Books.{scenario_of, state_of};
ghost use Rattle.lf_pool.specs.Holds.{IsAnsweredCount};
ghost use Rattle.lf_pool.specs.Solved.{AreWorkers, IsNotBegun};
ghost use Rattle.lf_certificate.specs.States.{IsStart};

use crate::error::PoolError;
use crate::locked::Locked;
use crate::searched::Searched;
use crate::share::Share;
use crate::solving::are_workers;
use lf_book::Book;
use lf_outcome::Scenario;
use std::alloc::{AllocError, Global};
use std::snapshot::Snapshot;
use std::sync::ledger::Blank;
use std::sync::{Arc, Condvar, Mutex, ledger};

/// A book that several workers share. Whenever the lock is got its book is closed and of the scenario that is searched, and as many of its sets are
/// answered as were filed.
#[derive(Drop)]
pub struct SharedBook<L: Searched> {
    pub(crate) lock: Mutex<Locked<L>>,
    /// Told whenever there may be more to do than before.
    pub(crate) changed: Condvar,
    /// The book as it was put under the lock, for clauses alone.
    pub(crate) begun: Snapshot<Book>,
}

impl<L: Searched> SharedBook<L> {
    /// A book of the scenario at its start, where the empty set is open and no ticket was given yet, and a share of nothing for each worker and for
    /// whoever gathers them. The errors are `Workers` and `Memory`.
    pub fn begin(
        alloc: Global,
        blank: Blank,
        scenario: Arc<Scenario>,
        workers: u32,
    ) -> Result<(SharedBook<L>, Vec<Share<L>>), PoolError>
        requires name { blank.name ≡ L.name }
        requires parts { blank.parts ≡ L.parts }
        requires enough { blank.parts ≡ workers + 1 }
        requires scenario { L.scenario ≡ Some (arc_value scenario) }
        ensures start { IfOk result (λ begun. IsStart (state_of begun.0.begun.value)) }
        ensures scenario { IfOk result (λ begun. scenario_of begun.0.begun.value ≡ arc_value scenario) }
        ensures shares { IfOk result (λ begun. vec_len begun.1 ≡ workers + 1) }
        ensures none { IfOk result (λ begun. All (λ share. share.filed ≡ 0) begun.1.items) }
        ensures workers { OnOk result (AreWorkers workers) }
        ensures err { IfErr result (IsNotBegun workers) }
    {
        if !are_workers(workers) {
            return Err(PoolError::Workers);
        }
        let (total, whole) = blank.open::<L>();
        let Ok(shares) = cut(alloc, whole, workers) else {
            return Err(PoolError::Memory);
        };
        let Ok(locked) = Locked::new(alloc, scenario, total) else {
            return Err(PoolError::Memory);
        };
        Ok((SharedBook::of(locked), shares))
    }

    /// A lock with this book under it.
    fn of(locked: Locked<L>) -> SharedBook<L>
        ensures { result.begun.value ≡ locked.book }
    {
        let begun = locked.shown();
        SharedBook {
            lock: Mutex::new(locked),
            changed: Condvar::new(),
            begun,
        }
    }

    /// The book, which is of the scenario that is searched, and the sum of all shares: so many of its sets are answered. It takes no memory.
    pub fn gather(self, shares: Vec<Share<L>>) -> (Book, u64)
        requires all { vec_len shares ≡ L.parts }
        requires some { 0 < L.parts }
        ensures scenario { L.scenario ≡ Some (scenario_of result.0) }
        ensures counted { IsAnsweredCount result.0 result.1 }
        ensures sum { result.1 ≡ sum_by (λ share. share.filed) shares.items }
    {
        let SharedBook { lock, .. } = self;
        lock.into_inner().gather(shares)
    }
}

/// One share for each worker, and one more.
fn cut<L: Searched>(
    alloc: Global,
    whole: ledger::Share<L>,
    workers: u32,
) -> Result<Vec<Share<L>>, AllocError>
    requires parts { whole.parts ≡ workers + 1 }
    requires none { whole.amount ≡ 0 }
    ensures count { IfOk result (λ shares. vec_len shares ≡ workers + 1) }
    ensures none { IfOk result (λ shares. All (λ share. share.filed ≡ 0) shares.items) }
{
    let mut whole = whole;
    let mut shares = Vec::with_capacity(alloc, workers as usize + 1)?;
    'workers: for _worker in 0..workers {
        shares.push(Share::new(alloc, whole.split_off(1, 0)))?;
    }
    shares.push(Share::new(alloc, whole))?;
    Ok(shares)
}
