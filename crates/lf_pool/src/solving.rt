//! Solving a scenario by several workers.

ghost use Rattle.std.specs.Prelude.{◌≡◌, ◌↔◌, ◌+◌, ◌≤◌, Some, IsTrue, IfOk, IfErr, OnOk};
ghost use Rattle.std.specs.Arc.{arc_value};
ghost use denote.Param.Send.{IsSend, IsSync};
ghost use Rattle.lf_pool.specs.Holds.{IsLastTurn};
ghost use Rattle.lf_pool.specs.Solved.{AreSolved, AreWorkers, IsEnded, IsRefused, IsSolved, number_of};

use crate::answers::{all_of, answer_of};
use crate::error::PoolError;
use crate::fetching::fetch_memory;
use crate::finish::{Ended, finish};
use crate::gate::Gate;
use crate::searched::Searched;
use crate::share::Share;
use crate::shared::SharedBook;
use crate::turning::{Turn, is_last};
use lf_book::Book;
use lf_faults::FaultSet;
use lf_outcome::Scenario;
use lf_tree::Tree;
use std::alloc::{AllocError, Global};
use std::marker::Brand;
use std::rt::Clock;
use std::sync::ledger::Blank;
use std::sync::{Arc, Wait};
use std::thread;
use std::thread::Threads;

/// The most workers that may search at once.
pub const MOST_WORKERS: u32 = 32;

/// What a search by several workers gives.
#[derive(Drop)]
pub enum Solved {
    /// The search has ended.
    Answer {
        /// The first allowed set, in the order of sets, that misses the outcome, or None where every allowed set reaches it.
        set: Option<FaultSet>,
        /// The one tree of the scenario.
        tree: Tree,
        /// How many sets were run, as many as the tree has nodes.
        runs: u64,
    },
    /// The next level has more sets than may be kept: a book that can't be deepened.
    Full(Book),
}

/// What a search by several workers gives that is asked for all least sets.
#[derive(Drop)]
pub enum SolvedAll {
    /// The search has ended.
    All {
        /// Each allowed set that misses the outcome with as few faults as any, in the order of sets. None where every allowed set
        /// reaches it.
        sets: Vec<FaultSet>,
        /// The one tree of the scenario.
        tree: Tree,
        /// How many sets were run, as many as the tree has nodes.
        runs: u64,
    },
    /// The next level has more sets than may be kept: a book that can't be deepened.
    Full(Book),
}

/// Whether so many workers may search.
pub(crate) fn are_workers(workers: u32) -> bool
    ensures { IsTrue result ↔ AreWorkers workers }
{
    1 <= workers && workers <= MOST_WORKERS
}

/// Searches a scenario by several workers at once. What it answers is of the scenario alone: it is the same for every number of them.
pub fn solve<R: Threads + Wait + Clock + Sync, G: Gate>(
    rt: &R,
    alloc: Global,
    scenario: Arc<Scenario>,
    workers: u32,
    gate: &G,
) -> Result<Solved, PoolError>
    ensures solved { IfOk result (IsSolved (arc_value scenario)) }
    ensures workers { OnOk result (AreWorkers workers) }
    ensures refused { IfErr result (IsRefused (arc_value scenario) workers) }
{
    let blank = Blank::new(u64::from(workers) + 1);
    match search_in::<Brand, R, G>(rt, alloc, blank, scenario, workers, gate)? {
        Ended::Finished(book) => Ok(answer_of(book)),
        Ended::Full(book) => Ok(Solved::Full(book)),
    }
}

/// The same search, for all least sets.
pub fn solve_all<R: Threads + Wait + Clock + Sync, G: Gate>(
    rt: &R,
    alloc: Global,
    scenario: Arc<Scenario>,
    workers: u32,
    gate: &G,
) -> Result<SolvedAll, PoolError>
    ensures solved { IfOk result (AreSolved (arc_value scenario)) }
    ensures workers { OnOk result (AreWorkers workers) }
    ensures refused { IfErr result (IsRefused (arc_value scenario) workers) }
{
    let blank = Blank::new(u64::from(workers) + 1);
    match search_in::<Brand, R, G>(rt, alloc, blank, scenario, workers, gate)? {
        Ended::Finished(book) => all_of(book),
        Ended::Full(book) => Ok(SolvedAll::Full(book)),
    }
}

/// The search, with a ledger of its own.
fn search_in<L: Searched + Send + Sync, R: Threads + Wait + Clock + Sync, G: Gate>(
    rt: &R,
    alloc: Global,
    blank: Blank,
    scenario: Arc<Scenario>,
    workers: u32,
    gate: &G,
) -> Result<Ended, PoolError>
    requires name { blank.name ≡ L.name }
    requires parts { blank.parts ≡ L.parts }
    requires enough { blank.parts ≡ workers + 1 }
    requires scenario { L.scenario ≡ Some (arc_value scenario) }
    ensures ended { IfOk result (IsEnded (arc_value scenario)) }
    ensures workers { OnOk result (AreWorkers workers) }
    ensures refused { IfErr result (IsRefused (arc_value scenario) workers) }
{
    if !are_workers(workers) {
        return Err(PoolError::Workers);
    }
    let (shared, mut shares) = SharedBook::<L>::begin(alloc, blank, scenario, workers)?;
    let lent = shares.as_mut_slice();
    let (own, _last) = lent.split_at_mut(workers as usize);
    work_all(rt, &shared, own, gate);
    let (book, _filed) = shared.gather(shares);
    finish(alloc, book)
}

/// Lets each share's worker work until there is no more to do.
fn work_all<L: Searched + Send + Sync, R: Threads + Wait + Clock + Sync, G: Gate>(
    rt: &R,
    shared: &SharedBook<L>,
    shares: &mut [Share<L>],
    gate: &G,
) {
    thread::scope(
        thread::scope_env(),
        rt,
        move |scope|
            requires { IsSend L.row × IsSync L.row × IsSync R.row × IsSync G.row }
        {
            for share in shares.iter_mut() {
                let _started = scope
                    .spawn(move || {
                        let _ended = work(rt, shared, share, gate);
                    })
                    .is_ok();
            }
        },
    );
}

/// A worker's turns, several at once where many sets are open, until there is no more to do: its last turn is answered, which found that in a book of the
/// scenario. The error is that memory has run out.
fn work<L: Searched, R: Wait + Clock, G: Gate>(
    rt: &R,
    shared: &SharedBook<L>,
    share: &mut Share<L>,
    gate: &G,
) -> Result<Turn, AllocError>
    ensures { IfOk result (IsLastTurn L.scenario) }
{
    fetch_memory(*share.spent.allocator());
    for _ in rt.forever() {
        if shared.work_some(rt, share, gate)? > 0 {
            continue;
        }
        let turn = shared.work_one(rt, share, gate)?;
        if is_last(&turn) {
            return Ok(turn);
        }
    }
    unreachable!()
}
