//! A level with so many sets that workers take a handful at once.

ghost use Rattle.std.specs.Prelude.{IfOk};

use crate::gates::{found_without, wait_for};
use crate::texts::{agrees, asked, columns, is_text};
use crate::told::found;
use lf_outcome::Scenario;
use lf_pool::{Gate, NoGate};
use lf_work::{Finding, Job, Scratch, work_suited};
use std::alloc::{AllocError, Global};
use std::rt::Clock;
use std::sync::atomic::Ordering::SeqCst;
use std::sync::atomic::{AtomicBool, AtomicU64};
use std::sync::{Arc, Wait};
use std::thread;
use std::thread::Threads;
use std::time::Duration;

/// A scenario whose second level has more than 300 sets, and how many sets its search runs.
const LARGE: &str = "redundant|4 6 3 0 2|tries = 6;outcome = \"delivered\"|370";

/// The last ticket that is worked without company.
const LAST_ALONE: u64 = 100;

/// Counts the sets that are worked, and holds the first one past the hundredth until a second one is held beside it.
#[derive(Drop)]
struct Company {
    /// How many sets were worked.
    calls: AtomicU64,
    /// How many sets past the hundredth came.
    came: AtomicU64,
    /// Whether one was held in vain.
    missed: AtomicBool,
}

impl Company {
    /// Waits until a second set is here, for ten seconds at most.
    fn wait<R: Clock>(&self, rt: &R) {
        for _ in 0..10_000 {
            if self.came.load(SeqCst) > 1 {
                return;
            }
            thread::sleep(rt, Duration::from_millis(1));
        }
        self.missed.store(true, SeqCst);
    }
}

impl Gate for Company {
    fn run<R: Clock>(
        &self,
        rt: &R,
        job: &Job,
        scratch: &mut Scratch,
    ) -> Result<Finding, AllocError> {
        self.calls.fetch_add(1, SeqCst);
        if job.ticket() > LAST_ALONE {
            self.came.fetch_add(1, SeqCst);
            self.wait(rt);
        }
        work_suited(job, scratch)
    }
}

/// Whether three workers run so many sets, all of them by their gate, and two at once past the hundredth.
fn work_beside(
    rt: &(impl Threads + Wait + Clock + Sync),
    alloc: Global,
    scenario: &Arc<Scenario>,
    wanted: &str,
) -> bool {
    let gate = Company {
        calls: AtomicU64::new(0),
        came: AtomicU64::new(0),
        missed: AtomicBool::new(false),
    };
    let Some(found) = found(rt, alloc, scenario, 3, &gate) else {
        return false;
    };
    let (_, rest) = columns(found.as_str());
    let (runs, _) = columns(rest);
    runs == wanted
        && wanted.parse::<u64>().ok() == Some(gate.calls.load(SeqCst))
        && !gate.missed.load(SeqCst)
}

/// Whether three workers share the work of a row.
fn row_is_shared(rt: &(impl Threads + Wait + Clock + Sync), alloc: Global, row: &str) -> bool {
    match asked(alloc, row) {
        Some((scenario, wanted)) => work_beside(rt, alloc, &scenario, wanted),
        None => false,
    }
}

/// Whether three workers find this where a call of their gate finds no memory: the first one, or each thirtieth after it in turn.
fn is_found_without(
    rt: &(impl Threads + Wait + Clock + Sync),
    alloc: Global,
    scenario: &Arc<Scenario>,
    wanted: &str,
) -> bool {
    for turn in 0..12 {
        let (found, refused) = found_without(rt, alloc, scenario, 30 * turn);
        if !refused || !is_text(found, wanted) {
            return false;
        }
    }
    true
}

/// Whether three workers find for a row what one finds, though a call of their gate finds no memory.
fn row_is_found(rt: &(impl Threads + Wait + Clock + Sync), alloc: Global, row: &str) -> bool {
    let Some((scenario, _)) = asked(alloc, row) else {
        return false;
    };
    match found(rt, alloc, &scenario, 1, &NoGate) {
        Some(wanted) => is_found_without(rt, alloc, &scenario, wanted.as_str()),
        None => false,
    }
}

/// Whether workers share the work of a row, and whether they find it without memory for some.
fn row_is_worked(
    rt: &(impl Threads + Wait + Clock + Sync),
    alloc: Global,
    row: &str,
    done: &AtomicBool,
) -> bool {
    let worked = row_is_shared(rt, alloc, row) && row_is_found(rt, alloc, row);
    done.store(true, SeqCst);
    worked
}

#[test]
fn workers_take_handfuls_of_a_large_level(rt: HostRuntime) {
    let alloc = rt.alloc();
    let done = AtomicBool::new(false);
    let (worked, ()) = thread::join(
        &rt,
        || row_is_worked(&rt, alloc, LARGE, &done),
        || wait_for(&rt, &done),
    );
    agrees(&rt, worked, LARGE);
}
