//! Gates of tests: one that holds sets until others are worked, and one that finds no memory.

ghost use Rattle.std.specs.Prelude.{IfOk};

use crate::texts::{agrees, asked, columns, is_text};
use crate::told::found;
use lf_outcome::Scenario;
use lf_pool::{Gate, NoGate};
use lf_work::{Finding, Job, Scratch, work_suited};
use std::alloc::{AllocError, Global};
use std::process::Abort;
use std::rt::Clock;
use std::sync::atomic::Ordering::SeqCst;
use std::sync::atomic::{AtomicBool, AtomicU64};
use std::sync::{Arc, Wait};
use std::thread;
use std::thread::Threads;
use std::time::Duration;

/// Holds the sets of the first level before the last one until that one is worked too: only workers that work at once get on.
#[derive(Drop)]
struct Meeting {
    /// The ticket of the last set.
    last: u64,
    /// Whether it came.
    came: AtomicBool,
    /// Whether somebody waited for it in vain.
    missed: AtomicBool,
}

impl Meeting {
    /// Waits until the last set comes, for ten seconds at most.
    fn wait<R: Clock>(&self, rt: &R) {
        for _ in 0..10_000 {
            if self.came.load(SeqCst) {
                return;
            }
            thread::sleep(rt, Duration::from_millis(1));
        }
        self.missed.store(true, SeqCst);
    }
}

impl Gate for Meeting {
    fn run<R: Clock>(
        &self,
        rt: &R,
        job: &Job,
        scratch: &mut Scratch,
    ) -> Result<Finding, AllocError> {
        if job.ticket() == self.last {
            self.came.store(true, SeqCst);
        } else if job.ticket() > 1 {
            self.wait(rt);
        }
        work_suited(job, scratch)
    }
}

/// A scenario, so many workers, the last ticket that they meet at, and how many sets they run.
const MEETINGS: &str = concat!(
    "retry|3 4 3 0 2|tries = 1;outcome = \"delivered\"|2|3|3\n",
    "primary_backup|3 6 2 0 2|patience = 3;outcome = [\"shows\", 2, 6, \"unclaimed\"]|3|4|7\n",
);

/// Whether so many workers meet at a gate, and run so many sets.
fn meet(
    rt: &(impl Threads + Wait + Clock + Sync),
    alloc: Global,
    scenario: &Arc<Scenario>,
    workers: u32,
    gate: &Meeting,
    wanted: &str,
) -> bool {
    let Some(found) = found(rt, alloc, scenario, workers, gate) else {
        return false;
    };
    let (_, rest) = columns(found.as_str());
    let (runs, _) = columns(rest);
    runs == wanted && gate.came.load(SeqCst) && !gate.missed.load(SeqCst)
}

/// Whether the workers of a row's last columns work at once, and run so many sets.
fn columns_meet(
    rt: &(impl Threads + Wait + Clock + Sync),
    alloc: Global,
    scenario: &Arc<Scenario>,
    rest: &str,
) -> bool {
    let (workers, rest) = columns(rest);
    let (last, wanted) = columns(rest);
    let (Ok(workers), Ok(last)) = (workers.parse::<u32>(), last.parse::<u64>()) else {
        return false;
    };
    let gate = Meeting {
        last,
        came: AtomicBool::new(false),
        missed: AtomicBool::new(false),
    };
    meet(rt, alloc, scenario, workers, &gate, wanted)
}

/// Whether the workers of a row work at once, and run so many sets.
fn row_meets(rt: &(impl Threads + Wait + Clock + Sync), alloc: Global, row: &str) -> bool {
    match asked(alloc, row) {
        Some((scenario, rest)) => columns_meet(rt, alloc, &scenario, rest),
        None => false,
    }
}

#[test]
fn workers_work_at_once(rt: HostRuntime) {
    for row in MEETINGS.lines() {
        agrees(&rt, row_meets(&rt, rt.alloc(), row), row);
    }
}

/// Finds no memory when it is called the k-th time.
#[derive(Drop)]
struct Refusing {
    /// Which call is refused, from 0.
    at: u64,
    /// How many calls came.
    calls: AtomicU64,
}

impl Gate for Refusing {
    fn run<R: Clock>(
        &self,
        _rt: &R,
        job: &Job,
        scratch: &mut Scratch,
    ) -> Result<Finding, AllocError> {
        if self.calls.fetch_add(1, SeqCst) == self.at {
            return Err(AllocError);
        }
        work_suited(job, scratch)
    }
}

/// What three workers find where one call of their gate finds no memory, and whether one did.
pub(crate) fn found_without(
    rt: &(impl Threads + Wait + Clock + Sync),
    alloc: Global,
    scenario: &Arc<Scenario>,
    at: u64,
) -> (Option<String>, bool) {
    let gate = Refusing {
        at,
        calls: AtomicU64::new(0),
    };
    let found = found(rt, alloc, scenario, 3, &gate);
    (found, gate.calls.load(SeqCst) > at)
}

/// Whether this is found wherever a call of the gate finds no memory.
fn is_found_without(
    rt: &(impl Threads + Wait + Clock + Sync),
    alloc: Global,
    scenario: &Arc<Scenario>,
    wanted: &str,
) -> bool {
    for at in 0..1_000 {
        let (found, refused) = found_without(rt, alloc, scenario, at);
        if !is_text(found, wanted) {
            return false;
        }
        if !refused {
            return true;
        }
    }
    false
}

/// Whether what a row's workers find, wherever a call of their gate finds no memory, is what one worker finds with ample memory.
fn row_is_found(rt: &(impl Threads + Wait + Clock + Sync), alloc: Global, row: &str) -> bool {
    let Some((scenario, _)) = asked(alloc, row) else {
        return false;
    };
    match found(rt, alloc, &scenario, 1, &NoGate) {
        Some(wanted) => is_found_without(rt, alloc, &scenario, wanted.as_str()),
        None => false,
    }
}

/// Waits until something is done, for thirty seconds at most. Where it isn't done by then the test fails: workers that wait for one another
/// never end by themselves.
pub(crate) fn wait_for(rt: &(impl Clock + Abort), done: &AtomicBool) {
    for _ in 0..30_000 {
        if done.load(SeqCst) {
            return;
        }
        thread::sleep(rt, Duration::from_millis(1));
    }
    agrees(rt, false, "workers that wait for one another");
}

/// Scenarios whose search runs a few sets, and more.
const SMALL: &str = concat!(
    "retry|3 4 3 0 2|tries = 1;outcome = \"delivered\"\n",
    "primary_backup|3 6 2 0 2|patience = 3;outcome = \"one_primary\"\n",
);

/// Whether what the workers of all rows find is what one worker finds with ample memory.
fn rows_are_found(
    rt: &(impl Threads + Wait + Clock + Sync),
    alloc: Global,
    rows: &str,
    done: &AtomicBool,
) -> bool {
    let mut are_found = true;
    for row in rows.lines() {
        are_found = are_found && row_is_found(rt, alloc, row);
    }
    done.store(true, SeqCst);
    are_found
}

#[test]
fn a_worker_without_memory_leaves_its_set_to_others(rt: HostRuntime) {
    let alloc = rt.alloc();
    let done = AtomicBool::new(false);
    let (are_found, ()) = thread::join(
        &rt,
        || rows_are_found(&rt, alloc, SMALL, &done),
        || wait_for(&rt, &done),
    );
    agrees(&rt, are_found, SMALL);
}
