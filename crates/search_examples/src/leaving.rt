//! A level with thousands of sets, and workers that leave it: they find no memory within a round, while the others wait for their sets.

ghost use Rattle.std.specs.Prelude.{IfOk};

use crate::gates::wait_for;
use crate::texts::{agrees, asked};
use lf_outcome::Scenario;
use lf_pool::{Gate, NoGate, Solved, solve};
use lf_tree::to_text;
use lf_work::{Finding, Job, Scratch, work_suited};
use std::alloc::{AllocError, Global};
use std::process::Abort;
use std::rt::Clock;
use std::sync::atomic::Ordering::SeqCst;
use std::sync::atomic::{AtomicBool, AtomicU64};
use std::sync::{Arc, Wait};
use std::thread;
use std::thread::Threads;
use std::time::Duration;

/// A scenario whose last level has more than 8,000 sets, and how many sets its search runs.
const THOUSANDS: &str = "redundant|4 7 4 0 3|tries = 7;outcome = \"delivered\"|9587";

/// The last ticket that nobody leaves with: past it so many sets are open that each handful is as large as any.
const LAST_KEPT: u64 = 2_000;

/// How many tickets a handful has.
const HANDFUL: u64 = 64;

/// How many sets of a handful are worked before the next handful is surely in hand, where nobody else has the lock.
const WORKED: u64 = 40;

/// Waits until no set has come to a gate for a tenth of a second, twenty seconds at most, and answers how many had come then.
fn wait_for_quiet(rt: &impl Clock, calls: &AtomicU64) -> u64 {
    let mut seen = 0;
    for _ in 0..200 {
        let now = calls.load(SeqCst);
        if now == seen {
            break;
        }
        seen = now;
        thread::sleep(rt, Duration::from_millis(100));
    }
    seen
}

/// Holds one set of some handfuls until no other set comes, so that all other workers wait, and then finds no memory for it.
#[derive(Drop)]
struct Leaving {
    /// The place of the ticket of a set that may be held, among the tickets of a handful.
    place: u64,
    /// How many sets are still to be held. As many workers leave.
    leavers: AtomicU64,
    /// How many sets came.
    calls: AtomicU64,
}

impl Leaving {
    /// Whether a set is one to be held, which is so of as many as are to leave.
    fn holds(&self, ticket: u64) -> bool {
        ticket > LAST_KEPT
            && ticket % HANDFUL == self.place
            && self
                .leavers
                .fetch_update(SeqCst, SeqCst, |left| left.checked_sub(1))
                .is_ok()
    }
}

impl Gate for Leaving {
    fn run<R: Clock>(
        &self,
        rt: &R,
        job: &Job,
        scratch: &mut Scratch,
    ) -> Result<Finding, AllocError> {
        self.calls.fetch_add(1, SeqCst);
        if self.holds(job.ticket()) {
            let _came = wait_for_quiet(rt, &self.calls);
            return Err(AllocError);
        }
        work_suited(job, scratch)
    }
}

/// What a worker does with a set.
#[derive(Clone, Copy)]
enum Course {
    /// It works the set.
    Work,
    /// It works the set once all others are held.
    Begin,
    /// It is held until the one that leaves is about to, and then works the set.
    Stay,
    /// It finds no memory for the set, once no other set comes.
    Leave,
}

/// Holds all workers but one, which begins a handful once they are held. So nobody has the lock while it works, and it takes its next handful. Then the
/// others go on, and it finds no memory.
#[derive(Drop)]
struct Prepared {
    /// How many workers are held.
    others: u64,
    /// The ticket of the set that the one that leaves begins with. None before it came: 0.
    first: AtomicU64,
    /// How many came to be held.
    held: AtomicU64,
    /// Whether those that are held go on.
    open: AtomicBool,
    /// Whether somebody waited in vain.
    missed: AtomicBool,
    /// How many sets came.
    calls: AtomicU64,
    /// How many had come when the one that leaves left.
    quiet: AtomicU64,
}

impl Prepared {
    /// The gate of so many workers.
    fn new(workers: u32) -> Prepared {
        Prepared {
            others: u64::from(workers).saturating_sub(1),
            first: AtomicU64::new(0),
            held: AtomicU64::new(0),
            open: AtomicBool::new(false),
            missed: AtomicBool::new(false),
            calls: AtomicU64::new(0),
            quiet: AtomicU64::new(0),
        }
    }

    /// What is done with the set of a ticket. A handful's tickets follow each other, and the last one is worked first.
    fn course(&self, ticket: u64) -> Course {
        if ticket <= LAST_KEPT || self.open.load(SeqCst) {
            return Course::Work;
        }
        let first = match self.first.compare_exchange(0, ticket, SeqCst, SeqCst) {
            Ok(_) => ticket,
            Err(first) => first,
        };
        match first.checked_sub(ticket) {
            Some(0) => Course::Begin,
            Some(WORKED) => Course::Leave,
            Some(worked) if worked < HANDFUL => Course::Work,
            Some(_) | None => Course::Stay,
        }
    }

    /// Waits until all others are held, for twenty seconds at most.
    fn wait_for_others<R: Clock>(&self, rt: &R) {
        for _ in 0..20_000 {
            if self.held.load(SeqCst) >= self.others {
                return;
            }
            thread::sleep(rt, Duration::from_millis(1));
        }
        self.missed.store(true, SeqCst);
    }

    /// Waits until those that are held go on, for twenty seconds at most.
    fn wait_to_go_on<R: Clock>(&self, rt: &R) {
        for _ in 0..20_000 {
            if self.open.load(SeqCst) {
                return;
            }
            thread::sleep(rt, Duration::from_millis(1));
        }
        self.missed.store(true, SeqCst);
    }
}

impl Gate for Prepared {
    fn run<R: Clock>(
        &self,
        rt: &R,
        job: &Job,
        scratch: &mut Scratch,
    ) -> Result<Finding, AllocError> {
        self.calls.fetch_add(1, SeqCst);
        match self.course(job.ticket()) {
            Course::Work => {}
            Course::Begin => self.wait_for_others(rt),
            Course::Stay => {
                self.held.fetch_add(1, SeqCst);
                self.wait_to_go_on(rt);
            }
            Course::Leave => {
                self.open.store(true, SeqCst);
                self.quiet.store(wait_for_quiet(rt, &self.calls), SeqCst);
                return Err(AllocError);
            }
        }
        work_suited(job, scratch)
    }
}

/// The text of the tree of a search by so many workers, and how many sets were run.
fn reply<G: Gate>(
    rt: &(impl Threads + Wait + Clock + Sync),
    alloc: Global,
    scenario: &Arc<Scenario>,
    workers: u32,
    gate: &G,
) -> Option<(Vec<u8>, u64)> {
    let shared = Arc::try_clone(scenario).ok()?;
    match solve(rt, alloc, shared, workers, gate) {
        Ok(Solved::Answer { set: _, tree, runs }) => Some((to_text(alloc, &tree).ok()?, runs)),
        Ok(Solved::Full(_)) | Err(_) => None,
    }
}

/// Whether so many workers, of which some leave with a set at a place, find what one finds, and that many leave.
fn are_left(
    rt: &(impl Threads + Wait + Clock + Sync),
    alloc: Global,
    scenario: &Arc<Scenario>,
    (workers, leavers, place): (u32, u64, u64),
    (wanted, runs): (&[u8], u64),
) -> bool {
    let gate = Leaving {
        place,
        leavers: AtomicU64::new(leavers),
        calls: AtomicU64::new(0),
    };
    match reply(rt, alloc, scenario, workers, &gate) {
        Some((text, ran)) => {
            text.as_slice() == wanted && ran == runs && gate.leavers.load(SeqCst) == 0
        }
        None => false,
    }
}

/// Whether so many workers, of which one leaves with two handfuls in hand, find what one finds. What it holds is more than one handful then.
fn are_left_with_two(
    rt: &(impl Threads + Wait + Clock + Sync),
    alloc: Global,
    scenario: &Arc<Scenario>,
    workers: u32,
    (wanted, runs): (&[u8], u64),
) -> bool {
    let gate = Prepared::new(workers);
    match reply(rt, alloc, scenario, workers, &gate) {
        Some((text, ran)) => {
            text.as_slice() == wanted
                && ran == runs
                && !gate.missed.load(SeqCst)
                && runs.saturating_sub(gate.quiet.load(SeqCst)) > HANDFUL
        }
        None => false,
    }
}

/// Three numbers that stand in a row, parted by blanks.
fn numbers(row: &str) -> Option<(u32, u64, u64)> {
    let (workers, rest) = row.split_once(' ')?;
    let (leavers, place) = rest.split_once(' ')?;
    Some((
        workers.parse::<u32>().ok()?,
        leavers.parse::<u64>().ok()?,
        place.parse::<u64>().ok()?,
    ))
}

/// Whether the workers of a row find what one finds. One number alone is how many they are, of which one leaves with two handfuls.
fn row_is_left(
    rt: &(impl Threads + Wait + Clock + Sync),
    alloc: Global,
    row: &str,
    scenario: &Arc<Scenario>,
    wanted: (&[u8], u64),
) -> bool {
    if let Ok(workers) = row.parse::<u32>() {
        return are_left_with_two(rt, alloc, scenario, workers, wanted);
    }
    match numbers(row) {
        Some(numbers) => are_left(rt, alloc, scenario, numbers, wanted),
        None => false,
    }
}

/// Whether the workers of each row find what one finds for the scenario with thousands of sets.
fn rows_are_left(
    rt: &(impl Threads + Wait + Clock + Sync),
    alloc: Global,
    rows: &str,
    done: &AtomicBool,
) -> bool {
    let mut agree = false;
    if let Some((scenario, sets)) = asked(alloc, THOUSANDS) {
        if let Some((wanted, runs)) = reply(rt, alloc, &scenario, 1, &NoGate) {
            agree = sets.parse::<u64>().ok() == Some(runs)
                && rows.lines().all(|row| {
                    row_is_left(rt, alloc, row, &scenario, (wanted.as_slice(), runs))
                });
        }
    }
    done.store(true, SeqCst);
    agree
}

/// Checks the rows, beside a clock.
fn agree(rt: &(impl Threads + Wait + Clock + Abort + Sync), alloc: Global, rows: &str) {
    let done = AtomicBool::new(false);
    let (are_left, ()) = thread::join(
        rt,
        || rows_are_left(rt, alloc, rows, &done),
        || wait_for(rt, &done),
    );
    agrees(rt, are_left, rows);
}

/// How many workers there are, how many leave, and the place of the ticket with which they do: of all but one, and of some.
const FEW: &str = "2 1 0\n2 1 32\n3 2 16\n3 1 48\n";

/// The same of more workers.
const MORE: &str = "8 7 0\n8 1 32\n32 31 16\n32 3 48\n";

/// How many workers there are, of which one leaves with two handfuls in hand.
const WITH_TWO: &str = "2\n3\n8\n";

#[test]
fn few_workers_that_leave_wake_those_that_wait(rt: HostRuntime) {
    agree(&rt, rt.alloc(), FEW);
}

#[test]
fn many_workers_that_leave_wake_those_that_wait(rt: HostRuntime) {
    agree(&rt, rt.alloc(), MORE);
}

#[test]
fn a_worker_that_leaves_gives_back_two_handfuls(rt: HostRuntime) {
    agree(&rt, rt.alloc(), WITH_TWO);
}
