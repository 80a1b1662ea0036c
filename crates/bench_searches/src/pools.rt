//! `pools WORKERS [shares]` searches the scenario of standard input by so many workers of a pool, also by one.
//!
//! It prints how many sets were run, `full`, or `refused` of the number of workers. With `shares` standard error has how many milliseconds
//! the workers had between them, and in how many of these they worked sets: in the others they held the lock, waited, or weren't there.

use crate::words::{Asked, Way};
use lf_outcome::Scenario;
use lf_pool::{Gate, NoGate, PoolError, Solved, solve};
use lf_work::{Finding, Job, Scratch, work_suited};
use std::alloc::{AllocError, Global};
use std::rt::Clock;
use std::sync::atomic::AtomicU64;
use std::sync::atomic::Ordering::SeqCst;
use std::sync::{Arc, Wait};
use std::thread::Threads;
use std::time::Instant;

/// What a search found.
#[derive(Clone, Copy)]
enum Found {
    /// So many sets were run.
    Runs(u64),
    /// A level was too full.
    Full,
    /// The number of workers was refused.
    Refused,
}

/// Works each job at once, and adds up for how many nanoseconds.
#[derive(Drop)]
struct Timed {
    worked: AtomicU64,
}

impl Gate for Timed {
    fn run<R: Clock>(
        &self,
        rt: &R,
        job: &Job,
        scratch: &mut Scratch,
    ) -> Result<Finding, AllocError> {
        let start = Instant::now(rt);
        let finding = work_suited(job, scratch);
        self.worked
            .fetch_add(nanoseconds_since(rt, start.ok()), SeqCst);
        finding
    }
}

/// The nanoseconds since a moment, or 0 where the clock can't be read.
fn nanoseconds_since<R: Clock>(rt: &R, start: Option<Instant>) -> u64 {
    let Some(start) = start else { return 0 };
    match start.elapsed(rt) {
        Ok(passed) => u64::try_from(passed.as_nanos()).unwrap_or(u64::MAX),
        Err(_) => 0,
    }
}

/// Searches, and prints what is found. The answer is the status.
pub(crate) fn measure(
    rt: &HostRuntime,
    threads: &(impl Threads + Wait + Clock + Sync),
    asked: Asked,
    scenario: Arc<Scenario>,
) -> Result<u8, AllocError> {
    let found = match asked.way {
        Way::Shares => share_times(rt, threads, asked.count, scenario)?,
        _ => found_by(threads, rt.alloc(), scenario, asked.count, &NoGate)?,
    };
    Ok(print(rt, found))
}

/// What a search by so many workers finds. In how much of their time they worked goes to standard error.
fn share_times(
    rt: &HostRuntime,
    threads: &(impl Threads + Wait + Clock + Sync),
    workers: u32,
    scenario: Arc<Scenario>,
) -> Result<Found, AllocError> {
    let gate = Timed {
        worked: AtomicU64::new(0),
    };
    let start = Instant::now(rt).ok();
    let found = found_by(threads, rt.alloc(), scenario, workers, &gate)?;
    let had = (nanoseconds_since(rt, start) / 1_000_000).saturating_mul(u64::from(workers));
    let worked = gate.worked.load(SeqCst) / 1_000_000;
    let _printed = eprintln!(rt; "{had} ms of workers, {worked} ms of work").is_ok();
    Ok(found)
}

/// What a search by so many workers finds.
fn found_by<R: Threads + Wait + Clock + Sync, G: Gate>(
    rt: &R,
    alloc: Global,
    scenario: Arc<Scenario>,
    workers: u32,
    gate: &G,
) -> Result<Found, AllocError> {
    match solve(rt, alloc, scenario, workers, gate) {
        Ok(Solved::Answer { runs, .. }) => Ok(Found::Runs(runs)),
        Ok(Solved::Full(_)) => Ok(Found::Full),
        Err(PoolError::Memory) => Err(AllocError),
        Err(_) => Ok(Found::Refused),
    }
}

/// Prints what a search found. The answer is the status.
fn print(rt: &HostRuntime, found: Found) -> u8 {
    let _printed = match found {
        Found::Runs(runs) => println!(rt; "{runs} sets").is_ok(),
        Found::Full => println!(rt; "full").is_ok(),
        Found::Refused => println!(rt; "refused").is_ok(),
    };
    match found {
        Found::Refused => 2,
        _ => 0,
    }
}
