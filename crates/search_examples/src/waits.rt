//! A worker that waits for another.

ghost use Rattle.std.specs.Prelude.{◌≡◌, ◌+◌, Some, IfOk};
ghost use Rattle.std.specs.Arc.{arc_value};

use crate::texts::{agrees, asked};
use lf_outcome::Scenario;
use lf_pool::{Gate, NoGate, Searched, Share, SharedBook, Turn};
use lf_work::{Finding, Job, Scratch, work_suited};
use std::alloc::{AllocError, Global};
use std::marker::Brand;
use std::process::Abort;
use std::rt::Clock;
use std::sync::atomic::AtomicBool;
use std::sync::atomic::Ordering::SeqCst;
use std::sync::ledger::Blank;
use std::sync::{Arc, Wait};
use std::thread;
use std::thread::Threads;
use std::time::Duration;

/// What two workers tell each other. The first one's gate holds its set until the second one has asked for a set, and a while longer.
#[derive(Drop)]
struct Holding {
    /// Whether the held set is worked in the end, and not given back for want of memory.
    is_worked: bool,
    /// Whether the first worker holds its set.
    is_held: AtomicBool,
    /// Whether the second one asks for a set.
    has_asked: AtomicBool,
    /// Whether the second one's turns have ended.
    has_ended: AtomicBool,
}

/// Waits until something is so, for ten seconds at most. Tells whether it is.
fn becomes<R: Clock>(rt: &R, flag: &AtomicBool) -> bool {
    for _ in 0..10_000 {
        if flag.load(SeqCst) {
            return true;
        }
        thread::sleep(rt, Duration::from_millis(1));
    }
    false
}

impl Gate for Holding {
    fn run<R: Clock>(
        &self,
        rt: &R,
        job: &Job,
        scratch: &mut Scratch,
    ) -> Result<Finding, AllocError> {
        self.is_held.store(true, SeqCst);
        if becomes(rt, &self.has_asked) {
            thread::sleep(rt, Duration::from_millis(50));
        }
        if self.is_worked {
            work_suited(job, scratch)
        } else {
            Err(AllocError)
        }
    }
}

/// A turn of the first worker, which holds its set. The test fails where the second one's turns don't end then: nobody woke it.
fn hold<L: Searched, R: Wait + Clock + Abort>(
    rt: &R,
    shared: &SharedBook<L>,
    shares: &mut [Share<L>],
    gate: &Holding,
) {
    for share in shares.iter_mut() {
        let _held = shared.work_one(rt, share, gate);
    }
    agrees(
        rt,
        becomes(rt, &gate.has_ended),
        "a worker that nobody woke",
    );
}

/// What came of the turns of a worker that asked for a set while another held the only one.
#[derive(Clone, Copy, PartialEq, Eq)]
enum Waiting {
    /// It waited, and worked on to the end of the search.
    Waited,
    /// The other one had ended its turn before it asked.
    Late,
    /// It asked again and again.
    Spun,
}

/// The turns of the second worker while the first one holds its set, and until the search has ended: a hundred at most.
fn ask<L: Searched, R: Wait + Clock>(
    rt: &R,
    shared: &SharedBook<L>,
    shares: &mut [Share<L>],
) -> Waiting {
    let mut waiting = Waiting::Late;
    for share in shares.iter_mut() {
        for _ in 0..100 {
            match shared.work_one(rt, share, &NoGate) {
                Ok(Turn::Waited) => waiting = Waiting::Waited,
                Ok(Turn::Finished) => return waiting,
                _ => {}
            }
        }
    }
    Waiting::Spun
}

/// The same, once the first worker holds its set.
fn ask_beside<L: Searched, R: Wait + Clock>(
    rt: &R,
    shared: &SharedBook<L>,
    shares: &mut [Share<L>],
    gate: &Holding,
) -> Waiting {
    let _held = becomes(rt, &gate.is_held);
    gate.has_asked.store(true, SeqCst);
    let waiting = ask(rt, shared, shares);
    gate.has_ended.store(true, SeqCst);
    waiting
}

/// What comes of two workers' turns, of which the first holds its set, and whether all three sets of the scenario are filed then.
fn turns<L: Searched + Send + Sync, R: Threads + Wait + Clock + Abort + Sync>(
    rt: &R,
    alloc: Global,
    blank: Blank,
    scenario: Arc<Scenario>,
    is_worked: bool,
) -> Option<Waiting>
    requires name { blank.name ≡ L.name }
    requires parts { blank.parts ≡ L.parts }
    requires enough { blank.parts ≡ 3 }
    requires scenario { L.scenario ≡ Some (arc_value scenario) }
{
    let Ok((shared, mut shares)) = SharedBook::<L>::begin(alloc, blank, scenario, 2) else {
        return None;
    };
    let gate = Holding {
        is_worked,
        is_held: AtomicBool::new(false),
        has_asked: AtomicBool::new(false),
        has_ended: AtomicBool::new(false),
    };
    let (first, rest) = shares.as_mut_slice().split_at_mut(1);
    let (second, _last) = rest.split_at_mut(1);
    let (waiting, ()) = thread::join(
        rt,
        || ask_beside(rt, &shared, second, &gate),
        || hold(rt, &shared, first, &gate),
    );
    let (book, sum) = shared.gather(shares);
    if sum == 3 && book.answered() == 3 {
        Some(waiting)
    } else {
        None
    }
}

/// Whether the second worker waits while the first one holds its set, in one of so many tries: it may ask too late in some.
fn is_waited_for(
    rt: &(impl Threads + Wait + Clock + Abort + Sync),
    alloc: Global,
    row: &str,
    is_worked: bool,
) -> bool {
    for _ in 0..100 {
        let Some((scenario, _)) = asked(alloc, row) else {
            return false;
        };
        match turns::<Brand, _>(rt, alloc, Blank::new(3), scenario, is_worked) {
            Some(Waiting::Late) => {}
            other => return other == Some(Waiting::Waited),
        }
    }
    false
}

#[test]
fn a_worker_waits_for_the_last_set_and_goes_on(rt: HostRuntime) {
    let row = "retry|3 4 3 0 2|tries = 1;outcome = \"delivered\"";
    agrees(
        &rt,
        is_waited_for(&rt, rt.alloc(), row, true),
        "a set that is worked",
    );
    agrees(
        &rt,
        is_waited_for(&rt, rt.alloc(), row, false),
        "a set that is given back",
    );
}
