//! Sweeps: the lines of combinations.

use leastfault_sweep::{By, Defeated, Marks, Part, Plan, Study, read_varied, sweep, sweep_shared};
use lf_streams::ToWrite;
use std::alloc::{AllocError, Global};
use std::process::Abort;
use std::thread::Threads;

/// Three nodes that commit, of which one may crash.
const COMMIT: &str = concat!(
    "nodes = 3\nhorizon = 5\nlast_omission = 0\ncrashes = 1\nbudget = 1\n",
    "protocol = \"two_phase\"\npatience = 3\nvotes = [true, true]\noutcome = \"unblocked\"\n"
);

/// What is found is what is wanted. Each comparison ends here: an assertion is dear to prove.
fn agrees(rt: &impl Abort, truth: bool, what: &str) {
    assert!(rt; truth, "at {what}");
}

/// The plan of texts with blanks between any two. None where one is refused.
fn plan_of(alloc: Global, texts: &str) -> Option<Plan> {
    let mut varied = Vec::new(alloc);
    for text in texts.split(' ') {
        let one = read_varied(alloc, text).ok()?;
        if varied.push(one).is_err() {
            return None;
        }
    }
    Plan::new(varied).ok()
}

/// The lines of a part of a sweep, by so many workers, or in one thread for 0.
fn lines_of(
    rt: &(impl Threads + Sync),
    alloc: Global,
    plan: &Plan,
    by: By,
    part: Part,
    workers: u32,
) -> Vec<u8> {
    marked_lines(rt, alloc, plan, by, part, workers, &mut Marks::none())
}

/// The same, with which combinations stand out.
fn marked_lines(
    rt: &(impl Threads + Sync),
    alloc: Global,
    plan: &Plan,
    by: By,
    part: Part,
    workers: u32,
    marks: &mut Marks,
) -> Vec<u8> {
    let mut out = Vec::new(alloc);
    let study = Study {
        scenario: COMMIT.as_bytes(),
        plan,
    };
    let mut sink = ToWrite::new(&mut out);
    let swept = if workers == 0 {
        sweep(alloc, None, by, &study, part, &mut sink, marks)
    } else {
        sweep_shared(rt, alloc, None, by, &study, part, workers, &mut sink, marks)
    };
    if swept.is_err() {
        return Vec::new(alloc);
    }
    out
}

#[test]
fn each_combination_has_its_line(rt: HostRuntime) {
    let wanted = concat!(
        "0\tagreement\tnone 1\n",
        "0\tunblocked\tnone 1\n",
        "1\tagreement\tnone 1\n",
        "1\tunblocked\tleast 1\tcrash 0 @2\n",
        "9\tagreement\trefused 6 crashes\n",
        "9\tunblocked\trefused 6 crashes\n",
    );
    let Some(plan) = plan_of(rt.alloc(), "crashes=0,1,9 outcome=agreement,unblocked") else {
        return agrees(&rt, false, "a plan");
    };
    let found = lines_of(&rt, rt.alloc(), &plan, By::Answer, Part::whole(), 0);
    agrees(&rt, found.as_slice() == wanted.as_bytes(), "an answer");
    let found = lines_of(&rt, rt.alloc(), &plan, By::Search, Part::whole(), 0);
    agrees(&rt, found.as_slice() == wanted.as_bytes(), "a search");
}

#[test]
fn combinations_stand_out_by_their_numbers(rt: HostRuntime) {
    let Some(plan) = plan_of(rt.alloc(), "budget=9,0,1,7 crashes=0,1 outcome=unblocked") else {
        return agrees(&rt, false, "a plan");
    };
    let wanted = Marks {
        fewest: Some(Defeated {
            number: 5,
            faults: 1,
        }),
        refused: Some(0),
    };
    for workers in 0..4u32 {
        for by in [By::Answer, By::Search] {
            let mut marks = Marks::none();
            let _lines = marked_lines(
                &rt,
                rt.alloc(),
                &plan,
                by,
                Part::whole(),
                workers,
                &mut marks,
            );
            agrees(&rt, marks == wanted, "marks");
        }
    }
}

#[test]
fn workers_write_the_same_lines(rt: HostRuntime) {
    let Some(plan) = plan_of(rt.alloc(), "patience=1..5 seed=0..4") else {
        return agrees(&rt, false, "a plan");
    };
    let alone = lines_of(&rt, rt.alloc(), &plan, By::Answer, Part::whole(), 0);
    agrees(
        &rt,
        alone.as_slice().split(|byte| *byte == b'\n').count() == 26,
        "25 lines",
    );
    for workers in 1..6u32 {
        let shared = lines_of(&rt, rt.alloc(), &plan, By::Answer, Part::whole(), workers);
        agrees(&rt, shared.as_slice() == alone.as_slice(), "workers");
    }
}

/// Every third line of a text, from this place on, from 0.
fn every_third(alloc: Global, text: &[u8], first: usize) -> Result<Vec<u8>, AllocError> {
    let mut some = Vec::new(alloc);
    for (place, line) in text.split(|byte| *byte == b'\n').enumerate() {
        if place % 3 == first && !line.is_empty() {
            some.extend_from_slice(line)?;
            some.push(b'\n')?;
        }
    }
    Ok(some)
}

#[test]
fn parts_have_all_lines_between_them(rt: HostRuntime) {
    let Some(plan) = plan_of(rt.alloc(), "patience=1..4 seed=0,1") else {
        return agrees(&rt, false, "a plan");
    };
    let whole = lines_of(&rt, rt.alloc(), &plan, By::Answer, Part::whole(), 0);
    for which in 1..4u64 {
        let Some(part) = Part::new(which, 3) else {
            return agrees(&rt, false, "a part");
        };
        let found = lines_of(&rt, rt.alloc(), &plan, By::Answer, part, 2);
        let is_right = match every_third(rt.alloc(), whole.as_slice(), which as usize - 1) {
            Ok(wanted) => !wanted.is_empty() && found.as_slice() == wanted.as_slice(),
            Err(_) => false,
        };
        agrees(&rt, is_right, "a part");
    }
}
