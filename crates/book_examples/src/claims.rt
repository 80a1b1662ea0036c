//! Thousands of sets that are worked at once.

use crate::searches::works_level;
use crate::texts::{agrees, begun, scenario};
use lf_book::{Book, Counts, Deepened, Job, Taken};
use std::alloc::Global;

/// A book whose sets of two faults are open, which are thousands.
fn wide_book(alloc: Global) -> Option<Book> {
    let lines = "protocol = \"redundant\";tries = 6;outcome = \"delivered\"";
    let mut book = begun(alloc, &scenario(alloc, "6 6 4 0 2", lines)?)?;
    for _ in 0..2 {
        if !works_level(&mut book) || book.deepen() != Deepened::Down {
            return None;
        }
    }
    Some(book)
}

/// Takes all open sets.
fn take_all(alloc: Global, book: &mut Book) -> Option<Vec<Job>> {
    let mut jobs = Vec::new(alloc);
    for _ in 0..1_000_000 {
        match book.take() {
            Ok(Taken::Job(job)) => {
                if jobs.push(job).is_err() {
                    return None;
                }
            }
            Ok(Taken::Busy) => return Some(jobs),
            _ => return None,
        }
    }
    None
}

/// Whether so many sets are open, and so many claimed.
fn are(counts: Counts, ready: usize, claimed: usize) -> bool {
    counts.ready == ready as u64 && counts.claimed == claimed as u64
}

/// Whether jobs are of the same sets in the same order, by other tickets.
fn are_again(first: &[Job], again: &[Job]) -> bool {
    let same = |(one, other): (&Job, &Job)| one.path() == other.path()
        && one.ticket() < other.ticket();
    first.len() == again.len() && first.iter().zip(again).all(same)
}

/// How many jobs are given back, from the middle one on.
fn give_back_all(book: &mut Book, jobs: Vec<Job>) -> usize {
    let mut jobs = jobs;
    let middle = jobs.len() / 2;
    jobs.as_mut_slice().rotate_left(middle);
    let mut given = 0_usize;
    for job in jobs {
        if book.give_back(job).is_ok() {
            given = given.saturating_add(1);
        }
    }
    given
}

/// Whether thousands of claims are reclaimed, taken again in the same order, and given back one by one, while the jobs that were
/// reclaimed are refused.
fn reclaims_thousands(alloc: Global) -> bool {
    let Some(mut book) = wide_book(alloc) else {
        return false;
    };
    let Some(first) = take_all(alloc, &mut book) else {
        return false;
    };
    let count = first.len();
    let are_claimed = count > 4000 && are(book.counts(), 0, count);
    book.reclaim();
    let are_open = are(book.counts(), count, 0);
    let Some(again) = take_all(alloc, &mut book) else {
        return false;
    };
    let are_same = are_again(first.as_slice(), again.as_slice());
    let are_refused = give_back_all(&mut book, first) == 0 && are(book.counts(), 0, count);
    let are_given = give_back_all(&mut book, again) == count && are(book.counts(), count, 0);
    are_claimed && are_open && are_same && are_refused && are_given
}

#[test]
fn thousands_of_claims_are_reclaimed_and_given_back(rt: HostRuntime) {
    agrees(
        &rt,
        reclaims_thousands(rt.alloc()),
        "the sets of two faults",
    );
}
