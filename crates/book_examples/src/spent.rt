//! Jobs that are made of what earlier ones left.

use crate::searches::{refusal_number, works_level};
use crate::texts::{agrees, begun, scenario};
use lf_book::{Book, Deepened, Job, Spent, Taken};
use std::alloc::Global;
use std::sync::Arc;

/// The lines of a scenario of a protocol with many sets.
const LINES: &str = "protocol = \"redundant\";tries = 6;outcome = \"delivered\"";

/// Whether two jobs name the same.
fn are_same(one: &Job, other: &Job) -> bool {
    one.ticket() == other.ticket()
        && one.set() == other.set()
        && one.path() == other.path()
        && one.excluded() == other.excluded()
}

/// What a job of another scenario leaves, which excludes many faults.
fn left_by_another(alloc: Global) -> Option<Spent> {
    let mut book = begun(alloc, &scenario(alloc, "6 6 4 0 2", LINES)?)?;
    if !works_level(&mut book) || book.deepen() != Deepened::Down {
        return None;
    }
    let mut left = None;
    for _ in 0..40 {
        let Ok(Taken::Job(job)) = book.take() else {
            return None;
        };
        left = Some(job.spend());
    }
    left
}

/// Takes a set, with a job that is made of what another one left, whatever that was of.
fn take_renewed(book: &mut Book, left: Spent) -> Option<Taken> {
    let scenario = Arc::try_clone(book.shared()).ok()?;
    let Spent { excluded, path, .. } = left;
    let renewed = Spent {
        scenario,
        excluded,
        path,
    };
    book.take_with(Some(renewed)).ok()
}

/// What a job leaves that is made of what another one left. None where a book whose jobs are made anew takes another one, or one of the two
/// isn't filed.
fn left_by_same(anew: &mut Book, reusing: &mut Book, left: Spent) -> Option<Spent> {
    let Ok(Taken::Job(one)) = anew.take() else {
        return None;
    };
    let Some(Taken::Job(other)) = take_renewed(reusing, left) else {
        return None;
    };
    let are_filed = are_same(&one, &other)
        && refusal_number(anew, &one) == Some(0)
        && refusal_number(reusing, &other) == Some(0);
    if are_filed { Some(other.spend()) } else { None }
}

/// Whether both books take the same sets to the end of the level.
fn work_the_same(anew: &mut Book, reusing: &mut Book, left: Spent) -> Option<Spent> {
    let mut left = left;
    for _ in 0..100_000 {
        if anew.counts().ready == 0 {
            return Some(left);
        }
        left = left_by_same(anew, reusing, left)?;
    }
    None
}

/// How many sets a search has whose jobs are made of what earlier ones left, the first one of what a job of another scenario left. None where a
/// search whose jobs are made anew goes otherwise.
fn searched(alloc: Global) -> Option<u64> {
    let scenario = scenario(alloc, "4 6 4 1 2", LINES)?;
    let mut anew = begun(alloc, &scenario)?;
    let mut reusing = begun(alloc, &scenario)?;
    let mut left = left_by_another(alloc)?;
    for _ in 0..8 {
        left = work_the_same(&mut anew, &mut reusing, left)?;
        let deepened = anew.deepen();
        if reusing.deepen() != deepened {
            return None;
        }
        if deepened != Deepened::Down {
            return Some(reusing.answered());
        }
    }
    None
}

#[test]
fn jobs_of_what_earlier_ones_left_are_the_same(rt: HostRuntime) {
    let runs = searched(rt.alloc());
    agrees(&rt, matches!(runs, Some(200..)), "a search");
}
