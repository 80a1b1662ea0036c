//! What several workers find, as a text.

use crate::texts::push_faults;
use lf_book::{Book, Deepened};
use lf_check::{Verdict, check};
use lf_faults::FaultSet;
use lf_outcome::Scenario;
use lf_pool::{Gate, NoGate, PoolError, Solved, SolvedAll, solve, solve_all};
use lf_tree::{Tree, to_text};
use std::alloc::{AllocError, Global};
use std::rt::Clock;
use std::sync::{Arc, Wait};
use std::thread::Threads;

/// Adds the faults of a set, joined by commas. Of the empty set it adds `-`.
fn push_set(alloc: Global, text: &mut String, set: &FaultSet) -> Result<(), AllocError> {
    if set.is_empty() {
        return text.push('-');
    }
    push_faults(alloc, text, set, "", ",")
}

/// An answer as a text: its faults, or `none`.
pub(crate) fn answer_text(alloc: Global, answer: Option<FaultSet>) -> Option<String> {
    let mut text = String::new(alloc);
    let put = match answer {
        Some(set) => push_set(alloc, &mut text, &set),
        None => text.push_str("none"),
    };
    if put.is_ok() { Some(text) } else { None }
}

/// Adds sets, each behind `;`.
fn push_sets(alloc: Global, text: &mut String, sets: &[FaultSet]) -> Result<(), AllocError> {
    for set in sets {
        text.push(';')?;
        push_set(alloc, text, set)?;
    }
    Ok(())
}

/// Adds how many sets were run, and the text of a tree.
fn push_runs(text: &mut String, runs: u64, tree: &[u8]) -> Result<(), AllocError> {
    write!(text, "|{runs}|")?;
    for byte in tree {
        text.push(char::from(*byte))?;
    }
    Ok(())
}

/// Adds a tree that every checker accepts, as a text, behind how many sets were run. Tells whether it is such a tree.
fn push_tree(
    alloc: Global,
    text: &mut String,
    scenario: &Scenario,
    tree: &Tree,
    runs: u64,
) -> bool {
    let Ok(bytes) = to_text(alloc, tree) else {
        return false;
    };
    matches!(check(alloc, scenario, tree), Ok(Verdict::Yes))
        && push_runs(text, runs, bytes.as_slice()).is_ok()
}

/// A book that can't be deepened, which it answers again.
fn full(alloc: Global, book: Book) -> Option<String> {
    let mut book = book;
    match book.deepen() {
        Deepened::Full { count } => {
            let level = book.level().saturating_add(1);
            format!(in alloc; "full {level} {count}").ok()
        }
        _ => None,
    }
}

/// An error by its number. A book that comes with it is of the scenario.
fn error(alloc: Global, error: &PoolError) -> Option<String> {
    format!(in alloc; "pool {}", error.number()).ok()
}

/// An answer and its tree.
fn answer(
    alloc: Global,
    scenario: &Scenario,
    set: &Option<FaultSet>,
    tree: &Tree,
    runs: u64,
) -> Option<String> {
    let mut text = String::new(alloc);
    let added = match set {
        Some(least) => push_set(alloc, &mut text, least),
        None => text.push_str("none"),
    };
    if added.is_ok() && push_tree(alloc, &mut text, scenario, tree, runs) {
        Some(text)
    } else {
        None
    }
}

/// All least sets and their tree.
fn all(
    alloc: Global,
    scenario: &Scenario,
    sets: &[FaultSet],
    tree: &Tree,
    runs: u64,
) -> Option<String> {
    let mut text = String::new(alloc);
    if push_sets(alloc, &mut text, sets).is_ok()
        && push_tree(alloc, &mut text, scenario, tree, runs)
    {
        Some(text)
    } else {
        None
    }
}

/// What a search answered: the answer, how many sets were run, and the tree. None where a tree isn't accepted, or a book isn't full.
fn told(alloc: Global, scenario: &Scenario, solved: Result<Solved, PoolError>) -> Option<String> {
    match solved {
        Ok(Solved::Answer { set, tree, runs }) => answer(alloc, scenario, &set, &tree, runs),
        Ok(Solved::Full(book)) => full(alloc, book),
        Err(refused) => error(alloc, &refused),
    }
}

/// What a search for all least sets answered: the sets, how many sets were run, and the tree. None as above.
fn told_all(
    alloc: Global,
    scenario: &Scenario,
    solved: Result<SolvedAll, PoolError>,
) -> Option<String> {
    match solved {
        Ok(SolvedAll::All { sets, tree, runs }) => {
            all(alloc, scenario, sets.as_slice(), &tree, runs)
        }
        Ok(SolvedAll::Full(book)) => full(alloc, book),
        Err(refused) => error(alloc, &refused),
    }
}

/// What so many workers find with a gate. None as above.
pub(crate) fn found<R: Threads + Wait + Clock + Sync, G: Gate>(
    rt: &R,
    alloc: Global,
    scenario: &Arc<Scenario>,
    workers: u32,
    gate: &G,
) -> Option<String> {
    let Ok(shared) = Arc::try_clone(scenario) else {
        return None;
    };
    told(alloc, scenario, solve(rt, alloc, shared, workers, gate))
}

/// All least sets that so many workers find. None as above.
pub(crate) fn found_all(
    rt: &(impl Threads + Wait + Clock + Sync),
    alloc: Global,
    scenario: &Arc<Scenario>,
    workers: u32,
) -> Option<String> {
    let Ok(shared) = Arc::try_clone(scenario) else {
        return None;
    };
    told_all(
        alloc,
        scenario,
        solve_all(rt, alloc, shared, workers, &NoGate),
    )
}
