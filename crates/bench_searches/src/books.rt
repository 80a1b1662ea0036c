//! `books COUNT search|runs|plain|drive` searches the scenario of standard input.
//!
//! `search` searches so many times through a book in one thread, and prints what the last search found (`least K`, `none B` or
//! `full LEVEL COUNT`) and how many sets it answered, or `nothing` where it searched no time. `runs` searches once, and then runs the
//! sets that it answered so many times, and does nothing else with them. `plain` runs one allowed set after another, as
//! `plain_answer` does, until one misses the outcome, there is none left, or so many are run. `drive` drives a new book through the
//! first so many events of a list, and prints what came of each and where the book stands.
//!
//! Where memory runs out standard output has nothing, and with `drive` standard error has where the book stands.

use crate::running::{plain, runs};
use crate::words::{Asked, Way};
use lf_book::{Book, Counts, Deepened, Event, Reply, Scratch, Taken, finish, work_up};
use lf_faults::FaultSet;
use lf_outcome::Scenario;
use std::alloc::{AllocError, Global};
use std::sync::Arc;

/// How many levels a search can have, with one to spare.
const LEVELS: u32 = 16;

/// How a search ended.
#[derive(Clone, Copy)]
struct Ended {
    /// How the last level was left.
    deepened: Deepened,
    /// The last level.
    level: u32,
    /// How many sets were answered.
    answered: u64,
}

/// Does what the words ask for, and prints what it finds. The answer is the status.
pub(crate) fn measure(
    rt: &HostRuntime,
    asked: Asked,
    scenario: &Arc<Scenario>,
) -> Result<u8, AllocError> {
    match asked.way {
        Way::Runs => print_runs(rt, scenario, asked.count),
        Way::Plain => print_plain(rt, scenario, asked.count),
        Way::Drive => drive(rt, scenario, asked.count),
        _ => print_searches(rt, scenario, asked.count),
    }
}

/// Searches a scenario, until the search has ended or a level is too full.
fn search(alloc: Global, scenario: &Arc<Scenario>) -> Result<Ended, AllocError> {
    let mut book = Book::begin(alloc, Arc::try_clone(scenario)?)?;
    let _stop = finish(alloc, &mut book)?;
    let deepened = book.deepen();
    Ok(Ended {
        deepened,
        level: book.level(),
        answered: book.answered(),
    })
}

/// Takes one set, works it and files what is found, and answers whether there was one.
fn step(book: &mut Book, scratch: &mut Scratch) -> Result<Option<FaultSet>, AllocError> {
    let Taken::Job(job) = book.take()? else {
        return Ok(None);
    };
    let set = job.set();
    let finding = work_up(job, scratch)?;
    let _filed = book.file(finding).is_ok();
    Ok(Some(set))
}

/// Answers the sets of a level, and puts each.
fn put_level(
    book: &mut Book,
    scratch: &mut Scratch,
    sets: &mut Vec<FaultSet>,
) -> Result<(), AllocError> {
    for _ in 0..u64::MAX {
        match step(book, scratch)? {
            Some(set) => sets.push(set)?,
            None => break,
        }
    }
    Ok(())
}

/// The sets that a search answers, level after level.
fn searched(alloc: Global, scenario: &Arc<Scenario>) -> Result<Vec<FaultSet>, AllocError> {
    let mut sets = Vec::new(alloc);
    let mut book = Book::begin(alloc, Arc::try_clone(scenario)?)?;
    let mut scratch = Scratch::new(alloc);
    for _ in 0..LEVELS {
        put_level(&mut book, &mut scratch, &mut sets)?;
        if book.deepen() != Deepened::Down {
            break;
        }
    }
    Ok(sets)
}

/// Searches so many times, and prints how the last search ended.
fn print_searches(
    rt: &HostRuntime,
    scenario: &Arc<Scenario>,
    times: u32,
) -> Result<u8, AllocError> {
    let mut last = None;
    for _ in 0..times {
        last = Some(search(rt.alloc(), scenario)?);
    }
    match last {
        Some(ended) => print(rt, ended),
        None => {
            let _printed = println!(rt; "nothing").is_ok();
        }
    }
    Ok(0)
}

/// Runs the sets that a search answers so many times, and prints the sum of what each time found.
fn print_runs(rt: &HostRuntime, scenario: &Arc<Scenario>, times: u32) -> Result<u8, AllocError> {
    let sets = searched(rt.alloc(), scenario)?;
    let total = runs(rt.alloc(), scenario, sets.as_slice(), times)?;
    let _printed = println!(rt; "{total}").is_ok();
    Ok(0)
}

/// Searches plainly, and prints how the search ended.
fn print_plain(rt: &HostRuntime, scenario: &Arc<Scenario>, most: u32) -> Result<u8, AllocError> {
    let ended = plain(rt.alloc(), scenario, u64::from(most))?;
    print(
        rt,
        Ended {
            deepened: ended.deepened,
            level: ended.set.len() as u32,
            answered: ended.answered,
        },
    );
    Ok(0)
}

/// Prints how a search ended.
fn print(rt: &HostRuntime, ended: Ended) {
    let Ended {
        deepened,
        level,
        answered,
    } = ended;
    let next = level.wrapping_add(1);
    let _printed = match deepened {
        Deepened::Answer => println!(rt; "least {level}, {answered} sets answered").is_ok(),
        Deepened::NoneWithin => println!(rt; "none {level}, {answered} sets answered").is_ok(),
        Deepened::Full { count } => println!(rt;
            "full {next} {count}, {answered} sets answered"
        ).is_ok(),
        _ => println!(rt; "not done at level {level}, {answered} sets answered").is_ok(),
    };
}

/// Drives a new book through the first so many of ten events, in which a set is given back and taken again, and prints what came of
/// each and where the book stands, the latter also where memory runs out.
fn drive(rt: &HostRuntime, scenario: &Arc<Scenario>, count: u32) -> Result<u8, AllocError> {
    let events = [
        Event::Take,
        Event::File(0),
        Event::Deepen,
        Event::Take,
        Event::Take,
        Event::File(1),
        Event::GiveBack(0),
        Event::Take,
        Event::File(0),
        Event::Deepen,
    ];
    let count = events.len().min(count as usize);
    let mut book = Book::begin(rt.alloc(), Arc::try_clone(scenario)?)?;
    match book.drive(&events[..count]) {
        Ok(replies) => {
            print_replies(rt, replies.as_slice());
            print_place(rt, &book, true);
            Ok(0)
        }
        Err(_) => {
            print_place(rt, &book, false);
            Err(AllocError)
        }
    }
}

/// Prints where a book stands, on standard error where memory has run out.
fn print_place(rt: &HostRuntime, book: &Book, has_memory: bool) {
    let level = book.level();
    let Counts {
        ready,
        claimed,
        answered,
        waiting,
    } = book.counts();
    let _printed = if has_memory {
        println!(rt;
            "level {level}: {ready} open, {claimed} claimed, {answered} answered, {waiting} wait"
        ).is_ok()
    } else {
        eprintln!(rt;
            "level {level}: {ready} open, {claimed} claimed, {answered} answered, {waiting} wait"
        ).is_ok()
    };
}

/// Prints what came of each event.
fn print_replies(rt: &HostRuntime, replies: &[Reply]) {
    for reply in replies {
        let _printed = match reply {
            Reply::Took(ticket) => println!(rt; "took {ticket}").is_ok(),
            _ => println!(rt; "{}", word(reply)).is_ok(),
        };
    }
}

/// What came of an event, in a word or two.
fn word(reply: &Reply) -> &'static str {
    match reply {
        Reply::Took(_) => "took",
        Reply::Busy => "busy",
        Reply::LevelDone => "level done",
        Reply::Finished => "finished",
        Reply::Spent => "spent",
        Reply::Filed => "filed",
        Reply::Refused(_) => "refused",
        Reply::GaveBack => "gave back",
        Reply::NotGiven => "not given",
        Reply::Deepened(Deepened::Down) => "down",
        Reply::Deepened(Deepened::Answer) => "answer",
        Reply::Deepened(_) => "deepened",
        Reply::Reclaimed => "reclaimed",
        Reply::NoJob => "no job",
    }
}
