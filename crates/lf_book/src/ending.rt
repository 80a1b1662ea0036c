//! Working what is left of a search.

ghost use Rattle.std.specs.Prelude.{◌≡◌, ◌≢◌, Some, Ok, IfOk, OnOk, IsNone};
ghost use Rattle.lf_book.specs.Ends.{IsStop};
ghost use Rattle.lf_book.specs.Turns.{IsAfter, IsTurn, IsUnderway, IsWorked, KeepsAnswers};
ghost use Rattle.lf_book.specs.declared.stop.Stop.TheVariants as stop;
ghost use Rattle.lf_book.specs.Books.{scenario_of, state_of};
ghost use Rattle.lf_marks.specs.Steps.{IsUnmarked};
ghost use Rattle.lf_marks.specs.Steps as mark;
ghost use Rattle.lf_certificate.specs.Events.{IsDone, IsUnclaimed};
ghost use Rattle.lf_certificate.specs.States.{IsStart};
ghost use Rattle.lf_work.specs.Scratches.{IsScratchFor};

use crate::alone_facts::books_are_closed;
use crate::{Book, Deepened, Scratch, Stop, Taken, work_on};
use lf_watch::{NoWatch, Progress, Watch};
use std::alloc::{AllocError, Global};

/// Goes on with the search of a book until it stops, in one thread. Any book will do: what others claimed is open again first. What is answered
/// stays, and a book that begins anew has tickets enough. The error is that memory has run out.
pub fn finish(alloc: Global, book: &mut Book) -> Result<Stop, AllocError>
    ensures stops { IfOk result (IsStop book.new) }
    ensures tickets { IsStart (state_of book.old) → result ≢ Ok stop.Spent }
    ensures kept { KeepsAnswers (state_of book.old).marks (state_of book.new).marks }
    ensures scenario { scenario_of book.new ≡ scenario_of book.old }
{
    finish_watched(alloc, book, &NoWatch)
}

/// The same, with a watch that is told before each set how many of its level were run.
pub fn finish_watched<W: Watch>(
    alloc: Global,
    book: &mut Book,
    watch: &W,
) -> Result<Stop, AllocError>
    ensures stops { IfOk result (IsStop book.new) }
    ensures tickets { IsStart (state_of book.old) → result ≢ Ok stop.Spent }
    ensures kept { KeepsAnswers (state_of book.old).marks (state_of book.new).marks }
    ensures scenario { scenario_of book.new ≡ scenario_of book.old }
{
    let mut scratch = Scratch::new(alloc);
    book.reclaim();
    'levels: loop {
        let Worked::Done = work_level(book, &mut scratch, watch)? else {
            return Ok(Stop::Spent);
        };
        match after_level(book) {
            Some(stop) => return Ok(stop),
            None => {}
        }
    }
}

/// How work ends.
#[derive(Clone, Copy)]
pub(crate) enum Worked {
    /// What was to be worked is answered.
    Done,
    /// A set is open, but all tickets were given.
    Spent,
}

/// Works all open sets of the level.
fn work_level<W: Watch>(
    book: &mut Book,
    scratch: &mut Scratch,
    watch: &W,
) -> Result<Worked, AllocError>
    requires free { IsUnclaimed (state_of book.old).marks }
    requires scratch { IsScratchFor (scenario_of book.old) scratch.old }
    ensures worked { IfOk result (IsWorked (state_of book.old) (state_of book.new)) }
    ensures underway { OnOk result (IsUnderway (state_of book.old) → IsUnderway (state_of book.new)) }
    ensures scratch { OnOk result (IsScratchFor (scenario_of book.new) scratch.new) }
    ensures kept { KeepsAnswers (state_of book.old).marks (state_of book.new).marks }
    ensures scenario { scenario_of book.new ≡ scenario_of book.old }
{
    let all = open_sets(book);
    'sets: while book.counts().ready > 0 {
        watch.tell(Progress::Sets {
            level: book.level(),
            done: all.saturating_sub(open_sets(book)),
            all: Some(all),
        });
        let Worked::Done = work_next(book, scratch)? else {
            return Ok(Worked::Spent);
        };
    }
    Ok(Worked::Done)
}

/// How many sets are open.
fn open_sets(book: &Book) -> u64 {
    book.counts().ready
}

/// Works an open set. The scenarios of the book, of its claim and of the scratch are one, so nothing is compared. The job is made of what the one
/// before it left.
fn work_next(book: &mut Book, scratch: &mut Scratch) -> Result<Worked, AllocError>
    requires free { IsUnclaimed (state_of book.old).marks }
    requires ready { ¬ IsUnmarked (state_of book.old).marks mark.Open }
    requires scratch { IsScratchFor (scenario_of book.old) scratch.old }
    ensures turn { IfOk result (IsTurn (state_of book.old) (state_of book.new)) }
    ensures underway { OnOk result (IsUnderway (state_of book.old) → IsUnderway (state_of book.new)) }
    ensures scratch { OnOk result (IsScratchFor (scenario_of book.new) scratch.new) }
    ensures kept { KeepsAnswers (state_of book.old).marks (state_of book.new).marks }
    ensures scenario { scenario_of book.new ≡ scenario_of book.old }
{
    books_are_closed(book);
    let job = match book.take_with(scratch.take_spent())? {
        Taken::Job(job) => job,
        Taken::Spent => return Ok(Worked::Spent),
        Taken::Busy | Taken::LevelDone | Taken::Finished => unreachable!(),
    };
    books_are_closed(book);
    let finding = work_on(job, scratch)?;
    scratch.keep(book.file_claimed(finding));
    Ok(Worked::Done)
}

/// Goes on from a level whose sets are all answered. None where the next level is to be worked.
fn after_level(book: &mut Book) -> Option<Stop>
    requires { IsDone (state_of book.old).marks }
    ensures after { IsAfter book.old book.new result }
    ensures tickets { result ≢ Some stop.Spent }
    ensures underway { IsNone result → IsUnderway (state_of book.old) → IsUnderway (state_of book.new) }
    ensures kept { KeepsAnswers (state_of book.old).marks (state_of book.new).marks }
    ensures scenario { scenario_of book.new ≡ scenario_of book.old }
{
    books_are_closed(book);
    let level = book.level();
    let deepened = book.deepen();
    books_are_closed(book);
    match deepened {
        Deepened::Down => None,
        Deepened::Answer | Deepened::NoneWithin => Some(Stop::Finished),
        Deepened::Full { count } => Some(Stop::Full {
            level: level + 1,
            count,
        }),
        Deepened::NotDone => unreachable!(),
    }
}
