//! Whole searches.

ghost use Rattle.std.specs.Prelude.{IfOk};
ghost use Rattle.std.specs.Arc.{arc_value};
ghost use Rattle.lf_book.specs.Ends.{IsEnd};

use crate::ending::finish_watched;
use crate::{Book, Ended, Stop};
use lf_outcome::Scenario;
use lf_watch::{NoWatch, Watch};
use std::alloc::{AllocError, Global};
use std::sync::Arc;

/// Searches a scenario to its end, in one thread. It answers a finished book, or the first level that is too full. The error is that
/// memory has run out.
///
/// A search that begins anew has tickets enough: one for each set that it keeps.
pub fn solve(alloc: Global, scenario: Arc<Scenario>) -> Result<Ended, AllocError>
    ensures { IfOk result (IsEnd (arc_value scenario)) }
{
    solve_watched(alloc, scenario, &NoWatch)
}

/// The same, with a watch that is told before each set how many of its level were run.
pub fn solve_watched<W: Watch>(
    alloc: Global,
    scenario: Arc<Scenario>,
    watch: &W,
) -> Result<Ended, AllocError>
    ensures { IfOk result (IsEnd (arc_value scenario)) }
{
    let mut book = Book::begin(alloc, scenario)?;
    match finish_watched(alloc, &mut book, watch)? {
        Stop::Finished => Ok(Ended::Finished(book)),
        Stop::Full { level, count } => Ok(Ended::Full { level, count }),
        Stop::Spent => unreachable!(),
    }
}
