//! Finishing a search alone.

ghost use Rattle.std.specs.Prelude.{IfOk, IfErr};
ghost use Rattle.lf_book.specs.Books.{scenario_of};
ghost use Rattle.lf_pool.specs.Solved.{IsEnded, IsLeft};

use crate::error::PoolError;
use lf_book::{Book, Stop};
use std::alloc::Global;

/// How a search ended.
#[derive(Drop)]
pub(crate) enum Ended {
    /// The book is finished.
    Finished(Book),
    /// The next level has more sets than may be kept: the book can't be deepened.
    Full(Book),
}

/// Works what is left of a search, alone. What others claimed is open again.
pub(crate) fn finish(alloc: Global, book: Book) -> Result<Ended, PoolError>
    ensures ended { IfOk result (IsEnded (scenario_of book)) }
    ensures left { IfErr result (IsLeft (scenario_of book)) }
{
    let mut book = book;
    match lf_book::finish(alloc, &mut book) {
        Ok(Stop::Finished) => Ok(Ended::Finished(book)),
        Ok(Stop::Full { .. }) => Ok(Ended::Full(book)),
        Ok(Stop::Spent) => Err(PoolError::Spent(book)),
        Err(_) => Err(PoolError::Memory),
    }
}
