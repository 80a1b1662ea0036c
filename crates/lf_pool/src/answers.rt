//! What a search found that has ended.

ghost use Rattle.std.specs.Prelude.{◌≡◌, true, IfOk, IfErr};
ghost use Rattle.lf_book.specs.Books.{scenario_of, state_of};
ghost use Rattle.lf_pool.specs.Solved.{AreSolved, IsSolved};
ghost use Rattle.lf_pool.specs.declared.error.PoolError.TheVariants as error;

use crate::error::PoolError;
use crate::facts::books_are_closed;
use crate::solving::{Solved, SolvedAll};
use lf_book::Book;

/// The answer of an ended search.
pub(crate) fn answer_of(book: Book) -> Solved
    requires { (state_of book).finished ≡ true }
    ensures { IsSolved (scenario_of book) result }
{
    books_are_closed(&book);
    let runs = book.answered();
    let Ok(tree) = book.into_tree() else {
        unreachable!()
    };
    Solved::Answer {
        set: tree.answer,
        tree,
        runs,
    }
}

/// All least sets of an ended search. The error is that memory has run out.
pub(crate) fn all_of(book: Book) -> Result<SolvedAll, PoolError>
    requires { (state_of book).finished ≡ true }
    ensures all { IfOk result (AreSolved (scenario_of book)) }
    ensures err { IfErr result (λ e. e ≡ error.Memory) }
{
    books_are_closed(&book);
    let runs = book.answered();
    let Ok(least) = book.all_least() else {
        return Err(PoolError::Memory);
    };
    let Some(sets) = least else { unreachable!() };
    let Ok(tree) = book.into_tree() else {
        unreachable!()
    };
    Ok(SolvedAll::All { sets, tree, runs })
}
