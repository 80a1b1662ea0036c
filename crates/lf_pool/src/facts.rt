//! What is so of every book.

ghost use Rattle.std.specs.Prelude.{ℕ, ◌^◌, ◌<◌};
ghost use Rattle.lf_book.specs.Books.{scenario_of, state_of, IsClosedFor};
ghost use Rattle.lf_certificate.specs.Accepted.{IsBounded};
ghost use Rattle.lf_pool.specs.Holds.{IsAnsweredCount};
ghost use Rattle.lf_sim.specs.Settings.{world_of};

use lf_book::Book;
use lf_certificate::settings_are_bounded;

/// What is so of every book, whatever calls made it: it is closed, its scenario is within the limits, and how many of its sets are answered
/// is a number of 64 bits. It computes nothing: a caller learns the facts.
pub(crate) fn books_are_closed(book: &Book)
    ensures closed { ∥ IsClosedFor (scenario_of book.now) (state_of book.now) ∥₁ }
    ensures bounded { IsBounded (world_of (scenario_of book.now).setting) (scenario_of book.now).setting.spec }
    ensures few { (n : ℕ) → IsAnsweredCount book.now n → n < 2 ^ 64 }
{
    settings_are_bounded(book.scenario().setting());
    let _level = book.level();
    let _answered = book.answered();
}
