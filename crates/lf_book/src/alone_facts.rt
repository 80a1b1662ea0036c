//! What is so of every book.

ghost use Rattle.std.specs.Prelude.{◌≡◌, ℕ, ◌≤◌, true};
ghost use Rattle.lf_book.specs.Books.{scenario_of, state_of, IsClosedFor};
ghost use Rattle.lf_certificate.specs.Accepted.{IsBounded};
ghost use Rattle.lf_marks.specs.Counting.{IsCount};
ghost use Rattle.lf_marks.specs.Steps as mark;
ghost use Rattle.lf_outcome.specs.Limits.{most_sets};
ghost use Rattle.lf_certificate.specs.Events.{IsDone};
ghost use Rattle.lf_sim.specs.Settings.{world_of};

use crate::Book;
use lf_certificate::settings_are_bounded;

/// What is so of every book, whatever calls made it: it is closed, so its level is the last at most, and all sets are answered where its
/// search has ended; and its scenario is within the limits. It computes nothing: a caller learns the facts.
pub(crate) fn books_are_closed(book: &Book)
    ensures closed { ∥ IsClosedFor (scenario_of book.now) (state_of book.now) ∥₁ }
    ensures bounded { IsBounded (world_of (scenario_of book.now).setting) (scenario_of book.now).setting.spec }
    ensures high { (state_of book.now).level ≤ 6 }
    ensures ended { (state_of book.now).finished ≡ true → IsDone (state_of book.now).marks }
    ensures kept { (scenario_of book.now).max_sets ≤ most_sets }
    ensures waiting { (n : ℕ) × IsCount (λ p. (state_of book.now).marks p ≡ Some mark.Waiting) n }
{
    settings_are_bounded(book.scenario().setting());
    let _level = book.level();
    let _sets = book.scenario().max_sets();
    let _counts = book.counts();
}
