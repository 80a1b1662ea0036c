//! The next level, or the end of a search.

ghost use Rattle.std.specs.Prelude.{◌≡◌, ℕ, ◌+◌, ◌^◌, ◌<◌, true};
ghost use Rattle.lf_book.specs.Books.{scenario_of, state_of, IfStays, IsDeepened, ShowsFull};
ghost use Rattle.lf_marks.specs.Marks.{mark_at, level_of, waiting_of};
ghost use Rattle.lf_marks.specs.Steps.{IsShape, IsUnmarked, WentDown};
ghost use Rattle.lf_marks.specs.Steps as mark;

use crate::book::Book;
use crate::facts::marks_have_shape;
use lf_certificate::settings_are_bounded;
use lf_marks::Marks;

/// What comes after a level.
#[derive(Clone, Copy, Debug, PartialEq, Eq)]
pub enum Deepened {
    /// A set of the level isn't answered.
    NotDone,
    /// A set of the level misses the outcome: the search has ended.
    Answer,
    /// None misses, and the level is the budget: the search has ended.
    NoneWithin,
    /// The next level has more sets than `max_sets`, so many.
    Full {
        /// How many sets wait.
        count: u64,
    },
    /// The level is one lower, and its sets are open.
    Down,
}

impl Book {
    /// Ends the search, or goes on to the sets with one fault more, once each set of the level is answered. Only `Down` and the first
    /// `Answer` or `NoneWithin` change the book: once the search has ended the answer is the same again. `Full` tells that the next level
    /// is the first that is too full, and that every allowed set with fewer faults reaches. It takes no memory.
    pub fn deepen(&mut self) -> Deepened
        ensures deepened { IsDeepened self.old self.new result }
        ensures full { ShowsFull (scenario_of self.old) (state_of self.old) result }
        ensures unchanged { IfStays result (self.new ≡ self.old) }
        ensures again { (state_of self.old).finished ≡ true → self.new ≡ self.old }
        ensures scenario { scenario_of self.new ≡ scenario_of self.old }
    {
        if self.finished {
            return self.ending();
        }
        let counts = self.marks.counts();
        if counts.ready > 0 {
            return Deepened::NotDone;
        }
        if counts.claimed > 0 {
            return Deepened::NotDone;
        }
        if self.least.is_some() {
            self.finished = true;
            return Deepened::Answer;
        }
        if self.marks.level() >= self.scenario.setting().spec.budget() {
            self.finished = true;
            return Deepened::NoneWithin;
        }
        if counts.waiting > u64::from(self.scenario.max_sets()) {
            settings_are_bounded(self.scenario.setting());
            return Deepened::Full {
                count: counts.waiting,
            };
        }
        lower(&mut self.marks);
        Deepened::Down
    }

    /// How the search has ended.
    fn ending(&self) -> Deepened
        requires { (state_of self.now).finished ≡ true }
        ensures deepened { IsDeepened self.now self.now result }
        ensures full { ShowsFull (scenario_of self.now) (state_of self.now) result }
    {
        match self.least {
            Some(_) => Deepened::Answer,
            None => Deepened::NoneWithin,
        }
    }
}

/// Goes on to the sets that wait.
fn lower(marks: &mut Marks)
    requires done { IsUnmarked (mark_at marks.old) mark.Open }
    requires free { (t : ℕ) → IsUnmarked (mark_at marks.old) (mark.Claimed t) }
    requires few { waiting_of marks.old < 2 ^ 32 }
    requires high { level_of marks.old < 16 }
    ensures went_down { WentDown (mark_at marks.old) (mark_at marks.new) }
    ensures level { level_of marks.new ≡ level_of marks.old + 1 }
    ensures shape { IsShape (level_of marks.new) (mark_at marks.new) }
{
    marks.go_down();
    marks_have_shape(marks);
}
