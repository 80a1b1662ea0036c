//! The book of a search.

ghost use Rattle.std.specs.Prelude.{◌≡◌, ◌≤◌, true, IfOk};
ghost use Rattle.std.specs.Arc.{arc_value};
ghost use Rattle.lf_certificate.specs.Accepted.{IsAnswer};
ghost use Rattle.lf_marks.specs.Counting.{AreCounts, IsCount, OfKind};
ghost use Rattle.lf_marks.specs.Steps as marking;
ghost use Rattle.lf_marks.specs.Marks.{mark_at, level_of};
ghost use Rattle.lf_certificate.specs.Closed.{IsClosed, IsFirstMissing};
ghost use Rattle.lf_certificate.specs.States.{last_ticket};
ghost use Rattle.lf_sim.specs.Settings.{world_of};

use crate::facts::{marks_have_shape, scenarios_have_sets};
use lf_certificate::settings_are_bounded;
use lf_faults::FaultSet;
use lf_marks::{Counts, Marks};
use lf_outcome::Scenario;
use std::alloc::{AllocError, Global};
use std::sync::Arc;

/// All sets of a search: those that are answered, those that are worked, those that may be worked, and those that wait for the next level.
/// It stays right after every event, in whatever order these come.
#[derive(Drop)]
pub struct Book {
    pub(crate) alloc: Global,
    /// What is searched.
    pub(crate) scenario: Arc<Scenario>,
    /// The sets.
    pub(crate) marks: Marks,
    /// The next ticket, from 1 on.
    pub(crate) next: u64,
    /// Whether the search has ended.
    pub(crate) finished: bool,
    /// The first, in the order of sets, of the sets of the level that miss, if one does.
    pub(crate) least: Option<FaultSet>,
    ghost closed: { ∥ IsClosed (world_of (arc_value scenario).setting) (arc_value scenario).setting.spec (arc_value scenario).formula
        (arc_value scenario).max_sets (record { level = level_of marks; next = next; finished = finished; marks = mark_at marks }) ∥₁ },
    ghost first: { ∥ IsFirstMissing (mark_at marks) least ∥₁ },
    ghost tickets: { next ≤ last_ticket },
}

impl Book {
    ghost use Rattle.lf_book.specs.Books.{scenario_of, state_of, IsClosedFor};
    ghost use Rattle.lf_certificate.specs.States.{IsStart};

    /// A book of a scenario: the empty set is open, on level 0, and tickets count from 1.
    pub fn begin(alloc: Global, scenario: Arc<Scenario>) -> Result<Book, AllocError>
        ensures scenario { IfOk result (λ book. scenario_of book ≡ arc_value scenario) }
        ensures start { IfOk result (λ book. IsStart (state_of book)) }
    {
        let marks = Marks::new(alloc)?;
        marks_have_shape(&marks);
        scenarios_have_sets(&scenario);
        Ok(Book {
            alloc,
            scenario,
            marks,
            next: 1,
            finished: false,
            least: None,
        })
    }

    /// What is searched.
    pub fn scenario(&self) -> &Scenario
        ensures { result.now ≡ scenario_of self.now }
    {
        &self.scenario
    }

    /// The same, to be shared.
    pub fn shared(&self) -> &Arc<Scenario>
        ensures { arc_value result.now ≡ scenario_of self.now }
    {
        &self.scenario
    }

    /// How many faults the sets have that may be worked, 0..=6. Every book is closed: what is marked of its sets is what their runs show,
    /// whatever calls made it.
    pub fn level(&self) -> u32
        ensures value { result ≡ (state_of self.now).level }
        ensures closed { ∥ IsClosedFor (scenario_of self.now) (state_of self.now) ∥₁ }
    {
        self.marks.level()
    }

    /// How many sets are open, claimed, answered, and wait. It takes no memory.
    pub fn counts(&self) -> Counts
        ensures { AreCounts (state_of self.now).marks result.ready result.claimed result.answered result.waiting }
    {
        self.marks.counts()
    }

    /// How many sets are answered.
    pub fn answered(&self) -> u64
        ensures { IsCount (λ p. OfKind marking.IsAnswer ((state_of self.now).marks p)) result }
    {
        self.marks.counts().answered
    }

    /// The answer of a book whose search has ended: the first allowed set, in the order of sets, whose run misses the outcome, or None
    /// where every allowed set reaches it.
    pub fn answer(&self) -> Option<FaultSet>
        requires { (state_of self.now).finished ≡ true }
        ensures { IsAnswer (world_of (scenario_of self.now).setting) (scenario_of self.now).setting.spec (scenario_of self.now).formula result }
    {
        settings_are_bounded(self.scenario.setting());
        self.least
    }
}
