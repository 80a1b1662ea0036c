//! What the definitions of this crate promise: calls that compute nothing, whose contracts are the laws.

ghost use Rattle.std.specs.Prelude.{◌≡◌, ◌⊎◌, ◌<◌, ◌≤◌, ℕ, true, List, length, slice_index};
ghost use Rattle.lf_faults.specs.declared.fault.Parts.{Parts};
ghost use Rattle.lf_faults.specs.declared.spec.Bounds.{Bounds};
ghost use Rattle.lf_faults.specs.Allowed.{IsAllowed, IsInLimits};
ghost use Rattle.lf_sim.specs.Runs.{World};
ghost use Rattle.lf_sim.specs.Settings.{world_of, set_of, IsRun};
ghost use Rattle.lf_outcome.specs.declared.formula.Formula.{Formula};
ghost use Rattle.lf_outcome.specs.declared.point.Point.{Point};
ghost use Rattle.lf_outcome.specs.Truth.{reaches, reaches_within};
ghost use Rattle.lf_outcome.specs.Reaches.{IsReachOf};
ghost use Rattle.lf_cone.specs.Cones.{IsHeard, IsClosed, IsOutside, AgreesWithin, IsCone, IsSharp};
ghost use Rattle.lf_cone.specs.Cones.{IsRequired, AreRequired};
ghost use Rattle.lf_cone.specs.Sweeps.{AreInside};

use lf_faults::FaultSet;
use lf_outcome::{Formula, Reach};
use lf_sim::{Machine, Run, Setting};

/// The light-cone law of a run: where a reach is closed for the run, the formula is true within it, and a wider allowed
/// set adds nothing that could change what is within it, the wider set's run has the same nodes up there, with the same
/// views, and reaches the outcome.
pub fn agree<M: Machine>(
    setting: &Setting<M>,
    formula: &Formula<M::Fact>,
    run: &Run<M>,
    reach: &Reach,
    wider: &FaultSet,
)
    requires run { IsRun (world_of setting.now) run.now }
    requires closed { IsClosed (world_of setting.now) (set_of run.now) reach.now }
    requires within { reaches_within (world_of setting.now) (set_of run.now) reach.now formula.now ≡ true }
    requires allowed { IsAllowed setting.now.spec wider.now }
    requires outside { IsOutside (world_of setting.now) (set_of run.now) reach.now wider.now }
    ensures agrees { AgreesWithin (world_of setting.now) (set_of run.now) reach.now wider.now }
    ensures reaches { reaches (world_of setting.now) wider.now formula.now ≡ true }
{
    let _limits = setting.spec.pause_length();
}

/// The light-cone law, for every world and all lists of faults.
pub fn light_cone<State, Note, Fact>()
    ensures agrees { (w : World State Note Fact) (b : Bounds) (faults wider : List Parts) (reach : List ℕ) →
        1 ≤ w.pause_length → IsClosed w faults reach → IsAllowed b wider → IsOutside w faults reach wider →
        AgreesWithin w faults reach wider }
    ensures reaches { (w : World State Note Fact) (b : Bounds) (faults wider : List Parts) (reach : List ℕ)
        (formula : Formula Fact) →
        1 ≤ w.pause_length → IsClosed w faults reach → IsAllowed b wider → IsOutside w faults reach wider →
        reaches_within w faults reach formula ≡ true → reaches w wider formula ≡ true }
{}

/// Points have at most one cone and at most one sharp reach, and a reach has at most one list of required edges.
pub fn reaches_are_one<State, Note, Fact>()
    ensures cones { (nodes horizon : ℕ) (least : ℕ → ℕ → ℕ) (points : List Point) (x y : List ℕ) →
        IsCone nodes horizon least points x → IsCone nodes horizon least points y → x ≡ y }
    ensures sharp { (w : World State Note Fact) (faults : List Parts) (points : List Point) (x y : List ℕ) →
        IsSharp w faults points x → IsSharp w faults points y → x ≡ y }
    ensures edges { (w : World State Note Fact) (faults : List Parts) (b : Bounds) (reach : List ℕ)
        (excluded xs ys : List Parts) →
        AreRequired w faults b reach excluded xs → AreRequired w faults b reach excluded ys → xs ≡ ys }
{}

/// A reach has at most `MOST_EDGES` required edges, whatever is excluded.
pub fn edges_are_few<State, Note, Fact>()
    ensures { (w : World State Note Fact) (faults : List Parts) (b : Bounds) (reach : List ℕ) (excluded edges : List Parts) →
        IsInLimits b → AreRequired w faults b reach excluded edges → length edges ≤ 3840 }
{}

/// Points of a run have a cone and a sharp reach, wherever notes arrive, and a reach has a list of required edges.
pub fn reaches_exist<State, Note, Fact>()
    ensures cones { (nodes horizon : ℕ) (least : ℕ → ℕ → ℕ) (points : List Point) → AreInside nodes horizon points →
        (reach : List ℕ) × IsCone nodes horizon least points reach }
    ensures sharp { (w : World State Note Fact) (faults : List Parts) (points : List Point) →
        AreInside w.rules.nodes w.horizon points → (reach : List ℕ) × IsSharp w faults points reach }
    ensures edges { (w : World State Note Fact) (faults : List Parts) (b : Bounds) (reach : List ℕ) (excluded : List Parts) →
        (edges : List Parts) × AreRequired w faults b reach excluded edges }
{}

/// Whether a reach is closed is decided, and where it isn't, something is heard within it that was done past it. Whether
/// a fault is required is decided too.
pub fn reaches_are_decided<State, Note, Fact>()
    ensures past { (w : World State Note Fact) (faults : List Parts) (reach : List ℕ) → IsReachOf w.rules.nodes w.horizon reach →
        IsClosed w faults reach ⊎
        ((n : ℕ) × (t : ℕ) × (m : ℕ) × (slice_index reach n < t) × IsHeard w faults reach n t m) }
    ensures closed { (w : World State Note Fact) (faults : List Parts) (reach : List ℕ) →
        IsClosed w faults reach ⊎ (IsClosed w faults reach → ⊥) }
    ensures required { (w : World State Note Fact) (faults : List Parts) (b : Bounds) (reach : List ℕ)
        (excluded : List Parts) (f : Parts) →
        IsRequired w faults b reach excluded f ⊎ (IsRequired w faults b reach excluded f → ⊥) }
{}
