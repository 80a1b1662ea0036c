//! What the definitions of this crate promise: calls that compute nothing, whose contracts are the laws.

ghost use Rattle.std.specs.Prelude.{◌≡◌, ◌⊎◌, ◌↔◌, ℕ, List, Some};
ghost use Rattle.lf_faults.specs.declared.spec.Bounds.{Bounds};
ghost use Rattle.lf_faults.specs.Allowed.{IsInLimits};
ghost use Rattle.lf_sim.specs.Runs.{World};
ghost use Rattle.lf_sim.specs.Settings.{world_of};
ghost use Rattle.lf_outcome.specs.declared.formula.Formula.{Formula};
ghost use Rattle.lf_tree.specs.declared.tree.Tree.{Tree};
ghost use Rattle.lf_certificate.specs.declared.reason.Reason.{Reason};
ghost use Rattle.lf_certificate.specs.Places.{Place, place_at};
ghost use Rattle.lf_certificate.specs.Accepted.{IsBounded, IsAccepted, IsAnswer, Covers, covered_below};
ghost use Rattle.lf_certificate.specs.Faults.{IsFirstFault};
ghost use Rattle.lf_certificate.specs.Grown.{IsTreeOf};

use lf_sim::{Machine, Setting};

/// An accepted tree's answer is the answer: the first allowed set of faults whose run misses, or none where each reaches.
/// At each of its places, every allowed set that has the place's faults, nothing that is excluded there and fewer faults
/// than the answer, or any number where there is none, reaches.
///
/// This rests on what runs are and on nothing else: who made the tree plays no part.
pub fn accepted_answers<State, Note, Fact>()
    ensures answer { (w : World State Note Fact) (b : Bounds) (formula : Formula Fact) (tree : Tree) →
        IsBounded w b → IsAccepted w b formula tree → IsAnswer w b formula tree.answer }
    ensures covers { (w : World State Note Fact) (b : Bounds) (formula : Formula Fact) (tree : Tree) →
        IsBounded w b → IsAccepted w b formula tree → (path : List ℕ) (p : Place) → place_at tree path ≡ Some p →
        Covers w b formula p.faults p.excluded (covered_below b tree.answer) }
{}

/// The first fault of a tree: an accepted tree has none, two of one tree are one, and every tree is accepted or has one. So a
/// tree is accepted exactly where it has no first fault. This holds of every machine and all bounds.
pub fn first_faults<State, Note, Fact>()
    ensures none { (w : World State Note Fact) (b : Bounds) (formula : Formula Fact) (tree : Tree) →
        IsAccepted w b formula tree → (why : Reason) (path : List ℕ) → ¬ IsFirstFault w b formula tree why path }
    ensures one { (w : World State Note Fact) (b : Bounds) (formula : Formula Fact) (tree : Tree)
        (why other : Reason) (path there : List ℕ) →
        IsFirstFault w b formula tree why path → IsFirstFault w b formula tree other there →
        (why ≡ other) × (path ≡ there) }
    ensures exists { (w : World State Note Fact) (b : Bounds) (formula : Formula Fact) (tree : Tree) →
        IsAccepted w b formula tree ⊎ ((why : Reason) × (path : List ℕ) × IsFirstFault w b formula tree why path) }
    ensures accepted { (w : World State Note Fact) (b : Bounds) (formula : Formula Fact) (tree : Tree) →
        ((why : Reason) (path : List ℕ) → ¬ IsFirstFault w b formula tree why path) ↔ IsAccepted w b formula tree }
{}

/// There is exactly one tree of a search, and it is accepted.
pub fn one_tree<State, Note, Fact>()
    ensures accepted { (w : World State Note Fact) (b : Bounds) (formula : Formula Fact) (tree : Tree) →
        IsBounded w b → IsTreeOf w b formula tree → IsAccepted w b formula tree }
    ensures exists { (w : World State Note Fact) (b : Bounds) (formula : Formula Fact) →
        IsInLimits b → (tree : Tree) × IsTreeOf w b formula tree }
    ensures one { (w : World State Note Fact) (b : Bounds) (formula : Formula Fact) (one other : Tree) →
        IsTreeOf w b formula one → IsTreeOf w b formula other → one ≡ other }
{}

/// The bounds of a setting are within the limits, and are those of its world.
pub fn settings_are_bounded<M: Machine>(setting: &Setting<M>)
    ensures { IsBounded (world_of setting.now) setting.now.spec }
{
    let _length = setting.spec.pause_length();
}
