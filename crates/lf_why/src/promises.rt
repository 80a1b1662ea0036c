//! What the definitions of this crate promise: calls that compute nothing, whose contracts are the laws.

ghost use Rattle.std.specs.Prelude.{◌≡◌, ◌<◌, ℕ, true, List, length};
ghost use Rattle.lf_faults.specs.declared.fault.Parts.{Parts};
ghost use Rattle.lf_faults.specs.declared.spec.Bounds.{Bounds};
ghost use Rattle.lf_faults.specs.Allowed.{IsAllowed};
ghost use Rattle.lf_outcome.specs.declared.formula.Formula.{Formula};
ghost use Rattle.lf_outcome.specs.Truth.{reaches};
ghost use Rattle.lf_sim.specs.Runs.{World};
ghost use Rattle.lf_trace.specs.Words.{Words};
ghost use Rattle.lf_tree.specs.declared.tree.Tree.{Tree};
ghost use Rattle.lf_why.specs.Answers.{IsWhy};
ghost use Rattle.lf_why.specs.Sets.{without};

/// Each fault of a least set is needed: where every allowed set with fewer faults reaches, the set without one of its faults is allowed and reaches.
pub fn least_sets_need_each_fault<State, Note, Fact>()
    ensures allowed { (b : Bounds) (set : List Parts) (place : ℕ) → IsAllowed b set → place < length set → IsAllowed b (without set place) }
    ensures reaches { (w : World State Note Fact) (b : Bounds) (formula : Formula Fact) (set : List Parts) (place : ℕ) → IsAllowed b set →
        ((fewer : List Parts) → IsAllowed b fewer → length fewer < length set → reaches w fewer formula ≡ true) →
        place < length set → reaches w (without set place) formula ≡ true }
{}

/// A tree has at most one text that tells why its answer is one.
pub fn reasons_are_one<State, Note, Fact>()
    ensures { (words : Words State Note) (w : World State Note Fact) (b : Bounds) (formula : Formula Fact) (tree : Tree) (one other : List ℕ) →
        IsWhy words w b formula tree one → IsWhy words w b formula tree other → one ≡ other }
{}
