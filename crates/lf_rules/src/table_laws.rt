//! What the numbers of cells mean: laws, each the contract of a call that computes nothing.

ghost use Rattle.std.specs.Prelude.{◌≡◌, ◌<◌, ℕ, Some, slice_get};
ghost use Rattle.lf_rules.specs.declared.definition.Variable.{Variable};
ghost use Rattle.lf_rules.specs.declared.definition.Definition.{Definition};
ghost use Rattle.lf_rules.specs.Tables.{count_of, others_of, cells_in, cell_of};

/// Each cell has a number of its own, and all of them are below how many cells there are.
pub fn cells_are_apart()
    ensures apart { (d : Definition) (i j : ℕ) (x y : Variable) (k l : ℕ) →
        slice_get d.variables i ≡ Some x → slice_get d.variables j ≡ Some y → k < count_of x.cells → l < count_of y.cells →
        cell_of i (others_of d i) k ≡ cell_of j (others_of d j) l → (i ≡ j) × (k ≡ l) }
    ensures within { (d : Definition) (i : ℕ) (x : Variable) (k : ℕ) → slice_get d.variables i ≡ Some x → k < count_of x.cells →
        cell_of i (others_of d i) k < cells_in d }
{}
