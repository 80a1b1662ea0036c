//! What the definitions of this crate promise: a call that computes nothing, whose contract is the law.

ghost use Rattle.std.specs.Prelude.{◌≡◌, ◌≤◌, ℕ, false, true, List};
ghost use Rattle.lf_faults.specs.declared.fault.Parts.{Parts};
ghost use Rattle.lf_outcome.specs.declared.formula.Formula.{Formula};
ghost use Rattle.lf_outcome.specs.Truth.{entered, is_down, is_shown, reaches};
ghost use Rattle.lf_sim.specs.Runs.{World};
ghost use Rattle.lf_outcome.specs.Failing.{fails_by};

/// A run that is seen to miss an outcome by a step misses it, and so does every other run that shows the same up to that step.
pub fn what_fails_stays_missed<State, Note, Fact>()
    ensures { (w other : World State Note Fact) (faults others : List Parts) (t : ℕ) (formula : Formula Fact) → fails_by w faults t formula ≡ true →
        ((n u : ℕ) → u ≤ t → is_down other others n u ≡ is_down w faults n u) →
        ((n u : ℕ) (fact : Fact) → u ≤ t → is_shown other others n u fact ≡ is_shown w faults n u fact) →
        ((topic n u : ℕ) → u ≤ t → entered other others topic n u ≡ entered w faults topic n u) →
        reaches other others formula ≡ false }
{}
