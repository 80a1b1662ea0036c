//! What the definitions of this crate promise, for every world: calls that compute nothing, whose contracts are the laws.

ghost use Rattle.std.specs.Prelude.{◌≡◌, ◌≤◌, ℕ, false, List, Option};
ghost use Rattle.std.specs.Option.{option_map};
ghost use Rattle.lf_faults.specs.declared.fault.Parts.{Parts};
ghost use Rattle.lf_faults.specs.declared.spec.Bounds.{Bounds};
ghost use Rattle.lf_faults.specs.Allowed.{IsAllowed, IsFirst};
ghost use Rattle.lf_latency.specs.declared.network.Timing.{Timing};
ghost use Rattle.lf_latency.specs.Arrivals.{IsTiming, arrival_of};
ghost use Rattle.lf_outcome.specs.declared.formula.Formula.{Formula};
ghost use Rattle.lf_outcome.specs.Truth.{reaches};
ghost use Rattle.lf_sim.specs.Runs.{World, view, sent};
ghost use Rattle.lf_latency.specs.declared.arrivals.Arrivals.{Arrivals};
ghost use Rattle.lf_delays.specs.Answers.{IsOn, IsFirstUnder, HasNoSpread, with_seed, IsNotBefore, misses_in};
ghost use Rattle.lf_delays.specs.Windows.{under, AreLevel, AgreeUpTo};

/// A run doesn't depend on when notes arrive later: two assignments that agree on what has arrived up to some steps make the same run up
/// to them.
pub fn runs_agree_so_far<State, Note, Fact>()
    ensures views { (w : World State Note Fact) (faults : List Parts) (other : ℕ → ℕ → ℕ → ℕ) (reach : ℕ → ℕ) →
        AreLevel reach → AgreeUpTo w faults other reach →
        (n t : ℕ) → t ≤ reach n → view w faults n t ≡ view (under w other) faults n t }
    ensures notes { (w : World State Note Fact) (faults : List Parts) (other : ℕ → ℕ → ℕ → ℕ) (reach : ℕ → ℕ) →
        AreLevel reach → AgreeUpTo w faults other reach →
        (n m t : ℕ) → t ≤ reach n → sent w faults n m t ≡ sent (under w other) faults n m t }
{}

/// Where no link has a spread, the answer over every delay is the answer. `keeps_limits` of `lf_latency` has the timing of each network
/// within its limits.
pub fn answers_agree_without_spread<State, Note, Fact>()
    ensures { (timing : Timing) (b : Bounds) (w : World State Note Fact) (formula : Formula Fact) (answer : Option (List Parts × Arrivals)) →
        IsTiming timing → IsOn timing w → HasNoSpread timing → IsFirstUnder timing b w formula answer →
        IsFirst b (misses_in (under w (arrival_of timing)) formula) (option_map (λ x. x.0) answer) }
{}

/// The answer over every delay is never after the answer of any seed: an allowed set that misses over a seed doesn't come before it. So
/// where there is none, there is none over any seed.
pub fn answers_come_before_those_of_seeds<State, Note, Fact>()
    ensures { (timing : Timing) (b : Bounds) (w : World State Note Fact) (formula : Formula Fact) (answer : Option (List Parts × Arrivals)) →
        IsFirstUnder timing b w formula answer →
        (seed : List ℕ) (faults : List Parts) → IsAllowed b faults →
        reaches (under w (arrival_of (with_seed timing seed))) faults formula ≡ false → IsNotBefore faults answer }
{}
