//! What the definitions of this crate promise, for every world: calls that compute nothing, whose contracts are the laws.

ghost use Rattle.std.specs.Prelude.{◌≡◌, ◌↔◌, ◌≤◌, ℕ, false, List};
ghost use Rattle.std.specs.List.{Contains};
ghost use Rattle.lf_delays.specs.Answers.{IsOn};
ghost use Rattle.lf_delays.specs.Windows.{under};
ghost use Rattle.lf_delays.specs.declared.delay.Delay.{Delay};
ghost use Rattle.lf_delays.specs.Delays.{AreDelays, delayed, list_text};
ghost use Rattle.lf_delays.specs.Tight.{AreNeeded, IsTight, reaches_by};
ghost use Rattle.lf_delays.specs.Told.{IsLate, told};
ghost use Rattle.lf_faults.specs.declared.fault.Parts.{Parts};
ghost use Rattle.lf_latency.specs.declared.links.Links.{Links};
ghost use Rattle.lf_latency.specs.declared.network.Timing.{Timing};
ghost use Rattle.lf_latency.specs.Arrivals.{IsAssignment, IsTiming, arrival_in};
ghost use Rattle.lf_outcome.specs.declared.formula.Formula.{Formula};
ghost use Rattle.lf_outcome.specs.Truth.{reaches};
ghost use Rattle.lf_sim.specs.Runs.{World, sent, view};

/// A text names at most one list of delays of a network. `keeps_limits` of `lf_latency` has the timing of each network within its limits.
pub fn delays_are_one()
    ensures { (timing : Timing) (one other : List Delay) → IsTiming timing → AreDelays timing one → AreDelays timing other →
        list_text one ≡ list_text other → one ≡ other }
{}

/// The told delays are the late notes, and no others.
pub fn told_delays_are_late<State, Note, Fact>()
    ensures { (w : World State Note Fact) (faults : List Parts) (links : Links) (d : Delay) →
        (Contains (told w faults links) d ↔ IsLate w faults links d) }
{}

/// The told delays of a run are delays of its network, and make the same run again: the same views, the same notes, and the same answer to whether
/// the set reaches.
pub fn told_delays_replay<State, Note, Fact>()
    ensures delays { (timing : Timing) (w : World State Note Fact) (faults : List Parts) →
        IsOn timing w → IsAssignment timing w.arrival → AreDelays timing (told w faults timing.links) }
    ensures reaches { (timing : Timing) (w : World State Note Fact) (faults : List Parts) (formula : Formula Fact) →
        IsOn timing w → IsAssignment timing w.arrival →
        reaches (under w (arrival_in (delayed timing (told w faults timing.links)))) faults formula ≡ reaches w faults formula }
    ensures views { (timing : Timing) (w : World State Note Fact) (faults : List Parts) (n t : ℕ) →
        IsOn timing w → IsAssignment timing w.arrival → t ≤ w.horizon →
        view (under w (arrival_in (delayed timing (told w faults timing.links)))) faults n t ≡ view w faults n t }
    ensures notes { (timing : Timing) (w : World State Note Fact) (faults : List Parts) (n m t : ℕ) →
        IsOn timing w → IsAssignment timing w.arrival → t ≤ w.horizon →
        sent (under w (arrival_in (delayed timing (told w faults timing.links)))) faults n m t ≡ sent w faults n m t }
{}

/// Delays of a network by which the set misses, and of which none can be spared, are the late notes of the run that they make, which is tight.
pub fn needed_delays_are_late<State, Note, Fact>()
    ensures late { (timing : Timing) (w : World State Note Fact) (faults : List Parts) (formula : Formula Fact) (ds : List Delay) →
        IsOn timing w → AreDelays timing ds → reaches_by timing w faults formula ds ≡ false → AreNeeded timing w faults formula ds →
        (d : Delay) → (Contains (told (under w (arrival_in (delayed timing ds))) faults timing.links) d ↔ Contains ds d) }
    ensures tight { (timing : Timing) (w : World State Note Fact) (faults : List Parts) (formula : Formula Fact) (ds : List Delay) →
        IsOn timing w → AreDelays timing ds → reaches_by timing w faults formula ds ≡ false → AreNeeded timing w faults formula ds →
        IsTight timing (under w (arrival_in (delayed timing ds))) faults formula }
{}
