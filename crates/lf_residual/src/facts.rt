//! What lasts in runs.

ghost use Rattle.std.specs.Prelude.{◌≡◌, ℕ, ◌≤◌, true, List};
ghost use Rattle.lf_faults.specs.declared.fault.Parts.{Parts};
ghost use Rattle.lf_sim.specs.Runs.{is_up, view};
ghost use Rattle.lf_protocols.specs.declared.fact.Fact.{Fact};
ghost use Rattle.lf_protocols.specs.declared.protocol.Kind.{Kind};
ghost use Rattle.lf_protocols.specs.declared.state.State.{State};
ghost use Rattle.lf_protocols.specs.Protocols.{shows_of};
ghost use Rattle.lf_outcome.specs.Truth.{is_shown};
ghost use Rattle.lf_residual.specs.Lasting.{lasts_of, world_with};

/// What lasts: whoever shows it once shows it at every later step at which it is up. So it is for each shipped
/// protocol, however long its run and its pauses are, whenever its notes arrive, and whatever the faults.
pub fn shown_once_shown_later()
    // A state shows the facts that last in it.
    ensures shows { (k : Kind) (n : ℕ) (state : State) (fact : Fact) →
        lasts_of k state fact ≡ true → shows_of k n state fact ≡ true }

    // A fact that lasts in a node's view lasts in each later view of it.
    ensures lasts { (k : Kind) (horizon pause_length : ℕ) (arrival : ℕ → ℕ → ℕ → ℕ) (faults : List Parts) (n t u : ℕ) (fact : Fact) →
        t ≤ u → lasts_of k (view (world_with k horizon pause_length arrival) faults n t) fact ≡ true →
        lasts_of k (view (world_with k horizon pause_length arrival) faults n u) fact ≡ true }

    // So the node shows it at each later step at which it is up.
    ensures shown { (k : Kind) (horizon pause_length : ℕ) (arrival : ℕ → ℕ → ℕ → ℕ) (faults : List Parts) (n t u : ℕ) (fact : Fact) →
        t ≤ u → lasts_of k (view (world_with k horizon pause_length arrival) faults n t) fact ≡ true →
        is_up (world_with k horizon pause_length arrival) faults n u ≡ true →
        is_shown (world_with k horizon pause_length arrival) faults n u fact ≡ true }
{}
