//! What the tables say, with no walk through an inbox: calls that compute nothing, whose
//! contracts are the laws.

ghost use Rattle.std.specs.Prelude.{◌≡◌, ◌≢◌, ◌⊎◌, ◌↔◌, ℕ, ◌+◌, ◌<◌, ◌≤◌, not, Bool, true, List, Some};
ghost use Rattle.lf_sim.specs.declared.letter.Letter.{Letter};
ghost use Rattle.lf_sim.specs.Outs.{note_to, nothing, to_others};
ghost use Rattle.lf_protocols.specs.declared.state.State.{State};
ghost use Rattle.lf_protocols.specs.declared.state.Holding.{Holding};
ghost use Rattle.lf_protocols.specs.declared.state.Relay.{Relay};
ghost use Rattle.lf_protocols.specs.declared.note.Note.{Note};
ghost use Rattle.lf_protocols.specs.declared.fact.Fact.{Fact};
ghost use Rattle.lf_protocols.specs.RetryTable.{retry_step};
ghost use Rattle.lf_protocols.specs.RedundantTable.{redundant_step};
ghost use Rattle.lf_protocols.specs.declared.state.Phase.{Phase};
ghost use Rattle.lf_protocols.specs.declared.state.Replica.{Replica};
ghost use Rattle.lf_protocols.specs.TwoPhaseTable.{two_phase_step};
ghost use Rattle.lf_protocols.specs.declared.state.Progress.{Progress};
ghost use Rattle.lf_protocols.specs.ThreePhaseTable.{three_phase_step};
ghost use Rattle.lf_protocols.specs.PrimaryBackupTable.{primary_backup_step};
ghost use Rattle.lf_protocols.specs.Letters.{Brings};
ghost use Rattle.lf_protocols.specs.Deliveries.{BringsData, IsCounted};
ghost use Rattle.lf_protocols.specs.Protocols.{state_shows};

/// Who has the data in retry, and who sends it when.
pub fn retry_delivers()
    // A node has the data after a step where it had it before, or a letter brings it.
    ensures has { (nodes tries node t : ℕ) (before : Holding) (inbox : List (Letter Note)) →
        ((retry_step nodes tries node t before inbox).state ≡ Holding.Has)
        ↔ ((before ≡ Holding.Has) ⊎ BringsData inbox) }

    // Node 0 alone sends, to each other node, at each step that is at most `tries`.
    ensures sends { (nodes tries node t to : ℕ) (before : Holding) (inbox : List (Letter Note)) → nodes ≤ 8 →
        (note_to (retry_step nodes tries node t before inbox).out to ≡ Some Note.Payload)
        ↔ ((node ≡ 0) × (t ≤ tries) × (to < nodes) × (to ≢ node)) }
{}

/// What a node of redundant does, from what it has and what its letters bring.
pub fn redundant_delivers()
    // One that lacks the data and gets it has sent it already at the end of that step.
    ensures relays { (nodes tries node : ℕ) (inbox : List (Letter Note)) → 1 ≤ tries → BringsData inbox →
        redundant_step nodes tries node Relay.Lacks inbox
        ≡ record { state = Relay.Has 1; out = to_others nodes node Note.Payload } }
    ensures waits { (nodes tries node : ℕ) (inbox : List (Letter Note)) → ¬ BringsData inbox →
        redundant_step nodes tries node Relay.Lacks inbox ≡ record { state = Relay.Lacks; out = nothing } }

    // One that has it sends it, whatever its letters, until it has sent at `tries` steps.
    ensures repeats { (nodes tries node sent : ℕ) (inbox : List (Letter Note)) → sent < tries →
        redundant_step nodes tries node (Relay.Has sent) inbox
        ≡ record { state = Relay.Has (sent + 1); out = to_others nodes node Note.Payload } }
    ensures stops { (nodes tries node sent : ℕ) (inbox : List (Letter Note)) → tries ≤ sent →
        redundant_step nodes tries node (Relay.Has sent) inbox
        ≡ record { state = Relay.Has sent; out = nothing } }

    // So no node sends at more than `tries` steps.
    ensures counted { (nodes tries node : ℕ) (before : Relay) (inbox : List (Letter Note)) →
        IsCounted tries before → IsCounted tries (redundant_step nodes tries node before inbox).state }
{}

/// Why two_phase blocks: a participant that has voted yes keeps its state and sends nothing, however late it is, until
/// a letter tells it of a decision.
pub fn prepared_waits()
    ensures { (nodes patience node t since : ℕ) (votes : List Bool) (inbox : List (Letter Note)) → node ≢ 0 →
        ¬ Brings Note.Commit inbox → ¬ Brings Note.Abort inbox →
        two_phase_step nodes patience votes node t (record { phase = Phase.Prepared; since = since }) inbox
        ≡ record { state = record { phase = Phase.Prepared; since = since }; out = nothing } }
{}

/// Why three_phase doesn't: a participant is prepared after a step only where it has waited for fewer than `patience`
/// steps.
pub fn prepared_gives_up()
    ensures { (nodes patience node t : ℕ) (votes : List Bool) (before : Progress) (inbox : List (Letter Note)) → node ≢ 0 →
        (three_phase_step nodes patience votes node t before inbox).state.phase ≡ Phase.Prepared →
        t < (three_phase_step nodes patience votes node t before inbox).state.since + patience }
{}

/// Which nodes of primary_backup know of a claim: of those from 2 on, the ones to which a letter has brought it.
pub fn claims_are_heard()
    ensures { (nodes patience node t : ℕ) (before : Replica) (inbox : List (Letter Note)) → 2 ≤ node →
        ((primary_backup_step nodes patience node t before inbox).state.claimed ≡ true)
        ↔ ((before.claimed ≡ true) ⊎ Brings Note.Claim inbox) }
{}

/// Each state shows one of two opposites.
pub fn facts_are_opposites()
    ensures data { (state : State) → state_shows state Fact.Lacks ≡ not (state_shows state Fact.Has) }
    ensures commit { (state : State) → state_shows state Fact.NotCommitted ≡ not (state_shows state Fact.Committed) }
    ensures abort { (state : State) → state_shows state Fact.NotAborted ≡ not (state_shows state Fact.Aborted) }
    ensures block { (state : State) → state_shows state Fact.Free ≡ not (state_shows state Fact.Blocked) }
    ensures write { (state : State) → state_shows state Fact.Empty ≡ not (state_shows state Fact.Holds) }
    ensures answer { (state : State) → state_shows state Fact.NotDone ≡ not (state_shows state Fact.Done) }
    ensures leads { (state : State) → state_shows state Fact.Backup ≡ not (state_shows state Fact.Primary) }
    ensures claim { (state : State) → state_shows state Fact.Unclaimed ≡ not (state_shows state Fact.Claimed) }
{}
