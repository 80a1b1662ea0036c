//! The laws at steps that runs have: each call cites a law, and has no premise left.

ghost use Rattle.std.specs.Prelude.{◌≡◌, ◌<◌, ◌+◌, replicate, true, false, [], ◌∷◌, Some};
ghost use Rattle.lf_sim.specs.Outs.{note_to, nothing, to_others};
ghost use Rattle.lf_protocols.specs.declared.note.Note.{Note};
ghost use Rattle.lf_protocols.specs.declared.state.Holding.{Holding};
ghost use Rattle.lf_protocols.specs.declared.state.Phase.{Phase};
ghost use Rattle.lf_protocols.specs.declared.state.Relay.{Relay};
ghost use Rattle.lf_protocols.specs.RetryTable.{retry_start, retry_step};
ghost use Rattle.lf_protocols.specs.RedundantTable.{redundant_start, redundant_step};
ghost use Rattle.lf_protocols.specs.TwoPhaseTable.{two_phase_step};
ghost use Rattle.lf_protocols.specs.ThreePhaseTable.{three_phase_step};
ghost use Rattle.lf_protocols.specs.CommitTable.{commit_start};
ghost use Rattle.lf_protocols.specs.PrimaryBackupTable.{primary_backup_start, primary_backup_step};
ghost use Rattle.lf_protocols.specs.Deliveries.{IsCounted};

use lf_protocols::{
    claims_are_heard, facts_are_opposites, prepared_gives_up, prepared_waits, redundant_delivers,
    retry_delivers,
};

/// Of three nodes and two tries, node 0 sends the data to node 2 at step 2, and node 1 has it at the step that brings it.
fn retry_at_a_step()
    ensures sends { note_to (retry_step 3 2 0 2 (retry_start 0) []).out 2 ≡ Some Note.Payload }
    ensures has { (retry_step 3 2 1 2 (retry_start 1) ((record { from = 0; sent = 1; note = Note.Payload }) ∷ [])).state ≡ Holding.Has }
{
    retry_delivers()
}

/// Of three nodes and two tries, node 1 waits, relays, repeats and stops.
fn redundant_at_a_step()
    ensures waits { redundant_step 3 2 1 (redundant_start 1) [] ≡ record { state = Relay.Lacks; out = nothing } }
    ensures relays { redundant_step 3 2 1 (redundant_start 1) ((record { from = 0; sent = 1; note = Note.Payload }) ∷ [])
        ≡ record { state = Relay.Has 1; out = to_others 3 1 Note.Payload } }
    ensures repeats { redundant_step 3 2 1 (Relay.Has 1) [] ≡ record { state = Relay.Has 2; out = to_others 3 1 Note.Payload } }
    ensures stops { redundant_step 3 2 1 (Relay.Has 2) [] ≡ record { state = Relay.Has 2; out = nothing } }
    ensures counted { IsCounted 2 (redundant_step 3 2 0 (redundant_start 0) []).state }
{
    redundant_delivers()
}

/// Node 1 of two_phase, prepared since step 2, hears nothing at step 48.
fn two_phase_at_a_step()
    ensures { two_phase_step 3 2 (replicate 8 true) 1 48 (record { phase = Phase.Prepared; since = 2 }) []
        ≡ record { state = record { phase = Phase.Prepared; since = 2 }; out = nothing } }
{
    prepared_waits()
}

/// Node 1 of three_phase, asked at step 2, is prepared after it.
fn three_phase_at_a_step()
    ensures { 2 < (three_phase_step 3 2 (replicate 8 true) 1 2 commit_start
        ((record { from = 0; sent = 1; note = Note.Prepare }) ∷ [])).state.since + 2 }
{
    prepared_gives_up()
}

/// Node 2 of primary_backup hears a claim.
fn primary_backup_at_a_step()
    ensures { (primary_backup_step 3 2 2 9 (primary_backup_start 2) ((record { from = 1; sent = 8; note = Note.Claim }) ∷ [])).state.claimed ≡ true }
{
    claims_are_heard()
}

#[test]
fn laws_have_their_premises_met(_rt: HostRuntime) {
    retry_at_a_step();
    redundant_at_a_step();
    two_phase_at_a_step();
    three_phase_at_a_step();
    primary_backup_at_a_step();
    facts_are_opposites();
}
