//! Where no packet has notes of two forms, the meaning is that of a node that sends another one a single note in a step: laws, each the contract of a call
//! that computes nothing.

ghost use Rattle.std.specs.Prelude.{◌≡◌, ℕ, ◌≤◌, true, false, List, length, map};
ghost use Rattle.std.specs.Option.{option_map};
ghost use Rattle.lf_faults.specs.declared.fault.Parts.{Parts};
ghost use Rattle.lf_sim.specs.declared.letter.Letter.{Letter};
ghost use Rattle.lf_sim.specs.Runs.{World, is_up, view, sent, inbox};
ghost use Rattle.lf_rule_machine.specs.declared.state.State.{State};
ghost use Rattle.lf_rule_machine.specs.declared.state.Note.{Note};
ghost use Rattle.lf_rule_machine.specs.declared.state.Packet.{Packet};
ghost use Rattle.lf_rule_machine.specs.declared.fact.Fact.{Fact};
ghost use Rattle.lf_rules.specs.Forms.{is_well_formed};
ghost use Rattle.lf_rule_machine.specs.Instances.{Instance};
ghost use Rattle.lf_rule_machine.specs.Ruleds.{rules_of};
ghost use Rattle.lf_rule_machine.specs.Singles.{rules_of_notes};
ghost use Rattle.lf_rule_machine.specs.SingleRuns.{AreSingles, IsSingleRun, single, letter_in_packet, in_packets, world_of_notes};

/// A step that hears notes in packets of one note each, and sends no other packets, is that of a node that hears these notes and sends single notes: it comes
/// to the same state, and sends the same notes.
pub fn steps_with_single_notes()
    ensures { (m : Instance) (node t : ℕ) (state : State) (inbox : List (Letter Note)) →
        AreSingles ((rules_of m).step node t state (map letter_in_packet inbox)).out →
        (rules_of m).step node t state (map letter_in_packet inbox) ≡ in_packets ((rules_of_notes m).step node t state inbox) }
{}

/// A run in which each packet that a node sends has one note is the run in which nodes send each other single notes, on the same network, up to the same step
/// and under the same faults: each node is up at the same steps, has the same view after each, sends the same notes, hears the same letters, and shows the
/// same.
pub fn runs_with_single_notes()
    ensures up { (m : Instance) (w : World State Packet Fact) (faults : List Parts) → IsSingleRun m w faults → (node t : ℕ) →
        is_up w faults node t ≡ is_up (world_of_notes m w) faults node t }
    ensures views { (m : Instance) (w : World State Packet Fact) (faults : List Parts) → IsSingleRun m w faults → (node t : ℕ) →
        view w faults node t ≡ view (world_of_notes m w) faults node t }
    ensures sent { (m : Instance) (w : World State Packet Fact) (faults : List Parts) → IsSingleRun m w faults → (node to t : ℕ) →
        sent w faults node to t ≡ option_map single (sent (world_of_notes m w) faults node to t) }
    ensures letters { (m : Instance) (w : World State Packet Fact) (faults : List Parts) → IsSingleRun m w faults → (node t : ℕ) →
        inbox w faults node t ≡ map letter_in_packet (inbox (world_of_notes m w) faults node t) }
    ensures shown { (m : Instance) (w : World State Packet Fact) (faults : List Parts) → IsSingleRun m w faults → (node t : ℕ) (fact : Fact) →
        w.rules.shows node (view w faults node t) fact
        ≡ (world_of_notes m w).rules.shows node (view (world_of_notes m w) faults node t) fact }
{}

/// Where there is but one form of notes, each run sends packets of one note each.
pub fn one_form_sends_single_notes()
    ensures { (m : Instance) (w : World State Packet Fact) (faults : List Parts) → is_well_formed m.definition ≡ true →
        length m.definition.notes ≤ 1 → w.rules ≡ rules_of m → IsSingleRun m w faults }
{}

/// Where no node ever comes to a view that remembers a replaced note, in the run in which nodes send each other single notes, each packet has one note.
pub fn kept_notes_are_single()
    ensures { (m : Instance) (w : World State Packet Fact) (faults : List Parts) → is_well_formed m.definition ≡ true → w.rules ≡ rules_of m →
        ((node t : ℕ) → (view (world_of_notes m w) faults node t).replaced ≡ false) → IsSingleRun m w faults }
{}
