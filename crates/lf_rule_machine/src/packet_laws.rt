//! What packets are in other words: laws, each the contract of a call that computes nothing.

ghost use Rattle.std.specs.Prelude.{◌≡◌, ◌≤◌, ℕ, List, Some, true};
ghost use Rattle.lf_sim.specs.declared.letter.Letter.{Letter};
ghost use Rattle.lf_sim.specs.Outs.{note_to};
ghost use Rattle.lf_rule_machine.specs.declared.state.State.{State};
ghost use Rattle.lf_rule_machine.specs.declared.state.Note.{Note};
ghost use Rattle.lf_rule_machine.specs.declared.state.Packet.{Packet};
ghost use Rattle.lf_rule_machine.specs.Instances.{Instance};
ghost use Rattle.lf_rule_machine.specs.Packets.{IsPacket, among, are_of_other_forms, is_lost_among, packet_with};
ghost use Rattle.lf_rule_machine.specs.Ruleds.{rules_of};
ghost use Rattle.lf_rule_machine.specs.States.{empty, loses, notes_in, packed};
ghost use Rattle.std.specs.Prelude.{length, []};

/// A packet is its notes, in order, each of a form of its own. A note is put among them: in the place of the one of its form, or else behind them, where they
/// are fewer than four.
pub fn packets_are_lists()
    ensures notes { (xs : List Note) → length xs ≤ 4 → notes_in (packet_with xs).notes ≡ xs }
    ensures none { empty ≡ packet_with [] }
    ensures put { (xs : List Note) (note : Note) → length xs ≤ 4 → are_of_other_forms xs ≡ true → packed (packet_with xs) note ≡ packet_with (among xs note) }
    ensures lost { (xs : List Note) (note : Note) → length xs ≤ 4 → are_of_other_forms xs ≡ true → loses (packet_with xs) note ≡ is_lost_among xs note }
{}

/// What a node sends another one in a step is one to four notes, each of a form of its own.
pub fn packets_have_each_form_once()
    ensures { (m : Instance) (node t : ℕ) (state : State) (inbox : List (Letter Packet)) (to : ℕ) (p : Packet) →
        note_to ((rules_of m).step node t state inbox).out to ≡ Some p → IsPacket p }
{}
