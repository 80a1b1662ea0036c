//! What the definitions mean in other words: laws, each the contract of a call that computes nothing.

ghost use Rattle.std.specs.Prelude.{◌≡◌, ℕ, List, true};
ghost use Rattle.std.specs.List.{fold};
ghost use Rattle.lf_sim.specs.declared.letter.Letter.{Letter};
ghost use Rattle.lf_rules.specs.Forms.{is_well_formed};
ghost use Rattle.lf_rule_machine.specs.declared.state.State.{State};
ghost use Rattle.lf_rule_machine.specs.declared.state.Packet.{Packet};
ghost use Rattle.lf_rule_machine.specs.Instances.{Instance};
ghost use Rattle.lf_rule_machine.specs.Machines.{begin_of, hear_of, end_of};
ghost use Rattle.lf_rule_machine.specs.Ranges.{IsInRange};
ghost use Rattle.lf_rule_machine.specs.Ruleds.{rules_of};

/// A step is what a node does before its inbox, with each letter in inbox order, and after its inbox.
pub fn steps_are_folds()
    ensures { (m : Instance) (node t : ℕ) (state : State) (inbox : List (Letter Packet)) →
        (rules_of m).step node t state inbox ≡ end_of m.definition m.nodes m.given node t
        (fold (hear_of m.definition m.nodes m.given node t)
        (begin_of m.definition m.nodes m.given node t state) inbox) }
{}

/// Where a definition is well formed, as that of each machine of rules is, no cell has a value past the greatest of its kind, whatever the letters: none has at
/// the start, and steps and waking keep it so.
pub fn values_are_of_their_kinds()
    ensures start { (m : Instance) (node : ℕ) → is_well_formed m.definition ≡ true → IsInRange m.definition ((rules_of m).start node) }
    ensures step { (m : Instance) (node t : ℕ) (state : State) (inbox : List (Letter Packet)) → is_well_formed m.definition ≡ true →
        IsInRange m.definition state →
        IsInRange m.definition ((rules_of m).step node t state inbox).state }
    ensures wake { (m : Instance) (node t : ℕ) (state : State) → is_well_formed m.definition ≡ true → IsInRange m.definition state →
        IsInRange m.definition ((rules_of m).wake node t state) }
{}
