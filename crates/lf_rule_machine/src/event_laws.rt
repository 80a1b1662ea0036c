//! What the definitions mean in other words: laws, each the contract of a call that computes nothing.

ghost use Rattle.std.specs.Prelude.{◌≡◌, List, true};
ghost use Rattle.std.specs.List.{fold};
ghost use Rattle.lf_sim.specs.declared.out.Stepped.{Stepped};
ghost use Rattle.lf_rules.specs.declared.rule.Rule.{Rule};
ghost use Rattle.lf_rules.specs.declared.rule.Event.{Event};
ghost use Rattle.lf_rules.specs.declared.definition.Definition.{Definition};
ghost use Rattle.lf_rules.specs.Forms.{is_well_formed};
ghost use Rattle.lf_rule_machine.specs.Moments.{Moment, given_here};
ghost use Rattle.lf_rule_machine.specs.declared.state.State.{State};
ghost use Rattle.lf_rule_machine.specs.declared.state.Packet.{Packet};
ghost use Rattle.lf_rule_machine.specs.Events.{take_first, act};
ghost use Rattle.lf_rule_machine.specs.Choices.{chosen, take_at};
ghost use Rattle.lf_rule_machine.specs.Readings.{flagged, untaken};
ghost use Rattle.lf_rule_machine.specs.Ranges.{IsInRange};

/// A rule of a chain is taken where its guard is true and no rule of its chain was taken at this event.
pub fn chains_by_what_was_taken()
    ensures { (d : Definition) (at : Moment) (turn : Stepped State Packet) (rules : List Rule) →
        take_first d at turn rules ≡ (fold (flagged d at) (untaken turn) rules).turn }
{}

/// What a node does at an event is what it does with the chains that it goes through at it.
pub fn chosen_chains_are_all()
    ensures { (d : Definition) (at : Moment) (event : Event) (turn : Stepped State Packet) →
        fold (take_at d at) turn (chosen d at.nodes at.me (given_here at) event) ≡ act d at event turn }
{}

/// Where a definition is well formed, no event takes a cell's value past the greatest of its kind.
pub fn events_keep_ranges()
    ensures { (d : Definition) (at : Moment) (event : Event) (turn : Stepped State Packet) → is_well_formed d ≡ true →
        IsInRange d turn.state → IsInRange d (act d at event turn).state }
{}
