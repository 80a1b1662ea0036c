//! What is told of rules, in other words: a law, the contract of a call that computes nothing.

ghost use Rattle.std.specs.Prelude.{◌≡◌};
ghost use Rattle.std.specs.List.{fold};
ghost use Rattle.lf_sim.specs.declared.out.Stepped.{Stepped};
ghost use Rattle.lf_rules.specs.declared.rule.Event.{Event};
ghost use Rattle.lf_rules.specs.declared.definition.Definition.{Definition};
ghost use Rattle.lf_rule_machine.specs.Moments.{Moment};
ghost use Rattle.lf_rule_machine.specs.declared.state.State.{State};
ghost use Rattle.lf_rule_machine.specs.declared.state.Packet.{Packet};
ghost use Rattle.lf_rule_machine.specs.Events.{act};
ghost use Rattle.lf_taken.specs.Numbers.{taken_in};
ghost use Rattle.lf_taken.specs.Readings.{do_number};

/// What a node does at an event is what the rules do whose numbers are told, one after another and nothing else.
pub fn told_rules_are_done()
    ensures { (d : Definition) (at : Moment) (event : Event) (turn : Stepped State Packet) →
        fold (do_number d at) turn (taken_in d at event turn) ≡ act d at event turn }
{}
