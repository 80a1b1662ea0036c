//! What a node does with the rules that it goes through.

ghost use Rattle.std.specs.Prelude.{◌≡◌};
ghost use Rattle.std.specs.List.{fold};
ghost use Rattle.std.specs.Option.{option_map};
ghost use Rattle.lf_rule_machine.specs.Sets.{is_true};
ghost use Rattle.lf_rule_machine.specs.Values.{value_of};
ghost use Rattle.lf_rule_machine.specs.Moments.{seen};
ghost use Rattle.lf_rule_machine.specs.Events.{do_rule, first_true, take_first};
ghost use Rattle.lf_rule_machine.specs.Choices.{take_at};

use crate::assigning::assign_all;
use crate::sending::send_all;
use crate::{Moment, Packet, State, value_of};
use lf_rules::{Definition, Rule};
use lf_sim::Stepped;

/// Takes a node through the chains that have these numbers, in order.
pub fn go_through(
    definition: &Definition,
    at: &Moment<'_>,
    turn: &mut Stepped<State, Packet>,
    numbers: &[usize],
)
    ensures { turn.new ≡ fold (take_at definition.now (seen at.now)) turn.old numbers.now }
{
    for number in numbers {
        take_at(definition, at, turn, *number);
    }
}

/// Takes it through the chain that has a number.
fn take_at(
    definition: &Definition,
    at: &Moment<'_>,
    turn: &mut Stepped<State, Packet>,
    number: usize,
)
    ensures { turn.new ≡ take_at definition.now (seen at.now) turn.old number }
{
    match definition.chains.as_slice().get(number) {
        Some(chain) => take_first(definition, at, turn, chain.rules.as_slice()),
        None => {}
    }
}

/// Takes the first rule whose guard is true.
fn take_first(
    definition: &Definition,
    at: &Moment<'_>,
    turn: &mut Stepped<State, Packet>,
    rules: &[Rule],
)
    ensures { turn.new ≡ take_first definition.now (seen at.now) turn.old rules.now }
{
    match first_true(definition, at, &turn.state, rules) {
        Some(rule) => do_rule(definition, at, turn, rule),
        None => {}
    }
}

/// The first rule whose guard is true.
fn first_true<'a>(
    definition: &Definition,
    at: &Moment<'_>,
    state: &State,
    rules: &'a [Rule],
) -> Option<&'a Rule>
    ensures { option_map (λ rule. rule.now) result ≡ first_true definition.now (seen at.now) state.now rules.now }
{
    for rule in rules {
        if is_guarded(definition, at, state, rule) {
            return Some(rule);
        }
    }
    None
}

/// Whether a rule's guard is true.
fn is_guarded(definition: &Definition, at: &Moment<'_>, state: &State, rule: &Rule) -> bool
    ensures { result ≡ is_true (value_of definition.now (seen at.now) state.now rule.now.guard) }
{
    value_of(definition, at, state, &rule.guard) != 0
}

/// Does what a rule says: its assignments, and then its sends.
fn do_rule(definition: &Definition, at: &Moment<'_>, turn: &mut Stepped<State, Packet>, rule: &Rule)
    ensures { turn.new ≡ do_rule definition.now (seen at.now) turn.old rule.now }
{
    assign_all(definition, at, &mut turn.state, rule.sets.as_slice());
    send_all(definition, at, turn, rule.sends.as_slice());
}
