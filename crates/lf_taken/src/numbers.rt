//! Which rules a node takes at an event.

ghost use Rattle.std.specs.Prelude.{◌≡◌, ◌+◌, ◌≤◌, ◌++◌, IfOk, Some, length, slice_get, take};
ghost use Rattle.lf_rules.specs.Forms.{rules_in};
ghost use Rattle.lf_rule_machine.specs.Sets.{is_true};
ghost use Rattle.lf_rule_machine.specs.Moments.{seen};
ghost use Rattle.lf_rule_machine.specs.Values.{value_of};
ghost use Rattle.std.specs.List.{fold};
ghost use Rattle.lf_rule_machine.specs.Events.{act};
ghost use Rattle.lf_rule_machine.specs.Choices.{take_at};
ghost use Rattle.lf_taken.specs.Numbers.{number_true, taken_of, taken_at, taken_through, taken_in};

use lf_rule_machine::{Moment, Packet, State, chosen, go_through, value_of};
use lf_rules::{Chain, Definition, Event, Rule};
use lf_sim::Stepped;
use std::alloc::{AllocError, Global};

/// What a node has come to within a step.
pub(crate) type Turn = Stepped<State, Packet>;

/// Takes a node through an event, and adds the numbers of the rules that it takes.
pub(crate) fn act(
    alloc: Global,
    definition: &Definition,
    at: &Moment<'_>,
    event: Event,
    turn: &mut Turn,
    taken: &mut Vec<usize>,
) -> Result<(), AllocError>
    requires few { rules_in definition.now.chains ≤ 128 }
    ensures turn { IfOk result (λ _. turn.new ≡ act definition.now (seen at.now) event turn.old) }
    ensures taken { IfOk result (λ _. taken.new.items ≡ taken.old.items ++ taken_in definition.now (seen at.now) event turn.old) }
{
    let numbers = chosen(alloc, definition, at.nodes, at.me, &at.given_here(), event)?;
    take_all(definition, at, turn, numbers.as_slice(), taken)
}

/// Takes it through the chains that have these numbers, in order.
fn take_all(
    definition: &Definition,
    at: &Moment<'_>,
    turn: &mut Turn,
    numbers: &[usize],
    taken: &mut Vec<usize>,
) -> Result<(), AllocError>
    requires few { rules_in definition.now.chains ≤ 128 }
    ensures turn { IfOk result (λ _. turn.new ≡ fold (take_at definition.now (seen at.now)) turn.old numbers.now) }
    ensures taken { IfOk result (λ _. taken.new.items ≡ taken.old.items ++ taken_through definition.now (seen at.now) turn.old numbers.now) }
{
    for number in numbers {
        push_taken(definition, at, turn, *number, taken)?;
        go_through(definition, at, turn, &[*number]);
    }
    Ok(())
}

/// Adds the number of the rule that is taken of the chain with a number.
fn push_taken(
    definition: &Definition,
    at: &Moment<'_>,
    turn: &Turn,
    number: usize,
    taken: &mut Vec<usize>,
) -> Result<(), AllocError>
    requires few { rules_in definition.now.chains ≤ 128 }
    ensures { IfOk result (λ _. taken.new.items ≡ taken.old.items ++ taken_at definition.now (seen at.now) turn.now number) }
{
    match definition.chains.as_slice().get(number) {
        Some(chain) => push_taken_of(definition, at, turn, number, chain, taken),
        None => Ok(()),
    }
}

/// Adds the number of the rule that is taken of this chain, whose own number is known.
fn push_taken_of(
    definition: &Definition,
    at: &Moment<'_>,
    turn: &Turn,
    number: usize,
    chain: &Chain,
    taken: &mut Vec<usize>,
) -> Result<(), AllocError>
    requires few { rules_in definition.now.chains ≤ 128 }
    requires chain { slice_get definition.now.chains number ≡ Some chain.now }
    ensures { IfOk result (λ _. taken.new.items ≡ taken.old.items ++ taken_of definition.now (seen at.now) turn.now number (Some chain.now)) }
{
    let before = &definition.chains.as_slice()[..number];
    let first = rules_in(before) + 1;
    if let Some(rule) = number_true(definition, at, &turn.state, chain.rules.as_slice(), first) {
        taken.push(rule)?;
    }
    Ok(())
}

/// How many rules chains have in all.
fn rules_in(chains: &[Chain]) -> usize
    requires { rules_in chains.now ≤ 128 }
    ensures { result ≡ rules_in chains.now }
{
    let mut rules = 0;
    for chain in chains {
        rules += chain.rules.len();
    }
    rules
}

/// The number of the first rule whose guard is true, where the first of them all has the number `first`.
fn number_true(
    definition: &Definition,
    at: &Moment<'_>,
    state: &State,
    rules: &[Rule],
    first: usize,
) -> Option<usize>
    requires { first + length rules.now ≤ 129 }
    ensures { result ≡ number_true definition.now (seen at.now) state.now first rules.now }
{
    for (i, rule) in rules.iter().enumerate() {
        if is_guarded(definition, at, state, rule) {
            return Some(first + i);
        }
    }
    None
}

/// Whether a rule's guard is true.
fn is_guarded(definition: &Definition, at: &Moment<'_>, state: &State, rule: &Rule) -> bool
    ensures { result ≡ is_true (value_of definition.now (seen at.now) state.now rule.now.guard) }
{
    value_of(definition, at, state, &rule.guard) != 0
}
