//! Which chains of rules a node goes through.

ghost use Rattle.std.specs.Prelude.{◌≡◌, IfOk};
ghost use Rattle.lf_rule_machine.specs.Events.{same_event, is_passed};
ghost use Rattle.lf_rule_machine.specs.Choices.{chosen};

use crate::{fixed_value, sets};
use lf_rules::{Chain, Definition, Event};
use std::alloc::{AllocError, Global};

/// The numbers of the chains that a node goes through at an event, in order.
pub fn chosen(
    alloc: Global,
    definition: &Definition,
    nodes: u32,
    me: u32,
    given: &[u8; 16],
    event: Event,
) -> Result<Vec<usize>, AllocError>
    ensures { IfOk result (λ numbers. numbers.items ≡ chosen definition.now nodes me given.now event) }
{
    let mut numbers = Vec::new(alloc);
    for (i, chain) in definition.chains.as_slice().iter().enumerate() {
        if is_passed(nodes, me, given, event, chain) {
            numbers.push(i)?;
        }
    }
    Ok(numbers)
}

/// Whether a node goes through a chain at an event.
fn is_passed(nodes: u32, me: u32, given: &[u8; 16], event: Event, chain: &Chain) -> bool
    ensures { result ≡ is_passed nodes me given.now event chain.now }
{
    same_event(chain.on, event) && sets::has(fixed_value(nodes, given, &chain.who), u64::from(me))
}

/// Whether two events are the same.
fn same_event(one: Event, other: Event) -> bool
    ensures { result ≡ same_event one other }
{
    match (one, other) {
        (Event::Start, Event::Start) => true,
        (Event::Wake, Event::Wake) => true,
        (Event::Begin, Event::Begin) => true,
        (Event::Note(form), Event::Note(heard)) => form == heard,
        (Event::End, Event::End) => true,
        _ => false,
    }
}
