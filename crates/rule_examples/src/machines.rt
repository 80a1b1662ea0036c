//! Which machines there are, what their constants are at each node, and what they start from.

use crate::build::{
    chain, constant, definition, form, leaf, letter, machine, more, note, number, one, only, plain,
    rule, set, state, yes,
};
use lf_list::Listed;
use lf_rule_machine::{Fact, Ruled, State, Told};
use lf_rules::{Chain, Constant, Definition, Event, Given, Kind, Leaf, Sort, Value};
use lf_sim::Machine;
use std::alloc::{AllocError, Global};

/// A chain of some nodes that sets the one variable to a value.
fn setting(alloc: Global, who: Leaf, on: Event, value: Leaf) -> Result<Chain, AllocError> {
    let sets = one(alloc, set(0, leaf(value)));
    let setting = rule(yes(), sets, Ok(Vec::new(alloc)));
    chain(leaf(who), on, one(alloc, setting))
}

fn with_constants(
    definition: Result<Definition, AllocError>,
    constants: Result<Vec<Constant>, AllocError>,
) -> Result<Definition, AllocError> {
    let mut definition = definition?;
    let constants = Listed::from_vec(constants?);
    definition.given = constants;
    Ok(definition)
}

/// The machine in which each node that begins a step keeps its value of the one constant.
fn keeping(alloc: Global, nodes: u32, given: &[Given]) -> Option<Ruled> {
    let chains = one(
        alloc,
        setting(alloc, Leaf::All, Event::Begin, Leaf::Given(0)),
    );
    let variables = one(alloc, plain(alloc, Kind::UpTo(255)));
    let bare = definition(alloc, variables, Ok(Vec::new(alloc)), chains);
    let constants = one(alloc, constant(alloc, Sort::Number, Ok(Value::Number(4))));
    machine(alloc, with_constants(bare, constants), nodes, given)
}

/// The list 5, 6, 7.
fn listed(alloc: Global) -> Result<Given, AllocError> {
    let mut values = Vec::new(alloc);
    for number in 5..8 {
        values.push(Value::Number(number))?;
    }
    Ok(Given::Each(Listed::from_vec(values)))
}

/// Whether there is a machine among so many nodes with this value of its constant.
fn is_made(alloc: Global, nodes: u32, given: Result<Given, AllocError>) -> bool {
    match one(alloc, given) {
        Ok(given) => keeping(alloc, nodes, given.as_slice()).is_some(),
        Err(_) => false,
    }
}

/// Whether a node that begins a step comes to this value.
fn begins_with(machine: &Ruled, node: u32, value: u8) -> bool {
    machine.begin(node, 1, State::zeros()).state == state([value, 0, 0, 0])
}

/// Whether each node reads its own item of a list.
fn reads_its_item(alloc: Global) -> bool {
    match one(alloc, listed(alloc)) {
        Ok(given) => match keeping(alloc, 3, given.as_slice()) {
            Some(machine) => {
                begins_with(&machine, 0, 5)
                    && begins_with(&machine, 1, 6)
                    && begins_with(&machine, 2, 7)
            }
            None => false,
        },
        Err(_) => false,
    }
}

#[test]
fn constants_are_given(rt: HostRuntime) {
    let alloc = rt.alloc();
    let four = || Ok(Given::One(Value::Number(4)));
    assert!(rt; reads_its_item(alloc));
    assert!(rt; is_made(alloc, 2, four()) && is_made(alloc, 8, four()));
    assert!(rt; !is_made(alloc, 1, four()) && !is_made(alloc, 9, four()));
    assert!(rt; is_made(alloc, 3, listed(alloc)) && !is_made(alloc, 4, listed(alloc)));
    assert!(rt; !is_made(alloc, 3, Ok(Given::One(Value::Truth(true)))));
    assert!(rt; keeping(alloc, 3, &[]).is_none());
}

/// The machine in which node 1 starts with 4, and every node takes the sender of any note with the form 0.
fn starting(alloc: Global) -> Option<Ruled> {
    let start = chain(
        only(alloc, 1),
        Event::Start,
        one(
            alloc,
            rule(yes(), one(alloc, set(0, number(4))), Ok(Vec::new(alloc))),
        ),
    );
    let heard = setting(alloc, Leaf::All, Event::Note(0), Leaf::Sender);
    let variables = one(alloc, plain(alloc, Kind::UpTo(255)));
    let notes = one(alloc, form(alloc, Ok(Vec::new(alloc))));
    let chains = more(one(alloc, start), heard);
    machine(alloc, definition(alloc, variables, notes, chains), 3, &[])
}

/// Whether node 1 alone starts with 4, and shows that it isn't 0.
fn starts(machine: &Ruled) -> bool {
    let set = Fact {
        told: Told::Flag(0),
        denied: false,
    };
    machine.nodes() == 3
        && machine.start(1) == state([4, 0, 0, 0])
        && machine.start(2) == State::zeros()
        && machine.shows(1, machine.start(1), set)
        && !machine.shows(2, machine.start(2), set)
}

/// Whether letters are heard in order, and one whose form there isn't changes nothing.
fn hears(machine: &Ruled) -> bool {
    let _nodes = machine.nodes();
    let inbox = [letter(2, 0, 0), letter(0, 0, 0), letter(2, 200, 0)];
    let step = machine.step(1, 1, state([4, 0, 0, 0]), &inbox);
    let other = machine.step(1, 1, state([4, 0, 0, 0]), &[letter(2, 200, 0)]);
    step.state == State::zeros()
        && other.state == state([4, 0, 0, 0])
        && other.out.to(0) != Some(note(0, 0))
}

#[test]
fn starts_and_letters(rt: HostRuntime) {
    let holds = match starting(rt.alloc()) {
        Some(machine) => starts(&machine) && hears(&machine),
        None => false,
    };
    assert!(rt; holds);
}
