//! Small protocols at one event or step of node 1 of three.

use crate::build::{
    Made, and, binary, chain, definition, equal, expr, form, leaf, letter, machine, more, note,
    number, one, only, packet, plain, rule, send, send_with, set, state, unary, variable, yes,
};
use lf_rule_machine::{Packet, Ruled, State};
use lf_rules::{
    Assignment, Binary, Chain, Event, Kind, Leaf, NoteForm, Rule, Send, Unary, Variable,
};
use lf_sim::{Machine, Stepped};
use std::alloc::{AllocError, Global};

/// A number up to 9, a set, a flag, and a number up to 255.
const TERM: u8 = 0;

const VOTED: u8 = 1;

const FLAG: u8 = 2;

const WIDE: u8 = 3;

/// A note with a number up to 9, and one without fields.
const ASK: u8 = 0;

const BEAT: u8 = 1;

fn variables(alloc: Global) -> Result<Vec<Variable>, AllocError> {
    let first = one(alloc, plain(alloc, Kind::UpTo(9)));
    let second = more(first, plain(alloc, Kind::Nodes));
    let third = more(second, plain(alloc, Kind::Flag));
    more(third, plain(alloc, Kind::UpTo(255)))
}

fn notes(alloc: Global) -> Result<Vec<NoteForm>, AllocError> {
    let first = one(alloc, form(alloc, one(alloc, Ok(Kind::UpTo(9)))));
    more(first, form(alloc, Ok(Vec::new(alloc))))
}

/// The protocol with these chains.
fn protocol(alloc: Global, chains: Result<Vec<Chain>, AllocError>) -> Option<Ruled> {
    machine(
        alloc,
        definition(alloc, variables(alloc), notes(alloc), chains),
        3,
        &[],
    )
}

/// A rule of all nodes that only sets a variable.
fn sets(alloc: Global, guard: Made, variable: u8, value: Made) -> Result<Rule, AllocError> {
    rule(guard, one(alloc, set(variable, value)), Ok(Vec::new(alloc)))
}

/// A chain of all nodes with one rule.
fn alone(alloc: Global, on: Event, rule: Result<Rule, AllocError>) -> Result<Chain, AllocError> {
    chain(leaf(Leaf::All), on, one(alloc, rule))
}

/// What node 1 comes to at step 2 from a state, with these letters.
fn stepped(
    machine: Option<Ruled>,
    from: State,
    inbox: &[lf_sim::Letter<Packet>],
) -> Option<Stepped<State, Packet>> {
    match machine {
        Some(machine) => Some(machine.step(1, 2, from, inbox)),
        None => None,
    }
}

/// Whether it comes to these values, neither clamped nor replaced.
fn comes_to(turn: Option<Stepped<State, Packet>>, values: [u8; 4]) -> bool {
    match turn {
        Some(turn) => turn.state == state(values),
        None => false,
    }
}

/// Raft's answer to a vote that is asked for: step down first, then handle.
fn steps_down_first(alloc: Global) -> bool {
    let newer = binary(alloc, Binary::Less, variable(TERM), leaf(Leaf::Field(0)));
    let down = more(
        one(alloc, set(TERM, leaf(Leaf::Field(0)))),
        set(VOTED, leaf(Leaf::Empty)),
    );
    let first = rule(newer, down, Ok(Vec::new(alloc)));
    let free = equal(alloc, variable(VOTED), leaf(Leaf::Empty));
    let same = equal(alloc, leaf(Leaf::Field(0)), variable(TERM));
    let sender = unary(alloc, Unary::Only, leaf(Leaf::Sender));
    let answer = send_with(ASK, one(alloc, expr(variable(TERM))), sender);
    let voted = unary(alloc, Unary::Only, leaf(Leaf::Sender));
    let second = rule(
        and(alloc, same, free),
        one(alloc, set(VOTED, voted)),
        one(alloc, answer),
    );
    let on = Event::Note(ASK);
    let chains = more(
        one(alloc, alone(alloc, on, first)),
        alone(alloc, on, second),
    );
    let turn = stepped(
        protocol(alloc, chains),
        state([3, 1, 0, 0]),
        &[letter(2, ASK, 5)],
    );
    let told = match turn {
        Some(turn) => turn.out.to(2) == Some(note(ASK, 5)) && turn.out.to(0).is_none(),
        None => false,
    };
    told && comes_to(turn, [5, 4, 0, 0])
}

/// Of a chain of three rules the second is taken, and no other.
fn second_of_three(alloc: Global) -> bool {
    let first = sets(alloc, leaf(Leaf::Truth(false)), TERM, number(1));
    let second = sets(alloc, yes(), TERM, number(2));
    let third = sets(alloc, yes(), WIDE, number(3));
    let rules = more(more(one(alloc, first), second), third);
    let chains = one(alloc, chain(leaf(Leaf::All), Event::Begin, rules));
    comes_to(
        stepped(protocol(alloc, chains), State::zeros(), &[]),
        [2, 0, 0, 0],
    )
}

/// A rule without `else` begins a chain: it is taken though the one above it was.
fn next_chain(alloc: Global) -> bool {
    let first = alone(alloc, Event::Begin, sets(alloc, yes(), TERM, number(2)));
    let saw = equal(alloc, variable(TERM), number(2));
    let second = alone(alloc, Event::Begin, sets(alloc, saw, WIDE, number(3)));
    let chains = more(one(alloc, first), second);
    comes_to(
        stepped(protocol(alloc, chains), State::zeros(), &[]),
        [2, 0, 0, 3],
    )
}

/// The value of a number at node 1, step 2, from zeros.
fn worth(alloc: Global, value: Made, expected: u8) -> bool {
    let chains = one(
        alloc,
        alone(alloc, Event::Begin, sets(alloc, yes(), WIDE, value)),
    );
    comes_to(
        stepped(protocol(alloc, chains), State::zeros(), &[]),
        [0, 0, 0, expected],
    )
}

/// The value of a truth there.
fn is_so(alloc: Global, value: Made, expected: bool) -> bool {
    let chains = one(
        alloc,
        alone(alloc, Event::Begin, sets(alloc, yes(), FLAG, value)),
    );
    let flag = if expected { 1 } else { 0 };
    comes_to(
        stepped(protocol(alloc, chains), State::zeros(), &[]),
        [0, 0, flag, 0],
    )
}

/// The set of two nodes.
fn pair(alloc: Global, one: u8, other: u8) -> Made {
    binary(alloc, Binary::Union, only(alloc, one), only(alloc, other))
}

/// A value past its range becomes the greatest, and is remembered.
fn clamps(alloc: Global) -> bool {
    let more_than_nine = binary(alloc, Binary::Add, number(9), number(1));
    let chains = one(
        alloc,
        alone(
            alloc,
            Event::Begin,
            sets(alloc, yes(), TERM, more_than_nine),
        ),
    );
    match stepped(protocol(alloc, chains), State::zeros(), &[]) {
        Some(turn) => turn.state.values[0] == 9 && turn.state.clamped && !turn.state.replaced,
        None => false,
    }
}

/// A note with a number, to a set.
fn asks(alloc: Global, term: u8, to: Made) -> Result<Send, AllocError> {
    send_with(ASK, one(alloc, expr(number(term))), to)
}

/// A rule that sends a note to a set at an event.
fn sends(alloc: Global, on: Event, message: Result<Send, AllocError>) -> Result<Chain, AllocError> {
    let none: Vec<Assignment> = Vec::new(alloc);
    alone(alloc, on, rule(yes(), Ok(none), one(alloc, message)))
}

/// Notes of two forms go together; a set that has the node itself sends it nothing.
fn joins(alloc: Global) -> bool {
    let first = sends(alloc, Event::Begin, send(alloc, BEAT, leaf(Leaf::All)));
    let second = sends(alloc, Event::End, asks(alloc, 4, only(alloc, 2)));
    let chains = more(one(alloc, first), second);
    let turn = stepped(protocol(alloc, chains), State::zeros(), &[]);
    let sent = match turn {
        Some(turn) => {
            turn.out.to(0) == Some(note(BEAT, 0))
                && turn.out.to(1).is_none()
                && turn.out.to(2) == Some(packet(&[(BEAT, 0), (ASK, 4)]))
        }
        None => false,
    };
    sent && comes_to(turn, [0, 0, 0, 0])
}

/// A note that takes another one's place is remembered. It stands where the other one stood.
fn replaces(alloc: Global) -> bool {
    let first = sends(alloc, Event::Begin, asks(alloc, 4, leaf(Leaf::All)));
    let second = sends(alloc, Event::Begin, send(alloc, BEAT, leaf(Leaf::All)));
    let third = sends(alloc, Event::End, asks(alloc, 5, only(alloc, 2)));
    let chains = more(more(one(alloc, first), second), third);
    match stepped(protocol(alloc, chains), State::zeros(), &[]) {
        Some(turn) => {
            turn.state.replaced
                && !turn.state.clamped
                && turn.out.to(0) == Some(packet(&[(ASK, 4), (BEAT, 0)]))
                && turn.out.to(2) == Some(packet(&[(ASK, 5), (BEAT, 0)]))
        }
        None => false,
    }
}

/// The same note once more replaces nothing.
fn repeats(alloc: Global) -> bool {
    let first = sends(alloc, Event::Begin, send(alloc, BEAT, leaf(Leaf::All)));
    let second = sends(alloc, Event::End, send(alloc, BEAT, only(alloc, 2)));
    let chains = more(one(alloc, first), second);
    comes_to(
        stepped(protocol(alloc, chains), State::zeros(), &[]),
        [0, 0, 0, 0],
    )
}

/// A node that wakes forgets for whom it voted, and knows the step.
fn forgets(alloc: Global) -> bool {
    let sets = more(
        one(alloc, set(VOTED, leaf(Leaf::Empty))),
        set(WIDE, leaf(Leaf::Step)),
    );
    let forgetting = rule(yes(), sets, Ok(Vec::new(alloc)));
    let chains = one(
        alloc,
        chain(only(alloc, 1), Event::Wake, one(alloc, forgetting)),
    );
    match protocol(alloc, chains) {
        Some(machine) => {
            machine.nodes() == 3
                && machine.wake(1, 7, state([3, 4, 1, 0])) == state([3, 0, 1, 7])
                && machine.wake(2, 7, state([3, 4, 1, 0])) == state([3, 4, 1, 0])
        }
        None => false,
    }
}

#[test]
fn rules_are_taken_in_order(rt: HostRuntime) {
    let alloc = rt.alloc();
    assert!(rt; steps_down_first(alloc));
    assert!(rt; second_of_three(alloc));
    assert!(rt; next_chain(alloc));
    assert!(rt; forgets(alloc));
}

#[test]
fn ranges_and_notes_are_watched(rt: HostRuntime) {
    let alloc = rt.alloc();
    assert!(rt; clamps(alloc));
    assert!(rt; joins(alloc));
    assert!(rt; replaces(alloc));
    assert!(rt; repeats(alloc));
}

#[test]
fn values_of_expressions(rt: HostRuntime) {
    let alloc = rt.alloc();
    assert!(rt;
        worth(
            alloc,
            binary(alloc, Binary::Subtract, number(1), number(2)),
            0
        )
    );
    assert!(rt; worth(alloc, unary(alloc, Unary::Lowest, leaf(Leaf::Empty)), 3));
    assert!(rt; worth(alloc, unary(alloc, Unary::Highest, pair(alloc, 0, 2)), 2));
    assert!(rt; worth(alloc, unary(alloc, Unary::Count, leaf(Leaf::All)), 3));
    assert!(rt; worth(alloc, unary(alloc, Unary::Count, pair(alloc, 1, 200)), 1));
    assert!(rt;
        is_so(
            alloc,
            binary(alloc, Binary::Majority, only(alloc, 0), pair(alloc, 0, 1)),
            false
        )
    );
    assert!(rt;
        is_so(
            alloc,
            binary(
                alloc,
                Binary::Majority,
                pair(alloc, 0, 1),
                pair(alloc, 0, 1)
            ),
            true
        )
    );
    assert!(rt;
        is_so(
            alloc,
            binary(alloc, Binary::In, number(3), leaf(Leaf::All)),
            false
        )
    );
}
