//! Two-phase commit as rules.

use crate::build::{
    Made, and, binary, chain, constant, equal, form, guard, leaf, letter, machine, more, nodes,
    note, number, one, only, plain, rule, send, set, state, unary, variable, word, worded,
};
use lf_list::Listed;
use lf_rule_machine::{Fact, Ruled, State, Told};
use lf_rules::{
    Assignment, Binary, Chain, Constant, Definition, Event, Given, Guard, Kind, Leaf, NoteForm,
    Send, Sort, Unary, Value, Variable,
};
use lf_sim::Machine;
use std::alloc::{AllocError, Global};

const PHASE: u8 = 0;

const SINCE: u8 = 1;

const YES: u8 = 2;

const REFUSED: u8 = 3;

const IDLE: u8 = 0;

const VOTING: u8 = 1;

const PREPARED: u8 = 2;

const COMMITTED: u8 = 3;

const ABORTED: u8 = 4;

const ASK: u8 = 0;

const AGREE: u8 = 1;

const REFUSE: u8 = 2;

const COMMIT: u8 = 3;

const ABORT: u8 = 4;

const PATIENCE: u8 = 0;

const VOTE: u8 = 1;

const PARTICIPANTS: u8 = 2;

fn is(alloc: Global, phase: u8) -> Made {
    equal(alloc, variable(PHASE), word(PHASE, phase))
}

fn becomes(alloc: Global, phase: u8) -> Result<Vec<Assignment>, AllocError> {
    one(alloc, set(PHASE, word(PHASE, phase)))
}

fn variables(alloc: Global) -> Result<Vec<Variable>, AllocError> {
    let first = one(alloc, worded(alloc, PHASE, 5));
    let second = more(first, plain(alloc, Kind::UpTo(48)));
    let third = more(second, plain(alloc, Kind::Nodes));
    more(third, plain(alloc, Kind::Flag))
}

fn notes(alloc: Global) -> Result<Vec<NoteForm>, AllocError> {
    let mut notes = Vec::new(alloc);
    for _ in 0..5 {
        notes.push(form(alloc, Ok(Vec::new(alloc)))?)?;
    }
    Ok(notes)
}

fn all(alloc: Global, form: u8) -> Result<Vec<Send>, AllocError> {
    one(alloc, send(alloc, form, leaf(Leaf::All)))
}

fn to_zero(alloc: Global, form: u8) -> Result<Vec<Send>, AllocError> {
    one(alloc, send(alloc, form, only(alloc, 0)))
}

/// Node 0 asks at step 1.
fn asking(alloc: Global) -> Result<Chain, AllocError> {
    let first = equal(alloc, leaf(Leaf::Step), number(1));
    let sets = more(becomes(alloc, VOTING), set(SINCE, leaf(Leaf::Step)));
    chain(
        only(alloc, 0),
        Event::Begin,
        one(alloc, rule(first, sets, all(alloc, ASK))),
    )
}

/// It counts the votes.
fn agreeing(alloc: Global) -> Result<Chain, AllocError> {
    let sender = unary(alloc, Unary::Only, leaf(Leaf::Sender));
    let sets = one(
        alloc,
        set(YES, binary(alloc, Binary::Union, variable(YES), sender)),
    );
    let counted = rule(is(alloc, VOTING), sets, Ok(Vec::new(alloc)));
    chain(only(alloc, 0), Event::Note(AGREE), one(alloc, counted))
}

fn refusing(alloc: Global) -> Result<Chain, AllocError> {
    let sets = one(alloc, set(REFUSED, leaf(Leaf::Truth(true))));
    let counted = rule(is(alloc, VOTING), sets, Ok(Vec::new(alloc)));
    chain(only(alloc, 0), Event::Note(REFUSE), one(alloc, counted))
}

/// It decides.
fn deciding(alloc: Global) -> Result<Chain, AllocError> {
    let refused = and(alloc, is(alloc, VOTING), variable(REFUSED));
    let first = rule(refused, becomes(alloc, ABORTED), all(alloc, ABORT));
    let agreed = equal(alloc, variable(YES), leaf(Leaf::Given(PARTICIPANTS)));
    let second = rule(
        and(alloc, is(alloc, VOTING), agreed),
        becomes(alloc, COMMITTED),
        all(alloc, COMMIT),
    );
    let waited = binary(alloc, Binary::Subtract, leaf(Leaf::Step), variable(SINCE));
    let late = binary(alloc, Binary::AtMost, leaf(Leaf::Given(PATIENCE)), waited);
    let third = rule(
        and(alloc, is(alloc, VOTING), late),
        becomes(alloc, ABORTED),
        all(alloc, ABORT),
    );
    chain(
        only(alloc, 0),
        Event::End,
        more(more(one(alloc, first), second), third),
    )
}

/// A participant votes.
fn voting(alloc: Global) -> Result<Chain, AllocError> {
    let agrees = and(alloc, is(alloc, IDLE), leaf(Leaf::Given(VOTE)));
    let sets = more(becomes(alloc, PREPARED), set(SINCE, leaf(Leaf::Step)));
    let first = rule(agrees, sets, to_zero(alloc, AGREE));
    let second = rule(
        is(alloc, IDLE),
        becomes(alloc, ABORTED),
        to_zero(alloc, REFUSE),
    );
    let who = leaf(Leaf::Given(PARTICIPANTS));
    chain(who, Event::Note(ASK), more(one(alloc, first), second))
}

/// It does what node 0 decided.
fn following(alloc: Global, form: u8, phase: u8) -> Result<Chain, AllocError> {
    let open = binary(alloc, Binary::Or, is(alloc, IDLE), is(alloc, PREPARED));
    let told = rule(open, becomes(alloc, phase), Ok(Vec::new(alloc)));
    chain(
        leaf(Leaf::Given(PARTICIPANTS)),
        Event::Note(form),
        one(alloc, told),
    )
}

/// Who wakes counts from then on.
fn waking(alloc: Global) -> Result<Chain, AllocError> {
    let sets = one(alloc, set(SINCE, leaf(Leaf::Step)));
    let woken = rule(leaf(Leaf::Truth(true)), sets, Ok(Vec::new(alloc)));
    chain(leaf(Leaf::All), Event::Wake, one(alloc, woken))
}

fn chains(alloc: Global) -> Result<Vec<Chain>, AllocError> {
    let counted = more(
        more(one(alloc, asking(alloc)), agreeing(alloc)),
        refusing(alloc),
    );
    let decided = more(more(counted, deciding(alloc)), voting(alloc));
    let told = more(decided, following(alloc, COMMIT, COMMITTED));
    more(more(told, following(alloc, ABORT, ABORTED)), waking(alloc))
}

fn given(alloc: Global) -> Result<Vec<Constant>, AllocError> {
    let patience = one(alloc, constant(alloc, Sort::Number, Ok(Value::Number(4))));
    let vote = more(
        patience,
        constant(alloc, Sort::Truth, Ok(Value::Truth(true))),
    );
    let others = binary(alloc, Binary::Between, number(1), leaf(Leaf::Nodes));
    more(vote, constant(alloc, Sort::Nodes, nodes(others)))
}

fn facts(alloc: Global) -> Result<Vec<Guard>, AllocError> {
    let blocked = one(alloc, guard(alloc, is(alloc, PREPARED)));
    more(
        blocked,
        guard(alloc, unary(alloc, Unary::Not, is(alloc, PREPARED))),
    )
}

fn definition(alloc: Global) -> Result<Definition, AllocError> {
    let variables = Listed::from_vec(variables(alloc)?);
    let notes = Listed::from_vec(notes(alloc)?);
    let given = Listed::from_vec(given(alloc)?);
    let facts = Listed::from_vec(facts(alloc)?);
    let chains = Listed::from_vec(chains(alloc)?);
    let trace = Listed::from_vec(Vec::from_array(alloc, [PHASE])?);
    Ok(Definition {
        variables,
        notes,
        given,
        lets: Listed::from_vec(Vec::new(alloc)),
        facts,
        chains,
        trace,
    })
}

/// Node 0 waits three steps, all agree, and all but node 0 take part.
fn values(alloc: Global) -> Result<Vec<Given>, AllocError> {
    let patience = one(alloc, Ok(Given::One(Value::Number(3))));
    let agree = more(one(alloc, Ok(Value::Truth(true))), Ok(Value::Truth(true)));
    let votes = more(agree, Ok(Value::Truth(true)));
    let vote = more(patience, given_each(votes));
    let others = binary(alloc, Binary::Between, number(1), leaf(Leaf::Nodes));
    more(vote, given_one(nodes(others)))
}

fn given_one(value: Result<Value, AllocError>) -> Result<Given, AllocError> {
    Ok(Given::One(value?))
}

fn given_each(values: Result<Vec<Value>, AllocError>) -> Result<Given, AllocError> {
    Ok(Given::Each(Listed::from_vec(values?)))
}

/// Two-phase commit among three nodes.
fn two_phase(alloc: Global) -> Option<Ruled> {
    match values(alloc) {
        Ok(given) => machine(alloc, definition(alloc), 3, given.as_slice()),
        Err(_) => None,
    }
}

/// The phase, since when, and who agreed.
fn at(phase: u8, since: u8, agreed: u8) -> State {
    state([phase, since, agreed, 0])
}

/// Whether node 0 asks both others at step 1.
fn asks(machine: &Ruled) -> bool {
    let _nodes = machine.nodes();
    let step = machine.step(0, 1, machine.start(0), &[]);
    step.state == at(VOTING, 1, 0)
        && step.out.to(0).is_none()
        && step.out.to(1) == Some(note(ASK, 0))
        && step.out.to(2) == Some(note(ASK, 0))
}

/// Whether a participant that is asked at step 2 agrees.
fn agrees(machine: &Ruled) -> bool {
    let _nodes = machine.nodes();
    let step = machine.step(1, 2, machine.start(1), &[letter(0, ASK, 0)]);
    step.state == at(PREPARED, 2, 0)
        && step.out.to(0) == Some(note(AGREE, 0))
        && step.out.to(2).is_none()
}

/// Whether node 0 commits at step 3 once both agreed.
fn commits(machine: &Ruled) -> bool {
    let _nodes = machine.nodes();
    let inbox = [letter(1, AGREE, 0), letter(2, AGREE, 0)];
    let step = machine.step(0, 3, at(VOTING, 1, 0), &inbox);
    step.state == at(COMMITTED, 1, 6)
        && step.out.to(1) == Some(note(COMMIT, 0))
        && step.out.to(2) == Some(note(COMMIT, 0))
}

/// Whether it waits at step 3 for the second vote, and gives up at step 4.
fn waits(machine: &Ruled) -> bool {
    let _nodes = machine.nodes();
    let step = machine.step(0, 3, at(VOTING, 1, 0), &[letter(1, AGREE, 0)]);
    let later = machine.step(0, 4, step.state, &[]);
    step.state == at(VOTING, 1, 2)
        && step.out.to(1).is_none()
        && later.state == at(ABORTED, 1, 2)
        && later.out.to(2) == Some(note(ABORT, 0))
}

/// Whether a prepared participant is blocked, and counts anew where it wakes.
fn blocks(machine: &Ruled) -> bool {
    let _nodes = machine.nodes();
    let blocked = Fact {
        told: Told::Named(0),
        denied: false,
    };
    let free = Fact {
        told: Told::Named(1),
        denied: false,
    };
    let prepared = at(PREPARED, 2, 0);
    machine.shows(1, prepared, blocked)
        && !machine.shows(1, prepared, free)
        && machine.wake(1, 5, prepared) == at(PREPARED, 5, 0)
}

#[test]
fn a_quorum_of_votes_commits(rt: HostRuntime) {
    let machine = two_phase(rt.alloc());
    let holds = match &machine {
        Some(machine) => {
            asks(machine)
                && agrees(machine)
                && commits(machine)
                && waits(machine)
                && blocks(machine)
        }
        None => false,
    };
    assert!(rt; holds);
}
