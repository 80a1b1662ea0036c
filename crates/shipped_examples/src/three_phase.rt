//! Three-phase commit: node 0 tells that all agree before it commits, and all nodes wait for so long.

use crate::beside::{agrees, are_alike};
use crate::build::{
    List, alone, and, chain, definition, forms, more, none, one, only, or, plain, rule, rules, send,
};
use crate::commit::{
    ABORT, ABORTED, COMMIT, COMMITTED, PREPARED, SINCE, all_agree, comes_to, constants, counting,
    deciding, enters, facts, following, given, has_all, in_phase, is_late, is_open, participants,
    polling, telling, variables, votes, voting, waking,
};
use crate::made::{Numbers, make};
use lf_protocols::Protocol;
use lf_rules::{Chain, Event, Kind, Rule, Rules};
use std::alloc::{AllocError, Global};
use std::sync::Arc;

const ACKS: u8 = 4;

const PRECOMMITTING: u8 = 5;

const PRECOMMITTED: u8 = 6;

const PRECOMMIT: u8 = 5;

const ACK: u8 = 6;

/// Node 0 tells where all agree, and commits where all know or have had long enough.
fn ending(alloc: Global) -> Result<Chain, AllocError> {
    let agreed = telling(
        alloc,
        all_agree(alloc),
        enters(alloc, PRECOMMITTING),
        PRECOMMIT,
    );
    let enough = or(alloc, has_all(alloc, ACKS), is_late(alloc));
    let known = and(alloc, in_phase(alloc, PRECOMMITTING), enough);
    let last = telling(alloc, known, comes_to(alloc, COMMITTED), COMMIT);
    chain(
        only(alloc, 0),
        Event::End,
        more(deciding(alloc, agreed), last),
    )
}

/// A participant that agreed is told that all did.
fn knowing(alloc: Global) -> Result<Chain, AllocError> {
    let known = rule(
        in_phase(alloc, PREPARED),
        enters(alloc, PRECOMMITTED),
        send(alloc, ACK, only(alloc, 0)),
    );
    alone(alloc, participants(), Event::Note(PRECOMMIT), known)
}

/// A participant that has waited too long in a phase comes to another.
fn giving_up(alloc: Global, phase: u8, other: u8) -> Result<Rule, AllocError> {
    let late = and(alloc, in_phase(alloc, phase), is_late(alloc));
    rule(late, comes_to(alloc, other), none(alloc))
}

/// A participant waits no longer than so long.
fn waiting(alloc: Global) -> Result<Chain, AllocError> {
    let first = giving_up(alloc, PREPARED, ABORTED);
    let second = giving_up(alloc, PRECOMMITTED, COMMITTED);
    chain(participants(), Event::End, more(one(alloc, first), second))
}

fn first_chains(alloc: Global) -> List<Chain> {
    let polled = more(polling(alloc), counting(alloc, ACK, PRECOMMITTING, ACKS));
    more(more(polled, ending(alloc)), voting(alloc))
}

fn chains(alloc: Global) -> List<Chain> {
    let known = more(first_chains(alloc), knowing(alloc));
    let may_commit = or(alloc, is_open(alloc), in_phase(alloc, PRECOMMITTED));
    let committed = more(known, following(alloc, COMMIT, may_commit, COMMITTED));
    let aborted = more(committed, following(alloc, ABORT, is_open(alloc), ABORTED));
    more(more(aborted, waiting(alloc)), waking(alloc, SINCE))
}

fn three_phase(alloc: Global) -> Option<Arc<Rules>> {
    let phases = "idle voting prepared committed aborted precommitting precommitted";
    let variables = more(variables(alloc, phases), plain(alloc, "acks", Kind::Nodes));
    let notes = forms(alloc, "PREPARE YES NO COMMIT ABORT PRECOMMIT ACK");
    let made = definition(
        alloc,
        variables,
        notes,
        constants(alloc),
        facts(alloc),
        chains(alloc),
    );
    rules(alloc, made)
}

/// Whether the two do the same in the setting of these numbers.
fn is_alike(alloc: Global, rules: &Arc<Rules>, numbers: Numbers) -> bool {
    let nodes = numbers.pick(0, 2, 8);
    let patience = numbers.pick(1, 1, 6);
    let votes = votes(numbers, nodes);
    let built = Protocol::three_phase(nodes, patience, votes);
    let given = given(alloc, nodes, patience, votes);
    are_alike(alloc, rules, given, built, make(numbers, nodes))
}

#[test]
fn three_phase_is_its_rules(rt: HostRuntime) {
    let alloc = rt.alloc();
    let rules = three_phase(alloc);
    match &rules {
        Some(rules) => {
            for of in 0..300 {
                agrees(&rt, is_alike(alloc, rules, Numbers::new(of)), of);
            }
        }
        None => agrees(&rt, false, 1000),
    }
}
