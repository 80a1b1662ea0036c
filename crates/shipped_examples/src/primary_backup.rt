//! A primary and its backup: node 0 has what node 2 writes copied at node 1, which takes its place where it hears nothing for so long.

use crate::beside::{agrees, are_alike};
use crate::build::{
    List, STEP, alone, and, becomes, binary, chain, constant, definition, equal, forms, given_from,
    given_number, is, leaf, more, nodes_from, none, number, one, only, plain, rule, rules, send,
    set, unary, variable, worded, yes,
};
use crate::commit::waking;
use crate::made::{Numbers, make};
use lf_protocols::Protocol;
use lf_rules::{
    Assignment, Binary, Chain, Constant, Event, Given, Kind, Leaf, Rules, Send, Sort, Unary, Value,
    Variable,
};
use std::alloc::{AllocError, Global};
use std::sync::Arc;

const COPY: u8 = 0;

const DONE: u8 = 1;

const ROLE: u8 = 2;

const CLAIM: u8 = 3;

const SINCE: u8 = 4;

const TOLD: u8 = 5;

const HOLDS: u8 = 1;

const BACKUP: u8 = 0;

const PRIMARY: u8 = 1;

const CLAIMED: u8 = 1;

/// The numbers of the forms of notes.
const WRITE: u8 = 0;

const REPLICATE: u8 = 1;

const ACKNOWLEDGE: u8 = 2;

const REPORT: u8 = 3;

const BEAT: u8 = 4;

const TAKE_OVER: u8 = 5;

const PATIENCE: u8 = 0;

const CLIENTS: u8 = 1;

fn variables(alloc: Global) -> List<Variable> {
    let copy = one(alloc, worded(alloc, "copy", COPY, "empty holds"));
    let done = more(copy, plain(alloc, "done", Kind::Flag));
    let role = more(done, worded(alloc, "role", ROLE, "backup primary"));
    let claim = more(role, worded(alloc, "claim", CLAIM, "unclaimed claimed"));
    let since = more(claim, plain(alloc, "since", STEP));
    more(since, plain(alloc, "told", Kind::Flag))
}

/// How long node 1 waits, and which nodes are clients.
fn constants(alloc: Global) -> List<Constant> {
    let three = Ok(Value::Number(3));
    let patience = one(alloc, constant(alloc, "patience", Sort::Number, three));
    let clients = nodes_from(alloc, 2);
    more(patience, constant(alloc, "clients", Sort::Nodes, clients))
}

/// A node does this at an event, whatever its state.
fn always(
    alloc: Global,
    node: u8,
    on: Event,
    sets: List<Assignment>,
    sends: List<Send>,
) -> Result<Chain, AllocError> {
    alone(alloc, only(alloc, node), on, rule(yes(), sets, sends))
}

/// Node 0 is the primary. It has what is written copied, and tells node 2 once it is.
fn copying(alloc: Global) -> List<Chain> {
    let primary = becomes(alloc, ROLE, PRIMARY);
    let start = one(alloc, always(alloc, 0, Event::Start, primary, none(alloc)));
    let copied = send(alloc, REPLICATE, only(alloc, 1));
    let holds = more(becomes(alloc, COPY, HOLDS), set(TOLD, yes()));
    let written = more(start, always(alloc, 0, Event::Note(WRITE), holds, copied));
    let reported = send(alloc, REPORT, only(alloc, 2));
    more(
        written,
        always(alloc, 0, Event::Note(ACKNOWLEDGE), none(alloc), reported),
    )
}

/// At the end of a step at which it has sent node 1 no copy it sends it a beat.
fn beating(alloc: Global) -> Result<Chain, AllocError> {
    let beat = send(alloc, BEAT, only(alloc, 1));
    let silent = rule(unary(alloc, Unary::Not, variable(TOLD)), none(alloc), beat);
    let later = rule(
        yes(),
        one(alloc, set(TOLD, leaf(Leaf::Truth(false)))),
        none(alloc),
    );
    chain(only(alloc, 0), Event::End, more(one(alloc, silent), later))
}

/// Node 1 keeps the copy, and notes when it heard of node 0.
fn hearing(alloc: Global) -> List<Chain> {
    let since = one(alloc, set(SINCE, leaf(Leaf::Step)));
    let word = set(
        COPY,
        leaf(Leaf::Word {
            of: COPY,
            word: HOLDS,
        }),
    );
    let answer = send(alloc, ACKNOWLEDGE, only(alloc, 0));
    let kept = always(alloc, 1, Event::Note(REPLICATE), more(since, word), answer);
    let heard = one(alloc, set(SINCE, leaf(Leaf::Step)));
    let beat = always(alloc, 1, Event::Note(BEAT), heard, none(alloc));
    let told = more(copying(alloc), beating(alloc));
    more(more(told, kept), beat)
}

/// It takes node 0's place.
fn taking_over(alloc: Global) -> Result<Chain, AllocError> {
    let waited = binary(alloc, Binary::Subtract, leaf(Leaf::Step), variable(SINCE));
    let late = binary(alloc, Binary::AtMost, leaf(Leaf::Given(PATIENCE)), waited);
    let taken = rule(
        and(alloc, is(alloc, ROLE, BACKUP), late),
        becomes(alloc, ROLE, PRIMARY),
        send(alloc, TAKE_OVER, leaf(Leaf::Given(CLIENTS))),
    );
    alone(alloc, only(alloc, 1), Event::End, taken)
}

/// Node 2 writes at step 1.
fn writing(alloc: Global) -> Result<Chain, AllocError> {
    let first = equal(alloc, leaf(Leaf::Step), number(1));
    let write = rule(first, none(alloc), send(alloc, WRITE, only(alloc, 0)));
    alone(alloc, only(alloc, 2), Event::Begin, write)
}

/// A client hears who is the primary.
fn claiming(alloc: Global) -> Result<Chain, AllocError> {
    let claimed = rule(yes(), becomes(alloc, CLAIM, CLAIMED), none(alloc));
    alone(
        alloc,
        leaf(Leaf::Given(CLIENTS)),
        Event::Note(TAKE_OVER),
        claimed,
    )
}

fn chains(alloc: Global) -> List<Chain> {
    let taken = more(hearing(alloc), taking_over(alloc));
    let written = more(taken, writing(alloc));
    let sets = one(alloc, set(DONE, yes()));
    let done = more(
        written,
        always(alloc, 2, Event::Note(REPORT), sets, none(alloc)),
    );
    more(more(done, claiming(alloc)), waking(alloc, SINCE))
}

fn primary_backup(alloc: Global) -> Option<Arc<Rules>> {
    let notes = forms(alloc, "WRITE REPL ACK DONE BEAT CLAIM");
    let made = definition(
        alloc,
        variables(alloc),
        notes,
        constants(alloc),
        none(alloc),
        chains(alloc),
    );
    rules(alloc, made)
}

fn given(alloc: Global, patience: u32) -> List<Given> {
    more(one(alloc, given_number(patience)), given_from(alloc, 2))
}

/// Whether the two do the same in the setting of these numbers.
fn is_alike(alloc: Global, rules: &Arc<Rules>, numbers: Numbers) -> bool {
    let nodes = numbers.pick(0, 3, 8);
    let patience = numbers.pick(1, 1, 6);
    let built = Protocol::primary_backup(nodes, patience);
    let made = make(numbers, nodes);
    are_alike(alloc, rules, given(alloc, patience), built, made)
}

#[test]
fn primary_backup_is_its_rules(rt: HostRuntime) {
    let alloc = rt.alloc();
    let rules = primary_backup(alloc);
    match &rules {
        Some(rules) => {
            for of in 0..300 {
                agrees(&rt, is_alike(alloc, rules, Numbers::new(of)), of);
            }
        }
        None => agrees(&rt, false, 1000),
    }
}
