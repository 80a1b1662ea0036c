//! Redundant: each node that has the data sends it to all, so many times.

use crate::beside::{agrees, are_alike};
use crate::build::{
    List, STEP, alone, and, binary, constant, definition, forms, given_number, is, leaf, more,
    none, number, one, only, plain, rule, rules, send, set, variable, worded,
};
use crate::made::{Numbers, make};
use crate::retry::having;
use lf_protocols::Protocol;
use lf_rules::{Binary, Chain, Event, Leaf, Rules, Sort, Value};
use std::alloc::{AllocError, Global};
use std::sync::Arc;

const ITEM: u8 = 0;

const SENT: u8 = 1;

const HAS: u8 = 1;

const DATA: u8 = 0;

const TRIES: u8 = 0;

/// Who has the data sends it.
fn sending(alloc: Global) -> Result<Chain, AllocError> {
    let fewer = binary(
        alloc,
        Binary::Less,
        variable(SENT),
        leaf(Leaf::Given(TRIES)),
    );
    let counted = set(SENT, binary(alloc, Binary::Add, variable(SENT), number(1)));
    let sent = rule(
        and(alloc, is(alloc, ITEM, HAS), fewer),
        one(alloc, counted),
        send(alloc, DATA, leaf(Leaf::All)),
    );
    alone(alloc, leaf(Leaf::All), Event::End, sent)
}

fn chains(alloc: Global) -> List<Chain> {
    let start = one(alloc, having(alloc, only(alloc, 0), Event::Start));
    let heard = more(start, having(alloc, leaf(Leaf::All), Event::Note(DATA)));
    more(heard, sending(alloc))
}

fn redundant(alloc: Global) -> Option<Arc<Rules>> {
    let item = one(alloc, worded(alloc, "item", ITEM, "lacks has"));
    let variables = more(item, plain(alloc, "sent", STEP));
    let tries = constant(alloc, "tries", Sort::Number, Ok(Value::Number(4)));
    let notes = forms(alloc, "DATA");
    let made = definition(
        alloc,
        variables,
        notes,
        one(alloc, tries),
        none(alloc),
        chains(alloc),
    );
    rules(alloc, made)
}

/// Whether the rules do in the setting of these numbers what redundant does, or what retry does.
fn is_alike(alloc: Global, rules: &Arc<Rules>, numbers: Numbers, once: bool) -> bool {
    let nodes = numbers.pick(0, 2, 8);
    let tries = numbers.pick(1, 1, 6);
    let built = if once {
        Protocol::retry(nodes, tries)
    } else {
        Protocol::redundant(nodes, tries)
    };
    let given = one(alloc, given_number(tries));
    are_alike(alloc, rules, given, built, make(numbers, nodes))
}

/// Whether the rules do in each of some settings what retry does.
fn are_all_alike(alloc: Global, rules: &Arc<Rules>) -> bool {
    let mut same = true;
    for of in 0..10 {
        same = same && is_alike(alloc, rules, Numbers::new(of), true);
    }
    same
}

#[test]
fn redundant_is_its_rules(rt: HostRuntime) {
    let alloc = rt.alloc();
    let rules = redundant(alloc);
    match &rules {
        Some(rules) => {
            for of in 0..300 {
                agrees(&rt, is_alike(alloc, rules, Numbers::new(of), false), of);
            }
        }
        None => agrees(&rt, false, 1000),
    }
}

/// Not in each of some settings does it what retry does: a difference is seen.
#[test]
fn redundant_is_not_retry(rt: HostRuntime) {
    let alloc = rt.alloc();
    let rules = redundant(alloc);
    match &rules {
        Some(rules) => agrees(&rt, !are_all_alike(alloc, rules), 10),
        None => agrees(&rt, false, 1000),
    }
}
