//! Retry: node 0 sends the data to all at its first steps.

use crate::beside::{agrees, are_alike};
use crate::build::{
    Grown, List, alone, becomes, binary, constant, definition, forms, given_number, leaf, more,
    none, one, only, rule, rules, send, worded, yes,
};
use crate::made::{Numbers, make};
use lf_protocols::Protocol;
use lf_rules::{Binary, Chain, Event, Leaf, Rules, Sort, Value};
use std::alloc::{AllocError, Global};
use std::sync::Arc;

const ITEM: u8 = 0;

const HAS: u8 = 1;

const DATA: u8 = 0;

const TRIES: u8 = 0;

/// Some nodes have the data from an event on.
pub(crate) fn having(alloc: Global, who: Grown, on: Event) -> Result<Chain, AllocError> {
    alone(
        alloc,
        who,
        on,
        rule(yes(), becomes(alloc, ITEM, HAS), none(alloc)),
    )
}

/// Node 0 sends the data.
fn sending(alloc: Global) -> Result<Chain, AllocError> {
    let early = binary(
        alloc,
        Binary::AtMost,
        leaf(Leaf::Step),
        leaf(Leaf::Given(TRIES)),
    );
    let sent = rule(early, none(alloc), send(alloc, DATA, leaf(Leaf::All)));
    alone(alloc, only(alloc, 0), Event::End, sent)
}

fn chains(alloc: Global) -> List<Chain> {
    let start = one(alloc, having(alloc, only(alloc, 0), Event::Start));
    let heard = more(start, having(alloc, leaf(Leaf::All), Event::Note(DATA)));
    more(heard, sending(alloc))
}

fn retry(alloc: Global) -> Option<Arc<Rules>> {
    let variables = one(alloc, worded(alloc, "item", ITEM, "lacks has"));
    let tries = constant(alloc, "tries", Sort::Number, Ok(Value::Number(1)));
    let notes = forms(alloc, "DATA");
    let made = definition(
        alloc,
        variables,
        notes,
        one(alloc, tries),
        none(alloc),
        chains(alloc),
    );
    rules(alloc, made)
}

/// Whether the two do the same in the setting of these numbers.
fn is_alike(alloc: Global, rules: &Arc<Rules>, numbers: Numbers) -> bool {
    let nodes = numbers.pick(0, 2, 8);
    let tries = numbers.pick(1, 1, 6);
    let given = one(alloc, given_number(tries));
    are_alike(
        alloc,
        rules,
        given,
        Protocol::retry(nodes, tries),
        make(numbers, nodes),
    )
}

#[test]
fn retry_is_its_rules(rt: HostRuntime) {
    let alloc = rt.alloc();
    let rules = retry(alloc);
    match &rules {
        Some(rules) => {
            for of in 0..300 {
                agrees(&rt, is_alike(alloc, rules, Numbers::new(of)), of);
            }
        }
        None => agrees(&rt, false, 1000),
    }
}
