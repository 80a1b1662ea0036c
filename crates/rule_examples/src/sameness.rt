//! Protocols and machines beside others that say the same, and that differ in one place.

use crate::build::{
    chain, constant, definition, form, leaf, number, one, plain, rule, send, set, worded,
};
use lf_list::Listed;
use lf_rule_machine::Ruled;
use lf_rules::{Definition, Event, Given, Kind, Leaf, Name, Rules, Sort, Value};
use std::alloc::{AllocError, Global};
use std::sync::Arc;

/// What a small protocol is made of.
#[derive(Clone, Copy)]
struct Parts {
    kind: Kind,
    guard: Leaf,
    value: u8,
    receivers: Leaf,
    event: Event,
    name: &'static str,
}

/// The protocol that the others are compared with.
const PLAIN: Parts = Parts {
    kind: Kind::UpTo(9),
    guard: Leaf::Truth(true),
    value: 4,
    receivers: Leaf::All,
    event: Event::Begin,
    name: "count",
};

/// A protocol of one variable, one constant and one rule.
fn made(alloc: Global, parts: Parts) -> Result<Definition, AllocError> {
    let sends = one(alloc, send(alloc, 0, leaf(parts.receivers)));
    let acting = rule(
        leaf(parts.guard),
        one(alloc, set(0, number(parts.value))),
        sends,
    );
    let chains = one(
        alloc,
        chain(leaf(Leaf::All), parts.event, one(alloc, acting)),
    );
    let mut variable = plain(alloc, parts.kind)?;
    variable.name = Name::new(String::from_str(alloc, parts.name)?);
    let notes = one(alloc, form(alloc, Ok(Vec::new(alloc))));
    let mut made = definition(alloc, one(alloc, Ok(variable)), notes, chains)?;
    let constants = one(alloc, constant(alloc, Sort::Number, Ok(Value::Number(4))))?;
    made.given = Listed::from_vec(constants);
    Ok(made)
}

/// Whether a protocol is the plain one, each made anew. None where memory has run out.
fn is_plain(alloc: Global, parts: Parts) -> Option<bool> {
    match (made(alloc, PLAIN), made(alloc, parts)) {
        (Ok(plain), Ok(other)) => Some(plain.same(&other)),
        _ => None,
    }
}

/// Whether a protocol is told from the plain one.
fn differs(alloc: Global, parts: Parts) -> bool {
    is_plain(alloc, parts) == Some(false)
}

#[test]
fn protocols_that_say_the_same_are_the_same(rt: HostRuntime) {
    let alloc = rt.alloc();
    assert!(rt; is_plain(alloc, PLAIN) == Some(true));
    let kind = Kind::UpTo(8);
    assert!(rt; differs(alloc, Parts { kind, ..PLAIN }));
    let guard = Leaf::Clamped;
    assert!(rt; differs(alloc, Parts { guard, ..PLAIN }));
    assert!(rt; differs(alloc, Parts { value: 5, ..PLAIN }));
    let receivers = Leaf::Empty;
    assert!(rt; differs(alloc, Parts { receivers, ..PLAIN }));
    let event = Event::End;
    assert!(rt; differs(alloc, Parts { event, ..PLAIN }));
    assert!(rt;
        differs(
            alloc,
            Parts {
                name: "sum",
                ..PLAIN
            }
        )
    );
}

/// A definition with a variable that has so many words.
fn with_words(alloc: Global, words: u8) -> Result<Definition, AllocError> {
    let variables = one(alloc, worded(alloc, 0, words));
    definition(alloc, variables, Ok(Vec::new(alloc)), Ok(Vec::new(alloc)))
}

#[test]
fn lists_that_begin_alike_differ(rt: HostRuntime) {
    let alloc = rt.alloc();
    let told = match (with_words(alloc, 2), with_words(alloc, 3)) {
        (Ok(two), Ok(three)) => !two.same(&three) && !three.same(&two),
        _ => false,
    };
    assert!(rt; told);
}

/// The machine of the plain protocol among so many nodes, with this value of its constant.
fn machine(alloc: Global, nodes: u32, value: u8) -> Option<Ruled> {
    let definition = made(alloc, PLAIN).ok()?;
    let rules = Arc::new(alloc, Rules::new(definition)?).ok()?;
    let given = one(alloc, Ok(Given::One(Value::Number(value)))).ok()?;
    Ruled::new(alloc, rules, nodes, given.as_slice()).unwrap_or(None)
}

/// Whether two machines are the same. None where memory has run out.
fn are_same(one: Option<Ruled>, other: Option<Ruled>) -> Option<bool> {
    Some(one?.same(&other?))
}

#[test]
fn machines_that_do_the_same_are_the_same(rt: HostRuntime) {
    let alloc = rt.alloc();
    let plain = || machine(alloc, 3, 7);
    assert!(rt; are_same(plain(), plain()) == Some(true));
    assert!(rt; are_same(plain(), machine(alloc, 4, 7)) == Some(false));
    assert!(rt; are_same(plain(), machine(alloc, 3, 8)) == Some(false));
}
