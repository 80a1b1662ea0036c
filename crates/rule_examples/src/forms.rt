//! Definitions that are well formed, and some that are not.

use crate::build::{
    Made, binary, chain, definition, equal, expr, form, leaf, number, one, plain, rule, send_with,
    set, variable, word, worded, yes,
};
use lf_rules::{Binary, Chain, Event, Expr, Kind, Leaf, NoteForm, Rules, Send, Variable};
use std::alloc::{AllocError, Global};

fn variables(alloc: Global) -> Result<Vec<Variable>, AllocError> {
    let first = one(alloc, plain(alloc, Kind::UpTo(9)));
    crate::build::more(first, worded(alloc, 1, 3))
}

fn notes(alloc: Global) -> Result<Vec<NoteForm>, AllocError> {
    one(alloc, form(alloc, one(alloc, Ok(Kind::UpTo(9)))))
}

/// Whether a definition with this chain is well formed.
fn is_formed(alloc: Global, chain: Result<Chain, AllocError>) -> bool {
    match definition(alloc, variables(alloc), notes(alloc), one(alloc, chain)) {
        Ok(definition) => Rules::new(definition).is_some(),
        Err(_) => false,
    }
}

/// A chain of all nodes with one rule that has a guard, and sets a variable.
fn guarded(
    alloc: Global,
    on: Event,
    guard: Made,
    variable: u8,
    value: Made,
) -> Result<Chain, AllocError> {
    let rule = rule(guard, one(alloc, set(variable, value)), Ok(Vec::new(alloc)));
    chain(leaf(Leaf::All), on, one(alloc, rule))
}

/// A chain of all nodes with one rule that sends.
fn sending(
    alloc: Global,
    on: Event,
    fields: Result<Vec<Expr>, AllocError>,
    to: Made,
) -> Result<Chain, AllocError> {
    let message: Result<Send, AllocError> = send_with(0, fields, to);
    let rule = rule(yes(), Ok(Vec::new(alloc)), one(alloc, message));
    chain(leaf(Leaf::All), on, one(alloc, rule))
}

#[test]
fn kinds_fit(rt: HostRuntime) {
    let alloc = rt.alloc();
    assert!(rt; is_formed(alloc, guarded(alloc, Event::Begin, yes(), 0, number(1))));
    assert!(rt; is_formed(alloc, guarded(alloc, Event::Begin, yes(), 1, word(1, 2))));
    assert!(rt; !is_formed(alloc, guarded(alloc, Event::Begin, yes(), 1, word(1, 3))));
    assert!(rt; !is_formed(alloc, guarded(alloc, Event::Begin, yes(), 1, number(1))));
    assert!(rt; !is_formed(alloc, guarded(alloc, Event::Begin, yes(), 2, number(1))));
    assert!(rt; !is_formed(alloc, guarded(alloc, Event::Begin, number(1), 0, number(1))));
    let mixed = equal(alloc, variable(0), variable(1));
    assert!(rt; !is_formed(alloc, guarded(alloc, Event::Begin, mixed, 0, number(1))));
}

#[test]
fn names_stand_where_they_may(rt: HostRuntime) {
    let alloc = rt.alloc();
    let heard = || leaf(Leaf::Field(0));
    assert!(rt; is_formed(alloc, guarded(alloc, Event::Note(0), yes(), 0, heard())));
    assert!(rt; !is_formed(alloc, guarded(alloc, Event::Begin, yes(), 0, heard())));
    assert!(rt;
        !is_formed(
            alloc,
            guarded(alloc, Event::Note(0), yes(), 0, leaf(Leaf::Field(1)))
        )
    );
    assert!(rt;
        !is_formed(
            alloc,
            guarded(alloc, Event::End, yes(), 0, leaf(Leaf::Sender))
        )
    );
    assert!(rt; !is_formed(alloc, guarded(alloc, Event::Note(1), yes(), 0, number(1))));
    assert!(rt;
        !is_formed(
            alloc,
            guarded(alloc, Event::Begin, yes(), 0, leaf(Leaf::Let(0)))
        )
    );
}

#[test]
fn notes_fit_their_forms(rt: HostRuntime) {
    let alloc = rt.alloc();
    let one_field = || one(alloc, expr(number(1)));
    assert!(rt;
        is_formed(
            alloc,
            sending(alloc, Event::Begin, one_field(), leaf(Leaf::All))
        )
    );
    assert!(rt;
        !is_formed(
            alloc,
            sending(alloc, Event::Start, one_field(), leaf(Leaf::All))
        )
    );
    assert!(rt;
        !is_formed(
            alloc,
            sending(alloc, Event::Wake, one_field(), leaf(Leaf::All))
        )
    );
    assert!(rt;
        !is_formed(
            alloc,
            sending(alloc, Event::Begin, Ok(Vec::new(alloc)), leaf(Leaf::All))
        )
    );
    assert!(rt; !is_formed(alloc, sending(alloc, Event::Begin, one_field(), number(1))));
    let sum = binary(alloc, Binary::Add, number(1), leaf(Leaf::Step));
    assert!(rt;
        is_formed(
            alloc,
            sending(alloc, Event::End, one(alloc, expr(sum)), leaf(Leaf::All))
        )
    );
}
