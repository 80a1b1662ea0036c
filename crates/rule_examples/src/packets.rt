//! What node 1 of three sends in one step as notes of several forms, and what it hears of a packet.

use crate::build::{
    Made, binary, chain, definition, expr, form, leaf, letter_of, machine, more, number, one, only,
    packet, plain, rule, send_with, set, state, unary, variable, yes,
};
use lf_rule_machine::{Packet, Ruled, State};
use lf_rules::{Assignment, Binary, Chain, Event, Kind, Leaf, NoteForm, Rule, Send, Unary};
use lf_sim::{Letter, Machine, Stepped};
use std::alloc::{AllocError, Global};

/// The field of the last note that was heard, and a number that tells from whom and how often.
const LAST: u8 = 0;

const HEARD: u8 = 1;

/// Five forms, each with a number up to 255.
fn notes(alloc: Global) -> Result<Vec<NoteForm>, AllocError> {
    let mut forms = Vec::new(alloc);
    for _ in 0..5 {
        forms.push(form(alloc, one(alloc, Ok(Kind::UpTo(255))))?)?;
    }
    Ok(forms)
}

/// What node 1 comes to at step 2, from zeros, by these chains and letters.
fn stepped(
    alloc: Global,
    chains: Result<Vec<Chain>, AllocError>,
    inbox: &[Letter<Packet>],
) -> Option<Stepped<State, Packet>> {
    let first = one(alloc, plain(alloc, Kind::UpTo(255)));
    let variables = more(first, plain(alloc, Kind::UpTo(255)));
    let ruled = definition(alloc, variables, notes(alloc), chains);
    let machine: Ruled = machine(alloc, ruled, 3, &[])?;
    Some(machine.step(1, 2, State::zeros(), inbox))
}

/// A note of a form, with this field.
fn send(alloc: Global, form: u8, field: u8, to: Made) -> Result<Send, AllocError> {
    send_with(form, one(alloc, expr(number(field))), to)
}

/// A rule of all nodes at the end of a step that sends notes of these forms, each with its field to its node.
fn sending(alloc: Global, notes: &[(u8, u8, u8)]) -> Result<Chain, AllocError> {
    let mut sends = Vec::new(alloc);
    for (form, field, to) in notes {
        sends.push(send(alloc, *form, *field, only(alloc, *to))?)?;
    }
    let rule = rule(yes(), Ok(Vec::new(alloc)), Ok(sends));
    chain(leaf(Leaf::All), Event::End, one(alloc, rule))
}

/// Whether these notes come to this packet for node 2 and this one for node 0, and whether one is lost.
fn come_to(
    alloc: Global,
    notes: &[(u8, u8, u8)],
    second: &[(u8, u8)],
    zeroth: &[(u8, u8)],
    lost: bool,
) -> bool {
    match stepped(alloc, one(alloc, sending(alloc, notes)), &[]) {
        Some(turn) => {
            turn.state.replaced == lost
                && !turn.state.clamped
                && turn.out.to(2) == sent(second)
                && turn.out.to(0) == sent(zeroth)
                && turn.out.to(1).is_none()
        }
        None => false,
    }
}

/// The packet of these notes; none without notes.
fn sent(notes: &[(u8, u8)]) -> Option<Packet> {
    if notes.is_empty() {
        None
    } else {
        Some(packet(notes))
    }
}

#[test]
fn notes_of_different_forms_go_together(rt: HostRuntime) {
    let alloc = rt.alloc();
    let two = [(3, 1, 2), (0, 5, 2)];
    assert!(rt; come_to(alloc, &two, &[(3, 1), (0, 5)], &[], false));
    let apart = [(3, 1, 2), (0, 5, 0), (2, 7, 2)];
    assert!(rt; come_to(alloc, &apart, &[(3, 1), (2, 7)], &[(0, 5)], false));
    let four = [(4, 1, 2), (1, 2, 2), (3, 3, 2), (0, 4, 2)];
    let all = [(4, 1), (1, 2), (3, 3), (0, 4)];
    assert!(rt; come_to(alloc, &four, &all, &[], false));
}

#[test]
fn a_fifth_form_is_left_out(rt: HostRuntime) {
    let alloc = rt.alloc();
    let five = [
        (0, 1, 2),
        (1, 2, 2),
        (2, 3, 2),
        (3, 4, 2),
        (4, 5, 2),
        (4, 5, 0),
    ];
    let four = [(0, 1), (1, 2), (2, 3), (3, 4)];
    assert!(rt; come_to(alloc, &five, &four, &[(4, 5)], true));
    // a form that is there still has its place
    let again = [(0, 1, 2), (1, 2, 2), (2, 3, 2), (3, 4, 2), (1, 9, 2)];
    let newer = [(0, 1), (1, 9), (2, 3), (3, 4)];
    assert!(rt; come_to(alloc, &again, &newer, &[], true));
    let same = [(0, 1, 2), (1, 2, 2), (2, 3, 2), (3, 4, 2), (1, 2, 2)];
    assert!(rt; come_to(alloc, &same, &four, &[], false));
}

#[test]
fn a_form_that_is_put_twice_keeps_its_place(rt: HostRuntime) {
    let alloc = rt.alloc();
    let twice = [(2, 7, 2), (0, 1, 2), (2, 8, 2)];
    assert!(rt; come_to(alloc, &twice, &[(2, 8), (0, 1)], &[], true));
    let same = [(2, 7, 2), (0, 1, 2), (2, 7, 2)];
    assert!(rt; come_to(alloc, &same, &[(2, 7), (0, 1)], &[], false));
    let apart = [(2, 7, 2), (2, 8, 0)];
    assert!(rt; come_to(alloc, &apart, &[(2, 7)], &[(2, 8)], false));
}

/// Rules of all nodes on the first two forms: the last field is kept, `HEARD` becomes twice what it was and the sender, and a note goes back that is of the
/// form that comes two behind.
fn hearing(alloc: Global) -> Result<Vec<Chain>, AllocError> {
    let mut chains = Vec::new(alloc);
    for form in [0, 1] {
        let back = send_with(
            form + 2,
            one(alloc, expr(variable(HEARD))),
            unary(alloc, Unary::Only, leaf(Leaf::Sender)),
        );
        let rule: Result<Rule, AllocError> = rule(yes(), keeping(alloc), one(alloc, back));
        chains.push(chain(leaf(Leaf::All), Event::Note(form), one(alloc, rule))?)?;
    }
    Ok(chains)
}

/// The last field, and from whom and how often.
fn keeping(alloc: Global) -> Result<Vec<Assignment>, AllocError> {
    let twice = binary(alloc, Binary::Add, variable(HEARD), variable(HEARD));
    let heard = binary(alloc, Binary::Add, twice, leaf(Leaf::Sender));
    more(
        one(alloc, set(LAST, leaf(Leaf::Field(0)))),
        set(HEARD, heard),
    )
}

/// Whether these letters come to these values, and to this packet for node 2.
fn hear(alloc: Global, inbox: &[Letter<Packet>], values: [u8; 2], back: &[(u8, u8)]) -> bool {
    let [last, heard] = values;
    match stepped(alloc, hearing(alloc), inbox) {
        Some(turn) => { turn.state == state([last, heard, 0, 0]) && turn.out.to(2) == sent(back) }
        None => false,
    }
}

#[test]
fn notes_of_a_packet_are_heard_in_order(rt: HostRuntime) {
    let alloc = rt.alloc();
    let one = [letter_of(2, &[(0, 7), (1, 5)])];
    assert!(rt; hear(alloc, &one, [5, 6], &[(2, 2), (3, 6)]));
    let other = [letter_of(2, &[(1, 5), (0, 7)])];
    assert!(rt; hear(alloc, &other, [7, 6], &[(3, 2), (2, 6)]));
    let letters = [letter_of(0, &[(1, 9), (0, 8)]), letter_of(2, &[(0, 4)])];
    assert!(rt; hear(alloc, &letters, [4, 2], &[(2, 2)]));
    // no rule is on the fifth form
    let idle = [letter_of(2, &[(4, 9), (1, 3)])];
    assert!(rt; hear(alloc, &idle, [3, 2], &[(3, 2)]));
    assert!(rt; hear(alloc, &[letter_of(2, &[])], [0, 0], &[]));
}
