//! Turns that are kept short, and told whole.

use crate::texts::agrees;
use lf_sim::{Alike, Out, Stepped, Turns};
use std::alloc::Global;
use std::process::Abort;

/// A note that is told from others by its number.
#[derive(Clone, Copy, Debug, PartialEq, Eq)]
struct Word(u8);

impl Alike for Word {
    fn is_alike(&self, other: &Word) -> bool {
        self.0 == other.0
    }
}

/// A turn with notes to two of three nodes.
fn turn(state: u8, first: u8, second: u8) -> Stepped<u8, Word> {
    let mut out = Out::none();
    out.put(0, Word(first));
    out.put(2, Word(second));
    Stepped { state, out }
}

/// A turn with no notes.
fn silent(state: u8) -> Stepped<u8, Word> {
    Stepped {
        state,
        out: Out::none(),
    }
}

/// Puts turns of each form, as far as there is memory for them.
fn put(turns: &mut Turns<u8, Word>) {
    if turns.has_room() {
        turns.push_silent(1);
    }
    if turns.has_room() {
        turns.push(&turn(2, 6, 7));
    }
    if turns.has_room() {
        turns.push_to_others(3, 3, 1, Word(5));
    }
    if turns.has_room() {
        turns.push_short(&turn(4, 8, 8));
    }
    if turns.has_room() {
        turns.push_short(&turn(5, 8, 9));
    }
    if turns.has_room() {
        turns.push_short(&silent(6));
    }
    if turns.has_room() {
        turns.push(&silent(7));
    }
}

/// Whether the turn at a place is this one.
fn is_at(turns: &Turns<u8, Word>, place: usize, turn: &Stepped<u8, Word>) -> bool {
    place < turns.len() && turns.turn(place) == *turn
}

#[test]
fn kept_turns_are_told_whole(rt: HostRuntime) {
    let mut turns = Turns::with_capacity(rt.alloc(), 7).expect(&rt, "memory");
    put(&mut turns);
    agrees(&rt, turns.len() == 7 && !turns.has_room(), "seven turns");
    agrees(&rt, is_at(&turns, 0, &silent(1)), "no notes");
    agrees(&rt, is_at(&turns, 1, &turn(2, 6, 7)), "two notes");
    agrees(
        &rt,
        is_at(&turns, 2, &turn(3, 5, 5)),
        "a note to all others",
    );
    agrees(&rt, is_at(&turns, 3, &turn(4, 8, 8)), "one note to two");
    agrees(&rt, is_at(&turns, 4, &turn(5, 8, 9)), "two notes, compared");
    agrees(&rt, is_at(&turns, 5, &silent(6)), "no notes, compared");
    agrees(&rt, is_at(&turns, 6, &silent(7)), "no notes, looked at");
}
