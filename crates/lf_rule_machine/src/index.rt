//! Which chains of rules each node goes through at each event, worked out once.

ghost use Rattle.std.specs.Prelude.{◌≡◌, ◌<◌, IfOk, map};
ghost use Rattle.lf_rule_machine.specs.Indexes.{event_at, number_of, row_at, rows_of, row_for};

use crate::chosen;
use crate::constants::constants_at;
use lf_rules::{Definition, Event};
use std::alloc::{AllocError, Global};

/// How many rows there are: for each of 8 nodes one for each of 4 events without a note, and one for each of 16 forms of notes.
const ROWS: usize = 160;

/// The chains that each node goes through at each event: a row for each event's number and node.
pub(crate) fn rows(
    alloc: Global,
    definition: &Definition,
    nodes: u32,
    given: &[[u8; 16]; 8],
) -> Result<Vec<Vec<usize>>, AllocError>
    ensures { IfOk result (λ rows. map (λ row. row.items) rows.items ≡ rows_of definition.now nodes given.now) }
{
    let mut rows = Vec::new(alloc);
    for place in 0..ROWS {
        let row = row_at(alloc, definition, nodes, given, place)?;
        rows.push(row)?;
    }
    Ok(rows)
}

/// The row at a place.
fn row_at(
    alloc: Global,
    definition: &Definition,
    nodes: u32,
    given: &[[u8; 16]; 8],
    place: usize,
) -> Result<Vec<usize>, AllocError>
    requires { place < 160 }
    ensures { IfOk result (λ row. row.items ≡ row_at definition.now nodes given.now place) }
{
    let node = (place % 8) as u32;
    let constants = constants_at(given, node);
    chosen(
        alloc,
        definition,
        nodes,
        node,
        &constants,
        event_at(place / 8),
    )
}

/// The event with a number.
fn event_at(number: usize) -> Event
    requires { number < 20 }
    ensures { result ≡ event_at number }
{
    match number {
        0 => Event::Start,
        1 => Event::Wake,
        2 => Event::Begin,
        3 => Event::End,
        _ => Event::Note((number - 4) as u8),
    }
}

/// An event's number.
fn number_of(event: Event) -> usize
    ensures value { result ≡ number_of event }
    ensures small { result < 260 }
{
    match event {
        Event::Start => 0,
        Event::Wake => 1,
        Event::Begin => 2,
        Event::End => 3,
        Event::Note(form) => usize::from(form) + 4,
    }
}

/// The row for a node and an event, and none where there is no such node, or no such form of notes.
pub(crate) fn row_for(rows: &[Vec<usize>], node: u32, event: Event) -> &[usize]
    ensures { result.now ≡ row_for (map (λ row. row.items) rows.now) node event }
{
    if 8 <= node {
        return &[];
    }
    match rows.get(number_of(event) * 8 + node as usize) {
        Some(row) => row.as_slice(),
        None => &[],
    }
}
