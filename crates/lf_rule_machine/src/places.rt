//! What stands at a place.

ghost use Rattle.std.specs.Prelude.{◌≡◌, ◌≤◌, slice_get, IfSome};
ghost use Rattle.lf_rule_machine.specs.Moments.{seen};
ghost use Rattle.lf_rule_machine.specs.Places.{index_of, cell_at, item_or, given_at, stands, zero_or};

use crate::{Moment, State};
use lf_rules::{Cells, Row, Table};

/// The number of a table's cell at a place among so many nodes. None where there is no such place.
pub fn cell_at(nodes: u32, table: Table, place: u64) -> Option<usize>
    ensures value { result ≡ cell_at nodes table place }
    ensures small { IfSome result (λ cell. place ≤ 255) }
{
    match index_of(nodes, table.cells, place) {
        Some(k) => Some(table.cell(k)),
        None => None,
    }
}

/// Which of a table's cells stands at a place, from 0 on.
fn index_of(nodes: u32, cells: Cells, place: u64) -> Option<u8>
    ensures value { result ≡ index_of nodes cells place }
    ensures small { IfSome result (λ k. place ≤ 255) }
{
    match cells {
        Cells::One => None,
        Cells::EachNode => {
            if place < u64::from(nodes) && place < 8 {
                Some(place as u8)
            } else {
                None
            }
        }
        Cells::UpTo(most) => {
            if 1 <= place && place <= u64::from(most) {
                Some((place - 1) as u8)
            } else {
                None
            }
        }
    }
}

/// What stands at a place, and 0 where there is no such place.
pub(crate) fn stands(at: &Moment<'_>, state: &State, row: Row, place: u64) -> u64
    ensures value { result ≡ stands (seen at.now) state.now row place }
    ensures small { result ≤ 255 }
{
    match row {
        Row::Table(table) => u64::from(item_or(&state.values, cell_at(at.nodes, table, place))),
        Row::Given(i) => u64::from(given_at(at, i, place)),
    }
}

/// The number of a list at a place, and 0 where there is none.
fn item_or(items: &[u8], place: Option<usize>) -> u8
    ensures { result ≡ item_or items.now place }
{
    match place {
        Some(i) => match items.get(i) {
            Some(item) => *item,
            None => 0,
        },
        None => 0,
    }
}

/// A constant's value at a node, and 0 where there is no such node.
fn given_at(at: &Moment<'_>, i: u8, node: u64) -> u8
    ensures { result ≡ given_at (seen at.now) i node }
{
    if u64::from(at.nodes) <= node {
        return 0;
    }
    let given = at.given;
    match given.get(node as usize) {
        Some(row) => item(row, i),
        None => 0,
    }
}

/// The item of a list with a number, and 0 where there is none.
pub fn item(items: &[u8], i: u8) -> u8
    ensures { result ≡ zero_or (slice_get items.now i) }
{
    match items.get(usize::from(i)) {
        Some(item) => *item,
        None => 0,
    }
}
