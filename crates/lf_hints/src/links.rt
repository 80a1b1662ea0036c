//! What is wrong with the tables of links.

use crate::hint::{Hint, Way, Words, item_of, onward, said};
use crate::keys::unknown_in_link;
use crate::takes::{
    LEAST, SPREAD, at, missing, number_at, numbers, other_kind, unfit, value_hint, whole_at,
};
use lf_scenario::Key;
use std::alloc::{AllocError, Global};
use toml::{Table, Value};

/// All whole numbers.
const ANY: (i64, i64) = (i64::MIN, i64::MAX);

/// What is wrong first with the links of a scenario's table. The error, also below, is that memory has run out.
pub(crate) fn links_hint(
    alloc: Global,
    text: &[u8],
    table: &Table,
) -> Result<Option<Hint>, AllocError> {
    let nodes = (0, number_at(table, Key::Nodes).saturating_sub(1));
    let Some(Value::Array(items)) = at(table, Key::Links.name()) else {
        return Ok(value_hint(table, Key::Links));
    };
    let links = items.as_slice();
    let other = other_kind(Key::Links, links, "table", "a table with from and to");
    if other.is_some() {
        return Ok(other);
    }
    wrong_in_links(alloc, text, links, nodes)
}

/// What is wrong first with a list of links, among these nodes.
fn wrong_in_links(
    alloc: Global,
    text: &[u8],
    items: &[Value],
    nodes: (i64, i64),
) -> Result<Option<Hint>, AllocError> {
    for (i, item) in items.iter().enumerate() {
        if let Value::Table(link) = item {
            let unknown = unknown_in_link(alloc, text, link, i)?;
            let found = unknown.or(wrong_in_link(items, i, link, nodes));
            if found.is_some() {
                return Ok(found);
            }
        }
    }
    Ok(None)
}

/// What is wrong first with the link at a place, but for its keys. What is missing or of the wrong kind comes before an end that is no
/// node.
fn wrong_in_link(items: &[Value], place: usize, link: &Table, nodes: (i64, i64)) -> Option<Hint> {
    let way = item_of(Way::of("links"), place);
    let node = numbers("a node", nodes);
    wrong_end(way, link, "from", ANY, node)
        .or(wrong_end(way, link, "to", ANY, node))
        .or(wrong_delay(way, link, "least", LEAST))
        .or(wrong_delay(way, link, "spread", SPREAD))
        .or(wrong_end(way, link, "from", nodes, node))
        .or(wrong_end(way, link, "to", nodes, node))
        .or(wrong_in_ends(items, place, link))
}

/// What is wrong with an end of the link at a way, where it has to be of a range.
fn wrong_end(way: Way, link: &Table, name: &str, range: (i64, i64), wanted: Words) -> Option<Hint> {
    let way = onward(onward(way, "."), name);
    match at(link, name) {
        Some(value) => unfit(way, value, range, wanted.as_str()),
        None => missing(way, wanted.as_str()),
    }
}

/// What is wrong with the number at a key, where one stands there.
fn wrong_delay(way: Way, link: &Table, name: &str, range: (i64, i64)) -> Option<Hint> {
    let value = at(link, name)?;
    let wanted = numbers("a whole number", range);
    unfit(
        onward(onward(way, "."), name),
        value,
        range,
        wanted.as_str(),
    )
}

/// What is wrong with the two ends of the link at a place, where both are nodes.
fn wrong_in_ends(items: &[Value], place: usize, link: &Table) -> Option<Hint> {
    let (from, to) = ends_of(link)?;
    let ends = Words::of(format_args!("links[{place}], from = {from} and to = {to}"));
    if from == to {
        return Some(said(ends.as_str(), "two different nodes"));
    }
    match first_with(items, from, to) {
        Some(earlier) if earlier < place => {
            let words = Words::of(format_args!("links[{earlier}] is of these two already"));
            Some(said(ends.as_str(), words.as_str()))
        }
        _ => None,
    }
}

/// The place of the first link with these ends.
fn first_with(items: &[Value], from: i64, to: i64) -> Option<usize> {
    for (i, item) in items.iter().enumerate() {
        if let Value::Table(link) = item {
            if ends_of(link) == Some((from, to)) {
                return Some(i);
            }
        }
    }
    None
}

/// The two ends of a link, where they are numbers.
fn ends_of(link: &Table) -> Option<(i64, i64)> {
    match (whole_at(link, "from"), whole_at(link, "to")) {
        (Some(from), Some(to)) => Some((from, to)),
        _ => None,
    }
}
