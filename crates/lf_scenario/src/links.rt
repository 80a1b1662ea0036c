//! The tables of links.

ghost use Rattle.std.specs.Prelude.{ℕ, ◌≡◌, ◌≢◌, ◌<◌, ◌≤◌, [], All, length, slice_index_or, IfOk, IfErr};
ghost use Rattle.toml.specs.View.{view, table_view, array_view};
ghost use Rattle.lf_latency.specs.Links.{IsLinks};
ghost use Rattle.lf_scenario.specs.Values.{optional};
ghost use Rattle.lf_scenario.specs.LinkTables.{all_tables, link_keys, end_in, end_at, delay_at, is_given};
ghost use Rattle.lf_scenario.specs.LinkTables.{joined, link_in, links_from, links_in, links_of, all_links, IsLink};

use crate::value::{at, whole};
use crate::{Key, ScenarioError};
use lf_latency::{Links, is_pair};
use std::alloc::Global;
use toml::value::Array;
use toml::{Table, Value};

/// A link that has delays of its own.
#[derive(Clone, Copy, Debug, PartialEq, Eq)]
pub struct Link {
    pub from: u32,
    pub to: u32,
    pub least: u32,
    pub spread: u32,
}

/// How many nodes there are, and the delays of a link that has none of its own.
#[derive(Clone, Copy)]
pub struct Usual {
    /// How many nodes there are, 2..=8.
    pub nodes: u32,
    /// The fewest steps that a note takes, 1..=16.
    pub least: u32,
    /// How many steps more it may take, 0..=15.
    pub spread: u32,
    ghost some_nodes: { (2 ≤ nodes) × (nodes ≤ 8) },
    ghost some_steps: { (1 ≤ least) × (least ≤ 16) },
    ghost few_more: { spread ≤ 15 },
}

/// Whether each item is a table.
fn all_tables(items: &Array) -> bool
    ensures { result ≡ all_tables (array_view items.now) }
{
    'items: for value in items.iter() {
        match value {
            Value::Table(_) => {}
            _ => return false,
        }
    }
    true
}

/// Refuses a table with a key that links don't have.
#[tactic(auto, unfolding(crate::specs::LinkTables::link_keys))]
fn link_keys(table: &Table) -> Result<(), ScenarioError>
    ensures { result ≡ link_keys (table_view table.now) }
{
    'members: for (key, _value) in table.iter() {
        let name = key.as_str();
        if !(name == "from" || name == "to" || name == "least" || name == "spread") {
            return Err(ScenarioError::UnknownLinkKey);
        }
    }
    Ok(())
}

/// An end of a link, which may be no node.
#[tactic(auto, unfolding(crate::specs::LinkTables::end_at))]
fn end_at(table: &Table, name: &str) -> Result<i64, ScenarioError>
    ensures { result ≡ end_at (table_view table.now) name.now }
{
    match at(table, name) {
        Some(Value::Integer(number)) => Ok(*number),
        Some(_) => Err(ScenarioError::WrongKind(Key::Links)),
        None => Err(ScenarioError::Missing(Key::Links)),
    }
}

/// A delay of a link.
#[tactic(auto, unfolding(crate::specs::LinkTables::delay_at))]
fn delay_at(
    table: &Table,
    name: &str,
    low: u32,
    high: u32,
    default: u32,
) -> Result<u32, ScenarioError>
    requires { (low ≤ default) × (default ≤ high) }
    ensures value { result ≡ delay_at (table_view table.now) name.now low high default }
    ensures within { IfOk result (λ n. (low ≤ n) × (n ≤ high)) }
{
    match at(table, name) {
        Some(value) => whole(value, Key::Links, low, high),
        None => Ok(default),
    }
}

/// Whether there is such a link among some.
fn is_given(links: &[Link], from: u32, to: u32) -> bool
    ensures { result ≡ is_given links.now from to }
{
    links.iter().any(|link| link.from == from && link.to == to)
}

/// The link of these ends, where it is one and no earlier one has the same ends.
#[tactic(auto, unfolding(crate::specs::LinkTables::joined))]
fn joined(
    usual: Usual,
    before: &[Link],
    from: i64,
    to: i64,
    least: u32,
    spread: u32,
) -> Result<Link, ScenarioError>
    requires least { (1 ≤ least) × (least ≤ 16) }
    requires spread { spread ≤ 15 }
    ensures value { result ≡ joined usual.nodes before.now from to least spread }
    ensures link { IfOk result (IsLink usual.nodes) }
{
    let (Ok(from), Ok(to)) = (u32::try_from(from), u32::try_from(to)) else {
        return Err(ScenarioError::Link);
    };
    let is_pair = is_pair(usual.nodes, from, to);
    if is_pair && !is_given(before, from, to) {
        Ok(Link {
            from,
            to,
            least,
            spread,
        })
    } else {
        Err(ScenarioError::Link)
    }
}

/// The link of a table.
#[tactic(auto, unfolding(crate::specs::LinkTables::link_in))]
fn link_in(table: &Table, usual: Usual, before: &[Link]) -> Result<Link, ScenarioError>
    ensures value { result ≡ link_in usual.nodes usual.least usual.spread before.now (table_view table.now) }
    ensures link { IfOk result (IsLink usual.nodes) }
{
    link_keys(table)?;
    let from = end_at(table, "from")?;
    let to = end_at(table, "to")?;
    let least = delay_at(table, "least", 1, 16, usual.least)?;
    let spread = delay_at(table, "spread", 0, 15, usual.spread)?;
    joined(usual, before, from, to, least, spread)
}

/// The links of the tables.
fn links_from(alloc: Global, items: &Array, usual: Usual) -> Result<Vec<Link>, ScenarioError>
    ensures ok { IfOk result (λ links.
        links_from usual.nodes usual.least usual.spread [] (array_view items.now) ≡ Ok links.items) }
    ensures err { IfErr result (λ e. e ≢ ScenarioError.Memory →
        links_from usual.nodes usual.least usual.spread [] (array_view items.now) ≡ Err e) }
    ensures links { IfOk result (λ links. All (IsLink usual.nodes) links.items) }
{
    let mut links = Vec::new(alloc);
    'items: for value in items.iter() {
        match value {
            Value::Table(table) => {
                let link = link_in(table, usual, links.as_slice())?;
                links.push(link).map_err(|_| ScenarioError::Memory)?;
            }
            _ => return Err(ScenarioError::WrongKind(Key::Links)),
        }
    }
    Ok(links)
}

/// The links of the value at the key `links`, and none where there isn't one.
#[tactic(auto, unfolding(crate::specs::Values::optional, crate::specs::LinkTables::links_in))]
fn given_links(alloc: Global, table: &Table, usual: Usual) -> Result<Vec<Link>, ScenarioError>
    ensures ok { IfOk result (λ links. optional (table_view table.now) Key.Links
        (links_in usual.nodes usual.least usual.spread) [] ≡ Ok links.items) }
    ensures err { IfErr result (λ e. e ≢ ScenarioError.Memory → optional (table_view table.now) Key.Links
        (links_in usual.nodes usual.least usual.spread) [] ≡ Err e) }
    ensures links { IfOk result (λ links. All (IsLink usual.nodes) links.items) }
{
    match at(table, Key::Links.name()) {
        Some(Value::Array(items)) if all_tables(items) => links_from(alloc, items, usual),
        Some(_) => Err(ScenarioError::WrongKind(Key::Links)),
        None => Ok(Vec::new(alloc)),
    }
}

/// The delays of all links: those that are given, and the usual ones elsewhere.
fn links_of(usual: Usual, given: &[Link]) -> Links
    requires { All (IsLink usual.nodes) given.now }
    ensures form { IsLinks usual.nodes result }
    ensures value { result ≡ links_of usual.nodes usual.least usual.spread given.now }
{
    let mut delays = Links::new(usual.nodes, usual.least, usual.spread);
    'links: for link in given {
        delays = delays.with(link.from, link.to, link.least, link.spread);
    }
    has_eight_rows(&delays.least);
    has_eight_rows(&delays.spread);
    delays
}

/// The law that a row has eight entries.
fn has_eight_entries(row: &[u32; 8])
    ensures { length row.now ≡ 8 }
{}

/// The law that a table has eight rows of eight entries.
fn has_eight_rows(table: &[[u32; 8]; 8])
    ensures rows { length table.now ≡ 8 }
    ensures entries { (n : ℕ) → n < 8 → length (slice_index_or table.now n []) ≡ 8 }
{
    'rows: for row in table {
        has_eight_entries(row);
    }
}

/// The delays of all links, by the key `links` of the table and the usual ones.
///
/// It is refused where it is no list of tables, and else for the first table with an unknown key, a missing end, an end that is no number, a delay out of
/// range, or ends that aren't two different nodes or are those of an earlier table; or memory has run out.
#[tactic(auto, unfolding(crate::specs::LinkTables::all_links))]
pub fn all_links(alloc: Global, table: &Table, usual: Usual) -> Result<Links, ScenarioError>
    ensures ok { IfOk result (λ links.
        all_links usual.nodes usual.least usual.spread (table_view table.now) ≡ Ok links) }
    ensures err { IfErr result (λ e. e ≢ ScenarioError.Memory →
        all_links usual.nodes usual.least usual.spread (table_view table.now) ≡ Err e) }
    ensures form { IfOk result (IsLinks usual.nodes) }
{
    let given = given_links(alloc, table, usual)?;
    Ok(links_of(usual, given.as_slice()))
}
