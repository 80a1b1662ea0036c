//! Sections with entries or items.

ghost use Rattle.std.specs.Prelude.{◌≡◌, ◌<◌};
ghost use Rattle.toml.specs.View.{view, table_view, items_view};
ghost use Rattle.lf_protocol_file.specs.Readings.{Gives, Reads};
ghost use Rattle.lf_protocol_file.specs.Entries.{entered, with_entry, with_entries, with_table, with_naming, with_item, with_items};
ghost use Rattle.lf_protocol_file.specs.Entries.{with_list, with_listing, is_fit_table, is_fit_list};

use crate::rules::rule_in;
use crate::{
    Draft, Fault, Listing, Naming, Path, ProtocolError, Section, at, with_constant, with_fact,
    with_let, with_note, with_outcome, with_shown, with_sketch,
};
use std::alloc::Global;
use toml::{Table, Value};

/// The draft with the entries of a section, where it is there.
#[tactic(auto, unfolding(crate::specs::Entries::with_naming))]
pub(crate) fn with_naming(
    alloc: Global,
    draft: Draft,
    table: &Table,
    naming: Naming,
) -> Result<Draft, ProtocolError>
    ensures { Reads (with_naming naming draft (table_view table.now)) result }
{
    match at(table, naming.name()) {
        Some(value) => with_table(alloc, draft, naming, value),
        None => if naming.is_needed() {
            Err(ProtocolError::Missing(Path::Section(Section::Naming(naming))))
        } else {
            Ok(draft)
        },
    }
}

/// The draft with the entries of a section, which has to be a table.
fn with_table(
    alloc: Global,
    draft: Draft,
    naming: Naming,
    value: &Value,
) -> Result<Draft, ProtocolError>
    ensures { Reads (with_table naming draft (view value.now)) result }
{
    match value {
        Value::Table(entries) => if is_fit_table(naming, entries) {
            with_entries(alloc, draft, naming, entries)
        } else {
            Err(ProtocolError::PastLimit(Path::Section(Section::Naming(naming))))
        },
        _ => Err(ProtocolError::WrongKind(Path::Section(Section::Naming(naming)))),
    }
}

/// Whether a section may have so many entries.
#[tactic(auto, using(crate::proofs::Counts::counted_members))]
fn is_fit_table(naming: Naming, entries: &Table) -> bool
    ensures { result ≡ is_fit_table naming (table_view entries.now) }
{
    naming.fewest() <= entries.len() && entries.len() <= naming.most()
}

/// Whether a section may have so many items.
#[tactic(auto, using(crate::proofs::Counts::counted_items))]
fn is_fit_list(listing: Listing, items: &[Value]) -> bool
    ensures { result ≡ is_fit_list listing (items_view items.now) }
{
    listing.fewest() <= items.len() && items.len() <= listing.most()
}

/// The draft with all entries of a section, by name.
fn with_entries(
    alloc: Global,
    draft: Draft,
    naming: Naming,
    entries: &Table,
) -> Result<Draft, ProtocolError>
    ensures { Reads (with_entries naming draft (table_view entries.now)) result }
{
    let mut draft = draft;
    'members: for (key, value) in entries.iter() {
        draft = with_entry(alloc, draft, naming, key.as_str(), value)?;
    }
    Ok(draft)
}

/// The draft with an entry of a section.
fn with_entry(
    alloc: Global,
    draft: Draft,
    naming: Naming,
    key: &str,
    value: &Value,
) -> Result<Draft, ProtocolError>
    ensures { Reads (with_entry naming draft key.now (view value.now)) result }
{
    match entered(alloc, draft, naming, key, value) {
        Ok(draft) => Ok(draft),
        Err(fault) => Err(fault.at_entry(alloc, naming, key)),
    }
}

/// The draft with an entry of a section, or what is wrong with it.
fn entered(
    alloc: Global,
    draft: Draft,
    naming: Naming,
    key: &str,
    value: &Value,
) -> Result<Draft, Fault>
    ensures { Gives (entered naming draft key.now (view value.now)) result }
{
    match naming {
        Naming::Given => with_constant(alloc, draft, key, value),
        Naming::State => with_sketch(alloc, draft, key, value),
        Naming::Lets => with_let(alloc, draft, key, value),
        Naming::Facts => with_fact(alloc, draft, key, value),
        Naming::Outcomes => with_outcome(alloc, draft, key, value),
    }
}

/// The draft with the items of a section, where it is there.
#[tactic(auto, unfolding(crate::specs::Entries::with_listing))]
pub(crate) fn with_listing(
    alloc: Global,
    draft: Draft,
    table: &Table,
    listing: Listing,
) -> Result<Draft, ProtocolError>
    ensures { Reads (with_listing listing draft (table_view table.now)) result }
{
    match at(table, listing.name()) {
        Some(value) => with_list(alloc, draft, listing, value),
        None => if listing.is_needed() {
            Err(ProtocolError::Missing(Path::Section(Section::Listing(listing))))
        } else {
            Ok(draft)
        },
    }
}

/// The draft with the items of a section, which has to be a list.
fn with_list(
    alloc: Global,
    draft: Draft,
    listing: Listing,
    value: &Value,
) -> Result<Draft, ProtocolError>
    ensures { Reads (with_list listing draft (view value.now)) result }
{
    match value {
        Value::Array(items) => if is_fit_list(listing, items.as_slice()) {
            with_items(alloc, draft, listing, items.as_slice())
        } else {
            Err(ProtocolError::PastLimit(Path::Section(Section::Listing(listing))))
        },
        _ => Err(ProtocolError::WrongKind(Path::Section(Section::Listing(listing)))),
    }
}

/// The draft with all items of a section, in order.
fn with_items(
    alloc: Global,
    draft: Draft,
    listing: Listing,
    items: &[Value],
) -> Result<Draft, ProtocolError>
    ensures { Reads (with_items listing draft 0 (items_view items.now)) result }
{
    let mut draft = draft;
    for (i, value) in items.iter().enumerate() {
        draft = with_item(alloc, draft, listing, i + 1, value)?;
    }
    Ok(draft)
}

/// The draft with an item of a section, which has a number.
fn with_item(
    alloc: Global,
    draft: Draft,
    listing: Listing,
    number: usize,
    value: &Value,
) -> Result<Draft, ProtocolError>
    ensures { Reads (with_item listing draft number (view value.now)) result }
{
    match listing {
        Listing::Notes => match with_note(alloc, draft, value) {
            Ok(draft) => Ok(draft),
            Err(fault) => Err(fault.at(Path::Item(Listing::Notes, number))),
        },
        Listing::Rules => rule_in(alloc, draft, number, value),
        Listing::Trace => match with_shown(draft, value) {
            Ok(draft) => Ok(draft),
            Err(fault) => Err(fault.at(Path::Item(Listing::Trace, number))),
        },
    }
}
