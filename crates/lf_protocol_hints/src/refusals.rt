//! What is wrong with the text of a protocol file.

use crate::unfit::unfit_hint;
use lf_diagnostics::{
    kind_hint, limit_hint, missing_hint, place_of, place_under, titled, unknown_hint,
};
use lf_hints::toml_hint;
use lf_protocol_file::{LONGEST, ProtocolError};
use std::alloc::{AllocError, Global};
use toml::Table;

/// What is wrong with a text that `read_protocol` refuses with this error: its place, what stands there, and what may; and under that the line
/// where it stands, where that is known. There is no last line feed. The error here, also below, is that memory has run out.
pub fn protocol_hint(
    alloc: Global,
    text: &[u8],
    error: &ProtocolError,
) -> Result<String, AllocError> {
    match error.number() {
        1 => format!(in alloc; "the protocol is longer than {LONGEST} bytes: its comments count"),
        8 => Err(AllocError),
        number => match toml::table_from_slice(alloc, text) {
            Ok(table) => table_hint(alloc, text, &table, number, error),
            Err(fault) => toml_hint(alloc, text, &fault),
        },
    }
}

/// What is wrong with the table of a text.
fn table_hint(
    alloc: Global,
    text: &[u8],
    table: &Table,
    number: u32,
    error: &ProtocolError,
) -> Result<String, AllocError> {
    let Some(path) = error.place() else {
        return Ok(String::new(alloc));
    };
    let shown = format!(in alloc; "{path}")?;
    let title = titled(table, &place_of(shown.as_str()));
    let place = place_under(title.as_str());
    let hint = match number {
        3 => missing_hint(&place),
        4 => unknown_hint(alloc, table, &place)?,
        5 => kind_hint(table, &place),
        6 => return limit_hint(alloc, text, table, &place),
        _ => return unfit_hint(alloc, text, table, &place),
    };
    String::from_str(alloc, hint.as_str())
}
