//! Sets of nodes that a scenario gives anew.

use crate::known::{known_in, reading_in};
use lf_diagnostics::{Spot, place_of};
use lf_protocol_file::ProtocolFile;
use lf_rules::Scope;
use lf_text_hints::text_hint;
use std::alloc::{AllocError, Global};
use toml::Value;

/// What is wrong with the first text that is no set of nodes of what a constant is given as anew, and under that its line. None where there is
/// no such text. The error, also below, is that memory has run out.
pub(crate) fn nodes_hint(
    alloc: Global,
    source: &[u8],
    file: &ProtocolFile,
    constant: &str,
    value: &Value,
) -> Result<Option<String>, AllocError> {
    let Value::Array(items) = value else {
        return set_hint(alloc, source, file, constant, value);
    };
    for item in items.as_slice() {
        let hint = set_hint(alloc, source, file, constant, item)?;
        if hint.is_some() {
            return Ok(hint);
        }
    }
    Ok(None)
}

/// Why a text is no set of nodes. None where it is one, or no text.
fn set_hint(
    alloc: Global,
    source: &[u8],
    file: &ProtocolFile,
    constant: &str,
    value: &Value,
) -> Result<Option<String>, AllocError> {
    let Value::String(text) = value else {
        return Ok(None);
    };
    let names = known_in(alloc, file)?;
    let reading = reading_in(file, Scope::Given);
    let shown = format!(in alloc; "given.{constant}")?;
    text_hint(
        alloc,
        source,
        &place_of(shown.as_str()),
        Spot::Given,
        names.as_slice(),
        &reading,
        text.as_str(),
    )
}
