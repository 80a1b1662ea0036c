//! What is told of a protocol file that is read.

use crate::counts::summary;
use crate::warnings::put_warnings;
use lf_protocol_file::ProtocolFile;
use std::alloc::{AllocError, Global};

/// What a protocol file has, a line for each kind of thing, and then a line for each thing in it that looks like a slip. The last line has
/// no line feed. The error is that memory has run out.
pub fn protocol_notes(alloc: Global, file: &ProtocolFile) -> Result<String, AllocError> {
    let definition = file.definition();
    let outcomes = file.outcomes();
    let mut text = summary(alloc, file.name(), definition, outcomes)?;
    put_warnings(&mut text, definition, outcomes)?;
    Ok(text)
}
