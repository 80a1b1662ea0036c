//! What is wrong with the outcome of a scenario.

use crate::known::{known_in, reading_in};
use crate::names::{meant, outcomes};
use lf_diagnostics::{Spot, place_of, text_in};
use lf_grammar::{TokenError, read_tokens};
use lf_promises::{Promise, PromiseError, read_promise};
use lf_protocol_file::ProtocolFile;
use lf_rules::Scope;
use lf_text_hints::{large_hint, text_hint};
use std::alloc::{AllocError, Global};
use toml::Table;

/// What is wrong with the text at the key `outcome`, which is refused. The error, also below, is that memory has run out.
pub(crate) fn outcome_hint(
    alloc: Global,
    source: &[u8],
    table: &Table,
    file: &ProtocolFile,
) -> Result<String, AllocError> {
    let text = text_in(table, "outcome");
    for outcome in file.outcomes() {
        if outcome.name.as_str() == text {
            return large_hint(alloc, table, text, &outcome.promise);
        }
    }
    if is_one_word(text) {
        return name_hint(alloc, text, file);
    }
    match wrong_in(alloc, source, file, text)? {
        Some(hint) => Ok(hint),
        None => match promise_in(alloc, file, text)? {
            Some(promise) => large_hint(alloc, table, text, &promise),
            None => name_hint(alloc, text, file),
        },
    }
}

/// Where the reading of a text as an outcome stops, and why. None where that can't be told.
fn wrong_in(
    alloc: Global,
    source: &[u8],
    file: &ProtocolFile,
    text: &str,
) -> Result<Option<String>, AllocError> {
    let names = known_in(alloc, file)?;
    let reading = reading_in(file, Scope::Who);
    text_hint(
        alloc,
        source,
        &place_of("outcome"),
        Spot::Outcome,
        names.as_slice(),
        &reading,
        text,
    )
}

/// Whether a text is a single word.
fn is_one_word(text: &str) -> bool {
    !text.trim().contains(" ") && !text.contains("(")
}

/// That a text is no outcome's name, and no outcome itself.
fn name_hint(alloc: Global, text: &str, file: &ProtocolFile) -> Result<String, AllocError> {
    let name = file.name();
    let names = outcomes(alloc, file)?;
    let instead = meant(alloc, text, names.as_slice())?;
    format!(in alloc;
        "outcome = {text:?}: neither an outcome of `{name}` nor a text in its words{instead}"
    )
}

/// The promise that a text is. None where it is none.
fn promise_in(
    alloc: Global,
    file: &ProtocolFile,
    text: &str,
) -> Result<Option<Promise>, AllocError> {
    let tokens = match read_tokens(alloc, text.as_bytes()) {
        Ok(tokens) => tokens,
        Err(TokenError::Memory) => return Err(AllocError),
        Err(_) => return Ok(None),
    };
    match read_promise(alloc, &reading_in(file, Scope::Who), tokens.as_slice()) {
        Ok(promise) => Ok(Some(promise)),
        Err(PromiseError::Unfit(_)) => Ok(None),
        Err(PromiseError::Memory) => Err(AllocError),
    }
}
