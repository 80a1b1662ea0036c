//! Names of a protocol file, in words.

use lf_protocol_file::ProtocolFile;
use lf_words::nearest;
use std::alloc::{AllocError, Global};

/// The names of a file's constants. The error, also below, is that memory has run out.
pub(crate) fn constants<'a>(
    alloc: Global,
    file: &'a ProtocolFile,
) -> Result<Vec<&'a str>, AllocError> {
    let mut names = Vec::new(alloc);
    for constant in file.definition().given.as_slice() {
        names.push(constant.name.as_str())?;
    }
    Ok(names)
}

/// The names of a file's outcomes.
pub(crate) fn outcomes<'a>(
    alloc: Global,
    file: &'a ProtocolFile,
) -> Result<Vec<&'a str>, AllocError> {
    let mut names = Vec::new(alloc);
    for outcome in file.outcomes() {
        names.push(outcome.name.as_str())?;
    }
    Ok(names)
}

/// The name that is meant by a word, as a question, or else all names; nothing where there is no name.
pub(crate) fn meant(alloc: Global, word: &str, names: &[&str]) -> Result<String, AllocError> {
    if let Some(near) = nearest(alloc, word, names)? {
        return format!(in alloc; "; did you mean `{near}`?");
    }
    let mut text = String::new(alloc);
    for name in names {
        text.push_str(if text.is_empty() {
            ": there are `"
        } else {
            "`, `"
        })?;
        text.push_str(name)?;
    }
    if !text.is_empty() {
        text.push('`')?;
    }
    Ok(text)
}
