//! What is wrong with the text of a certificate.

use crate::hint::{Hint, told};
use crate::nodes::wrong_in_tree;
use crate::place::said_at;
use lf_tree::TreeFault;
use serde_json::{Error, Value};
use std::alloc::{AllocError, Global};

/// What is wrong with a text that `lf_tree`'s `read_tree` refuses with this fault. The error is that memory has run out.
pub fn tree_hint(alloc: Global, text: &[u8], fault: TreeFault) -> Result<String, AllocError> {
    match fault {
        TreeFault::TooLong => format!(in alloc; "{fault}"),
        TreeFault::Memory => Err(AllocError),
        _ => match Value::from_slice(alloc, text) {
            Ok(value) => value_hint(alloc, text, &value),
            Err(error) => json_hint(alloc, error),
        },
    }
}

/// Where a text is no JSON, and why.
fn json_hint(alloc: Global, error: Error) -> Result<String, AllocError> {
    if error.is_memory() {
        return Err(AllocError);
    }
    told(alloc, Some(Hint::of(error)))
}

/// What is wrong with a value that is no tree, or with how the tree is written.
fn value_hint(alloc: Global, text: &[u8], value: &Value) -> Result<String, AllocError> {
    match wrong_in_tree(value) {
        None => {
            let own = value.to_vec(alloc)?;
            told(alloc, Some(spelling_hint(text, own.as_slice())))
        }
        found => told(alloc, found),
    }
}

/// Where a text differs from the one way of writing its tree.
fn spelling_hint(text: &[u8], own: &[u8]) -> Hint {
    let same = common(text, own);
    if same < text.len() || same < own.len() {
        return said_at(
            text,
            same,
            "not as a certificate is written, with its keys in order, and no blank, line feed or escape",
        );
    }
    Hint::of("format: 2 where a fault is a pause, and else 1")
}

/// With how many same bytes two texts begin.
fn common(text: &[u8], own: &[u8]) -> usize {
    for (i, byte) in text.iter().enumerate() {
        if own.get(i) != Some(byte) {
            return i;
        }
    }
    text.len()
}
