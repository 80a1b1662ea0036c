//! What is wrong with the constants that a scenario gives anew.

use crate::names::{constants, meant};
use crate::nodes::nodes_hint;
use lf_protocol_file::ProtocolFile;
use lf_rules::{Given, Sort};
use std::alloc::{AllocError, Global};
use toml::{Table, Value};

/// What a value of this sort is, in words.
fn kind_words(sort: Sort) -> &'static str {
    match sort {
        Sort::Number => "a whole number from 0 to 255",
        Sort::Truth => "true or false",
        Sort::Nodes => "a text that is a set of nodes, such as \"{1..}\"",
        Sort::Word(_) => "a word",
    }
}

/// What is wrong with the value at the key `given`. The error, also below, is that memory has run out.
pub(crate) fn given_hint(
    alloc: Global,
    source: &[u8],
    table: &Table,
    file: &ProtocolFile,
) -> Result<String, AllocError> {
    let given = match table.get("given") {
        Some(Value::Table(given)) => given,
        Some(_) => {
            return String::from_str(
                alloc,
                "given: a table of constants, as `given = { patience = 3 }`",
            );
        }
        None => return left_hint(alloc, table, file),
    };
    let names = constants(alloc, file)?;
    for (name, _value) in given.iter() {
        if !names.contains(&name.as_str()) {
            let instead = meant(alloc, name.as_str(), names.as_slice())?;
            let protocol = file.name();
            return format!(in alloc; "given.{name}: `{protocol}` has no such constant{instead}");
        }
    }
    for constant in file.definition().given.as_slice() {
        let name = constant.name.as_str();
        if let Some(value) = given.get(name) {
            if let Some(words) = value_hint(alloc, table, constant.sort, value)? {
                return format!(in alloc; "given.{name} = {value}: {words}");
            }
            if let Some(hint) = nodes_hint(alloc, source, file, name, value)? {
                return Ok(hint);
            }
        }
    }
    left_hint(alloc, table, file)
}

/// Why a value can't be that of a constant, where that shows from outside.
fn value_hint(
    alloc: Global,
    table: &Table,
    sort: Sort,
    value: &Value,
) -> Result<Option<String>, AllocError> {
    let wanted = kind_words(sort);
    match value {
        Value::Array(items) => {
            if !is_length(table, items.len()) {
                let text = format!(in alloc;
                    "a list has an item for each node, {} here",
                    nodes(table)
                )?;
                return Ok(Some(text));
            }
            for item in items.as_slice() {
                if !may_be(sort, item) {
                    return Ok(Some(format!(in alloc; "each item is {wanted}")?));
                }
            }
            Ok(None)
        }
        one if may_be(sort, one) => Ok(None),
        _ => Ok(Some(format!(in alloc; "{wanted}, or a list with one for each node")?)),
    }
}

/// How many nodes the scenario has, as far as it says so.
fn nodes(table: &Table) -> i64 {
    match table.get("nodes") {
        Some(Value::Integer(nodes)) => *nodes,
        _ => 0,
    }
}

/// Whether there are as many nodes as this.
fn is_length(table: &Table, length: usize) -> bool {
    match i64::try_from(length) {
        Ok(length) => length == nodes(table),
        Err(_) => false,
    }
}

/// Whether a value may be one of this sort, by its kind and its range.
fn may_be(sort: Sort, value: &Value) -> bool {
    match (sort, value) {
        (Sort::Number, Value::Integer(number)) => 0 <= *number && *number <= 255,
        (Sort::Truth, Value::Boolean(_)) | (Sort::Nodes, Value::String(_)) => true,
        _ => false,
    }
}

/// What is wrong where all that is given anew looks right: a list of the file's own that doesn't fit, or a division by 0.
fn left_hint(alloc: Global, table: &Table, file: &ProtocolFile) -> Result<String, AllocError> {
    for constant in file.definition().given.as_slice() {
        if let Given::Each(values) = &constant.value {
            let (length, name) = (values.as_slice().len(), constant.name.as_str());
            if !is_length(table, length) {
                let nodes = nodes(table);
                return format!(in alloc;
                    "given.{name}: the file gives a list of {length}, and there are {nodes} nodes; give it anew"
                );
            }
        }
    }
    String::from_str(
        alloc,
        "given: a number is 0 by which a rule, a fact or a let divides",
    )
}
