//! The names of a protocol file, and what each stands for.

use crate::found::{items_at, table_at, text_of};
use crate::named::{Class, Known, first_named};
use std::alloc::{AllocError, Global};
use toml::Table;

/// All names that a file declares, in the order in which they are read. The error, also below, is that memory has run out.
pub fn names_of<'a>(alloc: Global, table: &'a Table) -> Result<Vec<Known<'a>>, AllocError> {
    let mut names = Vec::new(alloc);
    put_entries(&mut names, table, "given", Class::Constant)?;
    put_state(&mut names, table)?;
    put_notes(&mut names, table)?;
    put_entries(&mut names, table, "lets", Class::Let)?;
    put_entries(&mut names, table, "facts", Class::Fact)?;
    Ok(names)
}

/// Puts the variables behind the other names, each with its words.
fn put_state<'a>(names: &mut Vec<Known<'a>>, table: &'a Table) -> Result<(), AllocError> {
    let Some(entries) = table_at(table, "state") else {
        return Ok(());
    };
    for (key, value) in entries.iter() {
        let text = text_of(value);
        let class = if is_table(text) {
            Class::Table
        } else if is_flag(entries, text) {
            Class::Flag
        } else {
            Class::Variable
        };
        names.push(Known::new(key.as_str(), class, ""))?;
        put_words(names, key.as_str(), kind_in(text))?;
    }
    Ok(())
}

/// Whether a variable is a table, by its text.
fn is_table(text: &str) -> bool {
    text.trim_start().starts_with('[')
}

/// What the text of a variable says of each of its cells: what stands behind its square brackets, where it has some.
fn kind_in(text: &str) -> &str {
    if !is_table(text) {
        return text;
    }
    match text.split_once(']') {
        Some((_places, kind)) => kind,
        None => "",
    }
}

/// Whether a variable that is no table is a flag, by its text or that of the variable whose name it is.
fn is_flag(entries: &Table, text: &str) -> bool {
    let text = text.trim();
    match entries.get(text) {
        Some(other) => kind_in(text_of(other)).trim() == FLAG,
        None => text == FLAG,
    }
}

/// The kind of flags.
const FLAG: &str = "flag";

/// Puts the words of a variable behind the other names, where its text has some.
fn put_words<'a>(
    names: &mut Vec<Known<'a>>,
    variable: &'a str,
    text: &'a str,
) -> Result<(), AllocError> {
    if !text.contains("|") {
        return Ok(());
    }
    for word in text.split('|') {
        names.push(Known::new(word.trim(), Class::Word, variable))?;
    }
    Ok(())
}

/// Puts the names of the notes behind the other names.
fn put_notes<'a>(names: &mut Vec<Known<'a>>, table: &'a Table) -> Result<(), AllocError> {
    for item in items_at(table, "notes") {
        let text = text_of(item);
        names.push(Known::new(head_of(text), Class::Note, text))?;
    }
    Ok(())
}

/// Puts the names of a section behind the other names.
fn put_entries<'a>(
    names: &mut Vec<Known<'a>>,
    table: &'a Table,
    section: &str,
    class: Class,
) -> Result<(), AllocError> {
    let Some(entries) = table_at(table, section) else {
        return Ok(());
    };
    for (key, _value) in entries.iter() {
        names.push(Known::new(key.as_str(), class, ""))?;
    }
    Ok(())
}

/// Puts the sender and the fields of the note behind the other names that a rule with this event is on.
pub fn put_fields<'a>(names: &mut Vec<Known<'a>>, on: &'a str) -> Result<(), AllocError> {
    match first_named(names.as_slice(), head_of(on)) {
        Some(note) if note.class == Class::Note => {}
        _ => return Ok(()),
    }
    names.push(Known::new("sender", Class::Field, ""))?;
    for name in inside_of(on).unwrap_or("").split(',') {
        names.push(Known::new(name.trim(), Class::Field, ""))?;
    }
    Ok(())
}

/// What stands before the first bracket of a text.
pub fn head_of(text: &str) -> &str {
    match text.split_once('(') {
        Some((head, _inside)) => head.trim(),
        None => text.trim(),
    }
}

/// What stands in the first bracket of a text. None where there is none.
pub fn inside_of(text: &str) -> Option<&str> {
    let (_head, behind) = text.split_once('(')?;
    match behind.split_once(')') {
        Some((inside, _rest)) => Some(inside),
        None => Some(behind),
    }
}

/// How many fields the text of a note or an event has.
pub fn fields_in(text: &str) -> usize {
    match inside_of(text) {
        Some(inside) if !inside.trim().is_empty() => inside.split(',').count(),
        _ => 0,
    }
}
