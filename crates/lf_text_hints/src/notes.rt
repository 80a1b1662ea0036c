//! Forms of notes.

use crate::events::note_name;
use crate::kinds::read_kind;
use lf_diagnostics::{
    Class, NAME, Reader, Stop, Words, behind, first_named, is_number, is_of_word,
};
use lf_texts::is_name;

/// Reads a form of notes, the one with this number among those of the file, from 0.
pub(crate) fn read_form(reader: &Reader<'_>, number: usize) -> Result<(), Stop> {
    note_name(reader)?;
    if is_before(reader, number) {
        return Err(Stop::at(0, Words::of("a note before it has this name")));
    }
    if reader.is_end(1) {
        return Ok(());
    }
    let mut at = reader.past(1, "(")?;
    for _ in reader.pieces {
        at = read_field(reader, at)?;
        if reader.piece(at) != "," {
            break;
        }
        at = behind(at);
    }
    let end = reader.closed_list(1, at, ")")?;
    if reader.is_end(end) {
        Ok(())
    } else {
        Err(Stop::at(end, Words::of("nothing may follow the fields of a note")))
    }
}

/// Whether one of so many first notes has the name of this one.
fn is_before(reader: &Reader<'_>, number: usize) -> bool {
    let mut left = number;
    for known in reader.names {
        if known.class == Class::Note && 0 < left {
            left = left.saturating_sub(1);
            if known.name == reader.piece(0) {
                return true;
            }
        }
    }
    false
}

/// Reads a field: its name and its kind; and gives the number of the piece behind.
fn read_field(reader: &Reader<'_>, at: usize) -> Result<usize, Stop> {
    let name = reader.piece(at);
    if !is_name(name) {
        return Err(no_field(reader, at));
    }
    for (i, piece) in reader.pieces.iter().enumerate().take(at) {
        if piece.text == name && reader.piece(behind(i)) == ":" {
            return Err(Stop::at(at, Words::of("two fields have this name")));
        }
    }
    if reader.piece(behind(at)) != ":" {
        let words = Words::of(format_args!(
            "the kind of the field is missing behind it: `{name}: 0..9`, say, or `{name}: flag`"
        ));
        return Err(Stop::at(at, words));
    }
    read_kind(reader, behind(behind(at)))
}

/// Why a piece is no name of a field.
fn no_field(reader: &Reader<'_>, at: usize) -> Stop {
    let piece = reader.piece(at);
    if reader.is_end(at) {
        let last = at.saturating_sub(1);
        return Stop::at(
            last,
            Words::of("nothing stands behind it; a field has to, such as `yes: flag`"),
        );
    }
    if piece == ")" {
        let words = "a note without fields has no brackets; a field is `name: kind`";
        return Stop::at(at, Words::of(words));
    }
    match first_named(reader.names, piece) {
        None if piece.starts_with(is_of_word) && !is_number(piece) => {
            Stop::at(at, Words::of(NAME))
        }
        _ => Stop::at(
            at,
            Words::of("a field has to stand there, such as `yes: flag`"),
        ),
    }
}
