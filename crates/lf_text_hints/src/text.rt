//! What is wrong with a text.

use crate::events::read_event;
use crate::expressions::{read_number_or_set, read_truth};
use crate::kinds::read_state;
use crate::lists::{read_sends, read_sets};
use crate::notes::read_form;
use crate::outcomes::read_outcome;
use crate::shown::shown_stop;
use crate::telling::tell_stop;
use lf_diagnostics::{
    Class, Known, Near, Place, Reader, Spot, Stop, Told, Words, first_named, head_of, inside_of,
    limit_told, put_fields, read_text, with_line,
};
use lf_grammar::Place as Reading;
use lf_rules::Sort;
use std::alloc::{AllocError, Global};

/// What is wrong with a text at a place, where that can be told: `reading` is where it stands among the rules, as far as they are read, and `on` what the
/// rule is on that it is of. The error, also below, is that memory has run out.
pub fn text_told<'a>(
    alloc: Global,
    place: &Place<'_>,
    names: &[Known<'a>],
    reading: &Reading<'_>,
    on: &'a str,
    text: &'a str,
) -> Result<Option<Told>, AllocError> {
    let spot = Spot::of(place);
    let mut known = copy_of(alloc, names)?;
    if spot.is_in_rule() {
        put_fields(&mut known, on)?;
    }
    let read = read_text(alloc, text)?;
    let reader = Reader {
        alloc,
        pieces: read.pieces.as_slice(),
        tokens: read.tokens.as_slice(),
        names: known.as_slice(),
        spot,
        place: reading,
    };
    let stopped = match spot {
        Spot::On => read_event(&reader),
        Spot::Note => read_form(&reader, number_of(place)),
        Spot::State => read_state(&reader, place.entry.unwrap_or("")),
        Spot::Send => read_sends(&reader),
        Spot::Shown => Err(shown_stop(&reader, text)),
        _ => read_expression(&reader),
    };
    match stopped {
        Ok(()) => Ok(None),
        Err(stop) => {
            let stop = without_field(&reader, on, stop);
            Ok(Some(tell_stop(alloc, &reader, place, text, &stop)?))
        }
    }
}

/// The same stop, or, at a word that is no name but that of a field of the note which a rule is on, one that says so.
fn without_field(reader: &Reader<'_>, on: &str, stop: Stop) -> Stop {
    let note = match first_named(reader.names, head_of(on)) {
        Some(known) if known.class == Class::Note && stop.near == Near::Values => known,
        _ => return stop,
    };
    let word = reader.piece(stop.from);
    for field in inside_of(note.of).unwrap_or("").split(',') {
        if field.split_once(':').unwrap_or(("", "")).0.trim() == word {
            let name = note.name;
            return Stop::at(
                stop.from,
                Words::of(format_args!(
                    "a field of {name}, and here it has the name that `on` gives it, such as `{word}` in `on = \"{name}({word})\"`"
                )),
            );
        }
    }
    stop
}

/// What is wrong with an expression or an outcome at a place of a scenario that is for this, where nothing has a name but these, and under that its line:
/// `reading` is where it stands among the rules. None where nothing can be told.
pub fn text_hint<'a>(
    alloc: Global,
    source: &[u8],
    place: &Place<'_>,
    spot: Spot,
    names: &'a [Known<'a>],
    reading: &'a Reading<'a>,
    text: &'a str,
) -> Result<Option<String>, AllocError> {
    let told = match limit_told(alloc, place.text, text)? {
        Some(told) => told,
        None => match expression_told(alloc, place, spot, names, reading, text)? {
            Some(told) => told,
            None => return Ok(None),
        },
    };
    Ok(Some(with_line(alloc, source, place, text, &told)?))
}

/// What is wrong with an expression or an outcome at a place that is for this.
fn expression_told<'a>(
    alloc: Global,
    place: &Place<'_>,
    spot: Spot,
    names: &'a [Known<'a>],
    reading: &'a Reading<'a>,
    text: &'a str,
) -> Result<Option<Told>, AllocError> {
    let read = read_text(alloc, text)?;
    let reader = Reader {
        alloc,
        pieces: read.pieces.as_slice(),
        tokens: read.tokens.as_slice(),
        names,
        spot,
        place: reading,
    };
    match read_expression(&reader) {
        Ok(()) => Ok(None),
        Err(stop) => Ok(Some(tell_stop(alloc, &reader, place, text, &stop)?)),
    }
}

/// The number of a note's place, from 0.
fn number_of(place: &Place<'_>) -> usize {
    let number = place.entry.unwrap_or("").parse::<usize>().unwrap_or(0);
    number.saturating_sub(1)
}

/// The same names.
fn copy_of<'a>(alloc: Global, names: &[Known<'a>]) -> Result<Vec<Known<'a>>, AllocError> {
    let mut copy = Vec::new(alloc);
    for known in names {
        copy.push(*known)?;
    }
    Ok(copy)
}

/// Reads an expression, what a rule sets, or an outcome.
fn read_expression(reader: &Reader<'_>) -> Result<(), Stop> {
    let end = match reader.spot {
        Spot::Set => return read_sets(reader),
        Spot::Outcome => return read_outcome(reader),
        Spot::When if reader.piece(0) == "else" => {
            if reader.is_end(1) {
                return Ok(());
            }
            read_guard(reader, 1)?
        }
        Spot::When | Spot::Fact => read_guard(reader, 0)?,
        Spot::Let => read_truth(reader, 0)?.to,
        _ => {
            let nodes = read_number_or_set(reader, 0)?;
            reader.wants_nodes(
                &nodes,
                "a set of nodes has to stand there, or the number of one",
            )?;
            nodes.to
        }
    };
    if reader.is_end(end) {
        Ok(())
    } else {
        Err(reader.left(end))
    }
}

/// Reads a guard, and gives the number of the piece behind.
fn read_guard(reader: &Reader<'_>, at: usize) -> Result<usize, Stop> {
    let guard = read_truth(reader, at)?;
    if reader.is_end(guard.to) {
        let why = match reader.spot {
            Spot::Fact => "a fact is true or false",
            _ => "a guard is true or false",
        };
        reader.wants(&guard, Sort::Truth, why)?;
    }
    Ok(guard.to)
}
