//! What is told of where reading stops.

use crate::atoms::VALUES;
use crate::calls::CALLS;
use crate::events::EVENTS;
use crate::kinds::KINDS;
use crate::outcomes::{UNITS, asked_place, is_asked};
use lf_diagnostics::{
    Class, Hint, Known, LONGEST_PART, Near, OPERATORS, Place, Reader, Spot, Stop, Told, Words,
    first_named, meant_by, near_name, said, said_of,
};
use std::alloc::{AllocError, Global};

/// What is told of a stop. The error, also below, is that memory has run out.
pub(crate) fn tell_stop(
    alloc: Global,
    reader: &Reader<'_>,
    place: &Place<'_>,
    text: &str,
    stop: &Stop,
) -> Result<Told, AllocError> {
    if stop.is_full {
        return Err(AllocError);
    }
    let source = reader.source(stop.from, stop.to);
    let hint = if source.is_empty() {
        said(place.text, stop.words.as_str())
    } else {
        said_of(place.text, source, stop.words.as_str())
    };
    let hint = if reader.spot == Spot::Outcome && is_asked(reader, stop.from) {
        with_asked_names(alloc, reader, stop, hint)?
    } else {
        with_names(alloc, reader, stop, hint)?
    };
    let behind = match reader.pieces.get(stop.from) {
        Some(piece) => piece.from.len(),
        None => 0,
    };
    Ok(Told {
        hint,
        before: text.len().saturating_sub(behind),
        length: source.chars().count(),
    })
}

/// The same hint, with the name that may be meant at a stop, or those that may stand there.
fn with_names(
    alloc: Global,
    reader: &Reader<'_>,
    stop: &Stop,
    hint: Hint,
) -> Result<Hint, AllocError> {
    let (denied, word) = parted(stop.near, reader.piece(stop.from));
    Ok(match meant(alloc, reader, stop, word)? {
        Some(meant) => hint.and(
            format_args!("; did you mean `{denied}{meant}`?"),
            LONGEST_PART,
        ),
        None => hint.and_str(listed(reader, stop.near).as_str(), LONGEST_PART),
    })
}

/// The same at a stop in what is to have one value.
fn with_asked_names(
    alloc: Global,
    reader: &Reader<'_>,
    stop: &Stop,
    hint: Hint,
) -> Result<Hint, AllocError> {
    let place = asked_place(reader);
    let inner = Reader {
        spot: Spot::Fact,
        place: &place,
        ..*reader
    };
    with_names(alloc, &inner, stop, hint)
}

/// What stands before the name in a word, and the name: `not_` may stand before a fact's.
fn parted(near: Near, word: &str) -> (&str, &str) {
    match word.strip_prefix("not_") {
        Some(name) if near == Near::Facts => ("not_", name),
        _ => ("", word),
    }
}

/// The names that may stand at a stop, where they are few.
fn listed(reader: &Reader<'_>, near: Near) -> Words {
    let is_few = match near {
        Near::Notes | Near::Events | Near::Variables | Near::Facts => true,
        Near::Values => matches!(reader.spot, Spot::Who | Spot::Given),
        _ => false,
    };
    let mut words = Words::of("");
    for known in reader.names {
        if is_few && may_be(reader, near, known) {
            let before = if words.as_str().is_empty() {
                "; there are "
            } else {
                ", "
            };
            words = words.and(format_args!("{before}{}", known.name), LONGEST_NAME);
        }
    }
    words
}

/// How many bytes a name takes at most that is told, with what stands before it.
const LONGEST_NAME: usize = 40;

/// The word that is meant by one at a stop.
fn meant<'a>(
    alloc: Global,
    reader: &Reader<'a>,
    stop: &Stop,
    word: &str,
) -> Result<Option<&'a str>, AllocError> {
    let close = of_kind(alloc, reader, stop)?;
    if let Some(near) = near_name(alloc, word, close.as_slice())? {
        return Ok(Some(near));
    }
    let names = candidates(alloc, reader, stop.near)?;
    match meant_by(word, names.as_slice()) {
        Some(meant) => Ok(Some(meant)),
        None => near_name(alloc, word, names.as_slice()),
    }
}

/// The names that are of the kind of what a word is compared to.
fn of_kind<'a>(
    alloc: Global,
    reader: &Reader<'a>,
    stop: &Stop,
) -> Result<Vec<&'a str>, AllocError> {
    let mut names = Vec::new(alloc);
    if stop.near != Near::Values || !matches!(reader.before(stop.from), "=" | "!=") {
        return Ok(names);
    }
    let left = reader.before(stop.from.saturating_sub(1));
    if first_named(reader.names, left).is_none() {
        return Ok(names);
    }
    if let Some(compared) = reader.sort_of(left) {
        for known in reader.names {
            if reader.sort_of(known.name) == Some(compared) {
                names.push(known.name)?;
            }
        }
    }
    Ok(names)
}

/// The names that may be meant.
fn candidates<'a>(
    alloc: Global,
    reader: &Reader<'a>,
    near: Near,
) -> Result<Vec<&'a str>, AllocError> {
    let mut names = Vec::new(alloc);
    for known in reader.names {
        if may_be(reader, near, known) {
            names.push(known.name)?;
        }
    }
    match near {
        Near::Values => {
            for value in VALUES {
                if reader.sort_of(value).is_some() {
                    names.push(value)?;
                }
            }
            put(&mut names, &["not"])?;
        }
        Near::Calls => put(&mut names, &CALLS)?,
        Near::Operators => put(&mut names, &OPERATORS)?,
        Near::Facts => put(&mut names, &["clamped", "replaced"])?,
        Near::Units => put(&mut names, &UNITS)?,
        Near::Events => put(&mut names, &EVENTS)?,
        Near::Kinds => put(&mut names, &KINDS)?,
        Near::Word(word) => names.push(word)?,
        Near::Nothing | Near::Notes | Near::Variables => {}
    }
    Ok(names)
}

/// Puts words behind others.
fn put<'a>(names: &mut Vec<&'a str>, words: &[&'static str]) -> Result<(), AllocError> {
    for word in words {
        names.push(*word)?;
    }
    Ok(())
}

/// Whether a name may be meant.
fn may_be(reader: &Reader<'_>, near: Near, known: &Known<'_>) -> bool {
    match near {
        Near::Values => {
            let knows_state = reader.spot.knows_state();
            match known.class {
                Class::Word => knows_state && reader.sort_of(known.name).is_some(),
                Class::Table => knows_state,
                _ => reader.sort_of(known.name).is_some(),
            }
        }
        Near::Facts => reader.is_fact(known),
        Near::Notes | Near::Events => known.class == Class::Note,
        Near::Variables | Near::Kinds => known.class.is_variable(),
        _ => false,
    }
}
