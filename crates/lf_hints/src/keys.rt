//! Keys that a scenario or a link doesn't have.

use crate::hint::{Hint, LONGEST_LIST, Way, in_quotes, onward};
use crate::place::line_of;
use crate::takes::{LINK_KEYS, MOVE, is_one_of, key_names, other_key};
use lf_words::nearest;
use std::alloc::{AllocError, Global};
use toml::Table;

/// The first key of a scenario's table that scenarios don't have, with its line in the text. The error, also below, is that memory has
/// run out.
pub(crate) fn unknown_hint(
    alloc: Global,
    text: &[u8],
    table: &Table,
) -> Result<Option<Hint>, AllocError> {
    match other_key(table, &key_names()) {
        Some(name) => {
            let near = nearest(alloc, name, &key_names())?;
            let place = in_line(in_quotes(name).as_str(), line_of(text, name, 0));
            Ok(Some(instead(place, near, "the keys are ", &key_names())))
        }
        None => Ok(None),
    }
}

/// The first key of the link at a place that links don't have, with its line in the text.
pub(crate) fn unknown_in_link(
    alloc: Global,
    text: &[u8],
    link: &Table,
    place: usize,
) -> Result<Option<Hint>, AllocError> {
    let Some(name) = other_key(link, &LINK_KEYS) else {
        return Ok(None);
    };
    let way = Way::of(format_args!("links[{place}]."));
    let way = onward(way, name);
    let place = in_line(way.as_str(), line_of(text, name, place.saturating_add(1)));
    if is_one_of(name, &key_names()) {
        return Ok(Some(place.and(format_args!("a key of the scenario; {MOVE}"), LONGEST_LIST)));
    }
    let near = nearest(alloc, name, &LINK_KEYS)?;
    Ok(Some(instead(place, near, "a link has ", &LINK_KEYS)))
}

/// A key and its line, where that is known.
fn in_line(key: &str, line: Option<usize>) -> Hint {
    match line {
        Some(line) => Hint::of(format_args!("{key}, line {line}: ")),
        None => Hint::of(format_args!("{key}: ")),
    }
}

/// That there is no such key as the one at a place, with the near one, or with all there are.
fn instead(place: Hint, near: Option<&str>, intro: &str, names: &[&str]) -> Hint {
    let hint = place.and_str("no such key; ", LONGEST_LIST);
    if let Some(near) = near {
        return hint.and(format_args!("did you mean `{near}`?"), LONGEST_LIST);
    }
    let mut hint = hint.and_str(intro, LONGEST_LIST);
    let mut comma = "";
    for name in names {
        hint = hint.and(format_args!("{comma}{name}"), LONGEST_LIST);
        comma = ", ";
    }
    hint
}
