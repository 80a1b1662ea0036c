//! Places as they are shown to a person.

use crate::found::{rule_at, text_at};
use crate::hint::{Hint, LONGEST_PART};
use crate::place::{Place, place_of};
use std::fmt::InlineText;
use toml::Table;

/// How many bytes of whose rule it is, and of what it is on, are shown at most.
const LONGEST_TEXT: usize = 40;

/// A place as it is shown: of a rule or a part of one, whose rule it is and what it is on are told too, for whoever doesn't count rules.
pub fn titled(table: &Table, place: &Place<'_>) -> Hint {
    let title = Hint::of(place.text);
    let Some(number) = place.entry else {
        return title;
    };
    if place.section != "rules" {
        return title;
    }
    let Some(rule) = rule_at(table, number) else {
        return title;
    };
    let (own_who, own_on) = match place.part {
        Some("who") => ("", text_at(rule, "on")),
        Some("on") => (text_at(rule, "who"), ""),
        _ => (text_at(rule, "who"), text_at(rule, "on")),
    };
    let (who, on) = (shown(own_who), shown(own_on));
    let parts = match (own_who, own_on) {
        ("", "") => return title,
        ("", _) => Hint::of(format_args!(" (on = {})", on.as_str())),
        (_, "") => Hint::of(format_args!(" (who = {})", who.as_str())),
        _ => Hint::of(format_args!(" (who = {}, on = {})", who.as_str(), on.as_str())),
    };
    title.and_str(parts.as_str(), LONGEST_PART)
}

/// The place that a title begins with, which is shown as the whole title. No place has a blank in it.
pub fn place_under(title: &str) -> Place<'_> {
    let place = match title.split_once(' ') {
        Some((place, _rule)) => place,
        None => title,
    };
    Place {
        text: title,
        ..place_of(place)
    }
}

/// A text of a rule in short, as the file has it.
fn shown(text: &str) -> InlineText<LONGEST_TEXT> {
    InlineText::of(format_args!("{:?}", text.trim()))
}
