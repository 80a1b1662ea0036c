//! Parts of rules that can't stand in their rules.

use lf_diagnostics::{
    Hint, Place, Spot, Told, head_of, in_quotes, is_of_word, rule_at, said, text_at,
};
use lf_grammar::Token;
use lf_texts::{TextError, same_tokens, text_tokens};
use std::alloc::{AllocError, Global};
use toml::{Table, Value};

/// That `else` goes on with no rule, or that nothing can be sent on an event. The error, also below, is that memory has run out.
pub fn misplaced(
    alloc: Global,
    table: &Table,
    place: &Place<'_>,
    text: &str,
) -> Result<Option<Told>, AllocError> {
    let number = place.entry.unwrap_or("");
    let Some(rule) = rule_at(table, number) else {
        return Ok(None);
    };
    let (hint, length) = match Spot::of(place) {
        Spot::When if begins_with_else(text) => {
            (unchained(alloc, table, place, rule, number)?, ELSE.len())
        }
        Spot::Send if is_silent(text_at(rule, "on").trim()) => {
            let words =
                "nothing is sent on `start` and `wake`; a rule on `begin` may send, which comes right behind them";
            (Some(said(place.text, words)), text.trim().chars().count())
        }
        _ => return Ok(None),
    };
    let before = text.len().saturating_sub(text.trim_start().len());
    Ok(match hint {
        Some(hint) => Some(Told {
            hint,
            before,
            length,
        }),
        None => None,
    })
}

/// What a guard that goes on with the rule above begins with.
const ELSE: &str = "else";

/// Whether a text begins with the word `else`.
fn begins_with_else(text: &str) -> bool {
    match text.trim_start().strip_prefix(ELSE) {
        Some(rest) => !rest.starts_with(is_of_word),
        None => false,
    }
}

/// Whether nothing is sent on an event.
fn is_silent(event: &str) -> bool {
    event == "start" || event == "wake"
}

/// Why the rule with a number goes on with none. None where it does go on with the one above it.
fn unchained(
    alloc: Global,
    table: &Table,
    place: &Place<'_>,
    rule: &Value,
    number: &str,
) -> Result<Option<Hint>, AllocError> {
    let above = number.parse::<usize>().unwrap_or(0).saturating_sub(1);
    let shown = Hint::of(above);
    let why = "`else` stands only in a rule right under one with the same event and the same `who`";
    let Some(other) = rule_at(table, shown.as_str()) else {
        let hint = Hint::of(format_args!("{}: {why}; no rule stands above", place.text));
        return Ok(Some(hint));
    };
    if head_of(text_at(rule, "on")) != head_of(text_at(other, "on")) {
        return Ok(Some(differs(place, why, above, "on", rule, other)));
    }
    let own = tokens_of(alloc, text_at(rule, "who"))?;
    let others = tokens_of(alloc, text_at(other, "who"))?;
    Ok(if same_tokens(own.as_slice(), others.as_slice()) {
        None
    } else {
        Some(differs(place, why, above, "who", rule, other))
    })
}

/// That a rule has another text in a part than the one above it.
fn differs(
    place: &Place<'_>,
    why: &str,
    above: usize,
    part: &str,
    rule: &Value,
    other: &Value,
) -> Hint {
    let (own, others) = (text_at(rule, part), text_at(other, part));
    Hint::of(format_args!(
        "{}: {why}; rule {above} has {}, and this one {}",
        place.text,
        part_text(part, others).as_str(),
        part_text(part, own).as_str()
    ))
}

/// A part of a rule as it is written, or that there is none.
fn part_text(part: &str, text: &str) -> Hint {
    if text.is_empty() {
        Hint::of(format_args!("no `{part}`"))
    } else {
        Hint::of(format_args!("{part} = {}", in_quotes(text).as_str()))
    }
}

/// The tokens of a text, and none where it can't be read.
fn tokens_of(alloc: Global, text: &str) -> Result<Vec<Token>, AllocError> {
    match text_tokens(alloc, text) {
        Ok(tokens) => Ok(tokens),
        Err(TextError::Memory) => Err(AllocError),
        Err(_) => Ok(Vec::new(alloc)),
    }
}
