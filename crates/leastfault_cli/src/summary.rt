//! What to say of the lines of a doubt: first what nothing rests on, and then what changes the answer.

use std::alloc::{AllocError, Global};

/// The line of a question, taken apart.
#[derive(Clone, Copy, Drop)]
struct Row<'a> {
    /// What the question is called.
    name: &'a str,
    /// The first line of the reply.
    reply: &'a str,
    /// The faults behind it, with tabs between.
    faults: &'a str,
}

/// What the lines of a doubt come to, in words: what nothing rests on, what may be missed, and what changes the answer.
pub(crate) fn summary_words(alloc: Global, lines: &[u8]) -> Result<String, AllocError> {
    let mut words = String::new(alloc);
    let Ok(text) = std::str::from_utf8(lines) else {
        return Ok(words);
    };
    let Some(given) = text.lines().map(row_of).find(|row| row.name == "given") else {
        return Ok(words);
    };
    write!(words, "the answer is {}", given.reply)?;
    push_unneeded(&mut words, text, given)?;
    push_parts_unneeded(alloc, &mut words, text, given)?;
    push_untaken(&mut words, text)?;
    push_unstaked(&mut words, text)?;
    push_model(&mut words, text)?;
    push_rules_changing(&mut words, text, given)?;
    push_changing(&mut words, text, given)?;
    push_open(&mut words, text)?;
    Ok(words)
}

/// A line, taken apart.
fn row_of(line: &str) -> Row<'_> {
    let (name, rest) = line.split_once('\t').unwrap_or((line, ""));
    let (reply, faults) = rest.split_once('\t').unwrap_or((rest, ""));
    Row {
        name,
        reply,
        faults,
    }
}

/// Whether two replies say the same: `none` whatever the budget, or `least` with as many faults.
fn is_same(one: &str, other: &str) -> bool {
    one == other || (one.starts_with("none ") && other.starts_with("none "))
}

/// Whether a reply is an answer, and not the given one.
fn is_other(reply: &str, given: &str) -> bool {
    (reply.starts_with("none ") || reply.starts_with("least ")) && !is_same(reply, given)
}

/// Says on which rules nothing rests: the answer is the same without them.
fn push_unneeded(words: &mut String, text: &str, given: Row<'_>) -> Result<(), AllocError> {
    let mut is_first = true;
    for line in text.lines() {
        let row = row_of(line);
        let Some(rule) = row.name.strip_suffix(" never") else {
            continue;
        };
        if is_same(row.reply, given.reply) {
            words.push_str(before(is_first, "\nit doesn't rest on these rules: ", ", "))?;
            words.push_str(rule.strip_prefix("rule ").unwrap_or(rule))?;
            is_first = false;
        }
    }
    Ok(())
}

/// What stands before the first, or before another.
fn before<'a>(is_first: bool, first: &'a str, other: &'a str) -> &'a str {
    if is_first { first } else { other }
}

/// Says on which assignments and sends nothing rests, rule by rule.
fn push_parts_unneeded(
    alloc: Global,
    words: &mut String,
    text: &str,
    given: Row<'_>,
) -> Result<(), AllocError> {
    let mut last = String::new(alloc);
    for line in text.lines() {
        let row = row_of(line);
        let Some((rule, part)) = row.name.split_once(" without ") else {
            continue;
        };
        if is_same(row.reply, given.reply) {
            push_part(words, rule == last.as_str(), rule, part)?;
            last.clear();
            last.push_str(rule)?;
        }
    }
    Ok(())
}

/// Adds an assignment or a send of a rule, which may be named already.
fn push_part(words: &mut String, is_named: bool, rule: &str, part: &str) -> Result<(), AllocError> {
    if is_named {
        write!(words, ", {part}")
    } else {
        write!(words, "\nin {rule} it doesn't rest on {part}")
    }
}

/// Says which rules are taken in no run without a fault or with one.
fn push_untaken(words: &mut String, text: &str) -> Result<(), AllocError> {
    let mut is_first = true;
    for line in text.lines() {
        let row = row_of(line);
        if row.reply.starts_with("taken 0 of ") {
            words.push_str(before(
                is_first,
                "\nwarning: never taken in a run with at most one fault: ",
                ", ",
            ))?;
            words.push_str(row.name)?;
            is_first = false;
        }
    }
    Ok(())
}

/// Says which parts of the promise are about nothing that happens in these runs. What no node is to show may well be shown by none.
fn push_unstaked(words: &mut String, text: &str) -> Result<(), AllocError> {
    let mut is_first = true;
    for line in text.lines() {
        let row = row_of(line);
        if row.reply.starts_with("holds 0 of ") && !row.name.ends_with(" no") {
            words.push_str(before(
                is_first,
                "\nwarning: what the promise speaks of never happens in such a run: ",
                ", ",
            ))?;
            words.push_str(row.name)?;
            is_first = false;
        }
    }
    Ok(())
}

/// Whether a question is about the model: whether a value is clamped, or a note replaced.
fn is_of_model(name: &str) -> bool {
    name == "clamped" || name == "replaced"
}

/// Whether a question is of a rule that is changed.
fn is_of_rules(name: &str) -> bool {
    name.ends_with(" never") || name.ends_with(" always") || name.contains(" without ")
}

/// Whether a question is about the bounds or the delays.
fn is_of_bounds(name: &str) -> bool {
    name != "given"
        && !name.starts_with("rule ")
        && !name.starts_with("part ")
        && !is_of_model(name)
}

/// Says which limits of the model are met within the bounds.
fn push_model(words: &mut String, text: &str) -> Result<(), AllocError> {
    for line in text.lines() {
        let row = row_of(line);
        if is_of_model(row.name) && row.reply.starts_with("least ") {
            words.push_str(if row.name == "clamped" {
                "\nwarning: a value passes the range of its kind"
            } else {
                "\nwarning: a note is replaced before it is sent"
            })?;
            write!(words, " ({})", row.reply)?;
        }
    }
    Ok(())
}

/// Says which changes of rules have another answer, with the set of the first.
fn push_rules_changing(words: &mut String, text: &str, given: Row<'_>) -> Result<(), AllocError> {
    let mut is_first = true;
    for line in text.lines() {
        let row = row_of(line);
        if is_of_rules(row.name) && is_other(row.reply, given.reply) {
            push_other(words, is_first, "\nit changes with: ", row)?;
            is_first = false;
        }
    }
    Ok(())
}

/// Says which of the questions about bounds have another answer, with the set of the first.
fn push_changing(words: &mut String, text: &str, given: Row<'_>) -> Result<(), AllocError> {
    let mut is_first = true;
    for line in text.lines() {
        let row = row_of(line);
        if is_of_bounds(row.name) && is_other(row.reply, given.reply) {
            push_other(
                words,
                is_first,
                "\nit changes with other bounds or delays: ",
                row,
            )?;
            is_first = false;
        }
    }
    Ok(())
}

/// Adds a question that has another answer, and its set where it is the first.
fn push_other(
    words: &mut String,
    is_first: bool,
    first: &str,
    row: Row<'_>,
) -> Result<(), AllocError> {
    words.push_str(before(is_first, first, "; "))?;
    write!(words, "{} ({}", row.name, row.reply)?;
    if is_first && !row.faults.is_empty() {
        words.push_str(": ")?;
        push_faults(words, row.faults)?;
    }
    words.push(')')
}

/// Says which questions are left open.
fn push_open(words: &mut String, text: &str) -> Result<(), AllocError> {
    let mut is_first = true;
    for line in text.lines() {
        let row = row_of(line);
        if row.reply == "open" {
            words.push_str(before(is_first, "\nleft open: ", ", "))?;
            words.push_str(row.name)?;
            is_first = false;
        }
    }
    Ok(())
}

/// Adds faults that have tabs between, with commas between.
fn push_faults(words: &mut String, faults: &str) -> Result<(), AllocError> {
    for (place, fault) in faults.split('\t').enumerate() {
        if place > 0 {
            words.push_str(", ")?;
        }
        words.push_str(fault)?;
    }
    Ok(())
}
