//! Where the proved reader refuses an expression, and why.

use crate::atoms::{no_body, no_cell, no_it, no_item, no_items, no_name};
use crate::bodies::{is_body, misfit_body};
use crate::calls::{form_of, is_call, misfit, unclosed};
use lf_diagnostics::{Part, Reader, Stop, Taken, Words, no_divisor};
use lf_grammar::{Sign, Slip, Token, Typed, Unread, Why};
use lf_rules::Sort;

/// Reads a value of any kind.
pub(crate) fn read_truth<'a>(reader: &Reader<'a>, at: usize) -> Taken {
    let tokens = reader.tokens_between(reader.left_at(at), 0);
    taken(
        reader,
        at,
        lf_grammar::read_truth(reader.alloc, reader.place, tokens),
    )
}

/// Reads a number or a set, or another value that is no comparison.
pub(crate) fn read_number_or_set<'a>(reader: &Reader<'a>, at: usize) -> Taken {
    let tokens = reader.tokens_between(reader.left_at(at), 0);
    taken(
        reader,
        at,
        lf_grammar::read_sum(reader.alloc, reader.place, tokens),
    )
}

/// The value that was read at a piece, or where that stops.
fn taken<'a>(reader: &Reader<'a>, at: usize, read: Result<(Typed, &[Token]), Unread>) -> Taken {
    match read {
        Ok((value, rest)) => Ok(Part {
            from: at,
            to: reader.piece_at(rest.len()),
            sort: value.sort,
        }),
        Err(Unread::Wrong(slip)) => Err(stop_at(reader, slip)),
        Err(Unread::Memory) => Err(Stop::full()),
    }
}

/// What is told of a refusal.
pub(crate) fn stop_at(reader: &Reader<'_>, slip: Slip) -> Stop {
    let (from, at) = (reader.piece_at(slip.from), reader.piece_at(slip.at));
    let closed = match slip.why {
        Why::Name => return no_name(reader, at),
        Why::Divisor => return no_divisor(at),
        Why::Items => return no_items(reader, at),
        Why::Table => return no_cell(reader, at),
        Why::It => return no_it(at),
        Why::Body => return no_body(reader, at),
        Why::Sign(Sign::OpenRound) => {
            return Stop::at(from, Words::of(form_of(reader.piece(from))));
        }
        Why::Sign(Sign::CloseCurly) => reader.closed_list(from, at, "}"),
        Why::Sign(Sign::CloseSquare) => reader.closed_place(from, at),
        Why::Sign(_) if is_call(reader.before(from)) => unclosed(reader, from, at),
        Why::Sign(_) => reader.closed(from, at, ")"),
        Why::Sort => unfit(reader, slip),
        Why::Value if reader.is_end(at) && reader.before(at) == ".." => {
            reader.closed_list(reader.last("{"), at, "}")
        }
        _ => return reader.no_value(at),
    };
    match closed {
        Err(stop) => stop,
        Ok(_) => reader.no_value(at),
    }
}

/// What has to stand in a set.
const IN_SET: &str = "in a set stand the numbers of nodes";

/// What has to stand in square brackets.
pub(crate) const IN_BRACKETS: &str = "in the brackets stands the number of a place";

/// Refuses a value, or one of two, or one of a call's, that is of another kind than it has to be. Each of them is read once more, for what it is.
fn unfit(reader: &Reader<'_>, slip: Slip) -> Result<usize, Stop> {
    let (from, at) = (reader.piece_at(slip.from), reader.piece_at(slip.at));
    let is_alone = slip.at == slip.from;
    if !is_alone && is_body(reader.piece(at)) {
        return misfit_body(reader, slip);
    }
    let end = if is_alone { slip.to } else { slip.at };
    let Some(one) = reader.value(slip.from, end)? else {
        return misfit(reader, from, slip);
    };
    if is_alone {
        match reader.before(from) {
            "not" => reader.wants(&one, Sort::Truth, "`not` stands before a truth value")?,
            "of" => reader.wants_nodes(&one, "behind `of` stands a set of nodes")?,
            "where" => reader.wants(&one, Sort::Truth, "behind `where` stands a truth value")?,
            "[" => {
                reader.wants(&one, Sort::Number, IN_BRACKETS)?;
                return Err(no_item(reader, from.saturating_sub(2)));
            }
            _ => reader.wants(&one, Sort::Number, IN_SET)?,
        }
        return Ok(at);
    }
    if reader.piece(at) == ".." {
        reader.wants(&one, Sort::Number, IN_SET)?;
    }
    if let Some(other) = reader.value(slip.at.saturating_sub(1), slip.to)? {
        differ(reader, reader.piece(at), &one, &other)?;
    }
    Ok(at)
}

/// Refuses one of two values that can't be joined by what stands between them.
fn differ<'a>(reader: &Reader<'a>, by: &str, one: &Part, other: &Part) -> Result<(), Stop> {
    match by {
        "or" | "and" => {
            reader.joins_truths(one, by)?;
            reader.joins_truths(other, by)
        }
        "=" | "!=" => reader.alike(one, other),
        "in" => {
            let why = "before `in` stands the number of a node";
            reader.wants(one, Sort::Number, why)?;
            reader.wants(other, Sort::Nodes, "behind `in` stands a set of nodes")
        }
        "+" | "-" if one.sort == Sort::Nodes => {
            reader.wants_nodes(other, "to and from a set go nodes and sets of nodes")
        }
        "+" | "-" => {
            let why = "`+` and `-` join numbers, or stand behind a set";
            reader.wants(one, Sort::Number, why)?;
            reader.wants(other, Sort::Number, "a number is added to a number")
        }
        "mod" => reader.wants(one, Sort::Number, "`mod` divides numbers"),
        ".." => reader.wants(other, Sort::Number, IN_SET),
        _ => {
            reader.wants(one, Sort::Number, "only numbers are less or greater")?;
            reader.wants(other, Sort::Number, "only numbers are less or greater")
        }
    }
}
