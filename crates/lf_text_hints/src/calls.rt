//! What is said of sets and numbers by name.

use lf_diagnostics::{OPERATORS, Reader, Stop, Words, behind};
use lf_grammar::Slip;
use lf_rules::Sort;

/// What is said of values in brackets.
pub(crate) const CALLS: [&str; 6] = ["count", "lowest", "highest", "majority", "min", "max"];

/// Whether a word is said of values in brackets.
pub(crate) fn is_call(word: &str) -> bool {
    CALLS.contains(&word)
}

/// How a call is written.
pub(crate) fn form_of(call: &str) -> &'static str {
    match call {
        "count" => "takes one set of nodes: `count(s)`",
        "lowest" => "takes one set of nodes: `lowest(s)`",
        "highest" => "takes one set of nodes: `highest(s)`",
        "majority" =>
            "takes a set, or a set and the group that it is counted in: `majority(s)`, `majority(s, g)`",
        "min" => "takes two numbers, or a number for each node of a set: `min(a, b)`, `min(s: x)`",
        _ => "takes two numbers, or a number for each node of a set: `max(a, b)`, `max(s: x)`",
    }
}

/// What a call takes.
fn taken_by(call: &str) -> Sort {
    match call {
        "min" | "max" => Sort::Number,
        _ => Sort::Nodes,
    }
}

/// Refuses the call at a piece: a value of another kind than it takes, or how many there are. Its values are read once more, for what they are.
pub(crate) fn misfit(reader: &Reader<'_>, at: usize, slip: Slip) -> Result<usize, Stop> {
    let call = reader.piece(at);
    let form = form_of(call);
    let why = Words::of(format_args!("`{call}` {form}"));
    let mut left = slip.from.saturating_sub(2);
    for _ in 0..2 {
        if let Some(value) = reader.value(left, slip.to)? {
            reader.wants(&value, taken_by(call), why.as_str())?;
            left = reader.left_at(behind(value.to));
        }
    }
    Err(Stop::over(at, reader.piece_at(slip.to), Words::of(form)))
}

/// That the bracket at a piece, behind a call's name, isn't closed at another.
pub(crate) fn unclosed(reader: &Reader<'_>, opened: usize, at: usize) -> Result<usize, Stop> {
    let piece = reader.piece(at);
    if piece == "," || OPERATORS.contains(&piece) {
        let call = reader.before(opened);
        let words = Words::of(format_args!(
            "`)` has to stand before it: `{call}` {}",
            form_of(call)
        ));
        return Err(Stop::at(at, words));
    }
    reader.closed_list(opened, at, ")")
}
