//! Where the reading of an outcome stops, and why.

use crate::expressions::stop_at;
use lf_diagnostics::{
    COMPARISONS, Class, Known, Near, Reader, Spot, Stop, Words, behind, first_named, instead_of,
    is_number, is_of_word,
};
use lf_grammar::{Place, Slip, Why};
use lf_promises::{PromiseError, read_promise};
use lf_rules::{Scope, Within};
use lf_texts::is_reserved;

/// What a part of an outcome begins with, besides facts.
pub(crate) const UNITS: [&str; 8] = ["each", "no", "some", "at", "down", "always", "ever", "one"];

/// Reads an outcome to the end of its text. The error is where that stops.
pub(crate) fn read_outcome(reader: &Reader<'_>) -> Result<(), Stop> {
    match read_promise(reader.alloc, reader.place, reader.tokens) {
        Ok(_) => {
            let end = reader.piece_at(0);
            if reader.is_end(end) {
                Ok(())
            } else {
                Err(left_there(reader, end))
            }
        }
        Err(PromiseError::Unfit(slip)) => Err(stop_in(reader, slip)),
        Err(PromiseError::Memory) => Err(Stop::full()),
    }
}

/// What is told of a refusal.
fn stop_in(reader: &Reader<'_>, slip: Slip) -> Stop {
    let (from, at) = (reader.piece_at(slip.from), reader.piece_at(slip.at));
    match slip.why {
        Why::Rest => left_there(reader, at),
        Why::Time => twice(reader, at),
        Why::Of => no_of(reader, at),
        Why::Fact | Why::Nodes if is_behind_guard(reader, at) => Stop::at(
            at,
            Words::of("brackets keep together what stands behind `where`: `where (a and b)`"),
        ),
        Why::Fact => no_such_fact(reader, at),
        Why::Node => no_node(reader, at),
        Why::Nodes => unsaid(reader, at),
        _ if is_asked(reader, from) => stop_asked(reader, slip),
        Why::Sign(_) if !reader.is_end(at) && is_outer(reader.before(from)) => {
            left_there(reader, at)
        }
        _ => stop_at(
            &Reader {
                spot: Spot::Who,
                ..*reader
            },
            slip,
        ),
    }
}

/// What is told of a refusal in what is to have one value.
fn stop_asked(reader: &Reader<'_>, slip: Slip) -> Stop {
    let place = asked_place(reader);
    let inner = Reader {
        spot: Spot::Fact,
        place: &place,
        ..*reader
    };
    stop_at(&inner, slip)
}

/// Where the expressions of an outcome stand: they know a state, and no step.
pub(crate) fn asked_place<'a>(reader: &Reader<'a>) -> Place<'a> {
    Place {
        definition: reader.place.definition,
        names: reader.place.names,
        fields: reader.place.fields,
        scope: Scope::Outcome,
        within: Within::Nothing,
    }
}

/// Whether a piece stands in what is to have one value: behind `one value of`, and before what joins the next part.
pub(crate) fn is_asked(reader: &Reader<'_>, at: usize) -> bool {
    let mut depth: Option<u32> = None;
    for here in 0..at {
        depth = match (reader.piece(here), depth) {
            ("of", _) if is_topic(reader, here) => Some(0),
            ("(" | "[" | "{", Some(open)) => Some(open.saturating_add(1)),
            (")" | "]" | "}", Some(open)) => open.checked_sub(1),
            ("and" | "or", Some(0)) => None,
            _ => depth,
        };
    }
    depth.is_some()
}

/// Whether the `of` at a piece stands behind `one value`. Behind `at most` that is a count of nodes with a fact.
fn is_topic(reader: &Reader<'_>, at: usize) -> bool {
    reader.before(at) == "value"
        && reader.before(at.saturating_sub(1)) == "one"
        && reader.before(at.saturating_sub(2)) != "most"
}

/// Whether a name is joined to what stands behind a `where` without brackets.
fn is_behind_guard(reader: &Reader<'_>, at: usize) -> bool {
    let joint = at.saturating_sub(1);
    let piece = reader.piece(if reader.piece(at) == "not" {
        behind(at)
    } else {
        at
    });
    matches!(reader.piece(joint), "and" | "or")
        && first_named(reader.names, piece).is_some()
        && is_asked(reader, joint)
        && reader.has_between(0, joint, "where")
}

/// That a part that speaks of all steps stands within another one.
fn twice(reader: &Reader<'_>, at: usize) -> Stop {
    if reader.piece(at) == "one" {
        let words = "`one value` speaks of all steps; it stands behind no `always` or `ever`";
        return Stop::over(at, behind(behind(at)), Words::of(words));
    }
    let words = "neither `always` nor `ever` stands within one of the two";
    Stop::at(at, Words::of(words))
}

/// That `of` doesn't stand behind `one value`.
fn no_of(reader: &Reader<'_>, at: usize) -> Stop {
    if reader.is_end(at) {
        let words = "nothing stands behind it; `of` has to: `one value of x`";
        return Stop::at(at.saturating_sub(1), Words::of(words));
    }
    Stop::at(at, Words::of("`of` has to stand there: `one value of x`"))
}

/// Whether a bracket behind a piece encloses parts of an outcome.
fn is_outer(before: &str) -> bool {
    matches!(before, "" | "(" | "and" | "or" | "always" | "ever")
}

/// Why a piece is no fact, or begins no part of an outcome.
fn no_such_fact(reader: &Reader<'_>, at: usize) -> Stop {
    let first = if reader.before(at) == "not" {
        at.saturating_sub(1)
    } else {
        at
    };
    match reader.before(first) {
        "each" | "no" | "some" | "one" => no_fact(reader, at),
        _ if reader.piece(first) == "at" => no_most_one(reader, first),
        _ if reader.piece(first) == "one" && first_named(reader.names, "one").is_none() => {
            Stop::at(
                first,
                Words::of("behind `one` stands `value`: `one value of x`"),
            )
        }
        _ => no_unit(reader, first),
    }
}

/// That `most one` doesn't stand behind the `at` at a piece.
fn no_most_one(reader: &Reader<'_>, at: usize) -> Stop {
    let most = behind(at);
    if reader.piece(most) != "most" {
        let words = "behind `at` stands `most one`; and before `at` a fact: `done at 2`";
        return Stop::at(at, Words::of(words));
    }
    let words = "`at most one` is the only count that there is";
    Stop::over(at, behind(behind(most)), Words::of(words))
}

/// Why a piece is no fact.
fn no_fact(reader: &Reader<'_>, at: usize) -> Stop {
    if reader.is_end(at) {
        let last = at.saturating_sub(1);
        return Stop::at(last, Words::of("nothing stands behind it; a fact has to"));
    }
    let piece = reader.piece(at);
    let plain = piece.strip_prefix("not_").unwrap_or(piece);
    match first_named(reader.names, plain) {
        Some(known) => Stop::at(at, no_fact_words(reader, known)),
        None if plain.starts_with(is_of_word) && !is_number(plain) && !is_reserved(plain) => {
            Stop::at(at, Words::of("no fact of this name")).near(Near::Facts)
        }
        None => {
            let words =
                "a fact has to stand there: one of `facts`, a word of a variable, or a flag";
            Stop::at(at, Words::of(instead_of(piece).unwrap_or(words)))
        }
    }
}

/// Why a name is no fact.
fn no_fact_words(reader: &Reader<'_>, known: Known<'_>) -> Words {
    let words = known.words();
    match known.class {
        Class::Variable => {
            let all = reader.words_in(known.name);
            let more = if all.as_str().is_empty() {
                Words::of("; what is asked of it stands in `facts` under a name")
            } else {
                Words::of(format_args!("; its words are facts: {}", all.as_str()))
            };
            Words::of(format_args!("a variable, and no fact{}", more.as_str()))
        }
        Class::Table => Words::of(format_args!(
            "a table, and no fact; what is asked of a cell stands in `facts` under a name: `{}[{}] = ..`",
            known.name,
            reader.place_in(known.name)
        )),
        Class::Word if !reader.is_fact(&known) => Words::of(format_args!(
            "a word of a table, and no fact; what is asked of a cell stands in `facts` under a name: `{}[{}] = {}`",
            known.of,
            reader.place_in(known.of),
            known.name
        )),
        _ => Words::of(format_args!(
            "{}, and no fact; a fact of it stands in `facts` under a name",
            words.as_str()
        )),
    }
}

/// That no node is named at a piece.
fn no_node(reader: &Reader<'_>, at: usize) -> Stop {
    if reader.is_end(at) {
        let words = "nothing stands behind it; the number of a node has to";
        return Stop::at(at.saturating_sub(1), Words::of(words));
    }
    Stop::at(
        at,
        Words::of("the number of a node has to stand there, from 0 to 7"),
    )
}

/// That it isn't said of which nodes the fact is that stands at a piece.
fn unsaid(reader: &Reader<'_>, at: usize) -> Stop {
    let end = if reader.piece(at) == "not" {
        behind(behind(at))
    } else {
        behind(at)
    };
    let fact = reader.source(at, end);
    let words = Words::of(format_args!(
        "a fact of which nodes? write `each {fact}`, `no {fact}`, `some {fact}`, `at most one {fact}` or `{fact} at 0`"
    ));
    Stop::over(at, end, words)
}

/// Why a piece begins no part of an outcome.
fn no_unit(reader: &Reader<'_>, at: usize) -> Stop {
    let units = "each, no, some, at most one, always, ever, one value of, down, or a fact with at";
    if reader.is_end(at) {
        let last = at.saturating_sub(1);
        let words = if at == 0 {
            "nothing stands there; an outcome begins with"
        } else {
            "nothing stands behind it; what follows begins with"
        };
        return Stop::at(last, Words::of(format_args!("{words} {units}")));
    }
    let piece = reader.piece(at);
    if piece == "not" {
        let words =
            "it stands before a fact alone; of an outcome write the opposite: \"not each f\" is `some not f`";
        return Stop::at(at, Words::of(words));
    }
    let plain = piece.strip_prefix("not_").unwrap_or(piece);
    match first_named(reader.names, plain) {
        Some(known) => Stop::at(at, no_fact_words(reader, known)),
        None => match instead_of(piece) {
            Some(words) => Stop::at(at, Words::of(words)),
            None => {
                let words = Words::of(format_args!(
                    "no part of an outcome begins so; one begins with {units}"
                ));
                Stop::at(at, words).near(Near::Units)
            }
        },
    }
}

/// Why a piece stands behind a whole outcome.
fn left_there(reader: &Reader<'_>, at: usize) -> Stop {
    let piece = reader.piece(at);
    if let Some(words) = instead_of(piece) {
        return Stop::at(at, Words::of(words));
    }
    let words = match piece {
        ")" | "}" | "]" => "it closes no bracket that is open",
        "at" =>
            "a node is named where nothing else says of which nodes: `done at 2`, and not `each done at 2`",
        "," => "one outcome stands there; join two with `and` or `or`",
        "per" | "where" if is_asked(reader, at) => {
            "behind `one value of` stand `per` and then `where`, each at most once"
        }
        _ if COMPARISONS.contains(&piece) || piece == "+" || piece == "-" => {
            "an outcome compares nothing; what is compared stands in `facts` under a name"
        }
        _ => "nothing joins it to what stands before it; `and` or `or` may",
    };
    let stop = Stop::at(at, Words::of(words));
    if piece.starts_with(is_of_word) {
        stop.near(Near::Operators)
    } else {
        stop
    }
}
