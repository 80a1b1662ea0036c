//! Why a piece can't stand where it stands.

use crate::hint::{Words, in_quotes};
use crate::named::first_named;
use crate::reader::{Reader, is_number};
use crate::slips::instead_of;
use crate::spot::Spot;
use crate::stop::{Near, Stop, behind};

/// What compares two values.
pub const COMPARISONS: [&str; 7] = ["=", "!=", "<", "<=", ">", ">=", "in"];

/// What joins two values.
pub const OPERATORS: [&str; 12] = [
    "=", "!=", "<", "<=", ">", ">=", "in", "+", "-", "mod", "and", "or",
];

impl<'a> Reader<'a> {
    /// That no value stands at a piece.
    pub fn no_value(&self, at: usize) -> Stop {
        let before = self.before(at);
        if self.is_end(at) {
            return match at.checked_sub(1) {
                Some(last) => Stop::at(last, Words::of("nothing stands behind it; a value has to")),
                None => Stop::at(at, Words::of("nothing stands there; an expression has to")),
            };
        }
        let piece = self.piece(at);
        if let Some(words) = instead_of(piece) {
            return Stop::at(at, Words::of(words));
        }
        let words = match piece {
            "not" =>
                "it stands before a whole comparison: put it and what is behind it in brackets",
            "else" => "it stands at the beginning of `when` alone",
            "to" =>
                "a value has to stand before it; it stands between a note and its receivers alone",
            "-" => "there are no numbers below 0; a difference stands between two values",
            ".." => "it stands between numbers in a set alone, such as `{0..2}` or `{1..}`",
            ":" => COLON,
            "where" => WHERE,
            _ if piece.starts_with('\'') || piece.starts_with('"') || piece.starts_with('`') => {
                "words stand without quotes, such as `phase = idle`"
            }
            _ if OPERATORS.contains(&piece) && before.is_empty() => {
                "nothing stands before it; a value has to"
            }
            ")" | "}" | "]" | "," => "a value has to stand before it",
            _ if OPERATORS.contains(&piece) => "a value has to stand before it",
            _ =>
                "a value has to stand there: a number, a name, a set, or brackets with an expression",
        };
        Stop::at(at, Words::of(words))
    }

    /// That a piece stands behind a whole expression.
    pub fn left(&self, at: usize) -> Stop {
        let piece = self.piece(at);
        if piece == "[" && self.before(at.saturating_sub(1)) == "mod" {
            return no_divisor(at.saturating_sub(1));
        }
        if let Some(words) = instead_of(piece) {
            return Stop::at(at, Words::of(words));
        }
        match self.words_left(at) {
            Some(words) => Stop::at(at, Words::of(words)),
            None => self.unjoined(at),
        }
    }

    /// What a piece behind a whole expression is taken for, where it can be told by itself.
    fn words_left(&self, at: usize) -> Option<&'static str> {
        let piece = self.piece(at);
        match piece {
            ")" | "}" | "]" => Some("it closes no bracket that is open"),
            ".." => Some("it stands between numbers in a set alone, such as `{0..2}` or `{1..}`"),
            ":" => Some(COLON),
            "where" => Some(WHERE),
            "else" => Some("it stands at the beginning of `when` alone"),
            "to" => Some("it stands in `send` alone, between a note and its receivers"),
            "not" if self.piece(behind(at)) == "in" => {
                Some("\"not in\" is written `not` before the whole: `not x in s`")
            }
            "," | ";" => Some(comma_words(self.spot)),
            _ if COMPARISONS.contains(&piece) => {
                Some(
                    "what is compared can't be compared again; join two comparisons with `and`: `a < b and b < c`",
                )
            }
            _ => None,
        }
    }

    /// That nothing joins a piece to what stands before it.
    fn unjoined(&self, at: usize) -> Stop {
        let (piece, before) = (self.piece(at), self.before(at));
        let is_name = first_named(self.names, piece).is_some();
        if piece == "(" && first_named(self.names, before).is_some() {
            let words = Words::of(format_args!("`{before}` takes nothing in brackets"));
            return Stop::at(at, words);
        }
        let words = Words::of(format_args!(
            "nothing joins it to {}; `and`, `or`, a comparison, `+` or `-` may",
            in_quotes(before).as_str()
        ));
        let stop = Stop::at(at, words);
        if is_name || is_number(piece) {
            stop
        } else {
            stop.near(Near::Operators)
        }
    }

    /// Goes on behind a piece that has to stand there. Where there is another one, what that says comes first.
    pub fn past(&self, at: usize, wanted: &'static str) -> Result<usize, Stop> {
        let piece = self.piece(at);
        if piece == wanted {
            return Ok(behind(at));
        }
        if self.is_end(at) {
            let words = Words::of(format_args!("`{wanted}` is missing behind it"));
            return Err(Stop::at(at.saturating_sub(1), words));
        }
        match instead_of(piece) {
            Some(words) => Err(Stop::at(at, Words::of(words))),
            None => {
                let words = Words::of(format_args!("`{wanted}` has to stand before it"));
                Err(Stop::at(at, words))
            }
        }
    }

    /// Goes on behind a bracket that has to close there, behind a list, one that was opened at an earlier piece.
    pub fn closed_list(
        &self,
        opened: usize,
        at: usize,
        wanted: &'static str,
    ) -> Result<usize, Stop> {
        let piece = self.piece(at);
        if piece == wanted
            || piece == "where"
            || self.is_end(at)
            || instead_of(piece).is_some()
            || self.has_between(opened, at, "where")
        {
            return self.closed(opened, at, wanted);
        }
        let words = Words::of(format_args!("`,` or `{wanted}` has to stand before it"));
        Err(Stop::at(at, words))
    }

    /// Goes on behind a square bracket that has to close there one that was opened at an earlier piece.
    pub fn closed_place(&self, opened: usize, at: usize) -> Result<usize, Stop> {
        if self.is_end(at) {
            return self.closed(opened, at, "]");
        }
        self.past(at, "]")
    }

    /// Goes on behind a bracket that has to close there one that was opened at an earlier piece.
    pub fn closed(&self, opened: usize, at: usize, wanted: &'static str) -> Result<usize, Stop> {
        if self.piece(at) == wanted {
            return Ok(behind(at));
        }
        if self.is_end(at) {
            let words = Words::of(format_args!("it is never closed: `{wanted}` is missing"));
            return Err(Stop::at(opened, words));
        }
        match self.piece(at) {
            ")" | "}" | "]" => {
                let words = Words::of(format_args!("`{wanted}` has to stand there, or before it"));
                Err(Stop::at(at, words))
            }
            _ => Err(self.left(at)),
        }
    }
}

/// That no number may be divided by a piece.
pub fn no_divisor(at: usize) -> Stop {
    let words =
        "behind `mod` stands a number, `nodes`, or a constant that is a number, and none is 0";
    Stop::at(at, Words::of(words))
}

/// Where a colon stands.
const COLON: &str =
    "it stands in notes, between a field and its kind, and in `min(s: x)` and `max(s: x)`, behind a set of nodes";

/// Where `where` stands.
const WHERE: &str = "it stands in a set, behind another one: `{all where x[it] = 1}`";

/// Why a comma can't stand behind an expression at such a place.
fn comma_words(spot: Spot) -> &'static str {
    match spot {
        Spot::When => "one guard stands there; join two with `and` or `or`",
        Spot::Fact => "one condition stands there; join two with `and` or `or`",
        Spot::Who | Spot::Given => "a set of several nodes stands in brackets: `{0, 1}`",
        Spot::Outcome => "one outcome stands there; join two with `and` or `or`",
        _ => "one expression stands there",
    }
}
