//! Kinds of values.

use lf_diagnostics::{
    Class, NAME, Near, Reader, Spot, Stop, Words, behind, first_named, is_number, is_of_word,
};
use lf_texts::{is_name, is_reserved};

/// The kinds that have a name in the language.
pub(crate) const KINDS: [&str; 3] = ["flag", "nodes", "step"];

/// What a kind is.
const KIND: &str = "flag, nodes, step, a range such as 0..3, or the name of a variable";

/// Reads what a variable with a name holds, or each cell of a table: a kind, another variable's name, or words of its own.
pub(crate) fn read_state(reader: &Reader<'_>, variable: &str) -> Result<(), Stop> {
    let at = if reader.piece(0) == "[" {
        read_places(reader)?
    } else {
        0
    };
    let (first, next) = (reader.piece(at), behind(at));
    if reader.piece(next) == "|" || first == "|" {
        return read_words(reader, at, variable);
    }
    if is_name(first) && !KINDS.contains(&first) {
        if reader.is_end(next) {
            return read_other(reader, at);
        }
        let words = "words of a variable are parted by `|`: `idle | busy`";
        return Err(Stop::at(next, Words::of(words)));
    }
    let end = read_kind(reader, at)?;
    if reader.is_end(end) {
        return Ok(());
    }
    let words = "nothing may follow a kind; words of a variable are parted by `|`: `idle | busy`";
    Err(Stop::at(end, Words::of(words)))
}

/// Reads the places of a table in its brackets, and gives the number of the piece behind.
fn read_places(reader: &Reader<'_>) -> Result<usize, Stop> {
    let end = if reader.piece(1) == "nodes" {
        2
    } else {
        read_last(reader)?
    };
    reader.closed_place(0, end)
}

/// What stands in the brackets of a table.
const PLACES: &str =
    "in the brackets stands `nodes`, for a cell for each node, or `1..` and how many cells there are: `[1..3] 0..9`";

/// Reads the places of a table that are numbers from 1 on, and gives the number of the piece behind.
fn read_last(reader: &Reader<'_>) -> Result<usize, Stop> {
    if reader.is_end(1) {
        return Err(Stop::at(0, Words::of(PLACES)));
    }
    if !is_number(reader.piece(1)) || reader.piece(2) != ".." || !is_number(reader.piece(3)) {
        return Err(Stop::at(1, Words::of(PLACES)));
    }
    if reader.piece(1).trim_start_matches('0') != "1" {
        return Err(Stop::at(1, Words::of("the places of a table begin with 1")));
    }
    if reader.piece(3).trim_start_matches('0') == "" {
        return Err(Stop::at(3, Words::of("a table has 1 cell at least, and at most 32")));
    }
    Ok(4)
}

/// Reads words from a piece on, with `|` between.
fn read_words(reader: &Reader<'_>, first: usize, variable: &str) -> Result<(), Stop> {
    let mut at = first;
    for _ in 0..=reader.pieces.len() {
        read_own_word(reader, at, variable)?;
        at = behind(at);
        if reader.is_end(at) {
            return Ok(());
        }
        if reader.piece(at) != "|" {
            let words = "words are parted by `|`: `idle | busy`, and have no blanks in them";
            return Err(Stop::at(at, Words::of(words)));
        }
        at = behind(at);
    }
    Ok(())
}

/// Reads a word of a variable, which is new.
fn read_own_word(reader: &Reader<'_>, at: usize, variable: &str) -> Result<(), Stop> {
    let word = reader.piece(at);
    if reader.is_end(at) {
        let last = at.saturating_sub(1);
        return Err(Stop::at(last, Words::of("nothing stands behind it; a word has to")));
    }
    if !word.starts_with(is_of_word) {
        return Err(Stop::at(at, Words::of("a word of the variable has to stand there")));
    }
    if !is_name(word) {
        return Err(Stop::at(at, Words::of(NAME)));
    }
    if is_reserved(word) {
        return Err(Stop::at(
            at,
            Words::of("a word of the language, which can't be a name"),
        ));
    }
    for piece in reader.pieces.iter().take(at) {
        if piece.text == word {
            return Err(Stop::at(at, Words::of("a word that stands there twice")));
        }
    }
    match first_named(reader.names, word) {
        Some(known) if known.of != variable || known.class != Class::Word => {
            let what = known.words();
            let words = Words::of(format_args!("{} has this name already", what.as_str()));
            Err(Stop::at(at, words))
        }
        _ => Ok(()),
    }
}

/// Reads the name of another variable, whose kind is its own.
fn read_other(reader: &Reader<'_>, at: usize) -> Result<(), Stop> {
    match first_named(reader.names, reader.piece(at)) {
        Some(known) if known.class.is_variable() => Err(Stop::at(
            at,
            Words::of("this variable has no kind of its own: name one whose text says its kind"),
        )),
        _ => Err(no_kind(reader, at)),
    }
}

/// What a single word is that is no kind.
const SINGLE: &str =
    "no kind; a kind is flag, nodes, step, a range such as 0..3, the name of a variable, or two words and more: `idle | busy`";

/// Reads a kind, and gives the number of the piece behind.
pub(crate) fn read_kind(reader: &Reader<'_>, at: usize) -> Result<usize, Stop> {
    let piece = reader.piece(at);
    if reader.is_end(at) {
        let words = Words::of(format_args!("nothing stands behind it; a kind has to: {KIND}"));
        return Err(Stop::at(at.saturating_sub(1), words));
    }
    if is_number(piece) {
        return read_range(reader, at);
    }
    if KINDS.contains(&piece) {
        return Ok(behind(at));
    }
    match first_named(reader.names, piece) {
        Some(known) if known.class.is_variable() => Ok(behind(at)),
        _ => Err(no_kind(reader, at)),
    }
}

/// Why a piece is no kind.
fn no_kind(reader: &Reader<'_>, at: usize) -> Stop {
    let piece = reader.piece(at);
    if let Some(known) = first_named(reader.names, piece) {
        let what = known.words();
        let words = Words::of(format_args!("{}, and no kind; a kind is {KIND}", what.as_str()));
        return Stop::at(at, words);
    }
    let words = match piece {
        "bool" | "boolean" => Words::of("no kind; true or false is a `flag`"),
        "int" | "integer" | "number" | "nat" | "u8" | "uint" | "counter" => {
            Words::of("no kind; a number has a range, such as 0..9")
        }
        "set" | "node" | "list" => Words::of(
            "no kind; a set of nodes, also of one or none, is `nodes`",
        ),
        "time" | "round" | "clock" => Words::of("no kind; the number of a step is a `step`"),
        _ if reader.spot == Spot::State => return Stop::at(at, Words::of(SINGLE)).near(Near::Kinds),
        _ => return Stop::at(at, Words::of(format_args!("no kind; a kind is {KIND}"))).near(
            Near::Kinds,
        ),
    };
    Stop::at(at, words)
}

/// Reads a range, and gives the number of the piece behind.
fn read_range(reader: &Reader<'_>, at: usize) -> Result<usize, Stop> {
    let (sign, last) = (behind(at), behind(behind(at)));
    let end = behind(last);
    if reader.piece(sign) != ".." {
        let words = "a range is written with two points: `0..9`";
        return Err(Stop::over(at, end.min(reader.pieces.len()), Words::of(words)));
    }
    if !is_number(reader.piece(last)) {
        return Err(Stop::over(
            at,
            last,
            Words::of("the greatest number is missing behind it: `0..9`"),
        ));
    }
    if reader.piece(at).trim_matches('0') != "" {
        return Err(Stop::at(at, Words::of("a range begins with 0")));
    }
    if reader.piece(last).trim_matches('0') == "" {
        let words = "the greatest number is 1 at least; what is only 0 or 1 may be a `flag`, too";
        return Err(Stop::at(last, Words::of(words)));
    }
    Ok(end)
}
