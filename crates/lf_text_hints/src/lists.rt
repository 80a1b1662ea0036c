//! What rules set and send.

use crate::atoms::{is_fixed, no_items};
use crate::expressions::{IN_BRACKETS, read_number_or_set, read_truth};
use lf_diagnostics::{
    Class, Near, Reader, Stop, Words, behind, fields_in, first_named, in_quotes, inside_of,
    instead_of, is_of_word,
};
use lf_rules::{Cells, Sort, Within};
use lf_texts::with_it;

/// Reads what a rule sets: variables and cells with values, and commas between.
pub(crate) fn read_sets(reader: &Reader<'_>) -> Result<(), Stop> {
    let mut at = 0;
    for _ in 0..=reader.pieces.len() {
        at = read_set(reader, at)?;
        if reader.is_end(at) {
            return Ok(());
        }
        at = past_comma(reader, at, "the next assignment")?;
    }
    Ok(())
}

/// Goes on behind a comma.
fn past_comma(reader: &Reader<'_>, at: usize, what: &'static str) -> Result<usize, Stop> {
    let piece = reader.piece(at);
    if piece == "," {
        return Ok(behind(at));
    }
    if piece == ";" || piece == "and" {
        let words = Words::of(format_args!("{what} stands behind a comma"));
        return Err(Stop::at(at, words));
    }
    let is_next = match first_named(reader.names, piece) {
        Some(known) => known.class.is_variable() || known.class == Class::Note,
        None => false,
    };
    if is_next {
        return Err(Stop::at(at, Words::of("a comma has to stand before it")));
    }
    Err(reader.left(at))
}

/// Reads an assignment, and gives the number of the piece behind.
fn read_set(reader: &Reader<'_>, at: usize) -> Result<usize, Stop> {
    let name = reader.piece(at);
    if reader.is_end(at) {
        return Err(nothing(reader, at, "an assignment has to, such as `x = 1`"));
    }
    match first_named(reader.names, name) {
        Some(known) if known.class == Class::Table => set_cell(reader, at),
        Some(known) if known.class.is_variable() => set_whole(reader, at),
        Some(known) => {
            let words = known.words();
            let words = Words::of(format_args!("{}, and only variables are set", words.as_str()));
            Err(Stop::at(at, words))
        }
        None => Err(no_variable(reader, at)),
    }
}

/// Reads the assignment to a variable that is no table.
fn set_whole(reader: &Reader<'_>, at: usize) -> Result<usize, Stop> {
    let name = reader.piece(at);
    if reader.piece(behind(at)) == "[" {
        return Err(no_items(reader, at));
    }
    if is_set_before(reader, at) {
        return Err(Stop::at(
            at,
            Words::of("it is set before: a rule sets a variable once"),
        ));
    }
    let what = Words::of(format_args!("`{name}`"));
    set_to(reader, behind(at), reader.sort_of(name), what.as_str())
}

/// Reads the assignment to a cell of a table, or to those of a set of nodes.
fn set_cell(reader: &Reader<'_>, at: usize) -> Result<usize, Stop> {
    let name = reader.piece(at);
    let opened = behind(at);
    let is_each = reader.cells_of(name) == Some(Cells::EachNode);
    if reader.piece(opened) != "[" {
        let more = if is_each {
            Words::of(format_args!(", or `{name}[all] = ..`"))
        } else {
            Words::of("")
        };
        let words = Words::of(format_args!(
            "a table, whose cells are set: `{name}[{}] = ..`{}",
            reader.place_in(name),
            more.as_str()
        ));
        return Err(Stop::at(at, words));
    }
    let place = read_number_or_set(reader, behind(opened))?;
    if is_each {
        reader.wants_nodes(&place, "in the brackets stands a node or a set of nodes")?;
    } else {
        reader.wants(&place, Sort::Number, IN_BRACKETS)?;
    }
    let end = reader.closed_place(opened, place.to)?;
    let inside = with_it(
        reader.place,
        if is_each {
            Within::Receiver
        } else {
            Within::Nothing
        },
    );
    let inner = Reader {
        place: &inside,
        ..*reader
    };
    let what = Words::of(format_args!("a cell of `{name}`"));
    set_to(&inner, end, reader.cell_sort(name), what.as_str())
}

/// Reads a sign and the value that something gets which takes values of this sort.
fn set_to(reader: &Reader<'_>, at: usize, sort: Option<Sort>, what: &str) -> Result<usize, Stop> {
    if reader.piece(at) == "==" {
        return Err(Stop::at(at, Words::of("an assignment is written `=`")));
    }
    let first = reader.past(at, "=")?;
    let value = read_truth(reader, first)?;
    if let Some(sort) = sort {
        let why = Words::of(format_args!("{what} is {}", kind_words(reader, sort).as_str()));
        reader.wants(&value, sort, why.as_str())?;
    }
    Ok(value.to)
}

/// That nothing stands where something has to.
fn nothing(reader: &Reader<'_>, at: usize, what: &str) -> Stop {
    match at.checked_sub(1) {
        Some(last) => {
            let words = Words::of(format_args!("nothing stands behind it; {what}"));
            Stop::at(last, words)
        }
        None => Stop::at(at, Words::of(format_args!("nothing stands there; {what}"))),
    }
}

/// That no variable stands at a piece.
fn no_variable(reader: &Reader<'_>, at: usize) -> Stop {
    let piece = reader.piece(at);
    if piece.starts_with(is_of_word) {
        return Stop::at(
            at,
            Words::of("no variable of this name, and only variables are set"),
        )
        .near(Near::Variables);
    }
    match instead_of(piece) {
        Some(words) => Stop::at(at, Words::of(words)),
        None => Stop::at(
            at,
            Words::of("an assignment begins with a variable, such as `x = 1`"),
        ),
    }
}

/// Whether the variable at a piece is set before, where no bracket is open.
fn is_set_before(reader: &Reader<'_>, at: usize) -> bool {
    let name = reader.piece(at);
    let mut begins = true;
    let mut depth: u32 = 0;
    for piece in reader.pieces.iter().take(at) {
        if begins && piece.text == name {
            return true;
        }
        match piece.text {
            "(" | "{" | "[" => depth = depth.saturating_add(1),
            ")" | "}" | "]" => depth = depth.saturating_sub(1),
            _ => {}
        }
        begins = depth == 0 && piece.text == ",";
    }
    false
}

/// What a variable or a field takes, in words.
fn kind_words(reader: &Reader<'_>, sort: Sort) -> Words {
    match sort {
        Sort::Number => Words::of("a number"),
        Sort::Truth => Words::of("a flag, and takes true, false or a condition"),
        Sort::Nodes => Words::of("a set of nodes"),
        Sort::Word(number) => reader.words_in(reader.variable(number)),
    }
}

/// Reads what a rule sends: notes with their values and receivers, and commas between.
pub(crate) fn read_sends(reader: &Reader<'_>) -> Result<(), Stop> {
    let mut at = 0;
    for _ in 0..=reader.pieces.len() {
        at = read_send(reader, at)?;
        if reader.is_end(at) {
            return Ok(());
        }
        at = past_comma(reader, at, "the next note")?;
    }
    Ok(())
}

/// Reads a note with its receivers, and gives the number of the piece behind.
fn read_send(reader: &Reader<'_>, at: usize) -> Result<usize, Stop> {
    if reader.is_end(at) {
        return Err(nothing(
            reader,
            at,
            "a note with its receivers has to, such as `NO to all`",
        ));
    }
    let note = match first_named(reader.names, reader.piece(at)) {
        Some(known) if known.class == Class::Note => known,
        Some(known) => {
            let words = known.words();
            let words = Words::of(format_args!("{}, and only notes are sent", words.as_str()));
            return Err(Stop::at(at, words));
        }
        None => return Err(Stop::at(at, Words::of("no note of this name")).near(Near::Notes)),
    };
    let receiver = with_it(reader.place, Within::Receiver);
    let inner = Reader {
        place: &receiver,
        ..*reader
    };
    let to = read_values(&inner, note.of, at)?;
    let piece = reader.piece(to);
    if piece != "to" && !reader.is_end(to) && piece.starts_with(is_of_word) {
        return Err(no_to(reader, to));
    }
    let first = reader.past(to, "to")?;
    if reader.piece(first) == "*" {
        return Err(Stop::at(first, Words::of("to all nodes is written `to all`")));
    }
    let nodes = read_number_or_set(reader, first)?;
    reader.wants_nodes(&nodes, "behind `to` stands a node or a set of nodes")?;
    Ok(nodes.to)
}

/// That `to` doesn't stand at a piece.
fn no_to(reader: &Reader<'_>, at: usize) -> Stop {
    let piece = reader.piece(at);
    if first_named(reader.names, piece).is_some() || is_fixed(piece) {
        return Stop::at(
            at,
            Words::of("`to` has to stand before it, between a note and its receivers"),
        );
    }
    Stop::at(
        at,
        Words::of("`to` has to stand there, between a note and its receivers"),
    )
    .near(Near::Word("to"))
}

/// Reads the values for the fields of the note at a piece, whose text is given, and gives the number of the piece behind.
fn read_values(reader: &Reader<'_>, form: &str, at: usize) -> Result<usize, Stop> {
    let (name, count) = (reader.piece(at), fields_in(form));
    let opened = behind(at);
    if count == 0 {
        if reader.piece(opened) == "(" {
            let words = Words::of(format_args!(
                "`{name}` has no fields, and is sent without brackets"
            ));
            return Err(Stop::at(opened, words));
        }
        return Ok(opened);
    }
    if reader.piece(opened) != "(" {
        let form = in_quotes(form);
        let words = Words::of(format_args!(
            "a value for each field has to stand behind it, in brackets: {}",
            form.as_str()
        ));
        return Err(Stop::at(at, words));
    }
    let mut to = behind(opened);
    let mut given: usize = 0;
    for field in inside_of(form).unwrap_or("").split(',') {
        to = read_value(reader, field, reader.field_sort(name, given), to)?;
        given = given.saturating_add(1);
        if reader.piece(to) != "," || given == count {
            break;
        }
        to = behind(to);
    }
    if reader.piece(to) == "," || (given < count && reader.piece(to) == ")") {
        let form = in_quotes(form);
        let words = Words::of(format_args!(
            "a value for each field has to stand in the brackets: {}",
            form.as_str()
        ));
        return Err(Stop::over(at, behind(to), words));
    }
    reader.closed_list(opened, to, ")")
}

/// Reads the value for a field that takes values of this sort, and gives the number of the piece behind.
fn read_value(
    reader: &Reader<'_>,
    field: &str,
    sort: Option<Sort>,
    at: usize,
) -> Result<usize, Stop> {
    let value = read_truth(reader, at)?;
    if let Some(sort) = sort {
        let (name, _kind) = field.split_once(':').unwrap_or((field, ""));
        let kind = kind_words(reader, sort);
        let why = Words::of(format_args!("the field `{}` is {}", name.trim(), kind.as_str()));
        reader.wants(&value, sort, why.as_str())?;
    }
    Ok(value.to)
}
