//! What rules are on.

use lf_diagnostics::{
    Class, NAME, NOTE_NAME, Near, Reader, Stop, Words, behind, fields_in, first_named, in_quotes,
    is_number, is_of_word,
};
use lf_texts::{is_name, is_note_name, is_reserved};

/// What a rule may be on that is no note.
pub(crate) const EVENTS: [&str; 4] = ["start", "wake", "begin", "end"];

/// Reads what a rule is on.
pub(crate) fn read_event(reader: &Reader<'_>) -> Result<(), Stop> {
    let name = reader.piece(0);
    if reader.is_end(0) {
        let words = "nothing stands there; start, wake, begin, end or a note has to";
        return Err(Stop::at(0, Words::of(words)));
    }
    if EVENTS.contains(&name) {
        return alone(reader, name);
    }
    let note = match first_named(reader.names, name) {
        Some(known) if known.class == Class::Note => known,
        Some(known) => {
            let words = known.words();
            let words = Words::of(format_args!(
                "{}; a rule is on start, wake, begin, end or a note, and what is asked of the state stands in `when`",
                words.as_str()
            ));
            return Err(Stop::at(0, words));
        }
        None => {
            let words = "no note, and not start, wake, begin or end";
            return Err(Stop::at(0, Words::of(words)).near(Near::Events));
        }
    };
    if reader.is_end(1) {
        return Ok(());
    }
    read_binds(reader, note.of)
}

/// Refuses what stands behind an event that has nothing behind it.
fn alone(reader: &Reader<'_>, name: &str) -> Result<(), Stop> {
    if reader.is_end(1) {
        return Ok(());
    }
    let words = Words::of(format_args!("nothing may follow `{name}`; conditions stand in `when`"));
    Err(Stop::at(1, words))
}

/// Reads the names of the fields of the note whose text is given, behind its name.
fn read_binds(reader: &Reader<'_>, form: &str) -> Result<(), Stop> {
    let count = fields_in(form);
    if count == 0 {
        let words = Words::of(format_args!(
            "`{}` has no fields, and nothing may follow it; conditions stand in `when`",
            reader.piece(0)
        ));
        return Err(Stop::at(1, words));
    }
    if reader.piece(1) != "(" {
        let words =
            "a note is followed by the names of its fields in brackets, or by nothing; conditions stand in `when`";
        return Err(Stop::at(1, Words::of(words)));
    }
    let mut at = 2;
    let mut given: usize = 0;
    for _ in reader.pieces {
        read_bind(reader, at)?;
        given = given.saturating_add(1);
        at = behind(at);
        if reader.piece(at) != "," {
            break;
        }
        at = behind(at);
    }
    let end = reader.closed_list(1, at, ")")?;
    if given != count {
        let form = in_quotes(form);
        let words = Words::of(format_args!(
            "a name for each field has to stand in the brackets: {}; `_` stands for a field that isn't needed",
            form.as_str()
        ));
        return Err(Stop::over(0, end, words));
    }
    if reader.is_end(end) {
        Ok(())
    } else {
        Err(Stop::at(
            end,
            Words::of("nothing may follow the fields; conditions stand in `when`"),
        ))
    }
}

/// Reads the name of a field, which is new.
fn read_bind(reader: &Reader<'_>, at: usize) -> Result<(), Stop> {
    let name = reader.piece(at);
    if name == "_" {
        return Ok(());
    }
    if !name.starts_with(is_of_word) {
        let words = "the name of a field or `_` has to stand there";
        return Err(Stop::at(at, Words::of(words)));
    }
    free(reader, at, "give the field another")?;
    if is_bound_before(reader, at) {
        return Err(Stop::at(
            at,
            Words::of("two fields have this name; give one another, or `_`"),
        ));
    }
    Ok(())
}

/// Whether an earlier field has the name at a piece.
fn is_bound_before(reader: &Reader<'_>, at: usize) -> bool {
    for piece in reader.pieces.iter().take(at).skip(1) {
        if piece.text == reader.piece(at) {
            return true;
        }
    }
    false
}

/// Refuses a name that something else has, or that none may have.
fn free(reader: &Reader<'_>, at: usize, more: &str) -> Result<(), Stop> {
    let name = reader.piece(at);
    if !is_name(name) {
        let more = if is_number(name) || matches!(name, "true" | "false") {
            "; what a field has to be is asked in `when`"
        } else {
            ""
        };
        return Err(Stop::at(at, Words::of(format_args!("{NAME}{more}"))));
    }
    if is_reserved(name) {
        let words = Words::of(format_args!(
            "a word of the language, which names nothing; {more} name"
        ));
        return Err(Stop::at(at, words));
    }
    match first_named(reader.names, name) {
        Some(known) if known.class != Class::Field => {
            let what = known.words();
            let words = Words::of(format_args!("{} has this name already; {more}", what.as_str()));
            Err(Stop::at(at, words))
        }
        _ => Ok(()),
    }
}

/// Refuses a name that no note may have.
pub(crate) fn note_name(reader: &Reader<'_>) -> Result<(), Stop> {
    if is_note_name(reader.piece(0)) {
        return Ok(());
    }
    if reader.is_end(0) {
        return Err(Stop::at(
            0,
            Words::of("nothing stands there; a note's name has to, such as ASK"),
        ));
    }
    Err(Stop::at(0, Words::of(NOTE_NAME)))
}
