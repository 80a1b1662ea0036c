//! What traces show.

use lf_diagnostics::{Near, Reader, Stop, Words, first_named};

/// Why a text is no variable that a trace can show.
pub(crate) fn shown_stop(reader: &Reader<'_>, text: &str) -> Stop {
    match first_named(reader.names, reader.piece(0)) {
        Some(known) if !known.class.is_variable() => {
            let what = known.words();
            Stop::at(
                0,
                Words::of(format_args!("{}, and a trace shows variables alone", what.as_str())),
            )
        }
        Some(known) if known.name == text => Stop::at(0, Words::of("named before")),
        Some(_) if reader.is_end(1) => {
            Stop::at(
                0,
                Words::of("a variable's name stands there alone, without blanks"),
            )
        }
        Some(_) => Stop::at(
            1,
            Words::of("nothing may follow a variable; each has a text of its own"),
        ),
        None => Stop::at(0, Words::of("no variable")).near(Near::Variables),
    }
}
