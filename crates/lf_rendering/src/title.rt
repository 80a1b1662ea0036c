//! The title of a picture, as lines.

use crate::escape::push_words;
use crate::layout::Layout;
use crate::style::{Look, close};
use lf_faults::{FaultSet, fault_text};
use std::alloc::{AllocError, Global};

/// Pieces that are put into lines, each as long as there is room.
#[derive(Drop)]
struct Lines {
    /// The lines, with a line feed between any two.
    text: String,
    /// How many bytes the last line has.
    used: usize,
    /// How many bytes have room in a line.
    room: usize,
}

impl Lines {
    /// Adds a piece to the last line, or to a new one where there is no room.
    fn push(&mut self, piece: &str) -> Result<(), AllocError> {
        let used = self.used.saturating_add(1).saturating_add(piece.len());
        if self.used == 0 {
            self.used = piece.len();
        } else if used <= self.room {
            self.text.push(' ')?;
            self.used = used;
        } else {
            self.text.push('\n')?;
            self.used = piece.len();
        }
        self.text.push_str(piece)
    }
}

/// The title: all faults, and what comes of them, in lines that have room for so many characters.
pub(crate) fn title(
    alloc: Global,
    set: &FaultSet,
    reaches: bool,
    room: u32,
) -> Result<String, AllocError> {
    let mut lines = Lines {
        text: String::new(alloc),
        used: 0,
        room: room as usize,
    };
    for (i, fault) in set.items().iter().enumerate() {
        let mut piece = fault_text(alloc, fault)?;
        piece.push(if i + 1 < set.len() { ',' } else { ':' })?;
        lines.push(piece.as_str())?;
    }
    if set.is_empty() {
        lines.push("no fault:")?;
    }
    lines.push(if reaches { "reaches" } else { "misses" })?;
    let Lines { text, .. } = lines;
    Ok(text)
}

/// Adds the title, its lines one beneath the other.
pub(crate) fn push_title(layout: Layout, title: &str, text: &mut String) -> Result<(), AllocError> {
    Look::Title.open(text)?;
    for (line, words) in (0..u32::MAX).zip(title.split('\n')) {
        let place = layout.title(line);
        write!(text, "<text x='{}' y='{}'>", place.x, place.y)?;
        push_words(words, text)?;
        text.push_str("</text>\n")?;
    }
    close(text)
}

/// How many lines a title has.
pub(crate) fn lines_of(title: &str) -> u32 {
    let mut lines: u32 = 0;
    for _ in title.split('\n') {
        lines = lines.saturating_add(1);
    }
    lines
}
