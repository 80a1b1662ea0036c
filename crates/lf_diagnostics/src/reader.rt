//! What is read of a text.

use crate::hint::Words;
use crate::named::{Class, Known, first_named};
use crate::pieces::{Piece, is_digit};
use crate::spot::Spot;
use crate::stop::{Stop, behind};
use lf_grammar::{Place, Token, Unread, read_truth};
use lf_rules::{Cells, Row, Sort};
use std::alloc::Global;

/// A text that is read, and what may be named in it.
#[derive(Clone, Copy)]
pub struct Reader<'a> {
    pub alloc: Global,
    pub pieces: &'a [Piece<'a>],
    /// The tokens of all pieces up to the first one that is none.
    pub tokens: &'a [Token],
    /// All names of the file, also those that are declared later.
    pub names: &'a [Known<'a>],
    /// What the text is for.
    pub spot: Spot,
    /// Where its expressions stand.
    pub place: &'a Place<'a>,
}

/// A value that is read: its pieces from one on to another, which isn't among them, and what it is.
#[derive(Clone, Copy, Debug)]
pub struct Part {
    pub from: usize,
    pub to: usize,
    pub sort: Sort,
}

/// A value that is read, or where reading stops.
pub type Taken = Result<Part, Stop>;

impl<'a> Reader<'a> {
    /// The piece with a number, from 0, which is empty behind the last one.
    pub fn piece(&self, at: usize) -> &'a str {
        match self.pieces.get(at) {
            Some(piece) => piece.text,
            None => "",
        }
    }

    /// The piece before the one with a number, which is empty before the first one.
    pub fn before(&self, at: usize) -> &'a str {
        match at.checked_sub(1) {
            Some(before) => self.piece(before),
            None => "",
        }
    }

    /// The number of the last piece that is this, and 0 where none is.
    pub fn last(&self, wanted: &str) -> usize {
        let mut last = 0;
        for (at, piece) in self.pieces.iter().enumerate() {
            if piece.text == wanted {
                last = at;
            }
        }
        last
    }

    /// Whether the text has ended before this piece.
    pub fn is_end(&self, at: usize) -> bool {
        self.pieces.len() <= at
    }

    /// How many tokens are left where a piece begins.
    pub fn left_at(&self, at: usize) -> usize {
        let before = match at.checked_sub(1) {
            Some(before) => match self.pieces.get(before) {
                Some(piece) => piece.tokens,
                None => usize::MAX,
            },
            None => 0,
        };
        self.tokens.len().saturating_sub(before)
    }

    /// The tokens from where so many are left on to where so many are.
    pub fn tokens_between(&self, from: usize, to: usize) -> &'a [Token] {
        let count = self.tokens.len();
        self.tokens
            .get(count.saturating_sub(from)..count.saturating_sub(to))
            .unwrap_or(&[])
    }

    /// The number of the piece in which the token is behind which one fewer than so many are left. Where none are left, that of the first piece behind.
    pub fn piece_at(&self, left: usize) -> usize {
        let token = self.tokens.len().saturating_sub(left);
        for (at, piece) in self.pieces.iter().enumerate() {
            if token < piece.tokens {
                return at;
            }
        }
        self.pieces.len()
    }

    /// The value that comes first among the tokens from where so many are left on to where so many are. None where none does.
    pub fn value(&self, from: usize, to: usize) -> Result<Option<Part>, Stop> {
        match read_truth(self.alloc, self.place, self.tokens_between(from, to)) {
            Ok((value, rest)) => Ok(Some(Part {
                from: self.piece_at(from),
                to: self.piece_at(to.saturating_add(rest.len())),
                sort: value.sort,
            })),
            Err(Unread::Wrong(_)) => Ok(None),
            Err(Unread::Memory) => Err(Stop::full()),
        }
    }

    /// What the value is that has a name here. None where none does.
    pub fn sort_of(&self, name: &str) -> Option<Sort> {
        let leaf = self.place.leaf(name)?;
        self.place
            .definition
            .leaf_sort(self.place.scope, self.place.within, leaf)
    }

    /// What a cell is of the table with a name.
    pub fn cell_sort(&self, name: &str) -> Option<Sort> {
        let row = self.place.row(self.place.leaf(name)?)?;
        self.place.definition.row_sort(self.place.scope, row)
    }

    /// How many cells the table with a name has. None where there is no such table.
    pub fn cells_of(&self, name: &str) -> Option<Cells> {
        match self.place.row(self.place.leaf(name)?)? {
            Row::Table(table) => Some(table.cells),
            Row::Given(_) => None,
        }
    }

    /// A place that the table with a name has, as it is written.
    pub fn place_in(&self, name: &str) -> &'static str {
        match self.cells_of(name) {
            Some(Cells::EachNode) => "me",
            _ => "1",
        }
    }

    /// Whether a name is a fact. A word of a table is none.
    pub fn is_fact(&self, known: &Known<'_>) -> bool {
        let is_of_table = match first_named(self.names, known.of) {
            Some(of) => of.class == Class::Table,
            None => false,
        };
        known.class.is_fact() && !(known.class == Class::Word && is_of_table)
    }

    /// Whether a piece stands somewhere behind one and before another.
    pub fn has_between(&self, from: usize, to: usize, wanted: &str) -> bool {
        for at in behind(from)..to {
            if self.piece(at) == wanted {
                return true;
            }
        }
        false
    }

    /// What the field with a number is of the note with a name.
    pub fn field_sort(&self, note: &str, number: usize) -> Option<Sort> {
        for form in self.place.definition.notes.as_slice() {
            if form.name.as_str() == note {
                return Some(form.fields.as_slice().get(number)?.sort());
            }
        }
        None
    }

    /// The name of the variable with a number.
    pub fn variable(&self, number: u8) -> &'a str {
        match self
            .place
            .definition
            .variables
            .as_slice()
            .get(usize::from(number))
        {
            Some(variable) => variable.name.as_str(),
            None => "",
        }
    }

    /// The text of the pieces from one on to another, which isn't among them.
    pub fn source(&self, from: usize, to: usize) -> &'a str {
        let Some(first) = self.pieces.get(from) else {
            return "";
        };
        let rest = match self.pieces.get(to) {
            Some(next) => next.from,
            None => "",
        };
        first.from.strip_suffix(rest).unwrap_or(first.from).trim()
    }

    /// The text of a value.
    pub fn source_of(&self, part: &Part) -> &'a str {
        self.source(part.from, part.to)
    }

    /// What a value is named by, where it is a single name.
    pub fn name_of(&self, part: &Part) -> Option<Known<'a>> {
        if part.to.saturating_sub(part.from) == 1 {
            first_named(self.names, self.piece(part.from))
        } else {
            None
        }
    }

    /// What a value is, in words.
    pub fn words_of(&self, part: &Part) -> Words {
        let variable = match part.sort {
            Sort::Number => return Words::of("a number"),
            Sort::Truth => return Words::of("a truth value"),
            Sort::Nodes => return Words::of("a set of nodes"),
            Sort::Word(number) => self.variable(number),
        };
        match self.name_of(part) {
            Some(known) if known.class == Class::Word => {
                Words::of(format_args!("a word of `{variable}`"))
            }
            Some(known) if known.class != Class::Let && known.name == variable => {
                Words::of(format_args!("a variable that is {}", self.words_in(variable).as_str()))
            }
            _ => Words::of(format_args!("{}, like `{variable}`", self.words_in(variable).as_str())),
        }
    }

    /// The words of a variable, in order, with `or` before the last one.
    pub fn words_in(&self, variable: &str) -> Words {
        let mut words = Words::of("");
        let mut left = self.count_of(variable);
        for known in self.names {
            if known.class == Class::Word && known.of == variable {
                left = left.saturating_sub(1);
                let between = match left {
                    0 => "",
                    1 => " or ",
                    _ => ", ",
                };
                words = words.and(format_args!("{}{between}", known.name), LONGEST_WORD);
            }
        }
        words
    }

    /// How many words a variable has.
    fn count_of(&self, variable: &str) -> usize {
        let mut count: usize = 0;
        for known in self.names {
            if known.class == Class::Word && known.of == variable {
                count = count.saturating_add(1);
            }
        }
        count
    }

    /// The first word of a variable.
    pub fn first_word(&self, variable: &str) -> &'a str {
        for known in self.names {
            if known.class == Class::Word && known.of == variable {
                return known.name;
            }
        }
        "true"
    }
}

/// How many bytes a word takes at most that is told, with what stands behind it.
const LONGEST_WORD: usize = 30;

/// Whether a piece is a number.
pub fn is_number(piece: &str) -> bool {
    piece.starts_with(is_digit)
}
