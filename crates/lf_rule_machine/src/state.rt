//! What nodes keep, and what they send.

ghost use Rattle.std.specs.Prelude.{◌≡◌, ◌≤◌, length, slice_get};
ghost use Rattle.lf_rule_machine.specs.States.{empty, is_lost, loses, packed, place_for, zeros, same_numbers, same_note};

/// What a node keeps from one step to the next.
#[derive(Clone, Copy, Debug, PartialEq, Eq, PartialOrd, Ord)]
pub struct State {
    /// The value of each cell, by its number; 0 from the last cell on.
    pub values: [u8; 64],
    /// Whether a value once went past the greatest of its kind, and became that one, or a cell was set that isn't there.
    pub clamped: bool,
    /// Whether a note of this node once took the place of another one of its form, for the same node at the same step, or wasn't put, since the packet had
    /// notes of four other forms.
    pub replaced: bool,
}

/// A note: the number of its form, and the values of its fields, with 0 from the last field on.
#[derive(Clone, Copy, Debug, PartialEq, Eq, PartialOrd, Ord)]
pub struct Note {
    pub form: u8,
    pub fields: [u8; 7],
}

/// What a node sends another one in one step: its notes, of different forms, in the order in which a note of their form was first put.
///
/// Where a place has no note, none behind it has one.
#[derive(Clone, Copy, Debug, PartialEq, Eq, PartialOrd, Ord)]
pub struct Packet {
    pub notes: [Option<Note>; 4],
}

impl State {
    /// The state in which every cell is 0.
    pub fn zeros() -> State
        ensures { result ≡ zeros }
    {
        State {
            values: [0; 64],
            clamped: false,
            replaced: false,
        }
    }
}

impl Note {
    /// Whether it is the other note: the same form, and the same fields.
    pub fn same(&self, other: &Note) -> bool
        ensures { result ≡ same_note self.now other.now }
    {
        self.form == other.form && same_numbers(&self.fields, &other.fields)
    }
}

impl Packet {
    /// The packet without a note.
    pub fn empty() -> Packet
        ensures { result ≡ empty }
    {
        Packet { notes: [None; 4] }
    }

    /// Puts a note into it: in the place of the one of its form, or else behind the others. Where there are notes of four other forms, it isn't put. Tells
    /// whether a note is lost by that: another one of its form, or this one.
    pub fn put(&mut self, note: Note) -> bool
        ensures packed { self.new ≡ packed self.old note }
        ensures lost { result ≡ loses self.old note }
    {
        let place = place_for(&self.notes, note.form);
        let lost = is_lost(&self.notes, place, &note);
        if place < 4 {
            self.notes[place] = Some(note);
        }
        lost
    }
}

/// The place of a note of a form among some: where one of this form stands, or else behind all that are there.
fn place_for(notes: &[Option<Note>], form: u8) -> usize
    ensures value { result ≡ place_for notes.now form }
    ensures within { result ≤ length notes.now }
{
    match notes {
        [] => 0,
        [place, notes @ ..] => match place {
            Some(note) if note.form != form => place_for(notes, form) + 1,
            _ => 0,
        },
    }
}

/// Whether a note is lost where another one is put at a place.
fn is_lost(notes: &[Option<Note>], place: usize, note: &Note) -> bool
    ensures { result ≡ is_lost (slice_get notes.now place) note.now }
{
    match notes.get(place) {
        None => true,
        Some(None) => false,
        Some(Some(old)) => !old.same(note),
    }
}

/// Whether two lists have the same numbers in the same order.
fn same_numbers(one: &[u8], other: &[u8]) -> bool
    ensures { result ≡ same_numbers one.now other.now }
{
    match one {
        [] => other.is_empty(),
        [a, one @ ..] => match other {
            [] => false,
            [b, other @ ..] => a == b && same_numbers(one, other),
        },
    }
}
