//! The texts of notes and packets.

use crate::build::{agrees, columns, definition, fill, number, words};
use lf_naming::{push_note, push_packet};
use lf_rule_machine::{Note, Packet};
use std::alloc::{AllocError, Global};

/// For each line a note's form and its fields, and the text. What isn't there has no text.
const NOTES: &str = concat!(
    "0 0 0 0 0|beat\n",
    "0 1 2 3 4|beat\n",
    "1 3 0 0 0|promise_2(3,idle,false,{})\n",
    "1 9 2 1 6|promise_2(9,done,true,{1,2})\n",
    "1 0 5 3 255|promise_2(0,,true,{0,1,2,3,4,5,6,7})\n",
    "2 200 1 1 1|ask(200)\n",
    "3 1 1 1 1|\n",
);

/// The note of a form and fields.
fn note(numbers: &str) -> Note {
    let (form, fields) = words(numbers);
    let mut note = Note {
        form: number(form),
        fields: [0; 7],
    };
    fill(&mut note.fields, fields);
    note
}

/// The text of the row's note, after what stood there before.
fn text(alloc: Global, row: &str) -> Result<String, AllocError> {
    let (numbers, _) = columns(row);
    let mut text = String::from_str(alloc, "0>1 ")?;
    push_note(&definition(alloc, "stuck", "0")?, &note(numbers), &mut text)?;
    Ok(text)
}

fn is_told(alloc: Global, row: &str) -> bool {
    let (_, wanted) = columns(row);
    match text(alloc, row) {
        Ok(text) => text.as_str().strip_prefix("0>1 ") == Some(wanted),
        Err(_) => false,
    }
}

#[test]
fn notes_are_told(rt: HostRuntime) {
    for row in NOTES.lines() {
        agrees(&rt, is_told(rt.alloc(), row), row);
    }
}

/// For each line the notes of a packet, with commas between, and the text.
const PACKETS: &str = concat!(
    "0 0|beat\n",
    "2 7|ask(7)\n",
    "2 7,0 0|ask(7)+beat\n",
    "0 0,2 7|beat+ask(7)\n",
    "1 3 0 0 6,0 0,2 1|promise_2(3,idle,false,{1,2})+beat+ask(1)\n",
    "2 1,2 2,2 3,2 4|ask(1)+ask(2)+ask(3)+ask(4)\n",
);

/// The packet of some notes.
fn packet(notes: &str) -> Packet {
    let mut packet = Packet { notes: [None; 4] };
    for (place, numbers) in packet.notes.iter_mut().zip(notes.split(',')) {
        *place = Some(note(numbers));
    }
    packet
}

/// Whether the row's packet has its text, after what stood there before.
fn is_packet_told(alloc: Global, row: &str) -> Result<bool, AllocError> {
    let (notes, wanted) = columns(row);
    let mut text = String::from_str(alloc, "0>1 ")?;
    push_packet(&definition(alloc, "stuck", "0")?, &packet(notes), &mut text)?;
    Ok(text.as_str().strip_prefix("0>1 ") == Some(wanted))
}

#[test]
fn packets_are_told(rt: HostRuntime) {
    for row in PACKETS.lines() {
        let told = is_packet_told(rt.alloc(), row).unwrap_or(false);
        agrees(&rt, told, row);
    }
}
