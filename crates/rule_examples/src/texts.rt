//! What the texts of examples stand for: protocols, and notes with the nodes that they come from or go to.

use lf_protocols::{Kind, Note, Protocol};
use lf_sim::{Letter, Out};
use std::process::Abort;

/// What is found at the row is what it says. Each comparison ends here: an assertion is dear to prove.
pub(crate) fn agrees(rt: &impl Abort, truth: bool, row: &str) {
    assert!(rt; truth, "at {row}");
}

/// The columns before and behind the first `|`.
pub(crate) fn columns(line: &str) -> (&str, &str) {
    line.split_once('|').unwrap_or((line, ""))
}

/// The words before and behind the first blank.
pub(crate) fn words(text: &str) -> (&str, &str) {
    text.split_once(' ').unwrap_or((text, ""))
}

/// The number that a word writes.
pub(crate) fn number(word: &str) -> Option<u32> {
    word.parse::<u32>().ok()
}

/// The votes of all eight nodes: of these letters each `n` is a no, and every other vote is a yes.
fn votes(letters: &str) -> [bool; 8] {
    let mut votes = [true; 8];
    for (node, letter) in letters.chars().enumerate() {
        if node < 8 && letter == 'n' {
            votes[node] = false;
        }
    }
    votes
}

/// The kind of a protocol, by its name and its settings: how many nodes there are, its tries or its patience, and of a
/// commit the votes.
pub(crate) fn kind(name: &str, settings: &str) -> Option<Kind> {
    let (nodes, rest) = words(settings);
    let (limit, letters) = words(rest);
    let (Some(nodes), Some(tries)) = (number(nodes), number(limit)) else {
        return None;
    };
    let patience = tries;
    let votes = votes(letters);
    match name {
        "retry" => Some(Kind::Retry { nodes, tries }),
        "redundant" => Some(Kind::Redundant { nodes, tries }),
        "two_phase" => Some(Kind::TwoPhase {
            nodes,
            patience,
            votes,
        }),
        "three_phase" => Some(Kind::ThreePhase {
            nodes,
            patience,
            votes,
        }),
        "primary_backup" => Some(Kind::PrimaryBackup { nodes, patience }),
        _ => None,
    }
}

/// The protocol of a kind, by that kind's constructor. None of one of rules.
pub(crate) fn protocol_of(kind: &Kind) -> Option<Protocol> {
    match kind {
        Kind::Retry { nodes, tries } => Protocol::retry(*nodes, *tries),
        Kind::Redundant { nodes, tries } => Protocol::redundant(*nodes, *tries),
        Kind::TwoPhase {
            nodes,
            patience,
            votes,
        } => Protocol::two_phase(*nodes, *patience, *votes),
        Kind::ThreePhase {
            nodes,
            patience,
            votes,
        } => Protocol::three_phase(*nodes, *patience, *votes),
        Kind::PrimaryBackup { nodes, patience } => Protocol::primary_backup(*nodes, *patience),
        Kind::Ruled(_) => None,
    }
}

/// The protocol of a name and settings.
pub(crate) fn protocol(text: &str) -> Option<Protocol> {
    let (name, settings) = words(text);
    let kind = kind(name, settings)?;
    protocol_of(&kind)
}

/// The note of a word.
pub(crate) fn note(word: &str) -> Option<Note> {
    match word {
        "data" => Some(Note::Payload),
        "prepare" => Some(Note::Prepare),
        "yes" => Some(Note::Yes),
        "no" => Some(Note::No),
        "precommit" => Some(Note::Precommit),
        "ack" => Some(Note::Ack),
        "commit" => Some(Note::Commit),
        "abort" => Some(Note::Abort),
        "write" => Some(Note::Write),
        "repl" => Some(Note::Repl),
        "done" => Some(Note::Done),
        "beat" => Some(Note::Beat),
        "claim" => Some(Note::Claim),
        _ => None,
    }
}

/// A node and a note.
fn node_and_note(text: &str) -> Option<(u32, Note)> {
    let (node, word) = words(text);
    Some((number(node)?, note(word)?))
}

/// Adds the letters of a list of senders and notes, each sent at step 1. Says whether the list is one, and there was memory.
pub(crate) fn add_letters(letters: &mut Vec<Letter<Note>>, text: &str) -> bool {
    for item in text.split(',') {
        let Some((from, note)) = node_and_note(item) else {
            return text.is_empty();
        };
        let letter = Letter {
            from,
            sent: 1,
            note,
        };
        if letters.push(letter).is_err() {
            return false;
        }
    }
    true
}

/// What a node sends, of a list of receivers and notes. Nothing else is sent.
pub(crate) fn out(text: &str) -> Option<Out<Note>> {
    let mut out = Out::none();
    if text.is_empty() {
        return Some(out);
    }
    for item in text.split(',') {
        let (to, note) = node_and_note(item)?;
        out.put(to, note);
    }
    Some(out)
}
