//! A small protocol, and what the texts of examples stand for.

use lf_list::Listed;
use lf_rules::{Cells, Definition, Expr, Guard, Kind, Leaf, Name, NoteForm, Tree, Variable};
use std::alloc::{AllocError, Global};
use std::process::Abort;

/// What is found at the row is what it says. Each comparison ends here: an assertion is dear to prove.
pub(crate) fn agrees(rt: &impl Abort, truth: bool, row: &str) {
    assert!(rt; truth, "at {row}");
}

/// The columns before and behind the first `|`.
pub(crate) fn columns(line: &str) -> (&str, &str) {
    line.split_once('|').unwrap_or((line, ""))
}

/// The words before and behind the first blank.
pub(crate) fn words(text: &str) -> (&str, &str) {
    text.split_once(' ').unwrap_or((text, ""))
}

/// The number that a word writes; 0 where it writes none.
pub(crate) fn number(word: &str) -> u8 {
    word.parse::<u8>().unwrap_or(0)
}

/// Writes the numbers of a text into a list, from its first place on.
pub(crate) fn fill(list: &mut [u8], text: &str) {
    for (place, word) in text.split(' ').enumerate() {
        if place < list.len() {
            list[place] = number(word);
        }
    }
}

/// The numbers of a text.
fn numbers(alloc: Global, text: &str) -> Result<Listed<u8>, AllocError> {
    let mut numbers = Vec::new(alloc);
    for word in text.split(' ') {
        numbers.push(number(word))?;
    }
    Ok(Listed::from_vec(numbers))
}

fn name(alloc: Global, text: &str) -> Result<Name, AllocError> {
    Ok(Name::new(String::from_str(alloc, text)?))
}

/// The words of a text, each as a name.
fn names(alloc: Global, text: &str) -> Result<Listed<Name>, AllocError> {
    let mut names = Vec::new(alloc);
    for word in text.split(' ') {
        names.push(name(alloc, word)?)?;
    }
    Ok(Listed::from_vec(names))
}

/// A variable without words of its own.
fn plain(alloc: Global, text: &str, kind: Kind) -> Result<Variable, AllocError> {
    Ok(Variable {
        name: name(alloc, text)?,
        kind,
        cells: Cells::One,
        words: Listed::from_vec(Vec::new(alloc)),
    })
}

/// The kind of the words of `phase`.
const PHASE: Kind = Kind::Word { of: 0, words: 3 };

/// A table, whose cells are of a kind.
fn table(alloc: Global, text: &str, kind: Kind, cells: Cells) -> Result<Variable, AllocError> {
    let mut table = plain(alloc, text, kind)?;
    table.cells = cells;
    Ok(table)
}

/// A phase, a flag, a number, a set, a variable with the phase's words, and three tables: numbers by node, the phase's words in three cells, and flags in two.
fn variables(alloc: Global) -> Result<Listed<Variable>, AllocError> {
    let phase = Variable {
        name: name(alloc, "phase")?,
        kind: PHASE,
        cells: Cells::One,
        words: names(alloc, "idle ready done")?,
    };
    let mut variables = Vec::new(alloc);
    variables.push(phase)?;
    variables.push(plain(alloc, "open", Kind::Flag)?)?;
    variables.push(plain(alloc, "since", Kind::UpTo(48))?)?;
    variables.push(plain(alloc, "seen", Kind::Nodes)?)?;
    variables.push(plain(alloc, "vote", PHASE)?)?;
    variables.push(table(alloc, "next", Kind::UpTo(9), Cells::EachNode)?)?;
    variables.push(table(alloc, "log", PHASE, Cells::UpTo(3))?)?;
    variables.push(table(alloc, "up", Kind::Flag, Cells::UpTo(2))?)?;
    Ok(Listed::from_vec(variables))
}

/// A note without fields, one with a field of each kind, and one with one field.
fn notes(alloc: Global) -> Result<Listed<NoteForm>, AllocError> {
    let kinds = [Kind::UpTo(9), PHASE, Kind::Flag, Kind::Nodes];
    let mut notes = Vec::new(alloc);
    notes.push(form(alloc, "BEAT", Vec::new(alloc))?)?;
    notes.push(form(alloc, "PROMISE_2", Vec::from_array(alloc, kinds)?)?)?;
    notes.push(form(alloc, "ASK", Vec::from_array(alloc, [Kind::UpTo(255)])?)?)?;
    Ok(Listed::from_vec(notes))
}

fn form(alloc: Global, text: &str, kinds: Vec<Kind>) -> Result<NoteForm, AllocError> {
    Ok(NoteForm {
        name: name(alloc, text)?,
        fields: Listed::from_vec(kinds),
    })
}

/// Guards with the names of a text.
fn guards(alloc: Global, text: &str) -> Result<Listed<Guard>, AllocError> {
    let mut guards = Vec::new(alloc);
    for word in text.split(' ') {
        let Some(value) = Expr::new(Tree::Leaf(Leaf::Truth(true))) else {
            return Err(AllocError);
        };
        let name = name(alloc, word)?;
        guards.push(Guard { name, value })?;
    }
    Ok(Listed::from_vec(guards))
}

/// The protocol, with guards of these names, and a trace that shows the variables with these numbers.
pub(crate) fn definition(
    alloc: Global,
    guarded: &str,
    shown: &str,
) -> Result<Definition, AllocError> {
    Ok(Definition {
        variables: variables(alloc)?,
        notes: notes(alloc)?,
        given: Listed::from_vec(Vec::new(alloc)),
        lets: Listed::from_vec(Vec::new(alloc)),
        facts: guards(alloc, guarded)?,
        chains: Listed::from_vec(Vec::new(alloc)),
        trace: numbers(alloc, shown)?,
    })
}
