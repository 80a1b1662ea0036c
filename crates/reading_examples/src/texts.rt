//! Texts, read.

use lf_grammar::{Meaning, Place, Token};
use lf_list::Listed;
use lf_rules::{Cells, Definition, Event, Kind, Leaf, Name, NoteForm, Scope, Variable, Within};
use lf_texts::{
    Heard, TextError, VariableText, is_name, is_note_name, is_reserved, read_event, read_guard,
    read_nodes, read_note, read_sends, read_sets, read_value, read_variable, read_when,
    same_tokens, text_tokens,
};
use std::alloc::{AllocError, Global};

fn name(alloc: Global, text: &str) -> Result<Name, AllocError> {
    Ok(Name::new(String::from_str(alloc, text)?))
}

fn variable(
    alloc: Global,
    text: &str,
    kind: Kind,
    words: Vec<Name>,
) -> Result<Variable, AllocError> {
    Ok(Variable {
        name: name(alloc, text)?,
        kind,
        cells: Cells::One,
        words: Listed::from_vec(words),
    })
}

fn words(alloc: Global) -> Result<Vec<Name>, AllocError> {
    let mut words = Vec::new(alloc);
    words.push(name(alloc, "idle")?)?;
    words.push(name(alloc, "voting")?)?;
    Ok(words)
}

fn variables(alloc: Global) -> Result<Vec<Variable>, AllocError> {
    let mut variables = Vec::new(alloc);
    let phase = Kind::Word { of: 0, words: 2 };
    variables.push(variable(alloc, "phase", phase, words(alloc)?)?)?;
    variables.push(variable(alloc, "since", Kind::UpTo(48), Vec::new(alloc))?)?;
    variables.push(variable(alloc, "yes", Kind::Nodes, Vec::new(alloc))?)?;
    variables.push(variable(alloc, "refused", Kind::Flag, Vec::new(alloc))?)?;
    Ok(variables)
}

fn notes(alloc: Global) -> Result<Vec<NoteForm>, AllocError> {
    let mut kinds = Vec::new(alloc);
    kinds.push(Kind::UpTo(5))?;
    kinds.push(Kind::Flag)?;
    let mut notes = Vec::new(alloc);
    notes.push(NoteForm {
        name: name(alloc, "YES")?,
        fields: Listed::from_vec(Vec::new(alloc)),
    })?;
    notes.push(NoteForm {
        name: name(alloc, "ASK")?,
        fields: Listed::from_vec(kinds),
    })?;
    Ok(notes)
}

fn definition(alloc: Global) -> Result<Definition, AllocError> {
    Ok(Definition {
        variables: Listed::from_vec(variables(alloc)?),
        notes: Listed::from_vec(notes(alloc)?),
        given: Listed::from_vec(Vec::new(alloc)),
        lets: Listed::from_vec(Vec::new(alloc)),
        facts: Listed::from_vec(Vec::new(alloc)),
        chains: Listed::from_vec(Vec::new(alloc)),
        trace: Listed::from_vec(Vec::new(alloc)),
    })
}

/// What the names mean.
const NAMES: [(&str, Leaf); 6] = [
    ("phase", Leaf::Variable(0)),
    ("idle", Leaf::Word { of: 0, word: 0 }),
    ("voting", Leaf::Word { of: 0, word: 1 }),
    ("since", Leaf::Variable(1)),
    ("yes", Leaf::Variable(2)),
    ("refused", Leaf::Variable(3)),
];

fn meanings(alloc: Global) -> Result<Vec<Meaning>, AllocError> {
    let mut names = Vec::new(alloc);
    for (text, leaf) in NAMES {
        names.push(Meaning {
            name: name(alloc, text)?,
            leaf,
        })?;
    }
    Ok(names)
}

/// What is read.
#[derive(Clone, Copy, Debug)]
enum What {
    Nodes,
    Value,
    Guard,
    When,
    Event,
    Sets,
    Sends,
    Note,
    Variable,
}

/// What is counted of an event: where it stands among all, and of a note the fields that have names.
fn heard_count(heard: &Heard) -> usize {
    match heard.on {
        Event::Start => 10,
        Event::Wake => 20,
        Event::Begin => 30,
        Event::End => 40,
        Event::Note(0) => 50,
        Event::Note(_) => heard.fields.len(),
    }
}

/// What is counted of a variable's text: of a kind 1000, of another variable's name 2000, and else the words.
fn variable_count(text: &VariableText) -> usize {
    match text {
        VariableText::Kind(_) => 1000,
        VariableText::Like(_) => 2000,
        VariableText::Words(words) => words.len(),
    }
}

/// Reads tokens, and counts what they have.
fn counted(
    alloc: Global,
    place: &Place<'_>,
    what: What,
    tokens: &[Token],
) -> Result<usize, TextError> {
    Ok(match what {
        What::Nodes => {
            let _nodes = read_nodes(alloc, place, tokens)?;
            1
        }
        What::Value => {
            let _value = read_value(alloc, place, tokens)?;
            1
        }
        What::Guard => {
            let _guard = read_guard(alloc, place, tokens)?;
            1
        }
        What::When => if read_when(alloc, place, tokens)?.is_else {
            2
        } else {
            1
        },
        What::Event => heard_count(&read_event(alloc, place, tokens)?),
        What::Sets => read_sets(alloc, place, tokens)?.len(),
        What::Sends => read_sends(alloc, place, tokens)?.len(),
        What::Note => read_note(alloc, place.definition, tokens)?.fields.len(),
        What::Variable => variable_count(&read_variable(alloc, place, tokens)?.1),
    })
}

/// Reads a text, and counts what it has.
fn read(alloc: Global, what: What, text: &str) -> Result<usize, TextError> {
    let definition = definition(alloc)?;
    let names = meanings(alloc)?;
    let place = Place {
        definition: &definition,
        names: names.as_slice(),
        fields: &[],
        scope: Scope::Plain,
        within: Within::Nothing,
    };
    let tokens = text_tokens(alloc, text)?;
    counted(alloc, &place, what, tokens.as_slice())
}

/// What a text that can't stand there, and one past a limit, is counted as.
const UNFIT: usize = 7000;

const PAST: usize = 6000;

fn told(alloc: Global, what: What, text: &str) -> usize {
    match read(alloc, what, text) {
        Ok(count) => count,
        Err(TextError::Unfit) => UNFIT,
        Err(TextError::PastLimit) => PAST,
        Err(TextError::Memory) => 0,
    }
}

/// Texts, each with what is counted of it.
const TEXTS: [(What, &str, usize); 24] = [
    (What::Nodes, "yes + me", 1),
    (What::Nodes, "refused", UNFIT),
    (What::Value, "phase", 1),
    (What::Guard, "phase = idle", 1),
    (What::Guard, "since", UNFIT),
    (What::When, "else refused", 2),
    (What::When, "else", 2),
    (What::When, "256", PAST),
    (What::Event, "wake", 20),
    (What::Event, "ASK(x, _)", 2),
    (What::Event, "ASK", 0),
    (What::Event, "ASK(x, phase)", UNFIT),
    (What::Sets, "phase = voting, yes = {}", 2),
    (What::Sets, "phase = voting, phase = idle", UNFIT),
    (What::Sets, "yes = 0", UNFIT),
    (What::Sends, "YES to 0, ASK(since, refused) to all - me", 2),
    (What::Sends, "ASK(refused, since) to 0", UNFIT),
    (What::Note, "NO(t: 0..5, e: phase)", 2),
    (What::Note, "NO(a: 1..5)", UNFIT),
    (What::Variable, "0..7", 1000),
    (What::Variable, "other", 2000),
    (What::Variable, "one | two", 2),
    (What::Variable, "one | idle", UNFIT),
    (What::Variable, "a|b|c|d|e|f|g|h|i|j|k|l|m|n|o|p|", PAST),
];

#[test]
fn texts_are_read(rt: HostRuntime) {
    let alloc = rt.alloc();
    for (what, text, count) in TEXTS {
        assert!(&rt; told(alloc, what, text) == count, "{text}");
    }
}

/// Words, each with whether it is a name, a note's name, and a word of the language.
const WORDS: [(&str, bool, bool, bool); 14] = [
    ("a", true, false, false),
    ("x_1", true, false, false),
    ("abcdefghijklmnopqrstuvwx", true, false, false),
    ("abcdefghijklmnopqrstuvwxy", false, false, false),
    ("", false, false, false),
    ("_a", false, false, false),
    ("not_a", false, false, false),
    ("not", true, false, true),
    ("ever", true, false, true),
    ("start", true, false, false),
    ("A_1", false, true, false),
    ("Ab", false, false, false),
    ("1", false, false, false),
    ("lowest", true, false, true),
];

#[test]
fn words_are_told(rt: HostRuntime) {
    for (word, is_one, is_of_note, is_of_language) in WORDS {
        assert!(&rt; is_name(word) == is_one, "{word}");
        assert!(&rt; is_note_name(word) == is_of_note, "{word}");
        assert!(&rt; is_reserved(word) == is_of_language, "{word}");
    }
}

fn same(alloc: Global, one: &str, other: &str) -> bool {
    match (text_tokens(alloc, one), text_tokens(alloc, other)) {
        (Ok(one), Ok(other)) => same_tokens(one.as_slice(), other.as_slice()),
        _ => false,
    }
}

#[test]
fn tokens_are_compared(rt: HostRuntime) {
    let alloc = rt.alloc();
    assert!(&rt; same(alloc, "a + 1", "a+01"));
    assert!(&rt; !same(alloc, "a + 1", "a + 1 + 1"));
    assert!(&rt; !same(alloc, "a + 1", "b + 1"));
}
