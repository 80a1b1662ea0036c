//! The parts of promises, and what asks whether each is ever at stake, told in a short form.

use lf_grammar::{Place, Slip, Why, read_tokens};
use lf_list::Listed;
use lf_parts::{Part, asked, parts};
use lf_promises::{Many, Promise, PromiseError, read_promise};
use lf_rule_machine::{Fact, Told};
use lf_rules::{Cells, Definition, Kind, Name, Scope, Variable, Within};
use std::alloc::{AllocError, Global};
use std::process::Abort;

/// A text is what it should be. Each comparison ends here: an assertion is dear to prove.
fn agrees(rt: &impl Abort, truth: bool, source: &str) {
    assert!(rt; truth, "at {source}");
}

fn empty<T>(alloc: Global) -> Listed<T> {
    Listed::from_vec(Vec::new(alloc))
}

fn flag(alloc: Global, text: &str) -> Result<Variable, AllocError> {
    Ok(Variable {
        name: Name::new(String::from_str(alloc, text)?),
        kind: Kind::Flag,
        cells: Cells::One,
        words: empty(alloc),
    })
}

/// A protocol with three flags.
fn flags(alloc: Global) -> Result<Definition, AllocError> {
    let mut variables = Vec::new(alloc);
    for text in ["stale", "leader", "decided"] {
        variables.push(flag(alloc, text)?)?;
    }
    Ok(Definition {
        variables: Listed::from_vec(variables),
        notes: empty(alloc),
        given: empty(alloc),
        lets: empty(alloc),
        facts: empty(alloc),
        chains: empty(alloc),
        trace: empty(alloc),
    })
}

/// The promise of a text, about three flags.
fn promise(alloc: Global, source: &str) -> Result<Promise, PromiseError> {
    let Ok(definition) = flags(alloc) else {
        return Err(PromiseError::Memory);
    };
    let place = Place {
        definition: &definition,
        names: &[],
        fields: &[],
        scope: Scope::Who,
        within: Within::Nothing,
    };
    match read_tokens(alloc, source.as_bytes()) {
        Ok(tokens) => read_promise(alloc, &place, tokens.as_slice()),
        Err(_) => Err(PromiseError::Unfit(Slip::first(Why::Value, 0))),
    }
}

/// Appends the words of a part, and behind those of one value the number of its topic.
fn tell_part(part: Part, text: &mut String) -> Result<(), AllocError> {
    part.push_words(text)?;
    match part {
        Part::One { topic } => write!(text, " {topic}"),
        _ => Ok(()),
    }
}

/// Appends what is asked: `e(` and `)` around what is asked of some step, a letter for how many nodes or the number of one, the letter of the flag, which is a
/// capital where the fact is denied, and `*` where a set of nodes is named. Where nothing is asked it is `-`.
fn tell(question: &Promise, text: &mut String) -> Result<(), AllocError> {
    match question {
        Promise::Ever(parts) => {
            text.push_str("e(")?;
            for part in parts.as_slice() {
                tell_unit(part, text)?;
            }
            text.push(')')
        }
        _ => tell_unit(question, text),
    }
}

fn tell_unit(unit: &Promise, text: &mut String) -> Result<(), AllocError> {
    match unit {
        Promise::Nodes { many, fact, of } => {
            text.push(match many {
                Many::Each => 'a',
                Many::No => 'n',
                Many::Some => 's',
                Many::AtMostOne => 'm',
            })?;
            text.push(letter(*fact))?;
            match of {
                Some(_) => text.push('*'),
                None => Ok(()),
            }
        }
        Promise::At { node, fact } => {
            write!(text, "{node}")?;
            text.push(letter(*fact))
        }
        _ => text.push('?'),
    }
}

/// The letter of a flag's fact.
fn letter(fact: Fact) -> char {
    match (fact.told, fact.denied) {
        (Told::Flag(0), false) => 's',
        (Told::Flag(1), false) => 'l',
        (Told::Flag(2), false) => 'd',
        (Told::Flag(1), true) => 'L',
        _ => '?',
    }
}

/// Appends what is asked of the part of a text's promise with a place.
fn tell_asked(
    alloc: Global,
    source: &str,
    place: usize,
    text: &mut String,
) -> Result<(), AllocError> {
    match promise(alloc, source) {
        Ok(promise) => match asked(alloc, promise, place)? {
            Some(question) => tell(&question, text),
            None => text.push('-'),
        },
        Err(_) => text.push('.'),
    }
}

/// The parts of a text's promise, each with what is asked of it, and what is asked past the last one.
fn told(alloc: Global, source: &str) -> Result<String, AllocError> {
    let mut text = String::new(alloc);
    let Ok(promise) = promise(alloc, source) else {
        text.push('.')?;
        return Ok(text);
    };
    let mut place = 0;
    for part in parts(alloc, &promise)? {
        tell_part(part, &mut text)?;
        text.push_str(": ")?;
        tell_asked(alloc, source, place, &mut text)?;
        text.push_str(", ")?;
        place = place.saturating_add(1);
    }
    tell_asked(alloc, source, place, &mut text)?;
    Ok(text)
}

fn is(alloc: Global, source: &str, wanted: &str) -> bool {
    match told(alloc, source) {
        Ok(text) => text.as_str() == wanted,
        Err(_) => false,
    }
}

#[test]
fn parts_are_asked(rt: HostRuntime) {
    let alloc = rt.alloc();
    let rows = [
        (
            "always no stale and at most one leader of {0, 2}",
            "no: e(ss), at most one: e(sl*), -",
        ),
        (
            "one value of me per nodes where clamped",
            "one value 0: -, -",
        ),
        (
            "each decided of 1 or decided at 0",
            "each: ad*, node 0: 0d, -",
        ),
        (
            "one value of me or down 1 and (one value of nodes or ever some not leader)",
            "one value 0: -, one value 1: -, some: sL, -",
        ),
        ("down 1", "-"),
        ("leader at 8", "."),
    ];
    for (source, wanted) in rows {
        agrees(&rt, is(alloc, source, wanted), source);
    }
}
