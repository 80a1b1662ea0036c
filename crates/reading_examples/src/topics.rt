//! What is to have one value, read and told in a short form.

use lf_grammar::{Meaning, Place, Sign, Slip, Why, read_tokens};
use lf_list::Listed;
use lf_promises::{Promise, PromiseError, read_promise};
use lf_rules::{Cells, Definition, Expr, Kind, Leaf, Name, Scope, Tree, Variable, Within};
use std::alloc::{AllocError, Global};
use std::process::Abort;

/// A text is what it should be. Each comparison ends here: an assertion is dear to prove.
fn agrees(rt: &impl Abort, truth: bool, source: &str) {
    assert!(rt; truth, "at {source}");
}

fn empty<T>(alloc: Global) -> Listed<T> {
    Listed::from_vec(Vec::new(alloc))
}

/// The promise of a text, where no name means anything but the language's words.
fn promise(alloc: Global, source: &str) -> Result<Promise, PromiseError> {
    let definition = Definition {
        variables: empty(alloc),
        notes: empty(alloc),
        given: empty(alloc),
        lets: empty(alloc),
        facts: empty(alloc),
        chains: empty(alloc),
        trace: empty(alloc),
    };
    let place = Place {
        definition: &definition,
        names: &[],
        fields: &[],
        scope: Scope::Who,
        within: Within::Nothing,
    };
    match read_tokens(alloc, source.as_bytes()) {
        Ok(tokens) => read_promise(alloc, &place, tokens.as_slice()),
        Err(_) => Err(PromiseError::Unfit(Slip::first(Why::Value, 0))),
    }
}

/// A letter or a digit for a leaf, and `*` for any other expression.
fn letter(expr: &Expr) -> char {
    match expr.tree() {
        Tree::Leaf(Leaf::Number(0)) => '0',
        Tree::Leaf(Leaf::Number(1)) => '1',
        Tree::Leaf(Leaf::Truth(true)) => 't',
        Tree::Leaf(Leaf::Truth(false)) => 'f',
        Tree::Leaf(Leaf::Me) => 'm',
        Tree::Leaf(Leaf::Nodes) => 'n',
        Tree::Leaf(Leaf::Clamped) => 'c',
        _ => '*',
    }
}

/// The value, the key and the guard of what a text asks: `.` where it is no promise, and `-` where it is another one.
fn told(alloc: Global, source: &str) -> Result<String, AllocError> {
    let mut text = String::new(alloc);
    match &promise(alloc, source) {
        Ok(Promise::One(topic)) => {
            text.push(letter(&topic.value))?;
            text.push(letter(&topic.key))?;
            text.push(letter(&topic.guard))?;
        }
        Ok(_) => text.push('-')?,
        Err(_) => text.push('.')?,
    }
    Ok(text)
}

fn is(alloc: Global, source: &str, wanted: &str) -> bool {
    match told(alloc, source) {
        Ok(text) => text.as_str() == wanted,
        Err(_) => false,
    }
}

#[test]
fn topics_are_read(rt: HostRuntime) {
    let alloc = rt.alloc();
    let rows = [
        ("one value of me", "m0t"),
        ("one value of me per nodes", "mnt"),
        ("one value of nodes per me where clamped", "nmc"),
        ("one value of 1 where false", "10f"),
        ("one value of not clamped per {0, me} where 1 < me", "***"),
        ("(one value of me)", "m0t"),
        ("one value of me and one value of me", "-"),
        ("one value of (me = 1 and clamped)", "*0t"),
        ("one value of me = 1 and clamped", "."),
        ("one value of me where true and clamped", "."),
        ("one value of me where 1", "."),
        ("one value of me where {me}", "."),
        ("one value of me where true per nodes", "."),
        ("one value of me per", "."),
        ("one value me", "."),
        ("one of me", "."),
        ("one value of t", "."),
        ("one value of it", "."),
        ("one value of max(all: it)", "*0t"),
        ("always one value of me", "."),
        ("ever (down 1 or one value of me)", "."),
        ("down 1 or one value of me", "-"),
        ("not one value of me", "."),
    ];
    for (source, wanted) in rows {
        agrees(&rt, is(alloc, source, wanted), source);
    }
}

fn name(alloc: Global, text: &str) -> Result<Name, AllocError> {
    Ok(Name::new(String::from_str(alloc, text)?))
}

/// A table of two numbers.
fn log(alloc: Global) -> Result<Variable, AllocError> {
    Ok(Variable {
        name: name(alloc, "log")?,
        kind: Kind::UpTo(7),
        cells: Cells::UpTo(2),
        words: empty(alloc),
    })
}

/// A protocol whose state is the table.
fn logs(alloc: Global) -> Result<Definition, AllocError> {
    let mut variables = Vec::new(alloc);
    variables.push(log(alloc)?)?;
    Ok(Definition {
        variables: Listed::from_vec(variables),
        notes: empty(alloc),
        given: empty(alloc),
        lets: empty(alloc),
        facts: empty(alloc),
        chains: empty(alloc),
        trace: empty(alloc),
    })
}

/// What the table's name means.
fn meanings(alloc: Global) -> Result<Vec<Meaning>, AllocError> {
    let mut names = Vec::new(alloc);
    names.push(Meaning {
        name: name(alloc, "log")?,
        leaf: Leaf::Variable(0),
    })?;
    Ok(names)
}

/// Where a text is refused, about the table. None where it is a promise.
fn refused(alloc: Global, source: &str) -> Option<Slip> {
    let (Ok(definition), Ok(names)) = (logs(alloc), meanings(alloc)) else {
        return None;
    };
    let place = Place {
        definition: &definition,
        names: names.as_slice(),
        fields: &[],
        scope: Scope::Who,
        within: Within::Nothing,
    };
    let Ok(tokens) = read_tokens(alloc, source.as_bytes()) else {
        return None;
    };
    match read_promise(alloc, &place, tokens.as_slice()) {
        Err(PromiseError::Unfit(slip)) => Some(slip),
        _ => None,
    }
}

/// Whether a text is refused for this reason, where so many tokens are left.
fn is_refused(alloc: Global, source: &str, why: Why, left: usize) -> bool {
    match refused(alloc, source) {
        Some(slip) => slip.why == why && slip.at == left,
        None => false,
    }
}

#[test]
fn topics_are_refused(rt: HostRuntime) {
    let alloc = rt.alloc();
    let rows = [
        ("one of me", Why::Fact, 3),
        ("one value", Why::Of, 0),
        ("one value me", Why::Of, 1),
        ("one value of", Why::Value, 0),
        ("one value of per me", Why::Name, 2),
        ("one value of me per", Why::Value, 0),
        ("one value of me where", Why::Value, 0),
        ("one value of me per nodes per me", Why::Rest, 2),
        ("one value of me where true per nodes", Why::Rest, 2),
        ("one value of me where true where true", Why::Rest, 2),
        ("one value of me me", Why::Rest, 1),
        ("one value of me = 1 = 1", Why::Rest, 2),
        ("one value of me and", Why::Fact, 0),
        ("one value of me where true and me", Why::Fact, 1),
        ("one value of me where true and clamped", Why::Nodes, 1),
        ("one value of me where 1", Why::Sort, 1),
        ("one value of me where log[1] or down 1", Why::Sort, 7),
        ("one value of me where {me} and down 1", Why::Sort, 6),
        ("one value of not me", Why::Sort, 1),
        ("one value of me + clamped", Why::Sort, 2),
        ("one value of me per me < {}", Why::Sort, 3),
        ("one value of log[all]", Why::Sort, 2),
        ("one value of t", Why::Name, 1),
        ("one value of me per sender", Why::Name, 1),
        ("one value of me where voted", Why::Name, 1),
        ("one value of it", Why::It, 1),
        ("one value of log", Why::Table, 1),
        ("one value of me[1]", Why::Items, 4),
        ("one value of log[1", Why::Sign(Sign::CloseSquare), 0),
        ("one value of (me", Why::Sign(Sign::CloseRound), 0),
        ("one value of me mod 0", Why::Divisor, 1),
        (
            "one value of {all where {all where true} = all}",
            Why::Body,
            6,
        ),
        ("always one value of me", Why::Time, 4),
        ("ever (down 1 or one value of me)", Why::Time, 5),
        ("not one value of me", Why::Fact, 4),
    ];
    for (source, why, left) in rows {
        agrees(&rt, is_refused(alloc, source, why, left), source);
    }
}
