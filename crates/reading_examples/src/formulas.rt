//! Promises, read and told in a short form as the formulas that they are.

use lf_grammar::{Place, Slip, Why, read_tokens};
use lf_list::Listed;
use lf_outcome::Formula;
use lf_own_scenario::{Scene, UnfoldError, unfold};
use lf_promises::{Promise, PromiseError, read_promise};
use lf_protocols::Fact;
use lf_rules::{Cells, Definition, Kind, Name, Scope, Variable, Within};
use std::alloc::{AllocError, Global};
use std::process::Abort;

/// A text is what it should be. Each comparison ends here: an assertion is dear to prove.
fn agrees(rt: &impl Abort, truth: bool, source: &str) {
    assert!(rt; truth, "at {source}");
}

fn empty<T>(alloc: Global) -> Listed<T> {
    Listed::from_vec(Vec::new(alloc))
}

fn name(alloc: Global, text: &str) -> Result<Name, AllocError> {
    Ok(Name::new(String::from_str(alloc, text)?))
}

fn flag(alloc: Global, text: &str) -> Result<Variable, AllocError> {
    Ok(Variable {
        name: name(alloc, text)?,
        kind: Kind::Flag,
        cells: Cells::One,
        words: empty(alloc),
    })
}

/// A protocol with three flags.
fn flags(alloc: Global) -> Result<Definition, AllocError> {
    let mut variables = Vec::new(alloc);
    for text in ["has", "committed", "aborted"] {
        variables.push(flag(alloc, text)?)?;
    }
    Ok(Definition {
        variables: Listed::from_vec(variables),
        notes: empty(alloc),
        given: empty(alloc),
        lets: empty(alloc),
        facts: empty(alloc),
        chains: empty(alloc),
        trace: empty(alloc),
    })
}

/// Appends what a formula is: a capital letter is a fact that is denied, and behind it stand the node and the step. Behind `o` stand how many nodes, the last
/// step and the number of the topic, and behind `t` the first and the last step at which the parts behind them are meant.
#[cycle(formula)]
fn tell(formula: &Formula<Fact>, text: &mut String) -> Result<(), AllocError> {
    match formula {
        Formula::All(parts) => tell_parts('&', parts.as_slice(), text),
        Formula::Any(parts) => tell_parts('|', parts.as_slice(), text),
        Formula::Down { node, step } => tell_atom('d', *node, *step, text),
        Formula::Shows { node, step, fact } => {
            let letter = match fact {
                Fact::Ruled(fact) => if fact.denied { 'S' } else { 's' },
                _ => '?',
            };
            tell_atom(letter, *node, *step, text)
        }
        Formula::One { nodes, last, topic } => {
            tell_atom('o', *nodes, *last, text)?;
            text.push(digit(u32::from(*topic)))
        }
        Formula::Over {
            every,
            first,
            last,
            parts,
        } => {
            tell_atom('t', *first, *last, text)?;
            tell_parts(if *every { '&' } else { '|' }, parts.as_slice(), text)
        }
    }
}

fn tell_atom(letter: char, node: u32, step: u32, text: &mut String) -> Result<(), AllocError> {
    text.push(letter)?;
    text.push(digit(node))?;
    text.push(digit(step))
}

fn digit(number: u32) -> char {
    match number {
        0 => '0',
        1 => '1',
        2 => '2',
        3 => '3',
        _ => '?',
    }
}

#[cycle(formula)]
fn tell_parts(sign: char, parts: &[Formula<Fact>], text: &mut String) -> Result<(), AllocError> {
    text.push(sign)?;
    text.push('(')?;
    for part in parts {
        tell(part, text)?;
    }
    text.push(')')
}

/// The promise of a text, about three flags.
fn promise(alloc: Global, source: &str) -> Result<Promise, PromiseError> {
    let Ok(definition) = flags(alloc) else {
        return Err(PromiseError::Memory);
    };
    let place = Place {
        definition: &definition,
        names: &[],
        fields: &[],
        scope: Scope::Who,
        within: Within::Nothing,
    };
    match read_tokens(alloc, source.as_bytes()) {
        Ok(tokens) => read_promise(alloc, &place, tokens.as_slice()),
        Err(_) => Err(PromiseError::Unfit(Slip::first(Why::Value, 0))),
    }
}

/// What a text is as a formula, among three nodes: `.` where it is no promise, `-` where it names a node that there isn't, and `+` where it is too large.
fn told(alloc: Global, horizon: u32, source: &str) -> Result<String, AllocError> {
    let scene = Scene {
        nodes: 3,
        horizon,
        given: [[0; 16]; 8],
    };
    let mut text = String::new(alloc);
    match promise(alloc, source) {
        Ok(promise) => match unfold(alloc, &scene, &promise) {
            Ok(formula) => tell(&formula, &mut text)?,
            Err(UnfoldError::NoNode) => text.push('-')?,
            Err(UnfoldError::TooLarge) => text.push('+')?,
            Err(UnfoldError::Memory) => text.push('!')?,
        },
        Err(_) => text.push('.')?,
    }
    Ok(text)
}

fn is(alloc: Global, horizon: u32, source: &str, wanted: &str) -> bool {
    match told(alloc, horizon, source) {
        Ok(text) => text.as_str() == wanted,
        Err(_) => false,
    }
}

/// Eight times 576 atoms, with three nodes and 48 steps.
const MANY: &str = concat!(
    "always at most one has and always at most one has and always at most one has and always at most one has and ",
    "always at most one has and always at most one has and always at most one has and always at most one has",
);

#[test]
fn promises_are_formulas(rt: HostRuntime) {
    let alloc = rt.alloc();
    let rows = [
        (2, "each has", "&(|(d02s02)|(d12s12)|(d22s22))"),
        (2, "no has of {1..}", "&(|(d12S12)|(d22S22))"),
        (2, "some not has of {0, 2}", "|(S02S22)"),
        (
            1,
            "at most one has of {0, 2}",
            "|(&(|(d21S21))&(|(d01S01)))",
        ),
        (1, "at most one has of 1", "|(&())"),
        (1, "at most one has of {}", "&()"),
        (1, "each has of 5", "&()"),
        (3, "always down 1", "t13&(d10)"),
        (2, "ever (down 0 or has at 1)", "t12|(|(d00s10))"),
        (2, "down 0 and (not has at 1 or down 2)", "&(d02|(S12d22))"),
        (
            2,
            "each has and some committed or down 1",
            "|(&(&(|(d02s02)|(d12s12)|(d22s22))|(s02s12s22))d12)",
        ),
        (2, "down 8", "."),
        (2, "always (down 1 or ever down 2)", "."),
        (2, "always (down 1 or one value of me)", "."),
        (2, "each has each has", "."),
        (2, "down 3", "-"),
        (2, "always has at 7", "-"),
        (48, MANY, "+"),
        (2, "one value of me", "o320"),
        (
            2,
            "one value of me per nodes and one value of nodes where clamped",
            "&(o320o321)",
        ),
        (2, "one value of me or down 1", "|(o320d12)"),
        (
            2,
            "(down 0 or one value of me) and some has and (one value of nodes or one value of me)",
            "&(|(d02o320)|(s02s12s22)|(o321o322))",
        ),
        (2, "always one value of me", "."),
    ];
    for (horizon, source, wanted) in rows {
        agrees(&rt, is(alloc, horizon, source, wanted), source);
    }
}
