//! One rule of a small protocol changed, and all that may be changed in it.

use lf_list::Listed;
use lf_mutations::{Mutation, mutated, mutations};
use lf_rules::{
    Assignment, Cells, Chain, Definition, Event, Expr, Kind, Leaf, Name, NoteForm, Rule, Rules,
    Send, Target, Tree, Variable,
};
use std::alloc::{AllocError, Global};
use std::process::Abort;

fn set(variable: u8, value: u8) -> Assignment {
    Assignment {
        target: Target::Variable(variable),
        value: Expr::leaf(Leaf::Number(value)),
    }
}

fn send(alloc: Global, form: u8) -> Send {
    Send {
        form,
        fields: Listed::from_vec(Vec::new(alloc)),
        to: Expr::leaf(Leaf::All),
        each: false,
    }
}

fn rule(sets: Vec<Assignment>, sends: Vec<Send>) -> Rule {
    Rule {
        guard: Expr::leaf(Leaf::Clamped),
        sets: Listed::from_vec(sets),
        sends: Listed::from_vec(sends),
    }
}

fn chain(rules: Vec<Rule>) -> Chain {
    Chain {
        who: Expr::leaf(Leaf::All),
        on: Event::End,
        rules: Listed::from_vec(rules),
    }
}

fn plain(alloc: Global) -> Variable {
    Variable {
        name: Name::new(String::new(alloc)),
        kind: Kind::UpTo(9),
        cells: Cells::One,
        words: Listed::from_vec(Vec::new(alloc)),
    }
}

/// Two chains: of a rule with two assignments and a rule with a send, and of a rule that does nothing.
fn chains(alloc: Global) -> Result<Vec<Chain>, AllocError> {
    let mut first = Vec::new(alloc);
    let mut sets = Vec::new(alloc);
    sets.push(set(0, 1))?;
    sets.push(set(1, 2))?;
    first.push(rule(sets, Vec::new(alloc)))?;
    let mut sends = Vec::new(alloc);
    sends.push(send(alloc, 0))?;
    first.push(rule(Vec::new(alloc), sends))?;
    let mut second = Vec::new(alloc);
    second.push(rule(Vec::new(alloc), Vec::new(alloc)))?;
    let mut chains = Vec::new(alloc);
    chains.push(chain(first))?;
    chains.push(chain(second))?;
    Ok(chains)
}

/// A protocol with these chains.
fn definition(alloc: Global) -> Result<Definition, AllocError> {
    let mut variables = Vec::new(alloc);
    variables.push(plain(alloc))?;
    variables.push(plain(alloc))?;
    let mut notes = Vec::new(alloc);
    notes.push(NoteForm {
        name: Name::new(String::new(alloc)),
        fields: Listed::from_vec(Vec::new(alloc)),
    })?;
    let mut trace = Vec::new(alloc);
    trace.push(0)?;
    Ok(Definition {
        variables: Listed::from_vec(variables),
        notes: Listed::from_vec(notes),
        given: Listed::from_vec(Vec::new(alloc)),
        lets: Listed::from_vec(Vec::new(alloc)),
        facts: Listed::from_vec(Vec::new(alloc)),
        chains: Listed::from_vec(chains(alloc)?),
        trace: Listed::from_vec(trace),
    })
}

/// What a text of one letter and two digits asks for: `n` never, `a` always, `u` an assignment less, `s` a send less; a rule, and a place.
fn asked(text: &str) -> Option<Mutation> {
    let [letter, rule, place] = text.as_bytes() else {
        return None;
    };
    let (rule, place) = (rule.checked_sub(b'0')?, place.checked_sub(b'0')?);
    match letter {
        b'n' => Some(Mutation::Never { rule }),
        b'a' => Some(Mutation::Always { rule }),
        b'u' => Some(Mutation::Unset { rule, place }),
        b's' => Some(Mutation::Unsent { rule, place }),
        _ => None,
    }
}

/// A short form of a rule: its guard, then how many assignments it has, of which variable the first is, and how many sends it has.
fn tell_rule(rule: &Rule, text: &mut String) -> Result<(), AllocError> {
    text.push(match rule.guard.tree() {
        Tree::Leaf(Leaf::Truth(true)) => 'T',
        Tree::Leaf(Leaf::Truth(false)) => 'F',
        _ => '?',
    })?;
    text.push(digit(rule.sets.len()))?;
    text.push(match rule.sets.as_slice().first() {
        Some(
            Assignment {
                target: Target::Variable(variable),
                ..
            },
        ) => digit(usize::from(*variable)),
        _ => '-',
    })?;
    text.push(digit(rule.sends.len()))
}

fn digit(number: usize) -> char {
    match number {
        0 => '0',
        1 => '1',
        2 => '2',
        _ => '+',
    }
}

/// The rules of a chain in this form.
fn tell_chain(chain: &Chain, text: &mut String) -> Result<(), AllocError> {
    for rule in chain.rules.as_slice() {
        tell_rule(rule, text)?;
    }
    text.push(';')
}

/// A definition's rules in this form, or a point where there is none.
fn told(alloc: Global, definition: Option<&Definition>) -> Result<String, AllocError> {
    let mut text = String::new(alloc);
    let Some(definition) = definition else {
        text.push('.')?;
        return Ok(text);
    };
    for chain in definition.chains.as_slice() {
        tell_chain(chain, &mut text)?;
    }
    Ok(text)
}

/// Whether a change makes of the protocol what is told so, which is well formed if it is one.
fn makes(alloc: Global, change: &str, wanted: &str) -> bool {
    let (Some(change), Ok(definition)) = (asked(change), definition(alloc)) else {
        return false;
    };
    let made = mutated(definition, change);
    let well = match &made {
        Some(made) => made.is_well_formed(),
        None => true,
    };
    match told(alloc, made.as_ref()) {
        Ok(text) => well && text.as_str() == wanted,
        Err(_) => false,
    }
}

/// Changes, and the rules then. Unchanged they are `?200?0-1;?0-0;`.
const CHANGES: &str = concat!(
    "n30 ?200?0-1;F0-0;\n",
    "a20 ?200T0-1;?0-0;\n",
    "n10 F200?0-1;?0-0;\n",
    "u11 ?110?0-1;?0-0;\n",
    "u12 ?100?0-1;?0-0;\n",
    "s21 ?200?0-0;?0-0;\n",
    "n00 .\n",
    "n40 .\n",
    "u10 .\n",
    "u13 .\n",
    "u21 .\n",
    "s11 .\n",
);

#[test]
fn one_rule_changes(rt: HostRuntime) {
    for row in CHANGES.lines() {
        let (change, wanted) = row.split_once(' ').unwrap_or((row, ""));
        assert!(&rt; makes(rt.alloc(), change, wanted), "at {row}");
    }
}

/// Whether all changes are those that are asked for so, in order.
fn lists(alloc: Global, deep: bool, wanted: &str) -> bool {
    let Ok(definition) = definition(alloc) else {
        return false;
    };
    let Some(rules) = Rules::new(definition) else {
        return false;
    };
    match mutations(alloc, &rules, deep) {
        Ok(found) => are_asked(found.as_slice(), wanted),
        Err(_) => false,
    }
}

/// Whether changes are those that words ask for, in order.
fn are_asked(found: &[Mutation], wanted: &str) -> bool {
    let mut left = found;
    for word in wanted.split(' ') {
        let Some((first, rest)) = left.split_first() else {
            return false;
        };
        if asked(word) != Some(*first) {
            return false;
        }
        left = rest;
    }
    left.is_empty()
}

#[test]
fn all_changes_are_listed(rt: HostRuntime) {
    let few = lists(rt.alloc(), false, "n10 a10 n20 a20 n30 a30");
    let all = lists(rt.alloc(), true, "n10 a10 u11 u12 n20 a20 s21 n30 a30");
    assert!(&rt; few && all);
}
