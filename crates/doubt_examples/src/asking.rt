//! A protocol of two nodes: node 0 sends a note at each step, and node 1 hears it. A rule of node 1 is never taken. And topics of it.

use lf_list::Listed;
use lf_protocols::Protocol;
use lf_rule_machine::Ruled;
use lf_rules::{
    Assignment, Cells, Chain, Definition, Event, Expr, Kind, Leaf, Name, NoteForm, Rule, Rules,
    Send, Target, Topic, Topics, Tree, Unary, Variable,
};
use std::alloc::{AllocError, Global};
use std::sync::Arc;

/// An expression of a tree that is small enough.
fn expr(tree: Tree) -> Result<Expr, AllocError> {
    match Expr::new(tree) {
        Some(expr) => Ok(expr),
        None => Err(AllocError),
    }
}

fn truth(truth: bool) -> Result<Expr, AllocError> {
    expr(Tree::Leaf(Leaf::Truth(truth)))
}

/// The set of one node.
fn only(alloc: Global, node: u8) -> Result<Expr, AllocError> {
    let number = Box::new(alloc, Tree::Leaf(Leaf::Number(node)))?;
    expr(Tree::Unary(Unary::Only, number))
}

/// A rule that is always taken where it comes first, or never.
fn rule(guard: bool, sets: Vec<Assignment>, sends: Vec<Send>) -> Result<Rule, AllocError> {
    Ok(Rule {
        guard: truth(guard)?,
        sets: Listed::from_vec(sets),
        sends: Listed::from_vec(sends),
    })
}

/// That the node has heard the note.
fn heard() -> Result<Assignment, AllocError> {
    Ok(Assignment {
        target: Target::Variable(0),
        value: truth(true)?,
    })
}

/// The rules of one node at an event.
fn chain(alloc: Global, node: u8, on: Event, rules: Vec<Rule>) -> Result<Chain, AllocError> {
    Ok(Chain {
        who: only(alloc, node)?,
        on,
        rules: Listed::from_vec(rules),
    })
}

/// A note without fields to node 1.
fn note(alloc: Global) -> Result<Send, AllocError> {
    Ok(Send {
        form: 0,
        fields: Listed::from_vec(Vec::new(alloc)),
        to: only(alloc, 1)?,
        each: false,
    })
}

/// The rules: 1, node 0 sends a note; 2, never taken, and 3, node 1 hears it, and remembers that; 4, node 0 begins, and does nothing.
fn chains(alloc: Global) -> Result<Vec<Chain>, AllocError> {
    let mut sends = Vec::new(alloc);
    sends.push(note(alloc)?)?;
    let mut asks = Vec::new(alloc);
    asks.push(rule(true, Vec::new(alloc), sends)?)?;
    let mut sets = Vec::new(alloc);
    sets.push(heard()?)?;
    let mut hears = Vec::new(alloc);
    hears.push(rule(false, Vec::new(alloc), Vec::new(alloc))?)?;
    hears.push(rule(true, sets, Vec::new(alloc))?)?;
    let mut begins = Vec::new(alloc);
    begins.push(rule(true, Vec::new(alloc), Vec::new(alloc))?)?;
    let mut chains = Vec::new(alloc);
    chains.push(chain(alloc, 0, Event::Begin, asks)?)?;
    chains.push(chain(alloc, 1, Event::Note(0), hears)?)?;
    chains.push(chain(alloc, 0, Event::Start, begins)?)?;
    Ok(chains)
}

fn definition(alloc: Global) -> Result<Definition, AllocError> {
    let mut variables = Vec::new(alloc);
    variables.push(Variable {
        name: Name::new(String::new(alloc)),
        kind: Kind::Flag,
        cells: Cells::One,
        words: Listed::from_vec(Vec::new(alloc)),
    })?;
    let mut notes = Vec::new(alloc);
    notes.push(NoteForm {
        name: Name::new(String::new(alloc)),
        fields: Listed::from_vec(Vec::new(alloc)),
    })?;
    Ok(Definition {
        variables: Listed::from_vec(variables),
        notes: Listed::from_vec(notes),
        given: Listed::from_vec(Vec::new(alloc)),
        lets: Listed::from_vec(Vec::new(alloc)),
        facts: Listed::from_vec(Vec::new(alloc)),
        chains: Listed::from_vec(chains(alloc)?),
        trace: Listed::from_vec(Vec::from_array(alloc, [0])?),
    })
}

/// A topic under which a node enters its own number, for the key 0.
fn topic(guard: Leaf) -> Result<Topic, AllocError> {
    Ok(Topic {
        value: expr(Tree::Leaf(Leaf::Me))?,
        key: expr(Tree::Leaf(Leaf::Number(0)))?,
        guard: expr(Tree::Leaf(guard))?,
    })
}

/// The topics: under 0 each node enters something, under 1 one that has heard the note, and under 2 none.
fn topics(alloc: Global) -> Result<Topics, AllocError> {
    let mut topics = Vec::new(alloc);
    topics.push(topic(Leaf::Truth(true))?)?;
    topics.push(topic(Leaf::Variable(0))?)?;
    topics.push(topic(Leaf::Truth(false))?)?;
    Ok(Listed::from_vec(topics))
}

/// The protocol.
pub(crate) fn asking(alloc: Global) -> Option<Protocol> {
    let rules = Rules::new(definition(alloc).ok()?)?;
    let rules = Arc::new(alloc, rules).ok()?;
    let ruled = Ruled::new(alloc, rules, 2, &[]).ok()??;
    let ruled = ruled.with_topics(alloc, topics(alloc).ok()?).ok()?;
    Some(Protocol::ruled(ruled))
}
