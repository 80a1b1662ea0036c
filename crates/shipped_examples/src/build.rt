//! Makes definitions of values.

use lf_list::Listed;
use lf_rules::{
    Assignment, Binary, Cells, Chain, Constant, Definition, Event, Expr, Given, Guard, Kind, Leaf,
    Name, NoteForm, Rule, Rules, Send, Sort, Target, Tree, Unary, Value, Variable,
};
use std::alloc::{AllocError, Global};
use std::sync::Arc;

/// A tree, unless memory ran out.
pub(crate) type Grown = Result<Tree, AllocError>;

/// A list, unless memory ran out.
pub(crate) type List<T> = Result<Vec<T>, AllocError>;

/// The greatest number of a step.
pub(crate) const STEP: Kind = Kind::UpTo(48);

pub(crate) fn leaf(leaf: Leaf) -> Grown {
    Ok(Tree::Leaf(leaf))
}

pub(crate) fn number(number: u8) -> Grown {
    leaf(Leaf::Number(number))
}

pub(crate) fn yes() -> Grown {
    leaf(Leaf::Truth(true))
}

pub(crate) fn variable(i: u8) -> Grown {
    leaf(Leaf::Variable(i))
}

pub(crate) fn unary(alloc: Global, operator: Unary, one: Grown) -> Grown {
    Ok(Tree::Unary(operator, Box::new(alloc, one?)?))
}

pub(crate) fn binary(alloc: Global, operator: Binary, one: Grown, other: Grown) -> Grown {
    let one = Box::new(alloc, one?)?;
    let other = Box::new(alloc, other?)?;
    Ok(Tree::Binary(operator, one, other))
}

pub(crate) fn equal(alloc: Global, one: Grown, other: Grown) -> Grown {
    binary(alloc, Binary::Equal, one, other)
}

pub(crate) fn and(alloc: Global, one: Grown, other: Grown) -> Grown {
    binary(alloc, Binary::And, one, other)
}

pub(crate) fn or(alloc: Global, one: Grown, other: Grown) -> Grown {
    binary(alloc, Binary::Or, one, other)
}

/// Whether a variable has a word.
pub(crate) fn is(alloc: Global, of: u8, word: u8) -> Grown {
    equal(alloc, variable(of), leaf(Leaf::Word { of, word }))
}

/// The set of one node.
pub(crate) fn only(alloc: Global, node: u8) -> Grown {
    unary(alloc, Unary::Only, number(node))
}

/// The set of the nodes from one on.
pub(crate) fn from(alloc: Global, node: u8) -> Grown {
    binary(alloc, Binary::Between, number(node), leaf(Leaf::Nodes))
}

/// The expression of a tree; a tree that is too large counts as memory that ran out.
fn expr(tree: Grown) -> Result<Expr, AllocError> {
    match Expr::new(tree?) {
        Some(expr) => Ok(expr),
        None => Err(AllocError),
    }
}

/// A list of no items.
pub(crate) fn none<T: Drop>(alloc: Global) -> List<T> {
    Ok(Vec::new(alloc))
}

/// A list of one item.
pub(crate) fn one<T: Drop>(alloc: Global, item: Result<T, AllocError>) -> List<T> {
    more(Ok(Vec::new(alloc)), item)
}

/// A list with one item more.
pub(crate) fn more<T: Drop>(items: List<T>, item: Result<T, AllocError>) -> List<T> {
    let mut items = items?;
    items.push(item?)?;
    Ok(items)
}

pub(crate) fn set(variable: u8, value: Grown) -> Result<Assignment, AllocError> {
    let value = expr(value)?;
    let target = Target::Variable(variable);
    Ok(Assignment { target, value })
}

/// A variable gets a word.
pub(crate) fn becomes(alloc: Global, of: u8, word: u8) -> List<Assignment> {
    one(alloc, set(of, leaf(Leaf::Word { of, word })))
}

/// A note for each node of a set.
pub(crate) fn send(alloc: Global, form: u8, to: Grown) -> List<Send> {
    one(alloc, sent(alloc, form, to))
}

fn sent(alloc: Global, form: u8, to: Grown) -> Result<Send, AllocError> {
    let to = expr(to)?;
    let fields = Listed::from_vec(Vec::new(alloc));
    Ok(Send {
        form,
        fields,
        to,
        each: false,
    })
}

pub(crate) fn rule(
    guard: Grown,
    sets: List<Assignment>,
    sends: List<Send>,
) -> Result<Rule, AllocError> {
    let guard = expr(guard)?;
    let sets = Listed::from_vec(sets?);
    let sends = Listed::from_vec(sends?);
    Ok(Rule { guard, sets, sends })
}

pub(crate) fn chain(who: Grown, on: Event, rules: List<Rule>) -> Result<Chain, AllocError> {
    let who = expr(who)?;
    let rules = Listed::from_vec(rules?);
    Ok(Chain { who, on, rules })
}

/// A chain of one rule.
pub(crate) fn alone(
    alloc: Global,
    who: Grown,
    on: Event,
    rule: Result<Rule, AllocError>,
) -> Result<Chain, AllocError> {
    chain(who, on, one(alloc, rule))
}

/// A variable without words of its own.
pub(crate) fn plain(alloc: Global, name: &str, kind: Kind) -> Result<Variable, AllocError> {
    let name = Name::new(String::from_str(alloc, name)?);
    let words = Listed::from_vec(Vec::new(alloc));
    Ok(Variable {
        name,
        kind,
        cells: Cells::One,
        words,
    })
}

/// A variable with words of its own.
pub(crate) fn worded(
    alloc: Global,
    name: &str,
    of: u8,
    words: &str,
) -> Result<Variable, AllocError> {
    let name = Name::new(String::from_str(alloc, name)?);
    let words = Listed::from_vec(names(alloc, words)?);
    let kind = Kind::Word {
        of,
        words: words.len().min(255) as u8,
    };
    Ok(Variable {
        name,
        kind,
        cells: Cells::One,
        words,
    })
}

/// The words of a text.
fn names(alloc: Global, text: &str) -> List<Name> {
    let mut names = Vec::new(alloc);
    for name in text.split(' ') {
        names.push(Name::new(String::from_str(alloc, name)?))?;
    }
    Ok(names)
}

/// Forms of notes without fields.
pub(crate) fn forms(alloc: Global, text: &str) -> List<NoteForm> {
    let mut forms = Vec::new(alloc);
    for name in text.split(' ') {
        forms.push(form(alloc, name)?)?;
    }
    Ok(forms)
}

fn form(alloc: Global, name: &str) -> Result<NoteForm, AllocError> {
    let name = Name::new(String::from_str(alloc, name)?);
    let fields = Listed::from_vec(Vec::new(alloc));
    Ok(NoteForm { name, fields })
}

pub(crate) fn constant(
    alloc: Global,
    name: &str,
    sort: Sort,
    value: Result<Value, AllocError>,
) -> Result<Constant, AllocError> {
    let name = Name::new(String::from_str(alloc, name)?);
    let value = Given::One(value?);
    Ok(Constant { name, sort, value })
}

/// The value of a constant that is a number.
pub(crate) fn given_number(number: u32) -> Result<Given, AllocError> {
    Ok(Given::One(Value::Number(number.min(255) as u8)))
}

/// The value of a constant that is the nodes from one on.
pub(crate) fn nodes_from(alloc: Global, node: u8) -> Result<Value, AllocError> {
    Ok(Value::Nodes(expr(from(alloc, node))?))
}

/// The same, given.
pub(crate) fn given_from(alloc: Global, node: u8) -> Result<Given, AllocError> {
    Ok(Given::One(nodes_from(alloc, node)?))
}

pub(crate) fn guard(alloc: Global, name: &str, value: Grown) -> Result<Guard, AllocError> {
    let name = Name::new(String::from_str(alloc, name)?);
    let value = expr(value)?;
    Ok(Guard { name, value })
}

/// A definition that shows its first variable.
pub(crate) fn definition(
    alloc: Global,
    variables: List<Variable>,
    notes: List<NoteForm>,
    given: List<Constant>,
    facts: List<Guard>,
    chains: List<Chain>,
) -> Result<Definition, AllocError> {
    let variables = Listed::from_vec(variables?);
    let notes = Listed::from_vec(notes?);
    let given = Listed::from_vec(given?);
    let facts = Listed::from_vec(facts?);
    let chains = Listed::from_vec(chains?);
    let trace = Listed::from_vec(Vec::from_array(alloc, [0])?);
    Ok(Definition {
        variables,
        notes,
        given,
        lets: Listed::from_vec(Vec::new(alloc)),
        facts,
        chains,
        trace,
    })
}

/// The protocol of a definition, where it is well formed.
pub(crate) fn rules(
    alloc: Global,
    definition: Result<Definition, AllocError>,
) -> Option<Arc<Rules>> {
    match definition {
        Ok(definition) => Arc::new(alloc, Rules::new(definition)?).ok(),
        Err(_) => None,
    }
}
