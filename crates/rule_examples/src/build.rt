//! Makes definitions of values.

use lf_list::Listed;
use lf_rule_machine::{Note, Packet, Ruled, State};
use lf_rules::{
    Assignment, Binary, Cells, Chain, Constant, Definition, Event, Expr, Given, Guard, Kind, Leaf,
    Name, NoteForm, Rule, Rules, Send, Sort, Target, Tree, Unary, Value, Variable, have_it,
};
use lf_sim::Letter;
use std::alloc::{AllocError, Global};
use std::sync::Arc;

/// A tree, unless memory ran out.
pub(crate) type Made = Result<Tree, AllocError>;

pub(crate) fn leaf(leaf: Leaf) -> Made {
    Ok(Tree::Leaf(leaf))
}

pub(crate) fn number(number: u8) -> Made {
    leaf(Leaf::Number(number))
}

pub(crate) fn yes() -> Made {
    leaf(Leaf::Truth(true))
}

pub(crate) fn variable(i: u8) -> Made {
    leaf(Leaf::Variable(i))
}

pub(crate) fn word(of: u8, word: u8) -> Made {
    leaf(Leaf::Word { of, word })
}

pub(crate) fn unary(alloc: Global, operator: Unary, one: Made) -> Made {
    Ok(Tree::Unary(operator, Box::new(alloc, one?)?))
}

pub(crate) fn binary(alloc: Global, operator: Binary, one: Made, other: Made) -> Made {
    let one = Box::new(alloc, one?)?;
    let other = Box::new(alloc, other?)?;
    Ok(Tree::Binary(operator, one, other))
}

pub(crate) fn equal(alloc: Global, one: Made, other: Made) -> Made {
    binary(alloc, Binary::Equal, one, other)
}

pub(crate) fn and(alloc: Global, one: Made, other: Made) -> Made {
    binary(alloc, Binary::And, one, other)
}

/// The set of one node.
pub(crate) fn only(alloc: Global, node: u8) -> Made {
    unary(alloc, Unary::Only, number(node))
}

/// The expression of a tree; a tree that is too large counts as memory that ran out.
pub(crate) fn expr(tree: Made) -> Result<Expr, AllocError> {
    match Expr::new(tree?) {
        Some(expr) => Ok(expr),
        None => Err(AllocError),
    }
}

/// A list of one item.
pub(crate) fn one<T: Drop>(
    alloc: Global,
    item: Result<T, AllocError>,
) -> Result<Vec<T>, AllocError> {
    more(Ok(Vec::new(alloc)), item)
}

/// A list with one item more.
pub(crate) fn more<T: Drop>(
    items: Result<Vec<T>, AllocError>,
    item: Result<T, AllocError>,
) -> Result<Vec<T>, AllocError> {
    let mut items = items?;
    items.push(item?)?;
    Ok(items)
}

pub(crate) fn set(variable: u8, value: Made) -> Result<Assignment, AllocError> {
    let value = expr(value)?;
    let target = Target::Variable(variable);
    Ok(Assignment { target, value })
}

/// A note without fields.
pub(crate) fn send(alloc: Global, form: u8, to: Made) -> Result<Send, AllocError> {
    send_with(form, Ok(Vec::new(alloc)), to)
}

pub(crate) fn send_with(
    form: u8,
    fields: Result<Vec<Expr>, AllocError>,
    to: Made,
) -> Result<Send, AllocError> {
    let to = expr(to)?;
    let fields = Listed::from_vec(fields?);
    let each = have_it(fields.as_slice());
    Ok(Send {
        form,
        fields,
        to,
        each,
    })
}

pub(crate) fn rule(
    guard: Made,
    sets: Result<Vec<Assignment>, AllocError>,
    sends: Result<Vec<Send>, AllocError>,
) -> Result<Rule, AllocError> {
    let guard = expr(guard)?;
    let sets = Listed::from_vec(sets?);
    let sends = Listed::from_vec(sends?);
    Ok(Rule { guard, sets, sends })
}

pub(crate) fn chain(
    who: Made,
    on: Event,
    rules: Result<Vec<Rule>, AllocError>,
) -> Result<Chain, AllocError> {
    let who = expr(who)?;
    let rules = Listed::from_vec(rules?);
    Ok(Chain { who, on, rules })
}

/// A variable without words of its own.
pub(crate) fn plain(alloc: Global, kind: Kind) -> Result<Variable, AllocError> {
    Ok(Variable {
        name: Name::new(String::new(alloc)),
        kind,
        cells: Cells::One,
        words: Listed::from_vec(Vec::new(alloc)),
    })
}

/// A variable with so many words of its own.
pub(crate) fn worded(alloc: Global, of: u8, words: u8) -> Result<Variable, AllocError> {
    let mut names = Vec::new(alloc);
    for _ in 0..words {
        names.push(Name::new(String::new(alloc)))?;
    }
    Ok(Variable {
        name: Name::new(String::new(alloc)),
        kind: Kind::Word { of, words },
        cells: Cells::One,
        words: Listed::from_vec(names),
    })
}

/// A form of notes with fields of these kinds.
pub(crate) fn form(
    alloc: Global,
    fields: Result<Vec<Kind>, AllocError>,
) -> Result<NoteForm, AllocError> {
    let fields = Listed::from_vec(fields?);
    Ok(NoteForm {
        name: Name::new(String::new(alloc)),
        fields,
    })
}

pub(crate) fn constant(
    alloc: Global,
    sort: Sort,
    value: Result<Value, AllocError>,
) -> Result<Constant, AllocError> {
    let value = Given::One(value?);
    Ok(Constant {
        name: Name::new(String::new(alloc)),
        sort,
        value,
    })
}

/// The value of a constant that is a set of nodes.
pub(crate) fn nodes(tree: Made) -> Result<Value, AllocError> {
    Ok(Value::Nodes(expr(tree)?))
}

pub(crate) fn guard(alloc: Global, value: Made) -> Result<Guard, AllocError> {
    let value = expr(value)?;
    Ok(Guard {
        name: Name::new(String::new(alloc)),
        value,
    })
}

/// A definition without constants, named expressions and guards, that shows its first variable.
pub(crate) fn definition(
    alloc: Global,
    variables: Result<Vec<Variable>, AllocError>,
    notes: Result<Vec<NoteForm>, AllocError>,
    chains: Result<Vec<Chain>, AllocError>,
) -> Result<Definition, AllocError> {
    let variables = Listed::from_vec(variables?);
    let notes = Listed::from_vec(notes?);
    let chains = Listed::from_vec(chains?);
    let trace = Listed::from_vec(Vec::from_array(alloc, [0])?);
    Ok(Definition {
        variables,
        notes,
        given: Listed::from_vec(Vec::new(alloc)),
        lets: Listed::from_vec(Vec::new(alloc)),
        facts: Listed::from_vec(Vec::new(alloc)),
        chains,
        trace,
    })
}

/// The machine of a definition, where it is well formed.
pub(crate) fn machine(
    alloc: Global,
    definition: Result<Definition, AllocError>,
    nodes: u32,
    given: &[Given],
) -> Option<Ruled> {
    let Ok(definition) = definition else {
        return None;
    };
    let rules = Rules::new(definition)?;
    match Arc::new(alloc, rules) {
        Ok(rules) => Ruled::new(alloc, rules, nodes, given).unwrap_or(None),
        Err(_) => None,
    }
}

/// A letter of one note with this first field, and 0 in the others.
pub(crate) fn letter(from: u32, form: u8, field: u8) -> Letter<Packet> {
    letter_of(from, &[(form, field)])
}

/// A letter of notes of these forms with these first fields, and 0 in the others.
pub(crate) fn letter_of(from: u32, notes: &[(u8, u8)]) -> Letter<Packet> {
    Letter {
        from,
        sent: 1,
        note: packet(notes),
    }
}

/// The packet of one note with this first field, and 0 in the others.
pub(crate) fn note(form: u8, field: u8) -> Packet {
    packet(&[(form, field)])
}

/// The packet that has notes of these forms in its places, with these first fields, and 0 in the others. What is past the fourth is left out.
pub(crate) fn packet(notes: &[(u8, u8)]) -> Packet {
    let mut packet = Packet { notes: [None; 4] };
    for (place, (form, field)) in packet.notes.iter_mut().zip(notes) {
        *place = Some(Note {
            form: *form,
            fields: [*field, 0, 0, 0, 0, 0, 0],
        });
    }
    packet
}

/// A state with these values of the first four variables.
pub(crate) fn state(values: [u8; 4]) -> State {
    let [a, b, c, d] = values;
    let mut state = State::zeros();
    state.values[0] = a;
    state.values[1] = b;
    state.values[2] = c;
    state.values[3] = d;
    state
}
