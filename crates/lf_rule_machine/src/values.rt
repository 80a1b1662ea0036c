//! The values of expressions.

ghost use Rattle.std.specs.Prelude.{◌≡◌, ◌+◌, ◌*◌, ◌≤◌, slice_get, replicate, if◌then◌else◌};
ghost use Rattle.lf_rule_machine.specs.Sets.{below};
ghost use Rattle.lf_rules.specs.Terms.{term_of};
ghost use Rattle.lf_rules.specs.Trees.{parts};
ghost use Rattle.lf_rule_machine.specs.Moments.{seen, with_it, given_here};
ghost use Rattle.lf_rule_machine.specs.Places.{zero_or};
ghost use Rattle.lf_rule_machine.specs.Bodies.{is_member, over};
ghost use Rattle.lf_rule_machine.specs.Values.{plain, value, in_fact, in_rule, value_of_let, value_of_fact, value_of, fixed_value};
ghost use Rattle.lf_rule_machine.specs.Machines.{moment};

use crate::bodies::{is_member, over};
use crate::operators::{binary, truth, unary};
use crate::places::{item, stands};
use crate::{Moment, State, sets};
use lf_rules::{Definition, Expr, Leaf, Over, Tree};

/// The value of an expression in a rule.
pub fn value_of(definition: &Definition, at: &Moment<'_>, state: &State, expr: &Expr) -> u64
    ensures { result ≡ value_of definition.now (seen at.now) state.now expr.now }
{
    rule_value(definition, at, state, expr.tree())
}

/// The value of an expression that names constants, nodes and all alone.
pub fn fixed_value(nodes: u32, given: &[u8; 16], expr: &Expr) -> u64
    ensures { result ≡ fixed_value nodes given.now expr.now }
{
    let everywhere = [
        *given, *given, *given, *given, *given, *given, *given, *given,
    ];
    plain_value(&outside(nodes, &everywhere), &State::zeros(), expr.tree())
}

/// A moment of no step.
fn outside(nodes: u32, given: &[[u8; 16]; 8]) -> Moment<'_>
    ensures { seen result ≡ moment nodes given.now 0 0 0 (replicate 7 0) }
{
    Moment {
        nodes,
        me: 0,
        given,
        step: 0,
        sender: 0,
        fields: [0; 7],
        it: 0,
    }
}

/// The value of a tree in a rule.
#[cycle(rule_values)]
fn rule_value(definition: &Definition, at: &Moment<'_>, state: &State, tree: &Tree) -> u64
    requires { parts (term_of tree.now) ≤ 256 }
    ensures value { result ≡ value (in_rule definition.now) state.now (seen at.now) (term_of tree.now) }
    ensures small { result ≤ parts (term_of tree.now) * 281474976645120 }
{
    match tree {
        Tree::Leaf(leaf) => rule_leaf(definition, at, state, *leaf),
        Tree::Unary(operator, a) => {
            unary(
                u64::from(at.nodes),
                *operator,
                rule_value(definition, at, state, a),
            )
        }
        Tree::Binary(operator, a, b) => {
            let one = rule_value(definition, at, state, a);
            binary(
                u64::from(at.nodes),
                *operator,
                one,
                rule_value(definition, at, state, b),
            )
        }
        Tree::At(row, place) => stands(at, state, *row, rule_value(definition, at, state, place)),
        Tree::Over(over, set, body) => { rule_over(definition, at, state, *over, set, body) }
    }
}

/// What comes of a set and a body in a rule.
#[cycle(rule_values)]
fn rule_over(
    definition: &Definition,
    at: &Moment<'_>,
    state: &State,
    operator: Over,
    set: &Tree,
    body: &Tree,
) -> u64
    requires set { parts (term_of set.now) ≤ 256 }
    requires body { parts (term_of body.now) ≤ 256 }
    ensures value { result
        ≡ over at.now.nodes operator (value (in_rule definition.now) state.now (seen at.now) (term_of set.now))
        (λ n. value (in_rule definition.now) state.now (with_it (seen at.now) n) (term_of body.now)) }
    ensures small { result ≤ (parts (term_of body.now) + 1) * 281474976645120 }
{
    let nodes = rule_value(definition, at, state, set);
    let v0 = rule_member(definition, at, state, nodes, body, 0);
    let v1 = rule_member(definition, at, state, nodes, body, 1);
    let v2 = rule_member(definition, at, state, nodes, body, 2);
    let v3 = rule_member(definition, at, state, nodes, body, 3);
    let v4 = rule_member(definition, at, state, nodes, body, 4);
    let v5 = rule_member(definition, at, state, nodes, body, 5);
    let v6 = rule_member(definition, at, state, nodes, body, 6);
    let v7 = rule_member(definition, at, state, nodes, body, 7);
    let values = [v0, v1, v2, v3, v4, v5, v6, v7];
    over(at.nodes, operator, nodes, &values)
}

/// The value of a body for a node of a set, and 0 for a node that isn't one.
#[cycle(rule_values)]
fn rule_member(
    definition: &Definition,
    at: &Moment<'_>,
    state: &State,
    set: u64,
    body: &Tree,
    node: u32,
) -> u64
    requires { parts (term_of body.now) ≤ 256 }
    ensures value { result
        ≡ (if is_member at.now.nodes set node then value (in_rule definition.now) state.now (with_it (seen at.now) node) (term_of body.now) else 0) }
    ensures small { result ≤ parts (term_of body.now) * 281474976645120 }
{
    if is_member(at.nodes, set, node) {
        rule_value(definition, &at.with_it(node), state, body)
    } else {
        0
    }
}

/// The value of what a rule may name.
fn rule_leaf(definition: &Definition, at: &Moment<'_>, state: &State, leaf: Leaf) -> u64
    ensures value { result ≡ in_rule definition.now (seen at.now) state.now leaf }
    ensures small { result ≤ 281474976645120 }
{
    match leaf {
        Leaf::Fact(i) => fact_value(definition, at, state, i),
        other => guard_leaf(definition, at, state, other),
    }
}

/// The value of a named guard, and 0 where there is none.
pub fn fact_value(definition: &Definition, at: &Moment<'_>, state: &State, i: u8) -> u64
    ensures value { result ≡ value_of_fact definition.now (seen at.now) state.now (slice_get definition.now.facts i) }
    ensures small { result ≤ 281474976645120 }
{
    match definition.facts.as_slice().get(usize::from(i)) {
        Some(guard) => {
            if at.it == 0 {
                guard_value(definition, at, state, guard.value.tree())
            } else {
                guard_value(definition, &at.with_it(0), state, guard.value.tree())
            }
        }
        None => 0,
    }
}

/// The value of a tree in a named guard.
#[cycle(guard_values)]
fn guard_value(definition: &Definition, at: &Moment<'_>, state: &State, tree: &Tree) -> u64
    requires { parts (term_of tree.now) ≤ 256 }
    ensures value { result ≡ value (in_fact definition.now) state.now (seen at.now) (term_of tree.now) }
    ensures small { result ≤ parts (term_of tree.now) * 1099511627520 }
{
    match tree {
        Tree::Leaf(leaf) => guard_leaf(definition, at, state, *leaf),
        Tree::Unary(operator, a) => {
            unary(
                u64::from(at.nodes),
                *operator,
                guard_value(definition, at, state, a),
            )
        }
        Tree::Binary(operator, a, b) => {
            let one = guard_value(definition, at, state, a);
            binary(
                u64::from(at.nodes),
                *operator,
                one,
                guard_value(definition, at, state, b),
            )
        }
        Tree::At(row, place) => stands(at, state, *row, guard_value(definition, at, state, place)),
        Tree::Over(over, set, body) => { guard_over(definition, at, state, *over, set, body) }
    }
}

/// What comes of a set and a body in a named guard.
#[cycle(guard_values)]
fn guard_over(
    definition: &Definition,
    at: &Moment<'_>,
    state: &State,
    operator: Over,
    set: &Tree,
    body: &Tree,
) -> u64
    requires set { parts (term_of set.now) ≤ 256 }
    requires body { parts (term_of body.now) ≤ 256 }
    ensures value { result
        ≡ over at.now.nodes operator (value (in_fact definition.now) state.now (seen at.now) (term_of set.now))
        (λ n. value (in_fact definition.now) state.now (with_it (seen at.now) n) (term_of body.now)) }
    ensures small { result ≤ (parts (term_of body.now) + 1) * 1099511627520 }
{
    let nodes = guard_value(definition, at, state, set);
    let v0 = guard_member(definition, at, state, nodes, body, 0);
    let v1 = guard_member(definition, at, state, nodes, body, 1);
    let v2 = guard_member(definition, at, state, nodes, body, 2);
    let v3 = guard_member(definition, at, state, nodes, body, 3);
    let v4 = guard_member(definition, at, state, nodes, body, 4);
    let v5 = guard_member(definition, at, state, nodes, body, 5);
    let v6 = guard_member(definition, at, state, nodes, body, 6);
    let v7 = guard_member(definition, at, state, nodes, body, 7);
    let values = [v0, v1, v2, v3, v4, v5, v6, v7];
    over(at.nodes, operator, nodes, &values)
}

/// The value of a body for a node of a set, and 0 for a node that isn't one.
#[cycle(guard_values)]
fn guard_member(
    definition: &Definition,
    at: &Moment<'_>,
    state: &State,
    set: u64,
    body: &Tree,
    node: u32,
) -> u64
    requires { parts (term_of body.now) ≤ 256 }
    ensures value { result
        ≡ (if is_member at.now.nodes set node then value (in_fact definition.now) state.now (with_it (seen at.now) node) (term_of body.now) else 0) }
    ensures small { result ≤ parts (term_of body.now) * 1099511627520 }
{
    if is_member(at.nodes, set, node) {
        guard_value(definition, &at.with_it(node), state, body)
    } else {
        0
    }
}

/// The value of what a named guard may name.
fn guard_leaf(definition: &Definition, at: &Moment<'_>, state: &State, leaf: Leaf) -> u64
    ensures value { result ≡ in_fact definition.now (seen at.now) state.now leaf }
    ensures small { result ≤ 1099511627520 }
{
    match leaf {
        Leaf::Let(i) => named(definition, at, state, i),
        other => plain_leaf(at, state, other),
    }
}

/// The value of a named expression, and 0 where there is none.
fn named(definition: &Definition, at: &Moment<'_>, state: &State, i: u8) -> u64
    ensures value { result ≡ value_of_let (seen at.now) state.now (slice_get definition.now.lets i) }
    ensures small { result ≤ 1099511627520 }
{
    match definition.lets.as_slice().get(usize::from(i)) {
        Some(named) => {
            if at.it == 0 {
                plain_value(at, state, named.value.tree())
            } else {
                plain_value(&at.with_it(0), state, named.value.tree())
            }
        }
        None => 0,
    }
}

/// The value of a tree that names no expression.
#[cycle(plain_values)]
fn plain_value(at: &Moment<'_>, state: &State, tree: &Tree) -> u64
    requires { parts (term_of tree.now) ≤ 256 }
    ensures value { result ≡ value plain state.now (seen at.now) (term_of tree.now) }
    ensures small { result ≤ parts (term_of tree.now) * 4294967295 }
{
    match tree {
        Tree::Leaf(leaf) => plain_leaf(at, state, *leaf),
        Tree::Unary(operator, a) => unary(
            u64::from(at.nodes),
            *operator,
            plain_value(at, state, a),
        ),
        Tree::Binary(operator, a, b) => {
            let one = plain_value(at, state, a);
            binary(
                u64::from(at.nodes),
                *operator,
                one,
                plain_value(at, state, b),
            )
        }
        Tree::At(row, place) => stands(at, state, *row, plain_value(at, state, place)),
        Tree::Over(over, set, body) => { plain_over(at, state, *over, set, body) }
    }
}

/// What comes of a set and a body in a tree that names no expression.
#[cycle(plain_values)]
fn plain_over(at: &Moment<'_>, state: &State, operator: Over, set: &Tree, body: &Tree) -> u64
    requires set { parts (term_of set.now) ≤ 256 }
    requires body { parts (term_of body.now) ≤ 256 }
    ensures value { result
        ≡ over at.now.nodes operator (value plain state.now (seen at.now) (term_of set.now))
        (λ n. value plain state.now (with_it (seen at.now) n) (term_of body.now)) }
    ensures small { result ≤ (parts (term_of body.now) + 1) * 4294967295 }
{
    let nodes = plain_value(at, state, set);
    let v0 = plain_member(at, state, nodes, body, 0);
    let v1 = plain_member(at, state, nodes, body, 1);
    let v2 = plain_member(at, state, nodes, body, 2);
    let v3 = plain_member(at, state, nodes, body, 3);
    let v4 = plain_member(at, state, nodes, body, 4);
    let v5 = plain_member(at, state, nodes, body, 5);
    let v6 = plain_member(at, state, nodes, body, 6);
    let v7 = plain_member(at, state, nodes, body, 7);
    let values = [v0, v1, v2, v3, v4, v5, v6, v7];
    over(at.nodes, operator, nodes, &values)
}

/// The value of a body for a node of a set, and 0 for a node that isn't one.
#[cycle(plain_values)]
fn plain_member(at: &Moment<'_>, state: &State, set: u64, body: &Tree, node: u32) -> u64
    requires { parts (term_of body.now) ≤ 256 }
    ensures value { result
        ≡ (if is_member at.now.nodes set node then value plain state.now (with_it (seen at.now) node) (term_of body.now) else 0) }
    ensures small { result ≤ parts (term_of body.now) * 4294967295 }
{
    if is_member(at.nodes, set, node) {
        plain_value(&at.with_it(node), state, body)
    } else {
        0
    }
}

/// The value of what names no expression.
fn plain_leaf(at: &Moment<'_>, state: &State, leaf: Leaf) -> u64
    ensures value { result ≡ plain (seen at.now) state.now leaf }
    ensures small { result ≤ 4294967295 }
{
    match leaf {
        Leaf::Number(number) => u64::from(number),
        Leaf::Truth(so) => truth(so),
        Leaf::Word { word, .. } => u64::from(word),
        Leaf::Empty | Leaf::Let(_) | Leaf::Fact(_) => 0,
        Leaf::Nodes => u64::from(at.nodes),
        Leaf::All => all_nodes(at.nodes),
        Leaf::Given(i) => u64::from(given_item(at, i)),
        Leaf::Me => u64::from(at.me),
        Leaf::Step => u64::from(at.step),
        Leaf::Sender => u64::from(at.sender),
        Leaf::Field(i) => u64::from(item(&at.fields, i)),
        Leaf::Variable(i) => u64::from(item(&state.values, i)),
        Leaf::Clamped => truth(state.clamped),
        Leaf::Replaced => truth(state.replaced),
        Leaf::It => u64::from(at.it),
    }
}

/// The value of a constant at the node whose step it is.
fn given_item(at: &Moment<'_>, i: u8) -> u8
    ensures { result ≡ zero_or (slice_get (given_here (seen at.now)) i) }
{
    let given = at.given;
    match given.get(at.me as usize) {
        Some(row) => item(row, i),
        None => 0,
    }
}

/// The set of all nodes.
fn all_nodes(nodes: u32) -> u64
    ensures value { result ≡ below nodes }
    ensures small { result ≤ 255 }
{
    sets::below(u64::from(nodes))
}
