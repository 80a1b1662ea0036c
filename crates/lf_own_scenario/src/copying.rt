//! Copies of constants, variables, named expressions and guards, and topics.

ghost use Rattle.std.specs.Prelude.{◌≡◌, IfOk};
ghost use Rattle.lf_rules.specs.Terms.{term_of};

use lf_list::Listed;
use lf_rules::{Expr, Given, Guard, Name, Named, Topic, Tree, Value, Variable};
use std::alloc::{AllocError, Global};

/// A copy of a tree.
fn copied_tree(alloc: Global, tree: &Tree) -> Result<Tree, AllocError>
    ensures { IfOk result (λ copy. term_of copy ≡ term_of tree.now) }
{
    match tree {
        Tree::Leaf(leaf) => Ok(Tree::Leaf(*leaf)),
        Tree::Unary(operator, a) => {
            let a = Box::new(alloc, copied_tree(alloc, a)?)?;
            Ok(Tree::Unary(*operator, a))
        }
        Tree::Binary(operator, a, b) => {
            let a = Box::new(alloc, copied_tree(alloc, a)?)?;
            let b = Box::new(alloc, copied_tree(alloc, b)?)?;
            Ok(Tree::Binary(*operator, a, b))
        }
        Tree::At(row, place) => {
            let place = Box::new(alloc, copied_tree(alloc, place)?)?;
            Ok(Tree::At(*row, place))
        }
        Tree::Over(over, set, body) => {
            let set = Box::new(alloc, copied_tree(alloc, set)?)?;
            let body = Box::new(alloc, copied_tree(alloc, body)?)?;
            Ok(Tree::Over(*over, set, body))
        }
    }
}

/// A copy of an expression.
fn copied_expr(alloc: Global, expr: &Expr) -> Result<Expr, AllocError>
    ensures { IfOk result (λ copy. copy ≡ expr.now) }
{
    let tree = copied_tree(alloc, expr.tree())?;
    Ok(Expr::new(tree).unwrap())
}

/// A copy of a value.
fn copied_value(alloc: Global, value: &Value) -> Result<Value, AllocError>
    ensures { IfOk result (λ copy. copy ≡ value.now) }
{
    match value {
        Value::Number(number) => Ok(Value::Number(*number)),
        Value::Truth(so) => Ok(Value::Truth(*so)),
        Value::Nodes(nodes) => Ok(Value::Nodes(copied_expr(alloc, nodes)?)),
    }
}

/// Copies of values.
fn copied_values(alloc: Global, values: &[Value]) -> Result<Listed<Value>, AllocError>
    ensures { IfOk result (λ copies. copies ≡ values.now) }
{
    let mut copies = Vec::new(alloc);
    'values: for value in values {
        let copy = copied_value(alloc, value)?;
        match copies.push(copy) {
            Ok(()) => {}
            Err(_) => return Err(AllocError),
        }
    }
    Ok(Listed::from_vec(copies))
}

/// A copy of what a constant is.
pub(crate) fn copied(alloc: Global, given: &Given) -> Result<Given, AllocError>
    ensures { IfOk result (λ copy. copy ≡ given.now) }
{
    match given {
        Given::One(value) => Ok(Given::One(copied_value(alloc, value)?)),
        Given::Each(values) => Ok(Given::Each(copied_values(alloc, values.as_slice())?)),
    }
}

/// A copy of a name.
pub(crate) fn copied_name(alloc: Global, name: &Name) -> Result<Name, AllocError>
    ensures { IfOk result (λ copy. copy ≡ name.now) }
{
    let text = String::from_str(alloc, name.as_str())?;
    Ok(Name::new(text))
}

/// Copies of names.
fn copied_names(alloc: Global, names: &[Name]) -> Result<Listed<Name>, AllocError>
    ensures { IfOk result (λ copies. copies ≡ names.now) }
{
    let mut copies = Vec::new(alloc);
    'names: for name in names {
        let copy = copied_name(alloc, name)?;
        match copies.push(copy) {
            Ok(()) => {}
            Err(_) => return Err(AllocError),
        }
    }
    Ok(Listed::from_vec(copies))
}

/// A copy of a variable.
fn copied_variable(alloc: Global, variable: &Variable) -> Result<Variable, AllocError>
    ensures { IfOk result (λ copy. copy ≡ variable.now) }
{
    let name = copied_name(alloc, &variable.name)?;
    let words = copied_names(alloc, variable.words.as_slice())?;
    Ok(Variable {
        name,
        kind: variable.kind,
        cells: variable.cells,
        words,
    })
}

/// Copies of variables.
pub(crate) fn copied_variables(
    alloc: Global,
    variables: &[Variable],
) -> Result<Listed<Variable>, AllocError>
    ensures { IfOk result (λ copies. copies ≡ variables.now) }
{
    let mut copies = Vec::new(alloc);
    'variables: for variable in variables {
        let copy = copied_variable(alloc, variable)?;
        match copies.push(copy) {
            Ok(()) => {}
            Err(_) => return Err(AllocError),
        }
    }
    Ok(Listed::from_vec(copies))
}

/// A copy of a named guard.
fn copied_fact(alloc: Global, fact: &Guard) -> Result<Guard, AllocError>
    ensures { IfOk result (λ copy. copy ≡ fact.now) }
{
    let name = copied_name(alloc, &fact.name)?;
    let value = copied_expr(alloc, &fact.value)?;
    Ok(Guard { name, value })
}

/// Copies of named guards.
pub(crate) fn copied_facts(alloc: Global, facts: &[Guard]) -> Result<Listed<Guard>, AllocError>
    ensures { IfOk result (λ copies. copies ≡ facts.now) }
{
    let mut copies = Vec::new(alloc);
    'facts: for fact in facts {
        let copy = copied_fact(alloc, fact)?;
        match copies.push(copy) {
            Ok(()) => {}
            Err(_) => return Err(AllocError),
        }
    }
    Ok(Listed::from_vec(copies))
}

/// A copy of a named expression.
fn copied_let(alloc: Global, named: &Named) -> Result<Named, AllocError>
    ensures { IfOk result (λ copy. copy ≡ named.now) }
{
    let name = copied_name(alloc, &named.name)?;
    let value = copied_expr(alloc, &named.value)?;
    Ok(Named {
        name,
        sort: named.sort,
        value,
    })
}

/// Copies of named expressions.
pub(crate) fn copied_lets(alloc: Global, lets: &[Named]) -> Result<Listed<Named>, AllocError>
    ensures { IfOk result (λ copies. copies ≡ lets.now) }
{
    let mut copies = Vec::new(alloc);
    'lets: for named in lets {
        let copy = copied_let(alloc, named)?;
        match copies.push(copy) {
            Ok(()) => {}
            Err(_) => return Err(AllocError),
        }
    }
    Ok(Listed::from_vec(copies))
}

/// A copy of a topic.
pub(crate) fn copied_topic(alloc: Global, topic: &Topic) -> Result<Topic, AllocError>
    ensures { IfOk result (λ copy. copy ≡ topic.now) }
{
    let value = copied_expr(alloc, &topic.value)?;
    let key = copied_expr(alloc, &topic.key)?;
    let guard = copied_expr(alloc, &topic.guard)?;
    Ok(Topic { value, key, guard })
}
