//! What a protocol is made of.

use crate::expr::Expr;
use crate::kind::Kind;
use crate::name::Name;
use crate::rule::Chain;
use crate::sort::Sort;
use crate::table::Cells;
use lf_list::Listed;

/// A variable of a node's state. Each of its cells is 0 at first: false, no nodes, the number 0, or the first word.
#[derive(Debug, Drop)]
pub struct Variable {
    pub name: Name,
    /// The kind of each cell.
    pub kind: Kind,
    pub cells: Cells,
    /// The words, in order, where it has words of its own.
    pub words: Listed<Name>,
}

/// A form of notes: a name, and the kinds of the fields, in order.
#[derive(Debug, Drop)]
pub struct NoteForm {
    pub name: Name,
    pub fields: Listed<Kind>,
}

/// A value of a constant. A text stands for the set of nodes that it is, which is known once it is known how many nodes there are.
#[derive(Debug, Drop)]
pub enum Value {
    Number(u8),
    Truth(bool),
    Nodes(Expr),
}

/// What a constant is: one value for all nodes, or one for each node, from node 0 on.
#[derive(Debug, Drop)]
pub enum Given {
    One(Value),
    Each(Listed<Value>),
}

/// A constant that a scenario may change.
#[derive(Debug, Drop)]
pub struct Constant {
    pub name: Name,
    /// What each of its values is.
    pub sort: Sort,
    /// The value where no scenario changes it.
    pub value: Given,
}

/// A named expression: it is worked out where it is named, as if it stood there.
#[derive(Debug, Drop)]
pub struct Named {
    pub name: Name,
    /// What the expression is.
    pub sort: Sort,
    pub value: Expr,
}

/// A named guard, which can be told of a state.
#[derive(Debug, Drop)]
pub struct Guard {
    pub name: Name,
    pub value: Expr,
}

/// A protocol as it is written, well formed or not. What it is made of is known by its number, from 0 on.
#[derive(Debug, Drop)]
pub struct Definition {
    pub variables: Listed<Variable>,
    pub notes: Listed<NoteForm>,
    pub given: Listed<Constant>,
    pub lets: Listed<Named>,
    pub facts: Listed<Guard>,
    /// The chains of rules, in order.
    pub chains: Listed<Chain>,
    /// The variables that a trace shows, in order.
    pub trace: Listed<u8>,
}
