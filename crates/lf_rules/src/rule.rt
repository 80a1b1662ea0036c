//! Rules.

use crate::expr::Expr;
use crate::table::Table;
use lf_list::Listed;

/// What a rule is on.
#[derive(Clone, Copy, Debug, PartialEq, Eq)]
pub enum Event {
    /// The node's state is made, before step 1.
    Start,
    /// The node goes on after a pause.
    Wake,
    /// A step begins, before the letters.
    Begin,
    /// A letter is heard, whose note has the form with this number.
    Note(u8),
    /// A step ends, after the letters.
    End,
}

/// What gets a value.
#[derive(Debug, Drop)]
pub enum Target {
    /// The variable with a number, which is no table.
    Variable(u8),
    /// The cell of a table at a place.
    Cell(Table, Expr),
    /// The cells of a set of nodes, one after another, ascending: of a table with a cell for each node.
    Cells(Table, Expr),
}

/// A target and the value that it gets. For a cell of a node `It` is that node.
#[derive(Debug, Drop)]
pub struct Assignment {
    pub target: Target,
    pub value: Expr,
}

/// A note that is sent to each node of a set but the sender.
#[derive(Debug, Drop)]
pub struct Send {
    /// The number of the note's form.
    pub form: u8,
    /// The values of the fields, in order.
    pub fields: Listed<Expr>,
    /// The set of nodes.
    pub to: Expr,
    /// Whether `It` stands in a field, outside of bodies of its own: then the set of nodes is worked out first, and the fields for each of them.
    pub each: bool,
}

/// What a node does where a guard is true.
#[derive(Debug, Drop)]
pub struct Rule {
    pub guard: Expr,
    /// The assignments, which are made first, in order.
    pub sets: Listed<Assignment>,
    /// What is sent then, in order.
    pub sends: Listed<Send>,
}

/// The rules of some nodes at an event of which at most one is taken: the first whose guard is true.
///
/// A rule without `else` begins a chain, and each one right under it with `else` goes on with it. They have the same event and the same nodes, so these
/// stand here once.
#[derive(Debug, Drop)]
pub struct Chain {
    /// The set of nodes whose rules these are, worked out at each of them.
    pub who: Expr,
    pub on: Event,
    /// The rules, in order: 1 at least.
    pub rules: Listed<Rule>,
}
