//! Whether two protocols are the same.

ghost use Rattle.std.specs.Prelude.{◌≡◌, ◌↔◌, IsTrue};
ghost use Rattle.lf_rules.specs.Terms.{term_of};

use crate::definition::{Constant, Definition, Given, Guard, Named, NoteForm, Value, Variable};
use crate::expr::{Binary, Expr, Leaf, Over, Row, Tree, Unary};
use crate::kind::Kind;
use crate::name::Name;
use crate::rule::{Assignment, Chain, Event, Rule, Send, Target};
use crate::sort::Sort;
use crate::table::{Cells, Table};
use lf_list::Listed;

/// What can be told to be the same: contracts know of it that it is equal.
pub(crate) trait Same {
    /// Whether it is the same.
    fn is_same(&self, other: &Self) -> bool
        ensures { IsTrue result ↔ (self.now ≡ other.now) };
}

impl Same for u8 {
    fn is_same(&self, other: &u8) -> bool {
        self == other
    }
}

impl Same for Kind {
    fn is_same(&self, other: &Kind) -> bool {
        self == other
    }
}

impl Same for Sort {
    fn is_same(&self, other: &Sort) -> bool {
        self == other
    }
}

impl Same for Event {
    fn is_same(&self, other: &Event) -> bool {
        self == other
    }
}

impl Same for Leaf {
    fn is_same(&self, other: &Leaf) -> bool {
        self == other
    }
}

impl Same for Unary {
    fn is_same(&self, other: &Unary) -> bool {
        self == other
    }
}

impl Same for Binary {
    fn is_same(&self, other: &Binary) -> bool {
        self == other
    }
}

impl Same for Row {
    fn is_same(&self, other: &Row) -> bool {
        self == other
    }
}

impl Same for Over {
    fn is_same(&self, other: &Over) -> bool {
        self == other
    }
}

impl Same for Cells {
    fn is_same(&self, other: &Cells) -> bool {
        self == other
    }
}

impl Same for Table {
    fn is_same(&self, other: &Table) -> bool {
        self == other
    }
}

impl Same for Name {
    fn is_same(&self, other: &Name) -> bool {
        self.as_str() == other.as_str()
    }
}

impl<T: Same> Same for Listed<T> {
    fn is_same(&self, other: &Listed<T>) -> bool {
        are_same(self.as_slice(), other.as_slice())
    }
}

/// Whether two lists have the same items in the same order.
fn are_same<T: Same>(ones: &[T], others: &[T]) -> bool
    ensures { IsTrue result ↔ (ones.now ≡ others.now) }
{
    match ones {
        [] => others.is_empty(),
        [one, ones @ ..] => match others {
            [] => false,
            [other, others @ ..] => one.is_same(other) && are_same(ones, others),
        },
    }
}

impl Same for Expr {
    fn is_same(&self, other: &Expr) -> bool {
        same_tree(self.tree(), other.tree())
    }
}

/// Whether two trees are the same.
fn same_tree(one: &Tree, other: &Tree) -> bool
    ensures { IsTrue result ↔ (term_of one.now ≡ term_of other.now) }
{
    match one {
        Tree::Leaf(leaf) => match other {
            Tree::Leaf(another) => leaf.is_same(another),
            _ => false,
        },
        Tree::Unary(operator, a) => match other {
            Tree::Unary(another, b) => operator.is_same(another) && same_tree(a, b),
            _ => false,
        },
        Tree::Binary(operator, a, b) => match other {
            Tree::Binary(another, c, d) => {
                operator.is_same(another) && same_tree(a, c) && same_tree(b, d)
            }
            _ => false,
        },
        Tree::At(row, a) => match other {
            Tree::At(another, b) => row.is_same(another) && same_tree(a, b),
            _ => false,
        },
        Tree::Over(over, a, b) => match other {
            Tree::Over(another, c, d) => {
                over.is_same(another) && same_tree(a, c) && same_tree(b, d)
            }
            _ => false,
        },
    }
}

impl Same for Value {
    fn is_same(&self, other: &Value) -> bool {
        match (self, other) {
            (Value::Number(one), Value::Number(other)) => one == other,
            (Value::Truth(one), Value::Truth(other)) => one == other,
            (Value::Nodes(one), Value::Nodes(other)) => one.is_same(other),
            _ => false,
        }
    }
}

impl Same for Given {
    fn is_same(&self, other: &Given) -> bool {
        match (self, other) {
            (Given::One(one), Given::One(other)) => one.is_same(other),
            (Given::Each(ones), Given::Each(others)) => ones.is_same(others),
            _ => false,
        }
    }
}

impl Same for Variable {
    fn is_same(&self, other: &Variable) -> bool {
        self.name.is_same(&other.name)
            && self.kind.is_same(&other.kind)
            && self.cells.is_same(&other.cells)
            && self.words.is_same(&other.words)
    }
}

impl Same for NoteForm {
    fn is_same(&self, other: &NoteForm) -> bool {
        self.name.is_same(&other.name) && self.fields.is_same(&other.fields)
    }
}

impl Same for Constant {
    fn is_same(&self, other: &Constant) -> bool {
        self.name.is_same(&other.name)
            && self.sort.is_same(&other.sort)
            && self.value.is_same(&other.value)
    }
}

impl Same for Named {
    fn is_same(&self, other: &Named) -> bool {
        self.name.is_same(&other.name)
            && self.sort.is_same(&other.sort)
            && self.value.is_same(&other.value)
    }
}

impl Same for Guard {
    fn is_same(&self, other: &Guard) -> bool {
        self.name.is_same(&other.name) && self.value.is_same(&other.value)
    }
}

impl Same for Target {
    fn is_same(&self, other: &Target) -> bool {
        match (self, other) {
            (Target::Variable(one), Target::Variable(other)) => one == other,
            (Target::Cell(table, place), Target::Cell(another, other)) => {
                table.is_same(another) && place.is_same(other)
            }
            (Target::Cells(table, places), Target::Cells(another, others)) => {
                table.is_same(another) && places.is_same(others)
            }
            _ => false,
        }
    }
}

impl Same for Assignment {
    fn is_same(&self, other: &Assignment) -> bool {
        self.target.is_same(&other.target) && self.value.is_same(&other.value)
    }
}

impl Same for Send {
    fn is_same(&self, other: &Send) -> bool {
        self.form == other.form
            && self.fields.is_same(&other.fields)
            && self.to.is_same(&other.to)
            && self.each == other.each
    }
}

impl Same for Rule {
    fn is_same(&self, other: &Rule) -> bool {
        self.guard.is_same(&other.guard)
            && self.sets.is_same(&other.sets)
            && self.sends.is_same(&other.sends)
    }
}

impl Same for Chain {
    fn is_same(&self, other: &Chain) -> bool {
        self.who.is_same(&other.who)
            && self.on.is_same(&other.on)
            && self.rules.is_same(&other.rules)
    }
}

impl Definition {
    /// Whether two definitions are the same.
    pub fn same(&self, other: &Definition) -> bool
        ensures { IsTrue result ↔ (self.now ≡ other.now) }
    {
        self.variables.is_same(&other.variables)
            && self.notes.is_same(&other.notes)
            && self.given.is_same(&other.given)
            && self.lets.is_same(&other.lets)
            && self.facts.is_same(&other.facts)
            && self.chains.is_same(&other.chains)
            && self.trace.is_same(&other.trace)
    }
}
