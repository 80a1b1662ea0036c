//! What the expressions of a definition are.

ghost use Rattle.std.specs.Prelude.{◌≡◌, slice_get, min};
ghost use Rattle.lf_rules.specs.Terms.{term_of};
ghost use Rattle.lf_rules.specs.Sorts.{constant_sort, let_sort, fact_sort, variable_sort, field_sort, heard_sort};
ghost use Rattle.lf_rules.specs.Sorts.{sender_sort, word_sort, leaf_sort, cell_sort, row_sort, tree_sort, is_a};
ghost use Rattle.lf_rules.specs.Tables.{others_in, others_of, cells_in, is_table, is_table_of};

use crate::definition::{Definition, Variable};
use crate::expr::{Expr, Leaf, Row, Tree};
use crate::sort::{
    Scope, Sort, Within, at_sort, binary_sort, is_of, over_sort, unary_sort, where_so,
};
use crate::table::{Cells, Table};

impl Definition {
    /// Whether an expression is of a sort where it stands.
    pub(crate) fn is_a(&self, scope: Scope, within: Within, sort: Sort, expr: &Expr) -> bool
        ensures { result ≡ is_a self.now scope within sort expr.now }
    {
        is_of(self.tree_sort(scope, within, expr.tree()), sort)
    }

    /// What a tree is where it stands, if it is anything.
    fn tree_sort(&self, scope: Scope, within: Within, tree: &Tree) -> Option<Sort>
        ensures { result ≡ tree_sort self.now scope within (term_of tree.now) }
    {
        match tree {
            Tree::Leaf(leaf) => self.leaf_sort(scope, within, *leaf),
            Tree::Unary(operator, a) => unary_sort(*operator, self.tree_sort(scope, within, a)),
            Tree::Binary(operator, a, b) => {
                let one = self.tree_sort(scope, within, a);
                binary_sort(*operator, one, self.tree_sort(scope, within, b))
            }
            Tree::At(row, place) => {
                let items = self.row_sort(scope, *row);
                at_sort(items, self.tree_sort(scope, within, place))
            }
            Tree::Over(over, set, body) => {
                let nodes = self.tree_sort(scope, within, set);
                let inner = self.tree_sort(scope, Within::Body, body);
                where_so(
                    scope.names_state() && within.has_bodies(),
                    over_sort(*over, nodes, inner),
                )
            }
        }
    }

    /// What an expression begins with.
    pub fn leaf_sort(&self, scope: Scope, within: Within, leaf: Leaf) -> Option<Sort>
        ensures { result ≡ leaf_sort self.now scope within leaf }
    {
        match leaf {
            Leaf::Number(_) | Leaf::Nodes => Some(Sort::Number),
            Leaf::Truth(_) => Some(Sort::Truth),
            Leaf::Empty | Leaf::All => Some(Sort::Nodes),
            Leaf::Word { of, word } => self.word_sort(of, word),
            Leaf::Given(i) => where_so(scope.names_constants(), self.constant_sort(i)),
            Leaf::Me => where_so(scope.names_state(), Some(Sort::Number)),
            Leaf::Step => where_so(scope.is_rule(), Some(Sort::Number)),
            Leaf::Sender => sender_sort(scope),
            Leaf::Field(i) => self.heard_sort(scope, i),
            Leaf::Variable(i) => where_so(scope.names_state(), self.variable_sort(i)),
            Leaf::Clamped | Leaf::Replaced => where_so(scope.names_state(), Some(Sort::Truth)),
            Leaf::Let(i) => where_so(scope.names_lets(), self.let_sort(i)),
            Leaf::Fact(i) => where_so(scope.names_facts(), self.fact_sort(i)),
            Leaf::It => where_so(within.names_it(), Some(Sort::Number)),
        }
    }

    /// What the items are of what has one for each of some places.
    pub fn row_sort(&self, scope: Scope, row: Row) -> Option<Sort>
        ensures { result ≡ row_sort self.now scope row }
    {
        match row {
            Row::Table(table) => {
                where_so(
                    scope.names_state() && self.is_table(table),
                    self.cell_sort(table.of),
                )
            }
            Row::Given(i) => where_so(scope.names_state(), self.constant_sort(i)),
        }
    }

    /// The number of a variable's second cell, which it has where it is a table, and the greatest `usize` where that is more.
    pub fn others_of(&self, of: u8) -> usize
        ensures { result ≡ min (others_of self.now of) 18446744073709551615 }
    {
        let variables = self.variables.as_slice();
        variables
            .len()
            .saturating_add(others_in(usize::from(of), variables))
    }

    /// How many cells there are in all, and the greatest `usize` where they are more.
    pub fn cells_in(&self) -> usize
        ensures { result ≡ min (cells_in self.now) 18446744073709551615 }
    {
        let variables = self.variables.as_slice();
        variables
            .len()
            .saturating_add(others_in(variables.len(), variables))
    }

    /// Whether a table is there.
    pub(crate) fn is_table(&self, table: Table) -> bool
        ensures { result ≡ is_table self.now table }
    {
        self.is_table_of(table.of, table.cells)
            && usize::from(table.others) == self.others_of(table.of)
    }

    /// Whether a variable is a table with so many cells.
    fn is_table_of(&self, of: u8, cells: Cells) -> bool
        ensures { result ≡ is_table_of (slice_get self.now.variables of) cells }
    {
        match self.variables.as_slice().get(usize::from(of)) {
            Some(variable) => variable.cells.same_cells(cells) && !cells.is_one(),
            None => false,
        }
    }

    /// What a variable's word is.
    fn word_sort(&self, of: u8, word: u8) -> Option<Sort>
        ensures { result ≡ word_sort (slice_get self.now.variables of) of word }
    {
        match self.variables.as_slice().get(usize::from(of)) {
            Some(variable) => {
                where_so(
                    usize::from(word) < variable.words.len(),
                    Some(Sort::Word(of)),
                )
            }
            None => None,
        }
    }

    /// What a constant is.
    fn constant_sort(&self, i: u8) -> Option<Sort>
        ensures { result ≡ constant_sort (slice_get self.now.given i) }
    {
        match self.given.as_slice().get(usize::from(i)) {
            Some(constant) => Some(constant.sort),
            None => None,
        }
    }

    /// What a variable is that is no table.
    fn variable_sort(&self, i: u8) -> Option<Sort>
        ensures { result ≡ variable_sort (slice_get self.now.variables i) }
    {
        match self.variables.as_slice().get(usize::from(i)) {
            Some(variable) => where_so(variable.cells.is_one(), Some(variable.kind.sort())),
            None => None,
        }
    }

    /// What a cell of a variable is.
    fn cell_sort(&self, i: u8) -> Option<Sort>
        ensures { result ≡ cell_sort (slice_get self.now.variables i) }
    {
        match self.variables.as_slice().get(usize::from(i)) {
            Some(variable) => Some(variable.kind.sort()),
            None => None,
        }
    }

    /// What a named expression is.
    fn let_sort(&self, i: u8) -> Option<Sort>
        ensures { result ≡ let_sort (slice_get self.now.lets i) }
    {
        match self.lets.as_slice().get(usize::from(i)) {
            Some(named) => Some(named.sort),
            None => None,
        }
    }

    /// What a named guard is.
    fn fact_sort(&self, i: u8) -> Option<Sort>
        ensures { result ≡ fact_sort (slice_get self.now.facts i) }
    {
        match self.facts.as_slice().get(usize::from(i)) {
            Some(_) => Some(Sort::Truth),
            None => None,
        }
    }

    /// What a field of the note is that is heard.
    fn heard_sort(&self, scope: Scope, i: u8) -> Option<Sort>
        ensures { result ≡ heard_sort self.now scope i }
    {
        match scope {
            Scope::Note(form) => self.field_sort(form, i),
            _ => None,
        }
    }

    /// What a field of a note is.
    fn field_sort(&self, form: u8, i: u8) -> Option<Sort>
        ensures { result ≡ field_sort (slice_get self.now.notes form) i }
    {
        match self.notes.as_slice().get(usize::from(form)) {
            Some(form) => match form.fields.as_slice().get(usize::from(i)) {
                Some(kind) => Some(kind.sort()),
                None => None,
            },
            None => None,
        }
    }
}

/// What the sender is.
fn sender_sort(scope: Scope) -> Option<Sort>
    ensures { result ≡ sender_sort scope }
{
    match scope {
        Scope::Note(_) => Some(Sort::Number),
        _ => None,
    }
}

/// How many cells but their first the first variables have, so many of them, and the greatest `usize` where they are more.
fn others_in(count: usize, variables: &[Variable]) -> usize
    ensures { result ≡ min (others_in count variables.now) 18446744073709551615 }
{
    match variables {
        [] => 0,
        [variable, variables @ ..] => {
            if count == 0 {
                return 0;
            }
            let others = usize::from(variable.cells.count().saturating_sub(1));
            others.saturating_add(others_in(count - 1, variables))
        }
    }
}
