//! What expressions use.

use lf_rules::{Expr, Leaf, Row, Tree};

/// What some expressions use: of each kind of thing a bit for each number.
#[derive(Clone, Copy, Debug)]
pub(crate) struct Uses {
    pub constants: u64,
    pub variables: u64,
    pub lets: u64,
    pub facts: u64,
}

impl Uses {
    /// Nothing.
    pub(crate) fn none() -> Uses {
        Uses {
            constants: 0,
            variables: 0,
            lets: 0,
            facts: 0,
        }
    }

    /// What an expression uses, besides.
    pub(crate) fn and(self, value: &Expr) -> Uses {
        used_in(value.tree(), self)
    }

    /// A thing, besides.
    pub(crate) fn with(self, leaf: Leaf) -> Uses {
        let mut uses = self;
        match leaf {
            Leaf::Given(i) => uses.constants |= bit(usize::from(i)),
            Leaf::Variable(i) => uses.variables |= bit(usize::from(i)),
            Leaf::Let(i) => uses.lets |= bit(usize::from(i)),
            Leaf::Fact(i) => uses.facts |= bit(usize::from(i)),
            _ => {}
        }
        uses
    }

    /// What has an item for each of some places, besides.
    pub(crate) fn with_row(self, row: Row) -> Uses {
        match row {
            Row::Table(table) => self.with(Leaf::Variable(table.of)),
            Row::Given(i) => self.with(Leaf::Given(i)),
        }
    }
}

/// What a tree uses, besides.
fn used_in(tree: &Tree, uses: Uses) -> Uses {
    match tree {
        Tree::Leaf(leaf) => uses.with(*leaf),
        Tree::Unary(_, a) => used_in(a, uses),
        Tree::Binary(_, a, b) => used_in(b, used_in(a, uses)),
        Tree::At(row, place) => used_in(place, uses.with_row(*row)),
        Tree::Over(_, set, body) => used_in(body, used_in(set, uses)),
    }
}

/// Whether an expression has a leaf.
pub(crate) fn has_leaf(value: &Expr, leaf: Leaf) -> bool {
    tree_has(value.tree(), leaf)
}

/// Whether a tree has a leaf.
fn tree_has(tree: &Tree, leaf: Leaf) -> bool {
    match tree {
        Tree::Leaf(own) => *own == leaf,
        Tree::Unary(_, a) => tree_has(a, leaf),
        Tree::Binary(_, a, b) => tree_has(a, leaf) || tree_has(b, leaf),
        Tree::At(_, place) => tree_has(place, leaf),
        Tree::Over(_, set, body) => tree_has(set, leaf) || tree_has(body, leaf),
    }
}

/// The bit for a number, where it is below 64.
pub(crate) fn bit(number: usize) -> u64 {
    if number < 64 { 1 << number } else { 0 }
}

/// Whether the bit for a number is set.
pub(crate) fn has_bit(bits: u64, number: usize) -> bool {
    bits & bit(number) != 0
}
