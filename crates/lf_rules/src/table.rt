//! Tables.

ghost use Rattle.std.specs.Prelude.{◌≡◌};
ghost use Rattle.lf_rules.specs.Tables.{count_of, is_one, is_each_node, same_cells, is_cells, cell_of};

/// How many cells a variable has.
#[derive(Clone, Copy, Debug, PartialEq, Eq)]
pub enum Cells {
    /// One: it is no table.
    One,
    /// 8, of which a node has a use for those of the nodes that there are. Its places are the nodes.
    EachNode,
    /// So many, 1..=32. Its places are the numbers from 1 to this one.
    UpTo(u8),
}

/// A table, as expressions and assignments name it.
///
/// A state has a number for each cell. The first cell of the variable with number i has number i. Behind all of these stand the other cells of the tables,
/// table by table, in the order of the variables.
#[derive(Clone, Copy, Debug, PartialEq, Eq)]
pub struct Table {
    /// The number of the variable, which is that of its first cell.
    pub of: u8,
    /// The number of its second cell.
    pub others: u8,
    /// How many cells it has.
    pub cells: Cells,
}

impl Cells {
    /// How many there are.
    pub fn count(self) -> u8
        ensures { result ≡ count_of self }
    {
        match self {
            Cells::One => 1,
            Cells::EachNode => 8,
            Cells::UpTo(count) => count,
        }
    }

    /// Whether it is that of a variable that is no table.
    pub fn is_one(self) -> bool
        ensures { result ≡ is_one self }
    {
        matches!(self, Cells::One)
    }

    /// Whether its places are the nodes.
    pub(crate) fn is_each_node(self) -> bool
        ensures { result ≡ is_each_node self }
    {
        matches!(self, Cells::EachNode)
    }

    /// Whether it is the other one.
    pub(crate) fn same_cells(self, other: Cells) -> bool
        ensures { result ≡ same_cells self other }
    {
        match (self, other) {
            (Cells::One, Cells::One) => true,
            (Cells::EachNode, Cells::EachNode) => true,
            (Cells::UpTo(one), Cells::UpTo(another)) => one == another,
            _ => false,
        }
    }

    /// Whether a variable may have so many.
    pub(crate) fn is_cells(self) -> bool
        ensures { result ≡ is_cells self }
    {
        match self {
            Cells::One | Cells::EachNode => true,
            Cells::UpTo(count) => 1 <= count && count <= 32,
        }
    }
}

impl Table {
    /// The number of its k-th cell, from 0 on.
    pub fn cell(self, k: u8) -> usize
        ensures { result ≡ cell_of self.of self.others k }
    {
        if k == 0 {
            usize::from(self.of)
        } else {
            usize::from(self.others) + usize::from(k - 1)
        }
    }
}
