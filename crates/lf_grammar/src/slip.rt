//! Where tokens are refused, and why. No contract speaks of it: it is for whoever tells a person what is wrong.

use crate::Sign;

/// What is wrong at a place.
#[derive(Clone, Copy, Debug, PartialEq, Eq)]
pub enum Why {
    /// No value begins there.
    Value,
    /// A word that stands for nothing there.
    Name,
    /// A number can't be divided by it.
    Divisor,
    /// It has no items: only tables and constants have brackets behind their names.
    Items,
    /// A table stands without brackets.
    Table,
    /// `it` is no node there.
    It,
    /// A body stands in another one, or where the state isn't named.
    Body,
    /// This sign has to stand there.
    Sign(Sign),
    /// A value is of another sort than it has to be, or there are too many or too few.
    Sort,
    /// No fact is named there.
    Fact,
    /// No node is named there.
    Node,
    /// A fact of which it isn't said at which nodes.
    Nodes,
    /// `always`, `ever` or `one value of` within one of the first two.
    Time,
    /// `of` has to stand there.
    Of,
    /// More than the whole.
    Rest,
}

/// Where tokens are refused, and why. Places are told by how many tokens are left there.
#[derive(Clone, Copy, Debug, PartialEq, Eq)]
pub struct Slip {
    pub why: Why,
    /// Where what is at fault begins: a value, a call, or what a bracket encloses that isn't closed.
    pub from: usize,
    /// Where the fault is: the token that can't stand there, or, of two values, what is between them.
    pub at: usize,
    /// What is behind all that is at fault.
    pub to: usize,
}

impl Slip {
    /// A fault of the first of so many tokens.
    pub fn first(why: Why, left: usize) -> Slip {
        Slip {
            why,
            from: left,
            at: left,
            to: left.saturating_sub(1),
        }
    }
}
