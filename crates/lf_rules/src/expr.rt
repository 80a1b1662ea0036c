//! Expressions.

ghost use Rattle.std.specs.Prelude.{◌≡◌, ◌≤◌, ◌↔◌, IsSome, IfSome, min};
ghost use Rattle.lf_rules.specs.Terms.{term_of};
ghost use Rattle.lf_rules.specs.Terms as terms;
ghost use Rattle.lf_rules.specs.Trees.{parts, has_it, is_it};

use crate::table::Table;
use std::marker::Model;

/// The most parts that an expression has.
pub const MOST_PARTS: u32 = 256;

/// What an expression begins with.
#[derive(Clone, Copy, Debug, PartialEq, Eq)]
pub enum Leaf {
    /// A number.
    Number(u8),
    /// A truth value.
    Truth(bool),
    /// A word of the variable with the number `of`, by its place among that variable's words.
    Word { of: u8, word: u8 },
    /// The set without nodes.
    Empty,
    /// How many nodes there are.
    Nodes,
    /// The set of all nodes.
    All,
    /// A constant that a scenario may give, by its number: of a list this node's item.
    Given(u8),
    /// The node whose step it is.
    Me,
    /// The number of the step.
    Step,
    /// The node that sent the letter that is heard.
    Sender,
    /// A field of the note that is heard, by its number.
    Field(u8),
    /// A variable of the node's state, by its number.
    Variable(u8),
    /// Whether a value of this node once went past the greatest of its kind, or a cell was set that isn't there.
    Clamped,
    /// Whether a note of this node was once lost before it was sent: another one of its form took its place, or its packet had no room for it.
    Replaced,
    /// A named expression, by its number, as if it stood here.
    Let(u8),
    /// A named guard, by its number, as if it stood here.
    Fact(u8),
    /// The node for which a body is worked out, or the receiver of a note, or the node whose cell is set.
    It,
}

/// An expression as a tree. It has a value at each moment of a node's step, and nothing fails or changes where it is worked out.
///
/// What a text may say beside is read as one of these: `{a, b..c, d..}` is the union of `Only` a, `Between` b and c, and `Between` d and `Nodes`, and
/// `{}` is `Empty`; `a > b` is `Less` of b and a, `a >= b` is `AtMost` of b and a, `a != b` is `Not` of `Equal`; of a set s and a number x, `s + x` is
/// `Union` of s and `Only` x, and `s - x` is `Without` of s and `Only` x; `majority(s)` is `Majority` of s and `All`; a number that stands for a set
/// is `Only` of it.
#[derive(Debug, Drop)]
pub enum Tree {
    Leaf(Leaf),
    /// What comes of one value.
    Unary(Unary, Box<Tree>),
    /// What comes of two values.
    Binary(Binary, Box<Tree>, Box<Tree>),
    /// What stands at a place: 0 where there is none.
    At(Row, Box<Tree>),
    /// What comes of a set of nodes and a body, which is worked out with `It` each of the nodes.
    Over(Over, Box<Tree>, Box<Tree>),
}

/// What comes of one value.
#[derive(Clone, Copy, Debug, PartialEq, Eq)]
pub enum Unary {
    /// Whether it is false.
    Not,
    /// How many nodes a set has.
    Count,
    /// The lowest node of a set, and the number of nodes where it has none.
    Lowest,
    /// The highest node of a set, and the number of nodes where it has none.
    Highest,
    /// The set of this node alone, and no node where there is none with the number.
    Only,
}

/// What comes of two values.
#[derive(Clone, Copy, Debug, PartialEq, Eq)]
pub enum Binary {
    /// The sum of two numbers.
    Add,
    /// The difference of two numbers, and 0 where the second is greater.
    Subtract,
    /// The smaller of two numbers.
    Smaller,
    /// The larger of two numbers.
    Larger,
    /// The remainder of the first number by the second, and 0 by 0.
    Remainder,
    /// Whether two values are the same.
    Equal,
    /// Whether the first number is less than the second.
    Less,
    /// Whether the first number is at most the second.
    AtMost,
    /// Whether both are true.
    And,
    /// Whether one of the two is true.
    Or,
    /// Whether the number is a node that the set has.
    In,
    /// The nodes of one of two sets.
    Union,
    /// The nodes of the first set that the second hasn't.
    Without,
    /// All nodes from the first number to the second.
    Between,
    /// Whether more than half of the nodes of the second set are in the first.
    Majority,
}

/// What has an item for each of some places.
#[derive(Clone, Copy, Debug, PartialEq, Eq)]
pub enum Row {
    /// A table: its cells.
    Table(Table),
    /// A constant, by its number: its value at each node.
    Given(u8),
}

/// What comes of a set of nodes and a body.
#[derive(Clone, Copy, Debug, PartialEq, Eq)]
pub enum Over {
    /// The nodes of the set for which the body is true.
    Those,
    /// The least value of the body for a node of the set, and 255 where the set has none.
    Least,
    /// The greatest value of the body for a node of the set, and 0 where the set has none.
    Greatest,
}

/// An expression of at most 256 parts: so small that no value of it, of what it names, or on the way passes 64 bits.
#[derive(Debug, Drop)]
pub struct Expr {
    tree: Tree,
}

impl Model for Expr {
    ghost use Rattle.std.specs.Prelude.{◌≤◌};
    ghost use Rattle.lf_rules.specs.Terms.{Term, term_code, term_of};

    ghost Value = { Term };

    ghost coded = { term_code };

    ghost use Rattle.lf_rules.specs.Trees.{parts};

    ghost view = { λ e. term_of e.tree };

    ghost invariant = { λ e. parts (term_of e.tree) ≤ 256 };
}

impl Expr {
    /// The expression with this tree. None where it has more than 256 parts.
    pub fn new(tree: Tree) -> Option<Expr>
        ensures some { IsSome result ↔ (parts (term_of tree) ≤ 256) }
        ensures value { IfSome result (λ e. e ≡ term_of tree) }
    {
        if count_parts(&tree) <= MOST_PARTS {
            Some(Expr { tree })
        } else {
            None
        }
    }

    /// The expression that is a leaf alone.
    pub fn leaf(leaf: Leaf) -> Expr
        ensures { result ≡ terms.Leaf leaf }
    {
        Expr {
            tree: Tree::Leaf(leaf),
        }
    }

    /// The expression as a tree.
    pub fn tree(&self) -> &Tree
        ensures value { term_of result.now ≡ self.now }
        ensures short { parts (term_of result.now) ≤ 256 }
    {
        &self.tree
    }
}

/// How many parts a tree has, and the greatest `u32` where they are more.
fn count_parts(tree: &Tree) -> u32
    ensures { result ≡ min (parts (term_of tree.now)) 4294967295 }
{
    match tree {
        Tree::Leaf(_) => 1,
        Tree::Unary(_, a) => count_parts(a).saturating_add(1),
        Tree::Binary(_, a, b) => count_parts(a)
            .saturating_add(count_parts(b))
            .saturating_add(1),
        Tree::At(_, place) => count_parts(place).saturating_add(1),
        Tree::Over(_, set, body) => count_parts(set)
            .saturating_add(count_parts(body))
            .saturating_add(1),
    }
}

/// Whether `It` stands in a tree, outside of bodies of its own.
pub(crate) fn has_it(tree: &Tree) -> bool
    ensures { result ≡ has_it (term_of tree.now) }
{
    match tree {
        Tree::Leaf(leaf) => is_it(*leaf),
        Tree::Unary(_, a) => has_it(a),
        Tree::Binary(_, a, b) => has_it(a) || has_it(b),
        Tree::At(_, place) => has_it(place),
        Tree::Over(_, set, _) => has_it(set),
    }
}

/// Whether an expression begins with `It`.
fn is_it(leaf: Leaf) -> bool
    ensures { result ≡ is_it leaf }
{
    matches!(leaf, Leaf::It)
}
