//! What expressions are.

ghost use Rattle.std.specs.Prelude.{◌≡◌};
ghost use Rattle.lf_rules.specs.Sorts.{same_sort, is_of, where_so, names_constants, names_state, names_lets, names_facts};
ghost use Rattle.lf_rules.specs.Sorts.{is_rule, taken, gives, takes, made, alike, unary_sort, binary_sort};
ghost use Rattle.lf_rules.specs.Sorts.{names_it, has_bodies, at_sort, body_of, comes_of, over_sort};

use crate::expr::{Binary, Over, Unary};

/// What an expression is.
#[derive(Clone, Copy, Debug, PartialEq, Eq)]
pub enum Sort {
    Number,
    Truth,
    /// A set of nodes.
    Nodes,
    /// A word of the variable with this number.
    Word(u8),
}

/// Where an expression stands, which says what it may name. It may name numbers, truth values, words, the set without nodes, the set of all nodes, and how
/// many nodes there are, everywhere.
#[derive(Clone, Copy, Debug, PartialEq, Eq)]
pub enum Scope {
    /// The value of a constant: it names nothing else.
    Given,
    /// Whose rules there are: it names constants too.
    Who,
    /// A named expression: it names the state and the node itself too.
    Let,
    /// A named guard: it names named expressions too.
    Fact,
    /// What an outcome asks of a state: it names named guards too.
    Outcome,
    /// A rule that is on no note: it names the step and named guards too.
    Plain,
    /// A rule on the note that has the form with this number: it names the sender and the note's fields too.
    Note(u8),
}

/// What `It` is where an expression stands.
#[derive(Clone, Copy, Debug, PartialEq, Eq)]
pub enum Within {
    /// It is nothing here.
    Nothing,
    /// It is the receiver of a note, or the node whose cell is set. Bodies may stand here.
    Receiver,
    /// It is the node of a body, in which no other body may stand.
    Body,
}

impl Sort {
    /// Whether it is the other one.
    pub fn same(self, other: Sort) -> bool
        ensures { result ≡ same_sort self other }
    {
        match (self, other) {
            (Sort::Number, Sort::Number) => true,
            (Sort::Truth, Sort::Truth) => true,
            (Sort::Nodes, Sort::Nodes) => true,
            (Sort::Word(one), Sort::Word(another)) => one == another,
            _ => false,
        }
    }
}

impl Scope {
    /// Whether constants may be named.
    pub(crate) fn names_constants(self) -> bool
        ensures { result ≡ names_constants self }
    {
        !matches!(self, Scope::Given)
    }

    /// Whether the state and the node itself may be named.
    pub(crate) fn names_state(self) -> bool
        ensures { result ≡ names_state self }
    {
        !matches!(self, Scope::Given | Scope::Who)
    }

    /// Whether named expressions may be named.
    pub(crate) fn names_lets(self) -> bool
        ensures { result ≡ names_lets self }
    {
        !matches!(self, Scope::Given | Scope::Who | Scope::Let)
    }

    /// Whether named guards may be named.
    pub(crate) fn names_facts(self) -> bool
        ensures { result ≡ names_facts self }
    {
        match self {
            Scope::Outcome => true,
            scope => scope.is_rule(),
        }
    }

    /// Whether the step may be named.
    pub(crate) fn is_rule(self) -> bool
        ensures { result ≡ is_rule self }
    {
        matches!(self, Scope::Plain | Scope::Note(_))
    }
}

impl Within {
    /// Whether `It` may be named.
    pub(crate) fn names_it(self) -> bool
        ensures { result ≡ names_it self }
    {
        !matches!(self, Within::Nothing)
    }

    /// Whether bodies may stand here.
    pub(crate) fn has_bodies(self) -> bool
        ensures { result ≡ has_bodies self }
    {
        !matches!(self, Within::Body)
    }
}

/// Whether what was found is this sort.
pub fn is_of(found: Option<Sort>, sort: Sort) -> bool
    ensures { result ≡ is_of found sort }
{
    match found {
        Some(found) => found.same(sort),
        None => false,
    }
}

/// What was found, where something is so.
pub(crate) fn where_so(so: bool, found: Option<Sort>) -> Option<Sort>
    ensures { result ≡ where_so so found }
{
    if so { found } else { None }
}

/// What comes of an operator on one value.
pub fn unary_sort(operator: Unary, one: Option<Sort>) -> Option<Sort>
    ensures { result ≡ unary_sort operator one }
{
    where_so(is_of(one, taken(operator)), Some(gives(operator)))
}

/// What comes of an operator on two values.
pub fn binary_sort(operator: Binary, one: Option<Sort>, other: Option<Sort>) -> Option<Sort>
    ensures { result ≡ binary_sort operator one other }
{
    where_so(takes(operator, one, other), Some(made(operator)))
}

/// What stands at a place of what has such items.
pub fn at_sort(items: Option<Sort>, place: Option<Sort>) -> Option<Sort>
    ensures { result ≡ at_sort items place }
{
    where_so(is_of(place, Sort::Number), items)
}

/// What comes of a set and a body.
pub fn over_sort(over: Over, set: Option<Sort>, body: Option<Sort>) -> Option<Sort>
    ensures { result ≡ over_sort over set body }
{
    where_so(
        is_of(set, Sort::Nodes) && is_of(body, body_of(over)),
        Some(comes_of(over)),
    )
}

/// What a body is.
fn body_of(over: Over) -> Sort
    ensures { result ≡ body_of over }
{
    match over {
        Over::Those => Sort::Truth,
        Over::Least | Over::Greatest => Sort::Number,
    }
}

/// What comes of a set and a body, where they are what they have to be.
fn comes_of(over: Over) -> Sort
    ensures { result ≡ comes_of over }
{
    match over {
        Over::Those => Sort::Nodes,
        Over::Least | Over::Greatest => Sort::Number,
    }
}

/// What an operator on one value takes.
fn taken(operator: Unary) -> Sort
    ensures { result ≡ taken operator }
{
    match operator {
        Unary::Not => Sort::Truth,
        Unary::Count | Unary::Lowest | Unary::Highest => Sort::Nodes,
        Unary::Only => Sort::Number,
    }
}

/// What it gives.
fn gives(operator: Unary) -> Sort
    ensures { result ≡ gives operator }
{
    match operator {
        Unary::Not => Sort::Truth,
        Unary::Only => Sort::Nodes,
        Unary::Count | Unary::Lowest | Unary::Highest => Sort::Number,
    }
}

/// Whether an operator on two values takes these.
fn takes(operator: Binary, one: Option<Sort>, other: Option<Sort>) -> bool
    ensures { result ≡ takes operator one other }
{
    match operator {
        Binary::Equal => alike(one, other),
        Binary::And | Binary::Or => is_of(one, Sort::Truth) && is_of(other, Sort::Truth),
        Binary::In => is_of(one, Sort::Number) && is_of(other, Sort::Nodes),
        Binary::Union | Binary::Without | Binary::Majority => {
            is_of(one, Sort::Nodes) && is_of(other, Sort::Nodes)
        }
        Binary::Add
        | Binary::Subtract
        | Binary::Smaller
        | Binary::Larger
        | Binary::Remainder
        | Binary::Less
        | Binary::AtMost
        | Binary::Between => is_of(one, Sort::Number) && is_of(other, Sort::Number),
    }
}

/// Whether two values are of one sort.
fn alike(one: Option<Sort>, other: Option<Sort>) -> bool
    ensures { result ≡ alike one other }
{
    match other {
        Some(other) => is_of(one, other),
        None => false,
    }
}

/// What an operator on two values gives.
fn made(operator: Binary) -> Sort
    ensures { result ≡ made operator }
{
    match operator {
        Binary::Union | Binary::Without | Binary::Between => Sort::Nodes,
        Binary::Add | Binary::Subtract | Binary::Smaller | Binary::Larger | Binary::Remainder =>
            Sort::Number,
        Binary::Equal
        | Binary::Less
        | Binary::AtMost
        | Binary::And
        | Binary::Or
        | Binary::In
        | Binary::Majority => Sort::Truth,
    }
}
