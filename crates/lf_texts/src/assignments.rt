//! What rules set.

ghost use Rattle.std.specs.Prelude.{◌≡◌, ◌≤◌, [], length, IfOk, Ok, Err};
ghost use Rattle.lf_grammar.specs.Places.{context_of};
ghost use Rattle.lf_texts.specs.Assignments.{variable_named, is_variable, is_set, whole, target_at, first_cell, aim_by, first_aim};
ghost use Rattle.lf_texts.specs.Assignments.{within_value, first_set, sets_in};
ghost use Rattle.lf_texts.specs.Lists.{listed};
ghost use Rattle.lf_texts.specs.Reading.{Says, Gives, read_by};

use crate::TextError;
use crate::fronts::{ended, first_word, past};
use crate::lists::put;
use crate::values::{expression, first_of_sort, first_sum, with_it};
use lf_grammar::{Place, Sign, Token, Typed, behind_sign};
use lf_rules::{Assignment, Cells, Expr, Leaf, Row, Sort, Table, Target, Within, within_of};
use std::alloc::Global;

/// The most assignments of a rule.
const MOST_SETS: u8 = 16;

/// What is set, and what its value has to be.
#[derive(Debug, Drop)]
struct Aim {
    target: Target,
    sort: Sort,
}

/// Reads a text that says what a rule sets: at most 16 variables and cells of tables, each with `=` and a value of its kind, and commas between. A variable
/// stands once. A table has its place in square brackets behind it: a number, or a set of nodes where each node has a cell. In the value for a node's cell
/// `it` is the node.
#[tactic(auto, unfolding(crate::specs::Assignments::sets_in))]
pub fn read_sets(
    alloc: Global,
    place: &Place<'_>,
    tokens: &[Token],
) -> Result<Vec<Assignment>, TextError>
    ensures read { Gives (λ sets. sets.items) (sets_in (context_of place.now) tokens.now) result }
    ensures few { IfOk result (λ sets. length sets.items ≤ 16) }
{
    let (sets, rest) = listed_sets(alloc, place, tokens)?;
    ended(rest)?;
    Ok(sets)
}

/// The assignments that come first, and the tokens behind them.
#[tactic(auto, using(crate::proofs::ListLemmas::rows))]
fn listed_sets<'t>(
    alloc: Global,
    place: &Place<'_>,
    tokens: &'t [Token],
) -> Result<(Vec<Assignment>, &'t [Token]), TextError>
    ensures { Gives (λ r. record { value = r.0.items; rest = r.1.now }) (listed (first_set (context_of place.now)) Sign.Comma 16 [] tokens.now) result }
{
    let mut sets = Vec::new(alloc);
    let mut rest = tokens;
    for _ in 0..MOST_SETS {
        let (set, after) = first_set(alloc, place, sets.as_slice(), rest)?;
        put(&mut sets, set)?;
        match behind_sign(after, Sign::Comma) {
            Some(next) => rest = next,
            None => return Ok((sets, after)),
        }
    }
    Err(TextError::PastLimit)
}

/// The assignment that comes first, behind some, and the tokens behind it.
#[tactic(auto, unfolding(crate::specs::Assignments::first_set))]
fn first_set<'t>(
    alloc: Global,
    place: &Place<'_>,
    before: &[Assignment],
    tokens: &'t [Token],
) -> Result<(Assignment, &'t [Token]), TextError>
    ensures { Gives read_by (first_set (context_of place.now) before.now tokens.now) result }
{
    let (aim, behind) = first_aim(alloc, place, before, tokens)?;
    let inner = past(behind, Sign::Equal)?;
    let Aim { target, sort } = aim;
    let inside = with_it(place, within_value(&target));
    let (value, rest) = first_of_sort(alloc, &inside, sort, inner)?;
    Ok((Assignment { target, value }, rest))
}

/// What `it` is in the value that a target gets.
fn within_value(target: &Target) -> Within
    ensures { result ≡ within_value target.now }
{
    match target {
        Target::Variable(_) => Within::Nothing,
        Target::Cell(table, _) => within_of(table.cells),
        Target::Cells(_, _) => Within::Receiver,
    }
}

/// What is set first, behind some assignments, and the tokens behind it.
#[tactic(auto, unfolding(crate::specs::Assignments::first_aim))]
fn first_aim<'t>(
    alloc: Global,
    place: &Place<'_>,
    before: &[Assignment],
    tokens: &'t [Token],
) -> Result<(Aim, &'t [Token]), TextError>
    ensures { Gives read_by (first_aim (context_of place.now) before.now tokens.now) result }
{
    let (word, rest) = first_word(tokens)?;
    let variable = variable_named(place, word.as_str())?;
    let row = place.row(Leaf::Variable(variable.0));
    aim_by(alloc, place, before, variable, row, rest)
}

/// What is set of a variable by what has the items of its name: the cells of a table, or nothing.
fn aim_by<'t>(
    alloc: Global,
    place: &Place<'_>,
    before: &[Assignment],
    variable: (u8, Sort, Cells),
    row: Option<Row>,
    tokens: &'t [Token],
) -> Result<(Aim, &'t [Token]), TextError>
    ensures { Gives read_by (aim_by (context_of place.now) before.now variable row tokens.now) result }
{
    match row {
        Some(Row::Table(table)) => {
            let (target, rest) = first_cell(alloc, place, table, tokens)?;
            let sort = variable.1;
            Ok((Aim { target, sort }, rest))
        }
        _ => Ok((whole(before, variable)?, tokens)),
    }
}

/// A variable as a whole, which is no table and set by none of some assignments.
fn whole(before: &[Assignment], variable: (u8, Sort, Cells)) -> Result<Aim, TextError>
    ensures { Says (λ aim. aim) (whole before.now variable) result }
{
    let (number, sort, cells) = variable;
    if !matches!(cells, Cells::One) || is_set(before, number) {
        return Err(TextError::Unfit);
    }
    let target = Target::Variable(number);
    Ok(Aim { target, sort })
}

/// What is set of a table: its place in brackets, and the tokens behind them.
#[tactic(auto, unfolding(crate::specs::Assignments::first_cell))]
fn first_cell<'t>(
    alloc: Global,
    place: &Place<'_>,
    table: Table,
    tokens: &'t [Token],
) -> Result<(Target, &'t [Token]), TextError>
    ensures { Gives read_by (first_cell (context_of place.now) table tokens.now) result }
{
    let inner = past(tokens, Sign::OpenSquare)?;
    let outside = with_it(place, Within::Nothing);
    let (found, end) = first_sum(alloc, &outside, inner)?;
    let Typed { tree, sort, .. } = found;
    let target = target_at(table, sort, expression(tree)?)?;
    let rest = past(end, Sign::CloseSquare)?;
    Ok((target, rest))
}

/// The cell at a place that is a number, or those of a set of nodes, where each node has one.
fn target_at(table: Table, sort: Sort, place: Expr) -> Result<Target, TextError>
    ensures { Says (λ target. target) (target_at table sort place) result }
{
    match sort {
        Sort::Number => Ok(Target::Cell(table, place)),
        Sort::Nodes => match table.cells {
            Cells::EachNode => Ok(Target::Cells(table, place)),
            _ => Err(TextError::Unfit),
        },
        _ => Err(TextError::Unfit),
    }
}

/// The variable that a word means, by its number, what its values are, and how many cells it has.
fn variable_named(place: &Place<'_>, word: &str) -> Result<(u8, Sort, Cells), TextError>
    ensures { result ≡ variable_named (context_of place.now) word.now }
{
    match place.leaf(word) {
        Some(Leaf::Variable(i)) => match place.definition.variables.as_slice().get(usize::from(i)) {
            Some(variable) => Ok((i, variable.kind.sort(), variable.cells)),
            None => Err(TextError::Unfit),
        },
        _ => Err(TextError::Unfit),
    }
}

/// Whether a variable is set already as a whole.
fn is_set(before: &[Assignment], variable: u8) -> bool
    ensures { result ≡ is_set before.now variable }
{
    before.iter().any(|set| is_variable(&set.target, variable))
}

/// Whether a target is a variable as a whole.
fn is_variable(target: &Target, variable: u8) -> bool
    ensures { result ≡ is_variable variable target.now }
{
    match target {
        Target::Variable(other) => *other == variable,
        _ => false,
    }
}
