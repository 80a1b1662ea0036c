//! How many cells a variable has.

ghost use Rattle.std.specs.Prelude.{◌≡◌, Ok, Err};
ghost use Rattle.lf_texts.specs.Reading.{Says, read_by};
ghost use Rattle.lf_texts.specs.Tables.{places_to, first_numbered, first_places, cells_inside, first_cells};

use crate::TextError;
use crate::fronts::past;
use crate::kinds::first_number;
use lf_grammar::{Sign, Token, behind_sign, behind_word};
use lf_rules::Cells;

/// The most places of a table whose places are numbers from 1 on.
const MOST_PLACES: u8 = 32;

/// The cells that come first, and the tokens behind them: a cell for each place in square brackets, and one where no such bracket opens.
#[tactic(auto, unfolding(crate::specs::Tables::first_cells))]
pub(crate) fn first_cells(tokens: &[Token]) -> Result<(Cells, &[Token]), TextError>
    ensures { Says read_by (first_cells tokens.now) result }
{
    match behind_sign(tokens, Sign::OpenSquare) {
        Some(inner) => cells_inside(inner),
        None => Ok((Cells::One, tokens)),
    }
}

/// The cells in brackets behind the first of them, and the tokens behind the last one.
#[tactic(auto, unfolding(crate::specs::Tables::cells_inside))]
fn cells_inside(tokens: &[Token]) -> Result<(Cells, &[Token]), TextError>
    ensures { Says read_by (cells_inside tokens.now) result }
{
    let (cells, end) = first_places(tokens)?;
    let rest = past(end, Sign::CloseSquare)?;
    Ok((cells, rest))
}

/// The places that come first: the nodes, or numbers from 1 on; and the tokens behind them.
#[tactic(auto, unfolding(crate::specs::Tables::first_places))]
fn first_places(tokens: &[Token]) -> Result<(Cells, &[Token]), TextError>
    ensures { Says read_by (first_places tokens.now) result }
{
    match behind_word(tokens, "nodes") {
        Some(rest) => Ok((Cells::EachNode, rest)),
        None => first_numbered(tokens),
    }
}

/// The places from `1` on that come first, with `..` and the last of them, and the tokens behind it.
#[tactic(auto, unfolding(crate::specs::Tables::first_numbered))]
fn first_numbered(tokens: &[Token]) -> Result<(Cells, &[Token]), TextError>
    ensures { Says read_by (first_numbered tokens.now) result }
{
    let (first, behind) = first_number(tokens)?;
    if first != 1 {
        return Err(TextError::Unfit);
    }
    let inner = past(behind, Sign::To)?;
    let (last, rest) = first_number(inner)?;
    let cells = places_to(last)?;
    Ok((cells, rest))
}

/// The places from 1 to a number, of which there are one at least, and 32 at most.
fn places_to(last: u8) -> Result<Cells, TextError>
    ensures { result ≡ places_to last }
{
    if last == 0 {
        Err(TextError::Unfit)
    } else if last <= MOST_PLACES {
        Ok(Cells::UpTo(last))
    } else {
        Err(TextError::PastLimit)
    }
}
