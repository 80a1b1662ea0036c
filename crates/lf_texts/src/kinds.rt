//! Kinds of values, by words.

ghost use Rattle.std.specs.Prelude.{◌≡◌, Ok, Err};
ghost use Rattle.lf_texts.specs.Fronts.{first_number};
ghost use Rattle.lf_texts.specs.Kinds.{first_kind, kind_named, first_range, kind_of};
ghost use Rattle.lf_texts.specs.Reading.{Says, read_by};

use crate::TextError;
use crate::fronts::past;
use lf_grammar::{Sign, Token};
use lf_rules::{Kind, Variable};

/// The greatest value of a step.
const LAST_STEP: u8 = 48;

/// The kind that comes first, and the tokens behind it: one of the language, or that of a variable by its name.
#[tactic(auto, unfolding(crate::specs::Kinds::first_kind))]
pub(crate) fn first_kind<'t>(
    variables: &[Variable],
    tokens: &'t [Token],
) -> Result<(Kind, &'t [Token]), TextError>
    ensures { Says read_by (first_kind variables.now tokens.now) result }
{
    match tokens.split_first() {
        Some((Token::Word(word), rest)) => match kind_named(word.as_str()) {
            Some(kind) => Ok((kind, rest)),
            None => Ok((kind_of(variables, word.as_str())?, rest)),
        },
        _ => first_range(tokens),
    }
}

/// The kind that a word of the language stands for.
pub(crate) fn kind_named(word: &str) -> Option<Kind>
    ensures { result ≡ kind_named word.now }
{
    match word {
        "flag" => Some(Kind::Flag),
        "nodes" => Some(Kind::Nodes),
        "step" => Some(Kind::UpTo(LAST_STEP)),
        _ => None,
    }
}

/// The range that comes first, `0` and `..` and its greatest number, which isn't 0, and the tokens behind it.
#[tactic(auto, unfolding(crate::specs::Kinds::first_range))]
pub(crate) fn first_range(tokens: &[Token]) -> Result<(Kind, &[Token]), TextError>
    ensures { Says read_by (first_range tokens.now) result }
{
    let (least, behind) = first_number(tokens)?;
    let last = past(behind, Sign::To)?;
    let (most, rest) = first_number(last)?;
    if least == 0 && most != 0 {
        Ok((Kind::UpTo(most), rest))
    } else {
        Err(TextError::Unfit)
    }
}

/// The number that comes first, and the tokens behind it.
pub(crate) fn first_number(tokens: &[Token]) -> Result<(u8, &[Token]), TextError>
    ensures { Says read_by (first_number tokens.now) result }
{
    match tokens.split_first() {
        Some((Token::Number(number), rest)) => Ok((*number, rest)),
        _ => Err(TextError::Unfit),
    }
}

/// The kind of the variable with a name.
fn kind_of(variables: &[Variable], word: &str) -> Result<Kind, TextError>
    ensures { result ≡ kind_of word.now variables.now }
{
    for variable in variables {
        if variable.name.as_str() == word {
            return Ok(variable.kind);
        }
    }
    Err(TextError::Unfit)
}
