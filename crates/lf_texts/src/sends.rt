//! What rules send.

ghost use Rattle.std.specs.Prelude.{◌≡◌, ◌≤◌, [], length, IfOk, Ok, Err};
ghost use Rattle.lf_rules.specs.Kinds.{sort_of};
ghost use Rattle.lf_grammar.specs.Places.{context_of};
ghost use Rattle.lf_texts.specs.Lists.{bracketed, listed};
ghost use Rattle.lf_texts.specs.Reading.{Gives, read_by};
ghost use Rattle.lf_texts.specs.Sends.{first_receivers, sent, first_send, sends_in};
ghost use Rattle.lf_texts.specs.Values.{with_it, first_of_sort};

use crate::TextError;
use crate::forms::form_named;
use crate::fronts::{ended, first_word, past_word};
use crate::lists::{closed, opened, put};
use crate::values::{first_nodes, first_of_sort, with_it};
use lf_grammar::{Place, Sign, Token, behind_sign};
use lf_list::Listed;
use lf_rules::{Expr, Kind, Send, Within, have_it};
use std::alloc::Global;

/// The most notes that a rule sends.
const MOST_SENDS: u8 = 8;

/// Reads a text that says what a rule sends: at most 8 notes with commas between, each by its name, with a value for each of its fields in brackets, and no
/// brackets where it has none, and then `to` and a set of nodes. In the values `it` is the receiver.
#[tactic(auto, unfolding(crate::specs::Sends::sends_in))]
pub fn read_sends(
    alloc: Global,
    place: &Place<'_>,
    tokens: &[Token],
) -> Result<Vec<Send>, TextError>
    ensures read { Gives (λ sends. sends.items) (sends_in (context_of place.now) tokens.now) result }
    ensures few { IfOk result (λ sends. length sends.items ≤ 8) }
{
    let (sends, rest) = listed_sends(alloc, place, tokens)?;
    ended(rest)?;
    Ok(sends)
}

/// The notes that are sent first, and the tokens behind them.
#[tactic(auto, using(crate::proofs::ListLemmas::rows))]
fn listed_sends<'t>(
    alloc: Global,
    place: &Place<'_>,
    tokens: &'t [Token],
) -> Result<(Vec<Send>, &'t [Token]), TextError>
    ensures { Gives (λ r. record { value = r.0.items; rest = r.1.now })
        (listed (λ before. first_send (context_of place.now)) Sign.Comma 8 [] tokens.now) result }
{
    let mut sends = Vec::new(alloc);
    let mut rest = tokens;
    for _ in 0..MOST_SENDS {
        let (send, after) = first_send(alloc, place, rest)?;
        put(&mut sends, send)?;
        match behind_sign(after, Sign::Comma) {
            Some(next) => rest = next,
            None => return Ok((sends, after)),
        }
    }
    Err(TextError::PastLimit)
}

/// The note that is sent first, and the tokens behind it.
#[tactic(auto, unfolding(crate::specs::Sends::first_send))]
fn first_send<'t>(
    alloc: Global,
    place: &Place<'_>,
    tokens: &'t [Token],
) -> Result<(Send, &'t [Token]), TextError>
    ensures { Gives read_by (first_send (context_of place.now) tokens.now) result }
{
    let (word, behind) = first_word(tokens)?;
    let (form, kinds) = form_named(place.definition.notes.as_slice(), word.as_str())?;
    let (fields, after) = read_fields(alloc, place, kinds, behind)?;
    let (to, rest) = first_receivers(alloc, place, after)?;
    Ok((sent(form, fields, to), rest))
}

/// What is sent.
fn sent(form: u8, fields: Vec<Expr>, to: Expr) -> Send
    ensures { result ≡ sent form fields.items to }
{
    let each = have_it(fields.as_slice());
    Send {
        form,
        fields: Listed::from_vec(fields),
        to,
        each,
    }
}

/// The set of nodes that comes first behind `to`, and the tokens behind it.
#[tactic(auto, unfolding(crate::specs::Sends::first_receivers))]
fn first_receivers<'t>(
    alloc: Global,
    place: &Place<'_>,
    tokens: &'t [Token],
) -> Result<(Expr, &'t [Token]), TextError>
    ensures { Gives read_by (first_receivers (context_of place.now) tokens.now) result }
{
    let inner = past_word(tokens, "to")?;
    let outside = with_it(place, Within::Nothing);
    first_nodes(alloc, &outside, inner)
}

/// Reads a value for each field, in brackets, and nothing where there are no fields; and gives the tokens behind.
fn read_fields<'t>(
    alloc: Global,
    place: &Place<'_>,
    kinds: &[Kind],
    tokens: &'t [Token],
) -> Result<(Vec<Expr>, &'t [Token]), TextError>
    ensures { Gives (λ r. record { value = r.0.items; rest = r.1.now })
        (bracketed (λ kind before. first_of_sort (with_it Within.Receiver (context_of place.now)) (sort_of kind)) kinds.now [] tokens.now) result }
{
    let mut values = Vec::new(alloc);
    let mut rest = tokens;
    for kind in kinds {
        let inner = opened(values.as_slice(), rest)?;
        let (value, after) = first_value(alloc, place, *kind, inner)?;
        put(&mut values, value)?;
        rest = after;
    }
    let rest = closed(values.as_slice(), rest)?;
    Ok((values, rest))
}

/// The value of a field that comes first, in which `it` is the receiver, and the tokens behind it.
fn first_value<'t>(
    alloc: Global,
    place: &Place<'_>,
    kind: Kind,
    tokens: &'t [Token],
) -> Result<(Expr, &'t [Token]), TextError>
    ensures { Gives read_by (first_of_sort (with_it Within.Receiver (context_of place.now)) (sort_of kind) tokens.now) result }
{
    let receiving = with_it(place, Within::Receiver);
    first_of_sort(alloc, &receiving, kind.sort(), tokens)
}
