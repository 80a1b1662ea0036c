//! What a unit of a promise begins with.

ghost use Rattle.std.specs.Prelude.{◌≡◌, ◌<◌, ◌≤◌, length, IfSome, IfOk, MatchOption, Some, None};
ghost use Rattle.lf_promises.specs.Fronts.{behind_time, behind_many, behind_at_most_one, behind_one_value, first_node, first_named, first_fact, fact_of};
ghost use Rattle.lf_promises.specs.Readings.{Begins, Finds};

use crate::Many;
use lf_grammar::{Token, Unread, Why, behind_word, wrong};
use lf_naming::fact_named;
use lf_rule_machine::Fact;
use lf_rules::Definition;

/// Of which steps a unit speaks.
#[derive(Clone, Copy, Debug, PartialEq, Eq)]
pub(crate) enum Time {
    Always,
    Ever,
}

/// The word for the steps of which a unit speaks, and the tokens behind it.
#[tactic(auto, unfolding(crate::specs::Fronts::behind_time))]
pub(crate) fn behind_time(tokens: &[Token]) -> Option<(Time, &[Token])>
    ensures time { Begins (behind_time tokens.now) result }
    ensures shorter { IfSome result (λ r. length r.1.now < length tokens.now) }
{
    if let Some(after) = behind_word(tokens, "always") {
        return Some((Time::Always, after));
    }
    match behind_word(tokens, "ever") {
        Some(after) => Some((Time::Ever, after)),
        None => None,
    }
}

/// How many nodes are to show a fact, and the tokens behind the words for it.
#[tactic(auto, unfolding(crate::specs::Fronts::behind_many))]
pub(crate) fn behind_many(tokens: &[Token]) -> Option<(Many, &[Token])>
    ensures many { Begins (behind_many tokens.now) result }
    ensures shorter { IfSome result (λ r. length r.1.now < length tokens.now) }
{
    if let Some(after) = behind_word(tokens, "each") {
        return Some((Many::Each, after));
    }
    if let Some(after) = behind_word(tokens, "no") {
        return Some((Many::No, after));
    }
    if let Some(after) = behind_word(tokens, "some") {
        return Some((Many::Some, after));
    }
    match behind_at_most_one(tokens) {
        Some(after) => Some((Many::AtMostOne, after)),
        None => None,
    }
}

/// The tokens behind `at most one`.
#[tactic(auto, unfolding(crate::specs::Fronts::behind_at_most_one))]
fn behind_at_most_one(tokens: &[Token]) -> Option<&[Token]>
    ensures behind { MatchOption result (behind_at_most_one tokens.now ≡ None) (λ rest. behind_at_most_one tokens.now ≡ Some rest.now) }
    ensures shorter { IfSome result (λ rest. length rest.now < length tokens.now) }
{
    let most = behind_word(tokens, "at")?;
    let single = behind_word(most, "most")?;
    behind_word(single, "one")
}

/// The tokens behind `one value`.
#[tactic(auto, unfolding(crate::specs::Fronts::behind_one_value))]
pub(crate) fn behind_one_value(tokens: &[Token]) -> Option<&[Token]>
    ensures behind { MatchOption result (behind_one_value tokens.now ≡ None) (λ rest. behind_one_value tokens.now ≡ Some rest.now) }
    ensures shorter { IfSome result (λ rest. length rest.now < length tokens.now) }
{
    let value = behind_word(tokens, "one")?;
    behind_word(value, "value")
}

/// A node that a promise names, and the tokens behind its number.
#[tactic(auto, unfolding(crate::specs::Fronts::first_node))]
pub(crate) fn read_node(tokens: &[Token]) -> Result<(u32, &[Token]), Unread>
    ensures node { Finds (first_node tokens.now) result }
    ensures shorter { IfOk result (λ r. length r.1.now ≤ length tokens.now) }
{
    match tokens.split_first() {
        Some((Token::Number(number), rest)) if *number < 8 => Ok((u32::from(*number), rest)),
        _ => Err(wrong(Why::Node, tokens.len())),
    }
}

/// A fact, or the opposite of one behind `not`.
#[tactic(auto, unfolding(crate::specs::Fronts::first_fact))]
pub(crate) fn read_fact<'t>(
    definition: &Definition,
    tokens: &'t [Token],
) -> Result<(Fact, &'t [Token]), Unread>
    ensures fact { Finds (first_fact definition.now tokens.now) result }
    ensures shorter { IfOk result (λ r. length r.1.now ≤ length tokens.now) }
{
    match behind_word(tokens, "not") {
        Some(after) => {
            let (fact, rest) = read_named(definition, after)?;
            let denied = !fact.denied;
            Ok((Fact { denied, ..fact }, rest))
        }
        None => read_named(definition, tokens),
    }
}

/// The fact that a word names.
#[tactic(auto, unfolding(crate::specs::Fronts::first_named))]
fn read_named<'t>(
    definition: &Definition,
    tokens: &'t [Token],
) -> Result<(Fact, &'t [Token]), Unread>
    ensures fact { Finds (first_named definition.now tokens.now) result }
    ensures shorter { IfOk result (λ r. length r.1.now ≤ length tokens.now) }
{
    match tokens.split_first() {
        Some((Token::Word(word), rest)) => match fact_of(definition, word.as_str()) {
            Some(fact) => Ok((fact, rest)),
            None => Err(wrong(Why::Fact, tokens.len())),
        },
        _ => Err(wrong(Why::Fact, tokens.len())),
    }
}

/// The fact with a name.
#[tactic(auto, unfolding(crate::specs::Fronts::fact_of))]
fn fact_of(definition: &Definition, word: &str) -> Option<Fact>
    ensures { result ≡ fact_of definition.now word.now }
{
    fact_named(definition, word)
}
