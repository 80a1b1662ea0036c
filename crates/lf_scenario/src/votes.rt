//! The votes of a commit protocol.

ghost use Rattle.std.specs.Prelude.{◌≡◌, ◌≤◌, true, IfOk};
ghost use Rattle.toml.specs.View.{view, table_view, array_view};
ghost use Rattle.lf_scenario.specs.Ranges.{AreVotes};
ghost use Rattle.lf_scenario.specs.Values.{chosen};
ghost use Rattle.lf_scenario.specs.Votes.{all_agree, all_booleans, item_vote, vote_in, votes_in, votes_of};

use crate::value::at;
use crate::{Key, ScenarioError};
use toml::value::Array;
use toml::{Table, Value};

/// Whether each item is a truth value.
fn all_booleans(items: &Array) -> bool
    ensures { result ≡ all_booleans (array_view items.now) }
{
    'items: for value in items.iter() {
        match value {
            Value::Boolean(_) => {}
            _ => return false,
        }
    }
    true
}

/// A truth value, and true in place of anything else.
fn vote_in(value: &Value) -> bool
    ensures { result ≡ vote_in (view value.now) }
{
    match value {
        Value::Boolean(vote) => *vote,
        _ => true,
    }
}

/// The vote at a place among the items, and true where there is none.
fn item_vote(items: &Array, place: usize) -> bool
    ensures { result ≡ item_vote (array_view items.now) place }
{
    match items.get(place) {
        Some(value) => vote_in(value),
        None => true,
    }
}

/// At place n node n's vote, and true at every place of no participant.
fn votes_of(items: &Array) -> [bool; 8]
    ensures { result ≡ votes_of (array_view items.now) }
{
    [
        true,
        item_vote(items, 0),
        item_vote(items, 1),
        item_vote(items, 2),
        item_vote(items, 3),
        item_vote(items, 4),
        item_vote(items, 5),
        item_vote(items, 6),
    ]
}

/// The votes of a list with a truth value for each node but node 0.
fn votes_in(value: &Value, key: Key, nodes: u32) -> Result<[bool; 8], ScenarioError>
    requires { (2 ≤ nodes) × (nodes ≤ 8) }
    ensures value { result ≡ votes_in nodes key (view value.now) }
    ensures votes { IfOk result (AreVotes nodes) }
{
    match value {
        Value::Array(items) if all_booleans(items) => {
            if items.as_slice().len() + 1 == nodes as usize {
                Ok(votes_of(items))
            } else {
                Err(ScenarioError::OutOfRange(key))
            }
        }
        _ => Err(ScenarioError::WrongKind(key)),
    }
}

/// The votes of the table, where the protocol has votes, and else none that says no.
#[tactic(auto, unfolding(crate::specs::Values::foreign, crate::specs::Values::optional))]
pub(crate) fn chosen_votes(table: &Table, has: bool, nodes: u32) -> Result<[bool; 8], ScenarioError>
    requires { (2 ≤ nodes) × (nodes ≤ 8) }
    ensures value { result ≡ chosen has (table_view table.now) Key.Votes (votes_in nodes) all_agree }
    ensures votes { IfOk result (AreVotes nodes) }
{
    match at(table, Key::Votes.name()) {
        Some(value) if has => votes_in(value, Key::Votes, nodes),
        Some(_) => Err(ScenarioError::OtherProtocol(Key::Votes)),
        None => Ok([true; 8]),
    }
}
