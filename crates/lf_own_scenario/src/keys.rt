//! The keys of such a scenario, but for its constants and its outcome.

ghost use Rattle.std.specs.Prelude.{◌≡◌, ◌≤◌, IfOk};
ghost use Rattle.toml.specs.View.{view, table_view};
ghost use Rattle.lf_outcome.specs.Limits.{most_sets};
ghost use Rattle.lf_scenario.specs.Ranges.{AreDelays};
ghost use Rattle.lf_scenario.specs.Values.{required};
ghost use Rattle.lf_own_scenario.specs.Keys.{is_known, known, bounded_in, named, settled_in};

use lf_faults::FaultSpec;
use lf_scenario::{
    Delays, Key, ScenarioError, absent, at, bounds_in, delays_in, is_key, max_sets_in,
};
use toml::{Table, Value};

/// What a scenario says whatever its protocol.
pub(crate) struct Bounded {
    pub bounds: FaultSpec,
    pub max_sets: u32,
    pub delays: Delays,
}

/// Whether a text is a key of such a scenario.
fn is_known(name: &str) -> bool
    ensures { result ≡ is_known name.now }
{
    is_key(name) || name == Key::Given.name()
}

/// Refuses a table with a key that such scenarios don't have.
#[tactic(auto, unfolding(crate::specs::Keys::known))]
fn known(table: &Table) -> Result<(), ScenarioError>
    ensures { result ≡ known (table_view table.now) }
{
    'members: for (name, _value) in table.iter() {
        if !is_known(name.as_str()) {
            return Err(ScenarioError::UnknownKey);
        }
    }
    Ok(())
}

/// What a scenario says whatever its protocol, where each key is one of a scenario's.
#[tactic(auto, unfolding(crate::specs::Keys::bounded_in))]
pub(crate) fn bounded_in(table: &Table) -> Result<Bounded, ScenarioError>
    ensures value { result ≡ bounded_in (table_view table.now) }
    ensures delays { IfOk result (λ x. AreDelays x.delays) }
    ensures sets { IfOk result (λ x. (1 ≤ x.max_sets) × (x.max_sets ≤ most_sets)) }
{
    known(table)?;
    let bounds = bounds_in(table)?;
    let max_sets = max_sets_in(table)?;
    let delays = delays_in(table)?;
    Ok(Bounded {
        bounds,
        max_sets,
        delays,
    })
}

/// Refuses another name than the protocol's.
fn named(name: &str, value: &Value) -> Result<(), ScenarioError>
    ensures { result ≡ named name.now Key.Protocol (view value.now) }
{
    match value {
        Value::String(text) => {
            if text.as_str() == name {
                Ok(())
            } else {
                Err(ScenarioError::Protocol)
            }
        }
        _ => Err(ScenarioError::WrongKind(Key::Protocol)),
    }
}

/// Refuses a table that doesn't name the protocol.
#[tactic(auto, unfolding(lf_scenario::specs::Values::required))]
fn named_in(table: &Table, name: &str) -> Result<(), ScenarioError>
    ensures { result ≡ required (table_view table.now) Key.Protocol (named name.now) }
{
    match at(table, Key::Protocol.name()) {
        Some(value) => named(name, value),
        None => Err(ScenarioError::Missing(Key::Protocol)),
    }
}

/// Refuses a table that doesn't name the protocol, or has keys of shipped protocols.
#[tactic(auto, unfolding(crate::specs::Keys::settled_in))]
pub(crate) fn settled_in(table: &Table, name: &str) -> Result<(), ScenarioError>
    ensures { result ≡ settled_in name.now (table_view table.now) }
{
    named_in(table, name)?;
    absent(table, Key::Tries)?;
    absent(table, Key::Patience)?;
    absent(table, Key::Votes)
}
