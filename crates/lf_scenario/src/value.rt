//! Readers of one value.

ghost use Rattle.std.specs.Prelude.{◌≡◌, ◌≤◌, true, option_map, replicate, IfOk};
ghost use Rattle.toml.specs.Data.{get_member};
ghost use Rattle.toml.specs.View.{view, table_view};
ghost use Rattle.lf_scenario.specs.Values.{whole, seed_in, required, optional, foreign, owned, known};

use crate::key::is_key;
use crate::{Key, ScenarioError};
use hex::FromHex;
use toml::{Table, Value};

/// The value at a key of a table, if there is one.
pub fn at<'a>(table: &'a Table, key: &str) -> Option<&'a Value>
    ensures { option_map (λ v. view v.now) result ≡ get_member key.now (table_view table.now) }
{
    table.get(key)
}

/// A whole number from `low` to `high`.
pub(crate) fn whole(value: &Value, key: Key, low: u32, high: u32) -> Result<u32, ScenarioError>
    ensures value { result ≡ whole low high key (view value.now) }
    ensures within { IfOk result (λ n. (low ≤ n) × (n ≤ high)) }
{
    match value {
        Value::Integer(number) => match u32::try_from(*number) {
            Ok(n) if low <= n && n <= high => Ok(n),
            _ => Err(ScenarioError::OutOfRange(key)),
        },
        _ => Err(ScenarioError::WrongKind(key)),
    }
}

/// 64 hexadecimal digits, as bytes.
fn seed_in(value: &Value) -> Result<[u8; 32], ScenarioError>
    ensures { result ≡ seed_in Key.Seed (view value.now) }
{
    match value {
        Value::String(text) => match <[u8; 32] as FromHex>::from_hex(text.as_str()) {
            Ok(bytes) => Ok(bytes),
            Err(_) => Err(ScenarioError::Seed),
        },
        _ => Err(ScenarioError::WrongKind(Key::Seed)),
    }
}

/// The whole number of a key that has to be there.
#[tactic(auto, unfolding(crate::specs::Values::required))]
pub(crate) fn required_whole(
    table: &Table,
    key: Key,
    low: u32,
    high: u32,
) -> Result<u32, ScenarioError>
    ensures value { result ≡ required (table_view table.now) key (whole low high) }
    ensures within { IfOk result (λ n. (low ≤ n) × (n ≤ high)) }
{
    match at(table, key.name()) {
        Some(value) => whole(value, key, low, high),
        None => Err(ScenarioError::Missing(key)),
    }
}

/// The whole number of a key that may be missing.
#[tactic(auto, unfolding(crate::specs::Values::optional))]
pub(crate) fn optional_whole(
    table: &Table,
    key: Key,
    low: u32,
    high: u32,
    default: u32,
) -> Result<u32, ScenarioError>
    requires { (low ≤ default) × (default ≤ high) }
    ensures value { result ≡ optional (table_view table.now) key (whole low high) default }
    ensures within { IfOk result (λ n. (low ≤ n) × (n ≤ high)) }
{
    match at(table, key.name()) {
        Some(value) => whole(value, key, low, high),
        None => Ok(default),
    }
}

/// The seed, which is of zeros where it is missing.
#[tactic(auto, unfolding(crate::specs::Values::optional))]
pub(crate) fn optional_seed(table: &Table) -> Result<[u8; 32], ScenarioError>
    ensures { result ≡ optional (table_view table.now) Key.Seed seed_in (replicate 32 0) }
{
    match at(table, Key::Seed.name()) {
        Some(value) => seed_in(value),
        None => Ok([0; 32]),
    }
}

/// Refuses a key that this protocol doesn't have.
#[tactic(auto, unfolding(crate::specs::Values::foreign))]
pub fn absent(table: &Table, key: Key) -> Result<(), ScenarioError>
    ensures { result ≡ foreign (table_view table.now) key tt }
{
    match at(table, key.name()) {
        Some(_) => Err(ScenarioError::OtherProtocol(key)),
        None => Ok(()),
    }
}

/// The whole number of a key of some protocols, and 0 where this protocol doesn't have it.
#[tactic(auto, unfolding(crate::specs::Values::foreign))]
pub(crate) fn owned_whole(
    table: &Table,
    key: Key,
    has: bool,
    low: u32,
    high: u32,
) -> Result<u32, ScenarioError>
    ensures value { result ≡ owned has (table_view table.now) key (whole low high) 0 }
    ensures within { IfOk result (λ n. has ≡ true → (low ≤ n) × (n ≤ high)) }
{
    if has {
        return required_whole(table, key, low, high);
    }
    absent(table, key)?;
    Ok(0)
}

/// Refuses a table with a key that scenarios don't have.
#[tactic(auto, unfolding(crate::specs::Values::known))]
pub(crate) fn known(table: &Table) -> Result<(), ScenarioError>
    ensures { result ≡ known (table_view table.now) }
{
    'members: for (name, _value) in table.iter() {
        if !is_key(name.as_str()) {
            return Err(ScenarioError::UnknownKey);
        }
    }
    Ok(())
}
