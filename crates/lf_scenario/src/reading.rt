//! The reading of a table.

ghost use Rattle.std.specs.Prelude.{◌≡◌, ◌<◌, ◌≤◌, IfOk};
ghost use Rattle.lf_faults.specs.Allowed.{without_pauses};
ghost use Rattle.lf_protocols.specs.Limits.{IsWithinLimits};
ghost use Rattle.lf_protocols.specs.Protocols.{nodes_of};
ghost use Rattle.toml.specs.View.{view, table_view};
ghost use Rattle.lf_outcome.specs.Limits.{most_sets};
ghost use Rattle.lf_scenario.specs.Ranges.{AreDelays, IsInRange};
ghost use Rattle.lf_scenario.specs.Values.{required};
ghost use Rattle.lf_scenario.specs.Reading.{protocol_of, protocol_in, has_tries, has_patience, has_votes};
ghost use Rattle.lf_scenario.specs.Reading.{kind_of, bounds_in, max_sets_in, delays_in, kind_in, described_in};

use crate::limits::USUAL_SETS;
use crate::names::ProtocolName;
use crate::value::{at, known, optional_seed, optional_whole, owned_whole, required_whole};
use crate::votes::chosen_votes;
use crate::{Key, ScenarioError};
use lf_faults::FaultSpec;
use lf_outcome::MOST_SETS;
use lf_protocols::Protocol;
use toml::{Table, Value};

/// What decides when notes arrive, but for the links that have delays of their own.
#[derive(Clone, Copy, Debug, PartialEq, Eq)]
pub struct Delays {
    /// The key of the stream cipher that picks the delays of notes.
    pub seed: [u8; 32],
    /// The fewest steps that a note takes, 1..=16.
    pub least: u32,
    /// How many steps more it may take, 0..=15.
    pub spread: u32,
}

/// All that a scenario says but its outcome and its links.
#[derive(Debug, Drop)]
pub struct Described {
    pub bounds: FaultSpec,
    /// The most sets of faults of one size that the search keeps, 1..=`MOST_SETS`.
    pub max_sets: u32,
    pub delays: Delays,
    pub protocol: Protocol,
}

/// Nodes, steps, and bounds on faults, of a table. The first key that is missing, of the wrong kind or out of range is refused, in the order of `Key`.
#[tactic(auto, unfolding(crate::specs::Reading::bounds_in))]
pub fn bounds_in(table: &Table) -> Result<FaultSpec, ScenarioError>
    ensures { result ≡ bounds_in (table_view table.now) }
{
    let nodes = required_whole(table, Key::Nodes, 2, 8)?;
    let horizon = required_whole(table, Key::Horizon, 1, 48)?;
    let last_omission = required_whole(table, Key::LastOmission, 0, horizon - 1)?;
    let crashes = required_whole(table, Key::Crashes, 0, nodes)?;
    let budget = required_whole(table, Key::Budget, 0, 6)?;
    let pauses = optional_whole(table, Key::Pauses, 0, nodes, 0)?;
    let pause_length = optional_whole(table, Key::PauseLength, 1, 8, 1)?;
    let bounds = without_pauses(nodes, horizon, last_omission, crashes, budget);
    Ok(bounds.with_pauses(pauses, pause_length).unwrap())
}

/// The bounds with no pauses.
fn without_pauses(
    nodes: u32,
    horizon: u32,
    last_omission: u32,
    crashes: u32,
    budget: u32,
) -> FaultSpec
    requires nodes { (2 ≤ nodes) × (nodes ≤ 8) }
    requires horizon { (1 ≤ horizon) × (horizon ≤ 48) }
    requires last_omission { last_omission < horizon }
    requires crashes { crashes ≤ nodes }
    requires budget { budget ≤ 6 }
    ensures { result ≡ without_pauses nodes horizon last_omission crashes budget }
{
    FaultSpec::new(nodes, horizon, last_omission, crashes, budget).unwrap()
}

/// What decides when notes arrive, but for the links that have delays of their own.
#[tactic(auto, unfolding(crate::specs::Reading::delays_in))]
pub fn delays_in(table: &Table) -> Result<Delays, ScenarioError>
    ensures value { result ≡ delays_in (table_view table.now) }
    ensures within { IfOk result AreDelays }
{
    let seed = optional_seed(table)?;
    let least = optional_whole(table, Key::Least, 1, 16, 1)?;
    let spread = optional_whole(table, Key::Spread, 0, 15, 0)?;
    Ok(Delays {
        seed,
        least,
        spread,
    })
}

/// The most sets of faults of one size that the search keeps.
pub fn max_sets_in(table: &Table) -> Result<u32, ScenarioError>
    ensures value { result ≡ max_sets_in (table_view table.now) }
    ensures within { IfOk result (λ n. (1 ≤ n) × (n ≤ most_sets)) }
{
    optional_whole(table, Key::MaxSets, 1, MOST_SETS, USUAL_SETS)
}

/// The protocol of this name. One with a backup needs three nodes.
fn protocol_of(name: &str, nodes: u32) -> Result<ProtocolName, ScenarioError>
    ensures value { result ≡ protocol_of nodes name.now }
    ensures enough { IfOk result (λ p. p ≡ ProtocolName.PrimaryBackup → 3 ≤ nodes) }
{
    if name == "retry" {
        Ok(ProtocolName::Retry)
    } else if name == "redundant" {
        Ok(ProtocolName::Redundant)
    } else if name == "two_phase" {
        Ok(ProtocolName::TwoPhase)
    } else if name == "three_phase" {
        Ok(ProtocolName::ThreePhase)
    } else if name == "primary_backup" && nodes >= 3 {
        Ok(ProtocolName::PrimaryBackup)
    } else {
        Err(ScenarioError::Protocol)
    }
}

/// The protocol that a value names.
fn protocol_in(value: &Value, key: Key, nodes: u32) -> Result<ProtocolName, ScenarioError>
    ensures value { result ≡ protocol_in nodes key (view value.now) }
    ensures enough { IfOk result (λ p. p ≡ ProtocolName.PrimaryBackup → 3 ≤ nodes) }
{
    match value {
        Value::String(text) => protocol_of(text.as_str(), nodes),
        _ => Err(ScenarioError::WrongKind(key)),
    }
}

/// The protocol's name of the table.
#[tactic(auto, unfolding(crate::specs::Values::required))]
fn required_protocol(table: &Table, nodes: u32) -> Result<ProtocolName, ScenarioError>
    ensures value { result ≡ required (table_view table.now) Key.Protocol (protocol_in nodes) }
    ensures enough { IfOk result (λ p. p ≡ ProtocolName.PrimaryBackup → 3 ≤ nodes) }
{
    match at(table, Key::Protocol.name()) {
        Some(value) => protocol_in(value, Key::Protocol, nodes),
        None => Err(ScenarioError::Missing(Key::Protocol)),
    }
}

/// Whether the protocol has the key `tries`.
fn has_tries(name: ProtocolName) -> bool
    ensures { result ≡ has_tries name }
{
    match name {
        ProtocolName::Retry | ProtocolName::Redundant => true,
        ProtocolName::TwoPhase | ProtocolName::ThreePhase | ProtocolName::PrimaryBackup => false,
    }
}

/// Whether the protocol has the key `patience`.
fn has_patience(name: ProtocolName) -> bool
    ensures { result ≡ has_patience name }
{
    match name {
        ProtocolName::Retry | ProtocolName::Redundant => false,
        ProtocolName::TwoPhase | ProtocolName::ThreePhase | ProtocolName::PrimaryBackup => true,
    }
}

/// Whether the protocol has the key `votes`.
fn has_votes(name: ProtocolName) -> bool
    ensures { result ≡ has_votes name }
{
    match name {
        ProtocolName::TwoPhase | ProtocolName::ThreePhase => true,
        ProtocolName::Retry | ProtocolName::Redundant | ProtocolName::PrimaryBackup => false,
    }
}

/// The protocol with its settings.
fn kind_of(name: ProtocolName, nodes: u32, tries: u32, patience: u32, votes: [bool; 8]) -> Protocol
    requires { IsWithinLimits (kind_of name nodes tries patience votes) }
    ensures value { result ≡ kind_of name nodes tries patience votes }
    ensures nodes { nodes_of result ≡ nodes }
    ensures within { IsWithinLimits result }
{
    match name {
        ProtocolName::Retry => Protocol::retry(nodes, tries).unwrap(),
        ProtocolName::Redundant => Protocol::redundant(nodes, tries).unwrap(),
        ProtocolName::TwoPhase => Protocol::two_phase(nodes, patience, votes).unwrap(),
        ProtocolName::ThreePhase => Protocol::three_phase(nodes, patience, votes).unwrap(),
        ProtocolName::PrimaryBackup => Protocol::primary_backup(nodes, patience).unwrap(),
    }
}

/// The protocol among so many nodes.
#[tactic(auto, unfolding(crate::specs::Reading::kind_in))]
fn kind_in(table: &Table, nodes: u32) -> Result<Protocol, ScenarioError>
    requires { (2 ≤ nodes) × (nodes ≤ 8) }
    ensures value { result ≡ kind_in nodes (table_view table.now) }
    ensures nodes { IfOk result (λ protocol. nodes_of protocol ≡ nodes) }
    ensures within { IfOk result IsWithinLimits }
{
    let name = required_protocol(table, nodes)?;
    let tries = owned_whole(table, Key::Tries, has_tries(name), 1, 48)?;
    let patience = owned_whole(table, Key::Patience, has_patience(name), 1, 48)?;
    let votes = chosen_votes(table, has_votes(name), nodes)?;
    Ok(kind_of(name, nodes, tries, patience, votes))
}

/// All that a scenario says but its outcome and its links.
#[tactic(auto, unfolding(crate::specs::Reading::described_in))]
pub(crate) fn described_in(table: &Table) -> Result<Described, ScenarioError>
    ensures value { result ≡ described_in (table_view table.now) }
    ensures within { IfOk result IsInRange }
{
    known(table)?;
    let bounds = bounds_in(table)?;
    let max_sets = max_sets_in(table)?;
    let delays = delays_in(table)?;
    let protocol = kind_in(table, bounds.nodes())?;
    Ok(Described {
        bounds,
        max_sets,
        delays,
        protocol,
    })
}
