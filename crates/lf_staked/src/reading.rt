//! What is counted of each part of the promise of a scenario's outcome.

ghost use Rattle.std.specs.Prelude.{◌≡◌, ◌++◌, ◌+◌, ◌<◌, ◌^◌, IfOk, IsOk, Ok};
ghost use Rattle.std.specs.Option.{option_to_list};
ghost use Rattle.toml.specs.View.{table_view, view};
ghost use Rattle.lf_scenario.specs.Values.{required};
ghost use Rattle.lf_sim.specs.Settings.{world_of};
ghost use Rattle.lf_protocol_file.specs.Files.{IsText};
ghost use Rattle.lf_own_scenario.specs.Outcomes.{scene_of};
ghost use Rattle.lf_own_scenario.specs.Scenarios.{IsTextWith, asked_with};
ghost use Rattle.lf_own_scenario.specs.Values.{Gives};
ghost use Rattle.lf_staked.specs.Stakes.{AreStakes, outcome_stakes, said_stakes, stake_of, stakes_in};

use crate::counting::{Runs, stake_of};
use crate::promise::{Told, promise};
use lf_doubt::Stake;
use lf_faults::{FaultSet, FaultSpec};
use lf_outcome::Scenario;
use lf_own_scenario::{Chosen, Scene, chosen_in};
use lf_parts::{Part, parts};
use lf_promises::Promise;
use lf_protocol_file::ProtocolFile;
use lf_protocols::Protocol;
use lf_rule_machine::given_table;
use lf_rules::Given;
use lf_scenario::{Key, ScenarioError, at};
use lf_sim::Setting;
use std::alloc::{AllocError, Global};
use toml::{Table, Value};

/// What is counted of each part of the promise of a scenario's outcome, in order, in the runs of these sets, of which the first is the empty one.
///
/// Of a part that no node or at most one shows a fact: in how many runs some node of those shows it at some step. Of one value: in how many runs
/// something is entered under its topic. Of a part that each or some node or one node shows a fact: whether it is so in the run of the first set alone. A
/// part whose question is too large as a formula is left out, and an outcome that is a list has no parts. The error is that memory has run out.
pub fn stakes(
    alloc: Global,
    protocol: &[u8],
    file: &ProtocolFile,
    text: &[u8],
    scenario: &Scenario,
    sets: &[FaultSet],
) -> Result<Vec<Stake>, AllocError>
    requires is_file { IsText file.now protocol.now }
    requires is_scenario { IsTextWith file.now scenario.now text.now }
    ensures { IfOk result (λ stakes. AreStakes file.now text.now scenario.now sets.now stakes.items) }
{
    match toml::table_from_slice(alloc, text) {
        Ok(table) => said_by(alloc, protocol, file, &table, scenario.setting(), sets),
        Err(error) if error.is_memory() => Err(AllocError),
        Err(_) => unreachable!(),
    }
}

/// The same, of the scenario that a table says.
fn said_by(
    alloc: Global,
    protocol: &[u8],
    file: &ProtocolFile,
    table: &Table,
    setting: &Setting<Protocol>,
    sets: &[FaultSet],
) -> Result<Vec<Stake>, AllocError>
    requires is_file { IsText file.now protocol.now }
    requires is_read { IsOk (asked_with file.now (table_view table.now)) }
    ensures { IfOk result (λ stakes. stakes_in (world_of setting.now) file.now sets.now (table_view table.now) ≡ Ok stakes.items) }
{
    match stakes_in(alloc, protocol, file, table, setting, sets) {
        Ok(stakes) => Ok(stakes),
        Err(ScenarioError::Memory) => Err(AllocError),
        Err(_) => unreachable!(),
    }
}

/// The same, of the scenario that a table says, if it says one. The refusal `Memory` comes only where memory has run out.
#[tactic(auto, unfolding(crate::specs::Stakes::stakes_in))]
fn stakes_in(
    alloc: Global,
    protocol: &[u8],
    file: &ProtocolFile,
    table: &Table,
    setting: &Setting<Protocol>,
    sets: &[FaultSet],
) -> Result<Vec<Stake>, ScenarioError>
    requires { IsText file.now protocol.now }
    ensures { Gives (λ stakes. stakes.items) (stakes_in (world_of setting.now) file.now sets.now (table_view table.now)) result }
{
    let Chosen { described, given } = chosen_in(alloc, table, file)?;
    let told = Told {
        text: protocol,
        file,
        given: given.as_slice(),
    };
    let runs = Runs {
        setting,
        scene: scene_of(&described.bounds, given.as_slice()),
        sets,
    };
    match at(table, Key::Outcome.name()) {
        Some(value) => outcome_stakes(alloc, &told, &runs, value),
        None => Err(ScenarioError::Missing(Key::Outcome)),
    }
}

/// What the formulas of promises depend on.
fn scene_of(bounds: &FaultSpec, given: &[Given]) -> Scene
    ensures { result ≡ scene_of bounds.now given.now }
{
    let nodes = bounds.nodes();
    Scene {
        nodes,
        horizon: bounds.horizon(),
        given: given_table(nodes, given),
    }
}

/// The same, of an outcome: where it is no text, it has no parts.
fn outcome_stakes(
    alloc: Global,
    told: &Told<'_>,
    runs: &Runs<'_>,
    value: &Value,
) -> Result<Vec<Stake>, ScenarioError>
    requires { IsText told.now.file.now told.now.text.now }
    ensures { Gives (λ stakes. stakes.items)
        (outcome_stakes (world_of runs.now.setting.now) runs.now.scene runs.now.sets.now told.now.file.now told.now.given.now (view value.now)) result }
{
    match value {
        Value::String(words) => said_stakes(alloc, told, runs, words.as_str()),
        _ => Ok(Vec::new(alloc)),
    }
}

/// The same, of the promise that words say. Each part takes the promise apart, so it is read anew for each.
#[tactic(auto, unfolding(crate::specs::Stakes::said_stakes))]
fn said_stakes(
    alloc: Global,
    told: &Told<'_>,
    runs: &Runs<'_>,
    words: &str,
) -> Result<Vec<Stake>, ScenarioError>
    requires { IsText told.now.file.now told.now.text.now }
    ensures { Gives (λ stakes. stakes.items)
        (said_stakes (world_of runs.now.setting.now) runs.now.scene runs.now.sets.now told.now.file.now told.now.given.now words.now) result }
{
    let whole = promise(alloc, told, words)?;
    let Ok(parts) = parts(alloc, &whole) else {
        return Err(ScenarioError::Memory);
    };
    let mut stakes = Vec::new(alloc);
    'places: for place in 0..parts.len() {
        let again = promise(alloc, told, words)?;
        let put = put_stake(alloc, runs, again, place, parts[place], &mut stakes);
        if put.is_err() {
            return Err(ScenarioError::Memory);
        }
    }
    Ok(stakes)
}

/// Puts what is counted of a part behind others, if there is something.
fn put_stake(
    alloc: Global,
    runs: &Runs<'_>,
    promise: Promise,
    place: usize,
    part: Part,
    stakes: &mut Vec<Stake>,
) -> Result<(), AllocError>
    requires { place + 1 < 2 ^ 64 }
    ensures { IfOk result (λ _. stakes.new.items ≡ stakes.old.items
        ++ option_to_list (stake_of (world_of runs.now.setting.now) runs.now.scene runs.now.sets.now promise place part)) }
{
    if let Some(stake) = stake_of(alloc, runs, promise, place, part)? {
        stakes.push(stake)?;
    }
    Ok(())
}
