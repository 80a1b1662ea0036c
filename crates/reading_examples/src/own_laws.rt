//! The laws of protocol files and of their scenarios, at texts that are read: each call cites a law, and has no premise left.

ghost use Rattle.std.specs.Prelude.{◌≡◌, ◌≢◌, true, codes, IfErr, IfOk, IfSome, IsTrue, Some};
ghost use Rattle.toml.specs.Data.{Members, string, get_member};
ghost use Rattle.toml.specs.View.{table_view};
ghost use Rattle.lf_protocol_file.specs.declared.error.ProtocolError.{ProtocolError};
ghost use Rattle.lf_own_scenario.specs.Kept.{IsPromised};
ghost use Rattle.lf_own_scenario.specs.Scenarios.{IsRefusedWith, IsTextWith};
ghost use Rattle.lf_protocol_file.specs.Files as files;
ghost use Rattle.lf_protocol_file.specs.Numbers.{AreNumbered};
ghost use Rattle.lf_outcome.specs.Sameness.{AreSame};
ghost use Rattle.lf_scenario.specs.Scenarios.{IsDocument};
ghost use Rattle.lf_scenario.specs.declared.error.ScenarioError.{ScenarioError};
ghost use Rattle.lf_outcome.specs.declared.scenario.Scenario.{Scenario};
ghost use Rattle.lf_protocol_file.specs.declared.declared.Declared.{Declared};
ghost use Rattle.lf_protocol_file.specs.Written.{is_whole};

use crate::build::agrees;
use lf_outcome::Scenario;
use lf_own_scenario::{outcomes_are_kept, read_with, scenarios_are_one};
use lf_protocol_file::{
    ProtocolError, ProtocolFile, at, files_are_one, files_are_whole, numbers_are_places,
    read_protocol,
};
use lf_scenario::ScenarioError;
use std::alloc::Global;
use toml::{Table, Value};

/// A protocol with two rules of one chain.
const FILE: &str = concat!(
    "name = \"relay\"\n",
    "given = { limit = 2 }\n",
    "state = { done = \"flag\" }\n",
    "notes = [\"GO\"]\n",
    "rules = [\n",
    "  { who = \"0\", on = \"begin\", when = \"t mod limit = 0\", send = \"GO to all\" },\n",
    "  { who = \"0\", on = \"begin\", when = \"else t = 1\", set = \"done = true\" },\n",
    "]\n",
    "outcomes = { fine = \"each done\" }\n",
);

/// A scenario of it, whose outcome is a promise.
const SCENARIO: &str = concat!(
    "nodes = 2\nhorizon = 2\nlast_omission = 1\ncrashes = 1\nbudget = 1\nprotocol = \"relay\"\n",
    "outcome = \"done at 0 or down 1\"\n",
);

/// The file of a text. What it says is whole, and its rules have the numbers of their places. A text that is refused has one refusal, and no file.
fn file_once(alloc: Global, text: &[u8]) -> Result<ProtocolFile, ProtocolError>
    ensures whole { IfOk result (λ file. is_whole file ≡ true) }
    ensures numbered { IfOk result (λ file. (ms : Members) × files.IsDocument text.now ms × AreNumbered ms file) }
    ensures one { IfErr result (λ e. e ≢ ProtocolError.Memory → (other : ProtocolError) → files.IsRefused text.now other → e ≡ other) }
    ensures none { IfErr result (λ e. e ≢ ProtocolError.Memory → (file : Declared) → ¬ (files.IsText file text.now)) }
{
    files_are_whole();
    numbers_are_places();
    lf_protocol_file::refusals_are_one();
    read_protocol(alloc, text)
}

/// The file of a text, read twice: both are one.
fn file_twice(alloc: Global, text: &[u8]) -> Result<(ProtocolFile, ProtocolFile), ProtocolError>
    ensures { IfOk result (λ both. both.0 ≡ both.1) }
{
    files_are_one();
    let one = read_protocol(alloc, text)?;
    let other = read_protocol(alloc, text)?;
    Ok((one, other))
}

/// The scenario of a text. One that is refused has one refusal, and no scenario.
fn scenario_once(alloc: Global, file: &ProtocolFile, text: &[u8]) -> Result<Scenario, ScenarioError>
    ensures one { IfErr result (λ e. e ≢ ScenarioError.Memory → (other : ScenarioError) → IsRefusedWith file.now text.now other → e ≡ other) }
    ensures none { IfErr result (λ e. e ≢ ScenarioError.Memory → (s : Scenario) → ¬ (IsTextWith file.now s text.now)) }
{
    lf_own_scenario::refusals_are_one();
    read_with(alloc, text, file)
}

/// The scenario of a text, read twice: both are the same.
fn scenario_twice(
    alloc: Global,
    file: &ProtocolFile,
    text: &[u8],
) -> Result<(Scenario, Scenario), ScenarioError>
    ensures { IfOk result (λ both. AreSame both.0 both.1) }
{
    scenarios_are_one();
    let one = read_with(alloc, text, file)?;
    let other = read_with(alloc, text, file)?;
    Ok((one, other))
}

/// Whether the outcome that a table says is this text.
fn has_outcome(table: &Table, words: &str) -> bool
    ensures { IsTrue result → get_member (codes "outcome") (table_view table.now) ≡ Some (string words.now) }
{
    match at(table, "outcome") {
        Some(Value::String(text)) => text.as_str() == words,
        _ => false,
    }
}

/// The scenario of a text whose members say these words as its outcome: its formula is true where the promise that they are is kept.
fn kept(
    alloc: Global,
    file: &ProtocolFile,
    text: &[u8],
    table: &Table,
    words: &str,
) -> Result<Scenario, ScenarioError>
    requires document { IsDocument text.now (table_view table.now) }
    requires outcome { get_member (codes "outcome") (table_view table.now) ≡ Some (string words.now) }
    ensures { IfOk result (IsPromised file.now (table_view table.now) words.now) }
{
    outcomes_are_kept();
    read_with(alloc, text, file)
}

/// Whether the scenario of a text has these words as its outcome, and is read.
fn is_kept(alloc: Global, file: &ProtocolFile, text: &[u8], words: &str) -> bool {
    match toml::table_from_slice(alloc, text) {
        Ok(table) => has_outcome(&table, words) && kept(alloc, file, text, &table, words).is_ok(),
        Err(_) => false,
    }
}

/// Whether the laws hold of scenarios of the file.
fn hold_of(alloc: Global, file: &ProtocolFile) -> bool {
    let text = SCENARIO.as_bytes();
    scenario_twice(alloc, file, text).is_ok()
        && scenario_once(alloc, file, b"nodes = 9\n").is_err()
        && is_kept(alloc, file, text, "done at 0 or down 1")
}

#[test]
fn laws_have_no_premise_left(rt: HostRuntime) {
    let alloc = rt.alloc();
    let holds = match file_once(alloc, FILE.as_bytes()) {
        Ok(file) => hold_of(alloc, &file),
        Err(_) => false,
    };
    agrees(&rt, holds, "a file");
    agrees(&rt, file_twice(alloc, FILE.as_bytes()).is_ok(), "a file");
    agrees(&rt, file_once(alloc, b"name = 1\n").is_err(), "a refusal");
}
