//! The reader of scenarios.

ghost use Rattle.std.specs.Prelude.{◌≡◌, ◌≢◌, ◌<◌, ◌≤◌, length, MatchResult, IsErrAnd};
ghost use Rattle.toml.specs.Data.{Members};
ghost use Rattle.toml.specs.View.{table_view};
ghost use Rattle.lf_latency.specs.Links.{IsLinks};
ghost use Rattle.lf_protocols.specs.Protocols.{nodes_of};
ghost use Rattle.lf_outcome.specs.Formulas.{IsFormulaOf};
ghost use Rattle.lf_scenario.specs.Limits.{longest};
ghost use Rattle.lf_scenario.specs.Ranges.{IsInRange};
ghost use Rattle.lf_scenario.specs.Scenarios.{IsDocument, IsScenario, IsAskedBy, IsRefused, IsText, asked_in};

use crate::ScenarioError;
use crate::limits::LONGEST;
use crate::links::{Usual, all_links};
use crate::outcomes::read_formula;
use crate::reading::{Delays, Described, described_in};
use lf_faults::FaultSpec;
use lf_latency::{Links, Network};
use lf_outcome::{Formula, Scenario};
use lf_protocols::{Fact, Protocol};
use lf_sim::Setting;
use std::alloc::Global;
use toml::Table;

/// The scenario of a text, or why it is none.
///
/// A text that is longer than `LONGEST` bytes is refused first, and then one that is no TOML document. What a table says
/// is `asked_in`. The refusal `Memory` comes only where memory has run out.
pub fn read(alloc: Global, text: &[u8]) -> Result<Scenario, ScenarioError>
    ensures too_long { longest < length text.now → result ≡ Err ScenarioError.TooLong }
    ensures no_document { length text.now ≤ longest → ((ms : Members) → IsDocument text.now ms → ⊥) →
        IsErrAnd result (λ e. e ≢ ScenarioError.Memory → e ≡ ScenarioError.NoDocument) }
    ensures document { length text.now ≤ longest → (ms : Members) → IsDocument text.now ms →
        MatchResult result (IsAskedBy ms) (λ e. e ≢ ScenarioError.Memory → asked_in ms ≡ Err e) }
    ensures reading { MatchResult result (λ s. IsText s text.now) (λ e. e ≢ ScenarioError.Memory → IsRefused text.now e) }
{
    if text.len() > LONGEST {
        return Err(ScenarioError::TooLong);
    }
    match toml::table_from_slice(alloc, text) {
        Ok(table) => read_table(alloc, &table),
        Err(e) if e.is_memory() => Err(ScenarioError::Memory),
        Err(_) => Err(ScenarioError::NoDocument),
    }
}

/// The scenario of a table.
#[tactic(auto, unfolding(crate::specs::Scenarios::asked_in))]
fn read_table(alloc: Global, table: &Table) -> Result<Scenario, ScenarioError>
    ensures { MatchResult result (IsAskedBy (table_view table.now))
        (λ e. e ≢ ScenarioError.Memory → asked_in (table_view table.now) ≡ Err e) }
{
    let described = described_in(table)?;
    let formula = read_formula(alloc, table, &described)?;
    let Delays { least, spread, .. } = described.delays;
    let nodes = described.bounds.nodes();
    let usual = Usual {
        nodes,
        least,
        spread,
    };
    let links = all_links(alloc, table, usual)?;
    Ok(assembled(described, formula, links))
}

/// The scenario of what was read.
pub fn assembled(described: Described, formula: Formula<Fact>, links: Links) -> Scenario
    requires ranges { IsInRange described }
    requires formula { IsFormulaOf described.protocol described.bounds formula }
    requires links { IsLinks described.bounds.nodes links }
    ensures { IsScenario (record { described = described; formula = formula; links = links }) result }
{
    let bounds = described.bounds;
    let seed = described.delays.seed;
    let network = Network::new(seed, links, bounds.nodes(), bounds.horizon());
    Scenario::new(
        settled(described.protocol, network, bounds),
        formula,
        described.max_sets,
    )
}

/// The protocol on the network, with bounds on its faults, where the three agree.
fn settled(protocol: Protocol, network: Network, bounds: FaultSpec) -> Setting<Protocol>
    requires protocol { nodes_of protocol ≡ bounds.nodes }
    requires nodes { network.nodes ≡ bounds.nodes }
    requires horizon { network.horizon ≡ bounds.horizon }
    ensures { (result.machine ≡ protocol) × (result.network ≡ network) × (result.spec ≡ bounds) }
{
    Setting::new(protocol, network, bounds).unwrap()
}
