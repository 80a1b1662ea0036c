//! The reader of scenarios of protocol files.

ghost use Rattle.std.specs.Prelude.{◌≡◌, ◌≢◌, ◌<◌, ◌≤◌, true, IfOk, length, MatchResult, IsErrAnd, [], Ok, Err};
ghost use Rattle.toml.specs.Data.{Members};
ghost use Rattle.toml.specs.View.{table_view};
ghost use Rattle.lf_scenario.specs.Limits.{longest};
ghost use Rattle.lf_scenario.specs.Ranges.{IsInRange};
ghost use Rattle.lf_scenario.specs.Scenarios.{IsDocument};
ghost use Rattle.lf_rule_machine.specs.Machines.{is_machine};
ghost use Rattle.lf_own_scenario.specs.Machines.{kind_of, with_topics};
ghost use Rattle.lf_own_scenario.specs.Values.{Gives};
ghost use Rattle.lf_own_scenario.specs.Scenarios.{asking, chosen_in, asked_with, IsAskedWith, IsRefusedWith, IsTextWith};

use crate::constants::given_in;
use crate::keys::{Bounded, bounded_in, settled_in};
use crate::outcomes::{Demand, demand_in};
use lf_outcome::Scenario;
use lf_protocol_file::ProtocolFile;
use lf_protocols::{Kind, Protocol};
use lf_rule_machine::Ruled;
use lf_rules::{Given, Topics};
use lf_scenario::{Described, LONGEST, ScenarioError, Usual, all_links, assembled};
use std::alloc::Global;
use toml::Table;

/// The scenario of a text, where a protocol file is known beside the shipped protocols, or why it is none.
///
/// A text that is longer than `LONGEST` bytes is refused first, and then one that is no TOML document. What a table says is `asked_with`. The refusal `Memory`
/// comes only where memory has run out.
pub fn read_with(alloc: Global, text: &[u8], file: &ProtocolFile) -> Result<Scenario, ScenarioError>
    ensures too_long { longest < length text.now → result ≡ Err ScenarioError.TooLong }
    ensures no_document { length text.now ≤ longest → ((ms : Members) → IsDocument text.now ms → ⊥) →
        IsErrAnd result (λ e. e ≢ ScenarioError.Memory → e ≡ ScenarioError.NoDocument) }
    ensures document { length text.now ≤ longest → (ms : Members) → IsDocument text.now ms →
        MatchResult result (IsAskedWith file.now ms) (λ e. e ≢ ScenarioError.Memory → asked_with file.now ms ≡ Err e) }
    ensures reading { MatchResult result (λ s. IsTextWith file.now s text.now) (λ e. e ≢ ScenarioError.Memory → IsRefusedWith file.now text.now e) }
{
    if text.len() > LONGEST {
        return Err(ScenarioError::TooLong);
    }
    match toml::table_from_slice(alloc, text) {
        Ok(table) => read_table(alloc, &table, file),
        Err(e) if e.is_memory() => Err(ScenarioError::Memory),
        Err(_) => Err(ScenarioError::NoDocument),
    }
}

/// What a scenario says but its outcome and its links, with the constants.
#[derive(Debug, Drop)]
pub struct Chosen {
    pub described: Described,
    /// The value of each of the protocol's constants, in order.
    pub given: Vec<Given>,
}

/// The scenario of a table.
#[tactic(auto, unfolding(crate::specs::Scenarios::asked_with))]
fn read_table(alloc: Global, table: &Table, file: &ProtocolFile) -> Result<Scenario, ScenarioError>
    ensures { MatchResult result (IsAskedWith file.now (table_view table.now))
        (λ e. e ≢ ScenarioError.Memory → asked_with file.now (table_view table.now) ≡ Err e) }
{
    let Chosen { described, given } = chosen_in(alloc, table, file)?;
    let Demand { formula, topics } = demand_in(alloc, table, file, given.as_slice(), &described)?;
    let usual = Usual {
        nodes: described.bounds.nodes(),
        least: described.delays.least,
        spread: described.delays.spread,
    };
    let links = all_links(alloc, table, usual)?;
    let described = asking(alloc, described, topics)?;
    Ok(assembled(described, formula, links))
}

/// The same, where the nodes of a protocol of rules enter what these topics say.
fn asking(alloc: Global, described: Described, topics: Topics) -> Result<Described, ScenarioError>
    requires range { IsInRange described }
    ensures value { MatchResult result (λ x. x ≡ asking described topics) (λ e. e ≡ ScenarioError.Memory) }
    ensures range { IfOk result IsInRange }
{
    let Described {
        bounds,
        max_sets,
        delays,
        protocol,
    } = described;
    let protocol = with_topics(alloc, protocol, topics)?;
    Ok(Described {
        bounds,
        max_sets,
        delays,
        protocol,
    })
}

/// The protocol with these topics in place of its own, if it is one of rules.
fn with_topics(alloc: Global, protocol: Protocol, topics: Topics) -> Result<Protocol, ScenarioError>
    ensures { MatchResult result (λ made. made ≡ with_topics protocol topics) (λ e. e ≡ ScenarioError.Memory) }
{
    match protocol.kind() {
        Kind::Ruled(ruled) => match ruled.with_topics(alloc, topics) {
            Ok(ruled) => Ok(Protocol::ruled(ruled)),
            Err(_) => Err(ScenarioError::Memory),
        },
        _ => Ok(protocol),
    }
}

/// What a table says but the outcome and the links, or why it is none. The refusal `Memory` comes only where memory has run out.
#[tactic(auto, unfolding(crate::specs::Scenarios::chosen_in))]
pub fn chosen_in(alloc: Global, table: &Table, file: &ProtocolFile) -> Result<Chosen, ScenarioError>
    ensures value { Gives (λ x. record { described = x.described; given = x.given.items }) (chosen_in file.now (table_view table.now)) result }
    ensures range { IfOk result (λ x. IsInRange x.described) }
    ensures protocol { IfOk result (λ x. x.described.protocol ≡ kind_of file.now x.described.bounds.nodes x.given.items []) }
{
    let Bounded {
        bounds,
        max_sets,
        delays,
    } = bounded_in(table)?;
    settled_in(table, file.name())?;
    let nodes = bounds.nodes();
    let given = given_in(alloc, file, nodes, table)?;
    let protocol = kind_of(alloc, file, nodes, given.as_slice())?;
    let described = Described {
        bounds,
        max_sets,
        delays,
        protocol,
    };
    Ok(Chosen { described, given })
}

/// The protocol among so many nodes, with these values of its constants and no topics.
fn kind_of(
    alloc: Global,
    file: &ProtocolFile,
    nodes: u32,
    given: &[Given],
) -> Result<Protocol, ScenarioError>
    requires fitting { is_machine file.now.definition nodes given.now ≡ true }
    ensures { MatchResult result (λ protocol. protocol ≡ kind_of file.now nodes given.now []) (λ e. e ≡ ScenarioError.Memory) }
{
    let Ok(rules) = file.rules() else {
        return Err(ScenarioError::Memory);
    };
    match Ruled::new(alloc, rules, nodes, given) {
        Ok(Some(ruled)) => Ok(Protocol::ruled(ruled)),
        Ok(None) => unreachable!(),
        Err(_) => Err(ScenarioError::Memory),
    }
}
