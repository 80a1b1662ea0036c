//! The outcome, in the protocol's words.

ghost use Rattle.std.specs.Prelude.{◌≡◌, true, [], IfOk, IfSome, Ok};
ghost use Rattle.toml.specs.View.{table_view, view};
ghost use Rattle.lf_faults.specs.Allowed.{IsInLimits};
ghost use Rattle.lf_promises.specs.Facts.{names_facts};
ghost use Rattle.lf_own_scenario.specs.Spans.{unfolded};
ghost use Rattle.lf_outcome.specs.Formulas.{IsFormulaOf};
ghost use Rattle.lf_scenario.specs.Ranges.{IsInRange};
ghost use Rattle.lf_scenario.specs.Values.{required};
ghost use Rattle.lf_own_scenario.specs.Machines.{kind_of, with_topics};
ghost use Rattle.lf_own_scenario.specs.Values.{Gives};
ghost use Rattle.lf_promises.specs.Promises.{promise_of};
ghost use Rattle.lf_own_scenario.specs.Outcomes.{seen_promise, named, text_refusal, wanted, told_place, promise_in, scene_of, unfolded_to, demand_of};
ghost use Rattle.lf_own_scenario.specs.Outcomes.{text_demand, list_demand, outcome_in};

use crate::telling::told_in;
use crate::zeros::promise_divides;
use crate::{Scene, UnfoldError, topics_in, unfold};
use lf_faults::FaultSpec;
use lf_grammar::{Place, Token};
use lf_list::Listed;
use lf_outcome::Formula;
use lf_promises::{Promise, PromiseError, read_promise};
use lf_protocol_file::ProtocolFile;
use lf_protocols::Fact;
use lf_rule_machine::given_table;
use lf_rules::{Definition, Given, Scope, Topics, Within};
use lf_scenario::{Described, Key, ScenarioError, at, list_formula};
use lf_texts::{TextError, text_tokens};
use std::alloc::Global;
use toml::{Table, Value};

/// What an outcome demands of a run: a formula, and the topics that it asks about, by number.
pub(crate) struct Demand {
    pub formula: Formula<Fact>,
    pub topics: Topics,
}

/// The promise of a file's outcome with a name.
fn named<'a>(file: &'a ProtocolFile, name: &str) -> Option<&'a Promise>
    ensures value { seen_promise result ≡ named name.now file.now.outcomes }
    ensures facts { IfSome result (λ p. names_facts file.now.definition p.now ≡ true) }
{
    let outcomes = file.outcomes();
    'outcomes: for outcome in outcomes {
        if name == outcome.name.as_str() {
            return Some(&outcome.promise);
        }
    }
    None
}

/// The refusal of an outcome for a fault of its text.
fn text_refusal(fault: TextError) -> ScenarioError
    ensures { result ≡ text_refusal fault }
{
    match fault {
        TextError::Unfit | TextError::PastLimit => ScenarioError::Outcome,
        TextError::Memory => ScenarioError::Memory,
    }
}

/// The promise that the text of an outcome is in a scenario with these constants, where it is no outcome's name, or why it is none. The refusal `Memory`
/// comes only where memory has run out.
#[tactic(auto, unfolding(crate::specs::Outcomes::promise_in))]
pub fn promise_in(
    alloc: Global,
    file: &ProtocolFile,
    given: &[Given],
    text: &str,
) -> Result<Promise, ScenarioError>
    ensures value { Gives (λ p. p) (promise_in file.now given.now text.now) result }
    ensures facts { IfOk result (λ p. names_facts file.now.definition p ≡ true) }
{
    let tokens = text_tokens(alloc, text).map_err(text_refusal)?;
    match told_in(alloc, file.definition(), given) {
        Ok(definition) => told_promise(alloc, file, &definition, tokens.as_slice()),
        Err(_) => Err(ScenarioError::Memory),
    }
}

/// The promise that tokens are, where these are the names of a file and what they may name.
fn told_promise(
    alloc: Global,
    file: &ProtocolFile,
    definition: &Definition,
    tokens: &[Token],
) -> Result<Promise, ScenarioError>
    ensures value { Gives (λ p. p) (wanted (promise_of (told_place file.now definition.now) tokens.now)) result }
    ensures facts { IfOk result (λ p. names_facts definition.now p ≡ true) }
{
    let place = Place {
        definition,
        names: file.names(),
        fields: &[],
        scope: Scope::Who,
        within: Within::Nothing,
    };
    match read_promise(alloc, &place, tokens) {
        Ok(promise) => Ok(promise),
        Err(PromiseError::Unfit(_)) => Err(ScenarioError::Outcome),
        Err(PromiseError::Memory) => Err(ScenarioError::Memory),
    }
}

/// What a promise depends on.
fn scene_of(bounds: &FaultSpec, given: &[Given]) -> Scene
    ensures { result ≡ scene_of bounds.now given.now }
{
    let nodes = bounds.nodes();
    Scene {
        nodes,
        horizon: bounds.horizon(),
        given: given_table(nodes, given),
    }
}

/// The formula of a promise, where it isn't too large.
fn unfolded_in(
    alloc: Global,
    scene: &Scene,
    promise: &Promise,
) -> Result<Formula<Fact>, ScenarioError>
    ensures value { Gives (λ f. f) (unfolded_to (unfolded scene.now promise.now)) result }
    ensures formula { IfOk result (λ f. unfolded scene.now promise.now ≡ Ok f) }
{
    match unfold(alloc, scene, promise) {
        Ok(formula) => Ok(formula),
        Err(UnfoldError::Memory) => Err(ScenarioError::Memory),
        Err(_) => Err(ScenarioError::Outcome),
    }
}

/// What a promise demands, where it divides by no constant that is 0, and isn't too large.
#[tactic(auto, unfolding(crate::specs::Outcomes::demand_of))]
fn demand_of(
    alloc: Global,
    file: &ProtocolFile,
    given: &[Given],
    bounds: &FaultSpec,
    promise: &Promise,
) -> Result<Demand, ScenarioError>
    requires limits { IsInLimits bounds.now }
    requires facts { names_facts file.now.definition promise.now ≡ true }
    ensures value { Gives (λ d. d) (demand_of bounds.now given.now promise.now) result }
    ensures fits { IfOk result (λ d. IsFormulaOf (kind_of file.now bounds.now.nodes given.now d.topics) bounds.now d.formula) }
{
    if promise_divides(given, promise) {
        return Err(ScenarioError::Outcome);
    }
    let scene = scene_of(bounds, given);
    let formula = unfolded_in(alloc, &scene, promise)?;
    match topics_in(alloc, promise) {
        Ok(topics) => Ok(Demand { formula, topics }),
        Err(_) => Err(ScenarioError::Memory),
    }
}

/// What a text demands: that of the file's outcome with this name, or else of the promise that it is itself.
fn text_demand(
    alloc: Global,
    file: &ProtocolFile,
    given: &[Given],
    bounds: &FaultSpec,
    text: &str,
) -> Result<Demand, ScenarioError>
    requires { IsInLimits bounds.now }
    ensures value { Gives (λ d. d) (text_demand file.now given.now bounds.now text.now) result }
    ensures fits { IfOk result (λ d. IsFormulaOf (kind_of file.now bounds.now.nodes given.now d.topics) bounds.now d.formula) }
{
    match named(file, text) {
        Some(promise) => demand_of(alloc, file, given, bounds, promise),
        None => {
            let promise = promise_in(alloc, file, given, text)?;
            demand_of(alloc, file, given, bounds, &promise)
        }
    }
}

/// What a list demands, as for any protocol. It asks about no topic.
fn list_demand(
    alloc: Global,
    value: &Value,
    file: &ProtocolFile,
    given: &[Given],
    described: &Described,
) -> Result<Demand, ScenarioError>
    requires range { IsInRange described.now }
    requires protocol { described.now.protocol ≡ kind_of file.now described.now.bounds.nodes given.now [] }
    ensures value { Gives (λ d. d) (list_demand file.now given.now described.now.bounds (view value.now)) result }
    ensures fits { IfOk result (λ d. IsFormulaOf (kind_of file.now described.now.bounds.nodes given.now d.topics) described.now.bounds d.formula) }
{
    let formula = list_formula(alloc, value, described)?;
    let topics = Listed::from_vec(Vec::new(alloc));
    Ok(Demand { formula, topics })
}

/// What the outcome of the table demands: a text, or a list as for any protocol.
#[tactic(auto, unfolding(lf_scenario::specs::Values::required))]
pub(crate) fn demand_in(
    alloc: Global,
    table: &Table,
    file: &ProtocolFile,
    given: &[Given],
    described: &Described,
) -> Result<Demand, ScenarioError>
    requires range { IsInRange described.now }
    requires protocol { described.now.protocol ≡ kind_of file.now described.now.bounds.nodes given.now [] }
    ensures value { Gives (λ d. d) (required (table_view table.now) Key.Outcome (outcome_in file.now given.now described.now.bounds)) result }
    ensures fits { IfOk result (λ d. IsFormulaOf (with_topics described.now.protocol d.topics) described.now.bounds d.formula) }
{
    match at(table, Key::Outcome.name()) {
        Some(value) => match value {
            Value::String(text) => {
                text_demand(alloc, file, given, &described.bounds, text.as_str())
            }
            Value::Array(_) => list_demand(alloc, value, file, given, described),
            _ => Err(ScenarioError::WrongKind(Key::Outcome)),
        },
        None => Err(ScenarioError::Missing(Key::Outcome)),
    }
}
