//! What the questions are made from.

ghost use Rattle.std.specs.Prelude.{◌≡◌, IfOk, IfSome};
ghost use Rattle.lf_protocol_file.specs.Files.{IsText};
ghost use Rattle.leastfault.specs.Known.{IsTextOf, known_of};
ghost use Rattle.leastfault_doubt.specs.Doubts.{AreQuestions, AreStakesOf, changes_of};

use leastfault::ProtocolFile;
use lf_doubt::{Ground, Question, Stake, has_spread, questions};
use lf_faults::FaultSet;
use lf_mutations::{Mutation, mutations};
use lf_outcome::Scenario;
use lf_staked::stakes;
use lf_stakes::{rules_of_start, rules_taken, single_sets};
use std::alloc::{AllocError, Global};

/// The questions about the answer to a scenario. The text of the protocol file is that of the file, where there is one.
pub(crate) fn questions_for(
    alloc: Global,
    known: Option<&ProtocolFile>,
    protocol: &[u8],
    text: &[u8],
    scenario: &Scenario,
    deep: bool,
) -> Result<Vec<Question>, AllocError>
    requires is_file { IfSome (known_of known) (λ file. IsText file protocol.now) }
    requires is_scenario { IsTextOf (known_of known) scenario.now text.now }
    ensures { IfOk result (λ questions. AreQuestions (known_of known.entry) text.now scenario.now deep questions.items) }
{
    let setting = scenario.setting();
    let sets = single_sets(alloc, &setting.spec)?;
    let taken = rules_taken(alloc, setting, sets.as_slice())?;
    let starting = rules_of_start(alloc, &setting.machine)?;
    let changes = changes_of(alloc, known, deep)?;
    let stakes = stakes_of(alloc, known, protocol, text, scenario, sets.as_slice())?;
    let ground = Ground {
        mutations: changes.as_slice(),
        taken: taken.as_slice(),
        starting: starting.as_slice(),
        runs: sets.len(),
        stakes: stakes.as_slice(),
        bounds: setting.spec,
        has_spread: has_spread(&setting.network),
        is_own: known.is_some(),
    };
    let asked = questions(alloc, &ground)?;
    Ok(asked)
}

/// What was counted of each part of the promise, where the protocol is that of a file.
fn stakes_of(
    alloc: Global,
    known: Option<&ProtocolFile>,
    protocol: &[u8],
    text: &[u8],
    scenario: &Scenario,
    sets: &[FaultSet],
) -> Result<Vec<Stake>, AllocError>
    requires is_file { IfSome (known_of known) (λ file. IsText file protocol.now) }
    requires is_scenario { IsTextOf (known_of known) scenario.now text.now }
    ensures { IfOk result (λ stakes. AreStakesOf (known_of known.entry) text.now scenario.now sets.now stakes.items) }
{
    match known {
        None => Ok(Vec::new(alloc)),
        Some(file) => stakes(alloc, protocol, file, text, scenario, sets),
    }
}

/// What may be changed in the rules of the protocol of a file.
fn changes_of(
    alloc: Global,
    known: Option<&ProtocolFile>,
    deep: bool,
) -> Result<Vec<Mutation>, AllocError>
    ensures { IfOk result (λ changes. changes.items ≡ changes_of (known_of known.entry) deep) }
{
    match known {
        None => Ok(Vec::new(alloc)),
        Some(file) => {
            let rules = file.rules()?;
            mutations(alloc, &rules, deep)
        }
    }
}
