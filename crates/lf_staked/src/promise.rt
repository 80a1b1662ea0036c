//! The promise of a scenario's outcome, as a value of its own.

ghost use Rattle.std.specs.Prelude.{◌≡◌, IfOk};
ghost use Rattle.lf_protocol_file.specs.Files.{IsText};
ghost use Rattle.lf_own_scenario.specs.Outcomes.{named, said};
ghost use Rattle.lf_own_scenario.specs.Values.{Gives};

use lf_list::Listed;
use lf_own_scenario::promise_in;
use lf_promises::Promise;
use lf_protocol_file::{Outcome, ProtocolError, ProtocolFile, files_are_one, read_declared};
use lf_rules::Given;
use lf_scenario::ScenarioError;
use std::alloc::{AllocError, Global};

/// A protocol file, with its text, and what the constants are in a scenario.
#[derive(Clone, Copy)]
pub(crate) struct Told<'a> {
    pub text: &'a [u8],
    pub file: &'a ProtocolFile,
    pub given: &'a [Given],
}

/// The promise of the file's outcome with this name, or else the one that the words are themselves. The refusal `Memory` comes only where
/// memory has run out.
pub(crate) fn promise(alloc: Global, told: &Told<'_>, words: &str) -> Result<Promise, ScenarioError>
    requires { IsText told.now.file.now told.now.text.now }
    ensures { Gives (λ p. p) (said told.now.file.now told.now.given.now words.now (named words.now told.now.file.now.outcomes)) result }
{
    match named(alloc, told, words) {
        Ok(Some(promise)) => Ok(promise),
        Ok(None) => promise_in(alloc, told.file, told.given, words),
        Err(_) => Err(ScenarioError::Memory),
    }
}

/// The promise of the file's outcome with a name. The file holds its promises for good, so its text is read once more.
fn named(alloc: Global, told: &Told<'_>, name: &str) -> Result<Option<Promise>, AllocError>
    requires { IsText told.now.file.now told.now.text.now }
    ensures { IfOk result (λ found. found ≡ named name.now told.now.file.now.outcomes) }
{
    files_are_one();
    match read_declared(alloc, told.text) {
        Ok(declared) => Ok(taken(declared.outcomes, name)),
        Err(ProtocolError::Memory) => Err(AllocError),
        Err(_) => unreachable!(),
    }
}

/// The promise of the first outcome with a name, moved out of it.
fn taken(outcomes: Listed<Outcome>, name: &str) -> Option<Promise>
    ensures { result ≡ named name.now outcomes }
{
    'outcomes: for outcome in outcomes.into_vec() {
        if name == outcome.name.as_str() {
            return Some(outcome.promise);
        }
    }
    None
}
