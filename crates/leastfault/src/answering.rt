//! The replies of the engines, before they are written.

ghost use Rattle.std.specs.Prelude.{◌≡◌, ◌≢◌, ◌↔◌, List, Some, true, false, string_bytes, IfOk};
ghost use Rattle.std.specs.Arc.{arc_value};
ghost use Rattle.lf_book.specs.Ends.{IsNeverFull};
ghost use Rattle.lf_book.specs.Books.{scenario_of, state_of};
ghost use Rattle.lf_faults.specs.declared.fault.Parts.{Parts};
ghost use Rattle.lf_faults.specs.Allowed.{IsAllowed};
ghost use Rattle.lf_sim.specs.Settings.{world_of};
ghost use Rattle.lf_trace.specs.Namings.{Names};
ghost use Rattle.lf_trace.specs.Traces.{trace};
ghost use Rattle.leastfault.specs.Answers.{AreLeastSets, reaches_in};
ghost use Rattle.leastfault.specs.Known.{known_of};
ghost use Rattle.leastfault.specs.Replies.{IsAnswerReply, IsRunReply, IsSearchedWith, RepliesAll, RepliesAnswer, RepliesReport, reports_of};
ghost use Rattle.leastfault.specs.Searches.{IsFoundFor};
ghost use Rattle.leastfault.specs.Reports.{full_line, no_set_line, refusal, run_status, search_status};

use crate::known::read_known;
use crate::replies::full_line;
use crate::reply::{Reply, Searched, without_tree};
use crate::said::Said;
use crate::{all_report, refusal, report};
use lf_book::{Book, Ended, solve_watched};
use lf_faults::{FaultSet, admits};
use lf_outcome::{Scenario, holds};
use lf_protocol_file::ProtocolFile;
use lf_scenario::ScenarioError;
use lf_sim::run;
use lf_symmetry::answer_watched;
use lf_trace::{read_faults, trace};
use lf_watch::Watch;
use std::alloc::{AllocError, Global};
use std::sync::Arc;

/// What a search is to report.
#[derive(Clone, Copy, Debug)]
pub enum Wanted {
    /// The answer: the first of the least sets.
    Answer,
    /// All least sets.
    AllLeast,
}

/// The reply of a search to a scenario's text, and the tree of the search where it has an answer.
pub fn search_reply<V: Watch>(
    alloc: Global,
    known: Option<&ProtocolFile>,
    wanted: Wanted,
    text: &[u8],
    watch: &V,
) -> Result<Reply<Searched>, AllocError>
    ensures { IfOk result (λ found. IsSearchedWith (known_of known.entry) (reports_of wanted) text.now (string_bytes found.text) found.value) }
{
    match read_known(alloc, text, known) {
        Ok(scenario) => searched(alloc, wanted, Arc::new(alloc, scenario)?, watch),
        Err(error) => {
            let refusal = refused(alloc, error)?;
            Ok(without_tree(refusal.text, refusal.value, refusal.said))
        }
    }
}

/// The reply of a search for a scenario.
pub(crate) fn searched<V: Watch>(
    alloc: Global,
    wanted: Wanted,
    scenario: Arc<Scenario>,
    watch: &V,
) -> Result<Reply<Searched>, AllocError>
    ensures { IfOk result (IsFoundFor wanted (arc_value scenario)) }
{
    let most = scenario.max_sets();
    match solve_watched(alloc, scenario, watch)? {
        Ended::Finished(book) => finished(alloc, wanted, book),
        Ended::Full { level, count } => {
            let told = full(alloc, level, count, most)?;
            Ok(without_tree(told.text, told.value, told.said))
        }
    }
}

/// What a search comes to that has ended with this book.
fn finished(alloc: Global, wanted: Wanted, book: Book) -> Result<Reply<Searched>, AllocError>
    requires finished { (state_of book).finished ≡ true }
    requires never_full { IsNeverFull (scenario_of book) }
    ensures { IfOk result (IsFoundFor wanted (scenario_of book)) }
{
    let Reply { text, value, said } = reported(alloc, wanted, &book)?;
    let made = book.into_tree();
    let Ok(tree) = made else { unreachable!() };
    Ok(Reply {
        text,
        value: Searched {
            status: value,
            tree: Some(tree),
        },
        said,
    })
}

/// The reply that reports what a search found that has ended.
fn reported(alloc: Global, wanted: Wanted, book: &Book) -> Result<Reply<u8>, AllocError>
    requires finished { (state_of book.now).finished ≡ true }
    requires never_full { IsNeverFull (scenario_of book.now) }
    ensures { IfOk result (λ reply. reports_of wanted (scenario_of book.now) (string_bytes reply.text) reply.value) }
{
    match wanted {
        Wanted::Answer => answer_reported(alloc, book),
        Wanted::AllLeast => all_reported(alloc, book),
    }
}

/// The reply that reports the answer of a search that has ended.
fn answer_reported(alloc: Global, book: &Book) -> Result<Reply<u8>, AllocError>
    requires finished { (state_of book.now).finished ≡ true }
    requires never_full { IsNeverFull (scenario_of book.now) }
    ensures { IfOk result (λ reply. RepliesReport (scenario_of book.now) (string_bytes reply.text) reply.value) }
{
    let budget = budget_of(book);
    let answer = book.answer();
    Ok(Reply {
        text: report(alloc, budget, &answer)?,
        value: search_status(&answer),
        said: Said::Answer(answer),
    })
}

/// The reply that reports all least sets of a search that has ended.
fn all_reported(alloc: Global, book: &Book) -> Result<Reply<u8>, AllocError>
    requires finished { (state_of book.now).finished ≡ true }
    requires never_full { IsNeverFull (scenario_of book.now) }
    ensures { IfOk result (λ reply. RepliesAll (scenario_of book.now) (string_bytes reply.text) reply.value) }
{
    let budget = budget_of(book);
    let status = search_status(&book.answer());
    let sets = least_sets(book)?;
    let text = all_report(alloc, budget, sets.as_slice())?;
    Ok(Reply {
        text,
        value: status,
        said: Said::AllLeast(sets),
    })
}

/// The most faults that the sets of a search may have.
fn budget_of(book: &Book) -> u32
    ensures { result ≡ (scenario_of book.now).setting.spec.budget }
{
    book.scenario().setting().spec.budget()
}

/// All least sets of a search that has ended.
fn least_sets(book: &Book) -> Result<Vec<FaultSet>, AllocError>
    requires { (state_of book.now).finished ≡ true }
    ensures { IfOk result (λ sets. AreLeastSets (scenario_of book.now) sets.items) }
{
    let found = book.all_least()?;
    let Some(sets) = found else { unreachable!() };
    Ok(sets)
}

/// The reply that tells the answer to a scenario's text, with its status. The error is that memory has run out, or that the watch says that
/// the work isn't to go on.
pub fn answer_reply<V: Watch>(
    alloc: Global,
    known: Option<&ProtocolFile>,
    text: &[u8],
    watch: &V,
) -> Result<Reply<u8>, AllocError>
    ensures { IfOk result (λ reply. IsAnswerReply (known_of known.entry) text.now (string_bytes reply.text) reply.value) }
{
    match read_known(alloc, text, known) {
        Ok(scenario) => answered(alloc, &scenario, watch),
        Err(why) => refused(alloc, why),
    }
}

/// The reply that tells the answer to a scenario.
fn answered<V: Watch>(
    alloc: Global,
    scenario: &Scenario,
    watch: &V,
) -> Result<Reply<u8>, AllocError>
    ensures { IfOk result (λ reply. RepliesAnswer scenario.now (string_bytes reply.text) reply.value) }
{
    let answer = answer_watched(alloc, scenario, watch)?;
    Ok(Reply {
        text: report(alloc, scenario.setting().spec.budget(), &answer)?,
        value: search_status(&answer),
        said: Said::Answer(answer),
    })
}

/// The reply where a level is too full for a search that keeps at most `most` sets.
pub(crate) fn full(
    alloc: Global,
    level: u32,
    count: u64,
    most: u32,
) -> Result<Reply<u8>, AllocError>
    ensures { IfOk result (λ reply. (string_bytes reply.text ≡ full_line level count) × (reply.value ≡ 2)) }
{
    Ok(Reply {
        text: full_line(alloc, level, count)?,
        value: 2,
        said: Said::Full { level, count, most },
    })
}

/// The reply of a run to a scenario's text and the words that name a set of faults.
pub(crate) fn run_reply(
    alloc: Global,
    known: Option<&ProtocolFile>,
    text: &[u8],
    faults: &str,
) -> Result<Reply<u8>, AllocError>
    ensures { IfOk result (λ reply. IsRunReply (known_of known.entry) false faults.now text.now (string_bytes reply.text) reply.value) }
{
    match read_known(alloc, text, known) {
        Ok(scenario) => match allowed_set(&scenario, faults) {
            Some(set) => traced(alloc, &scenario, &set),
            None => no_set(alloc),
        },
        Err(error) => refused(alloc, error),
    }
}

/// The set that the words name. None where they name none, or the scenario doesn't allow it.
pub(crate) fn allowed_set(scenario: &Scenario, faults: &str) -> Option<FaultSet>
    ensures { (set : List Parts) → ((result ≡ Some set)
        ↔ (Names faults.now set × IsAllowed scenario.now.setting.spec set)) }
{
    let set = read_faults(faults)?;
    if admits(&scenario.setting().spec, &set) {
        Some(set)
    } else {
        None
    }
}

/// The reply that tells the run of a set of faults.
pub(crate) fn traced(
    alloc: Global,
    scenario: &Scenario,
    set: &FaultSet,
) -> Result<Reply<u8>, AllocError>
    ensures { IfOk result (λ reply.
        (string_bytes reply.text ≡ trace scenario.now.setting.machine (world_of scenario.now.setting) set.now scenario.now.formula)
        × (reply.value ≡ run_status (reaches_in scenario.now set.now))) }
{
    let setting = scenario.setting();
    let formula = scenario.formula();
    let played = run(alloc, setting, set)?;
    Ok(Reply {
        text: trace(alloc, setting, formula, &played)?,
        value: run_status(holds(setting, formula, &played)),
        said: Said::Run,
    })
}

/// The reply to words that name no allowed set.
pub(crate) fn no_set(alloc: Global) -> Result<Reply<u8>, AllocError>
    ensures { IfOk result (λ reply. (string_bytes reply.text ≡ no_set_line) × (reply.value ≡ 2)) }
{
    let mut text = String::new(alloc);
    text.push_str("refused faults\n")?;
    Ok(Reply {
        text,
        value: 2,
        said: Said::NoFaults,
    })
}

/// The reply to a text that is refused. The error is that memory has run out, here or in the reading.
pub(crate) fn refused(alloc: Global, error: ScenarioError) -> Result<Reply<u8>, AllocError>
    ensures { IfOk result (λ reply. (error ≢ ScenarioError.Memory)
        × (string_bytes reply.text ≡ refusal error) × (reply.value ≡ 2)) }
{
    if error == ScenarioError::Memory {
        return Err(AllocError);
    }
    Ok(Reply {
        text: refusal(alloc, error)?,
        value: 2,
        said: Said::NoScenario(error),
    })
}

/// The status of a run: 0 where it reaches the outcome, 1 where it misses.
pub(crate) fn run_status(reaches: bool) -> u8
    ensures { result ≡ run_status reaches }
{
    if reaches { 0 } else { 1 }
}

/// The status of an answer: 0 where there is no set that defeats the outcome, 1 where there is one.
pub(crate) fn search_status(answer: &Option<FaultSet>) -> u8
    ensures { result ≡ search_status answer.now }
{
    match answer {
        None => 0,
        Some(_) => 1,
    }
}
