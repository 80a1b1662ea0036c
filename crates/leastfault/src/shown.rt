//! The replies to runs, told as it is asked: by their trace or otherwise.

ghost use Rattle.std.specs.Prelude.{◌≡◌, Some, true, option_map, string_bytes, IfOk};
ghost use Rattle.lf_trace.specs.Beside.{beside_by};
ghost use Rattle.lf_trace.specs.Changes.{changes_by};
ghost use Rattle.lf_sim.specs.Settings.{world_of};
ghost use Rattle.lf_trace.specs.Words.{words_of};
ghost use Rattle.leastfault.specs.Answers.{reaches_in};
ghost use Rattle.leastfault.specs.Known.{known_of};
ghost use Rattle.leastfault.specs.Replies.{IsRunReply, tells_rules};
ghost use Rattle.leastfault.specs.Reports.{run_status};
ghost use Rattle.leastfault.specs.Shown.{IsBesideReply, IsDrawnReply, IsSeededReply, IsShownReply, IsToldReply, RepliesBeside, RepliesBesides, RepliesNamed};
ghost use Rattle.leastfault.specs.Shown.{RepliesShown, Tells};
ghost use Rattle.leastfault.specs.Delayed.{IsDelayedReply};

use crate::answering::{allowed_set, no_set, refused, run_reply, run_status};
use crate::delayed::read_given;
use crate::known::read_known;
use crate::reply::Reply;
use crate::ruled::{rules_reply, run_of};
use crate::said::Said;
use lf_faults::FaultSet;
use lf_outcome::{Scenario, holds};
use lf_protocol_file::ProtocolFile;
use lf_rendering::{json_trace, picture};
use lf_sim::run;
use lf_trace::{beside, changes};
use lf_words::Shown;
use std::alloc::{AllocError, Global};

/// What is told of a run in place of its trace.
#[derive(Clone, Copy, Debug)]
pub(crate) enum Told {
    /// What changes from step to step.
    Changes,
    /// A JSON document, for programs.
    Json,
    /// A picture, for people.
    Picture,
}

/// The reply of a run to a scenario's text and the words that name a set of faults, told as it is asked: by the scenario's seed, or where
/// notes arrive as words say. The rules that nodes took are told where there is a protocol file that has some.
pub(crate) fn shown_reply(
    alloc: Global,
    known: Option<&ProtocolFile>,
    shown: &Shown,
    delays: Option<&str>,
    text: &[u8],
    faults: &str,
) -> Result<Reply<u8>, AllocError>
    ensures { IfOk result (λ reply. IsShownReply (known_of known.entry) shown.now (option_map (λ words. words.now) delays.entry) faults.now text.now
        (string_bytes reply.text) reply.value) }
{
    match delays {
        None => shown_by_seed(alloc, known, shown, text, faults),
        Some(delays) => shown_by_delays(alloc, known, shown, delays, text, faults),
    }
}

/// The same where notes arrive as the words say.
fn shown_by_delays(
    alloc: Global,
    known: Option<&ProtocolFile>,
    shown: &Shown,
    delays: &str,
    text: &[u8],
    faults: &str,
) -> Result<Reply<u8>, AllocError>
    ensures { IfOk result (λ reply. IsDelayedReply (known_of known.entry) delays.now
        (RepliesShown (tells_rules (known_of known.entry) true) shown.now faults.now) text.now (string_bytes reply.text) reply.value) }
{
    let read = read_given(alloc, known, text, delays)?;
    match read {
        Ok(scenario) => shown_of(alloc, has_rules(known), shown, &scenario, faults),
        Err(reply) => Ok(reply),
    }
}

/// Whether there is a protocol file that has rules.
fn has_rules(known: Option<&ProtocolFile>) -> bool
    ensures { result ≡ tells_rules (known_of known.entry) true }
{
    match known {
        Some(_) => true,
        None => false,
    }
}

/// The reply of a run to a scenario and the words that name a set of faults, told as it is asked.
fn shown_of(
    alloc: Global,
    rules: bool,
    shown: &Shown,
    scenario: &Scenario,
    faults: &str,
) -> Result<Reply<u8>, AllocError>
    ensures { IfOk result (λ reply. RepliesShown rules shown.now faults.now scenario.now (string_bytes reply.text) reply.value) }
{
    match shown {
        Shown::Whole => run_of(alloc, false, scenario, faults),
        Shown::Rules => run_of(alloc, rules, scenario, faults),
        Shown::Changes => told_named(alloc, Told::Changes, scenario, faults),
        Shown::Json => told_named(alloc, Told::Json, scenario, faults),
        Shown::Beside(other) => compared(alloc, scenario, faults, other.as_str()),
    }
}

/// The same by the scenario's seed.
fn shown_by_seed(
    alloc: Global,
    known: Option<&ProtocolFile>,
    shown: &Shown,
    text: &[u8],
    faults: &str,
) -> Result<Reply<u8>, AllocError>
    ensures { IfOk result (λ reply. IsSeededReply (known_of known.entry) shown.now faults.now text.now (string_bytes reply.text) reply.value) }
{
    match shown {
        Shown::Whole => run_reply(alloc, known, text, faults),
        Shown::Rules => with_rules(alloc, known, text, faults),
        Shown::Changes => told_reply(alloc, known, Told::Changes, text, faults),
        Shown::Json => told_reply(alloc, known, Told::Json, text, faults),
        Shown::Beside(other) => beside_reply(alloc, known, text, faults, other.as_str()),
    }
}

/// The reply of a run with the rules that nodes took, where there is a protocol file that has some.
fn with_rules(
    alloc: Global,
    known: Option<&ProtocolFile>,
    text: &[u8],
    faults: &str,
) -> Result<Reply<u8>, AllocError>
    ensures { IfOk result (λ reply. IsRunReply (known_of known.entry) (tells_rules (known_of known.entry) true) faults.now text.now
        (string_bytes reply.text) reply.value) }
{
    match known {
        Some(file) => rules_reply(alloc, file, text, faults),
        None => run_reply(alloc, None, text, faults),
    }
}

/// The reply to a scenario's text and the words that name a set of faults that draws the run: by the scenario's seed, or where notes arrive
/// as words say.
pub(crate) fn drawn_reply(
    alloc: Global,
    known: Option<&ProtocolFile>,
    delays: Option<&str>,
    text: &[u8],
    faults: &str,
) -> Result<Reply<u8>, AllocError>
    ensures { IfOk result (λ reply. IsDrawnReply (known_of known.entry) (option_map (λ words. words.now) delays.entry) faults.now text.now
        (string_bytes reply.text) reply.value) }
{
    match delays {
        None => told_reply(alloc, known, Told::Picture, text, faults),
        Some(delays) => drawn_by_delays(alloc, known, delays, text, faults),
    }
}

/// The same where notes arrive as the words say.
fn drawn_by_delays(
    alloc: Global,
    known: Option<&ProtocolFile>,
    delays: &str,
    text: &[u8],
    faults: &str,
) -> Result<Reply<u8>, AllocError>
    ensures { IfOk result (λ reply. IsDelayedReply (known_of known.entry) delays.now (RepliesNamed Told.Picture faults.now) text.now
        (string_bytes reply.text) reply.value) }
{
    let read = read_given(alloc, known, text, delays)?;
    match read {
        Ok(scenario) => told_named(alloc, Told::Picture, &scenario, faults),
        Err(reply) => Ok(reply),
    }
}

/// The reply to a scenario and the words that name a set of faults that tells this of the run.
fn told_named(
    alloc: Global,
    told: Told,
    scenario: &Scenario,
    faults: &str,
) -> Result<Reply<u8>, AllocError>
    ensures { IfOk result (λ reply. RepliesNamed told faults.now scenario.now (string_bytes reply.text) reply.value) }
{
    match allowed_set(scenario, faults) {
        Some(set) => told_of(alloc, scenario, told, &set),
        None => no_set(alloc),
    }
}

/// The reply to a scenario's text and the words that name a set of faults that tells this of the run.
fn told_reply(
    alloc: Global,
    known: Option<&ProtocolFile>,
    told: Told,
    text: &[u8],
    faults: &str,
) -> Result<Reply<u8>, AllocError>
    ensures { IfOk result (λ reply. IsToldReply told (known_of known.entry) faults.now text.now (string_bytes reply.text) reply.value) }
{
    match read_known(alloc, text, known) {
        Ok(scenario) => match allowed_set(&scenario, faults) {
            Some(set) => told_of(alloc, &scenario, told, &set),
            None => no_set(alloc),
        },
        Err(error) => refused(alloc, error),
    }
}

/// The reply that tells this of the run of a set of faults.
fn told_of(
    alloc: Global,
    scenario: &Scenario,
    told: Told,
    set: &FaultSet,
) -> Result<Reply<u8>, AllocError>
    ensures { IfOk result (λ reply. Tells told scenario.now set.now (string_bytes reply.text)
        × (reply.value ≡ run_status (reaches_in scenario.now set.now))) }
{
    match told {
        Told::Changes => changed(alloc, scenario, set),
        Told::Json => written(alloc, scenario, set),
        Told::Picture => drawn(alloc, scenario, set),
    }
}

/// The reply that tells what changes in the run of a set of faults.
fn changed(alloc: Global, scenario: &Scenario, set: &FaultSet) -> Result<Reply<u8>, AllocError>
    ensures { IfOk result (λ reply.
        (string_bytes reply.text ≡ changes_by (words_of scenario.now.setting.machine) (world_of scenario.now.setting) set.now scenario.now.formula)
        × (reply.value ≡ run_status (reaches_in scenario.now set.now))) }
{
    let setting = scenario.setting();
    let formula = scenario.formula();
    let played = run(alloc, setting, set)?;
    Ok(Reply {
        text: changes(alloc, setting, formula, &played)?,
        value: run_status(holds(setting, formula, &played)),
        said: Said::Run,
    })
}

/// The reply that has the run of a set of faults as a JSON document.
fn written(alloc: Global, scenario: &Scenario, set: &FaultSet) -> Result<Reply<u8>, AllocError>
    ensures { IfOk result (λ reply. reply.value ≡ run_status (reaches_in scenario.now set.now)) }
{
    let setting = scenario.setting();
    let formula = scenario.formula();
    let played = run(alloc, setting, set)?;
    Ok(Reply {
        text: json_trace(alloc, setting, formula, &played)?,
        value: run_status(holds(setting, formula, &played)),
        said: Said::Run,
    })
}

/// The reply that has the run of a set of faults as a picture.
fn drawn(alloc: Global, scenario: &Scenario, set: &FaultSet) -> Result<Reply<u8>, AllocError>
    ensures { IfOk result (λ reply. reply.value ≡ run_status (reaches_in scenario.now set.now)) }
{
    let setting = scenario.setting();
    let formula = scenario.formula();
    let played = run(alloc, setting, set)?;
    Ok(Reply {
        text: picture(alloc, setting, formula, &played)?,
        value: run_status(holds(setting, formula, &played)),
        said: Said::Run,
    })
}

/// The reply that tells how the run of the set that words name differs from that of another.
fn beside_reply(
    alloc: Global,
    known: Option<&ProtocolFile>,
    text: &[u8],
    faults: &str,
    other: &str,
) -> Result<Reply<u8>, AllocError>
    ensures { IfOk result (λ reply. IsBesideReply other.now (known_of known.entry) faults.now text.now (string_bytes reply.text) reply.value) }
{
    match read_known(alloc, text, known) {
        Ok(scenario) => compared(alloc, &scenario, faults, other),
        Err(error) => refused(alloc, error),
    }
}

/// The same for a scenario.
fn compared(
    alloc: Global,
    scenario: &Scenario,
    faults: &str,
    other: &str,
) -> Result<Reply<u8>, AllocError>
    ensures { IfOk result (λ reply. RepliesBesides other.now faults.now scenario.now (string_bytes reply.text) reply.value) }
{
    match allowed_set(scenario, faults) {
        Some(set) => beside_named(alloc, scenario, &set, other),
        None => no_set(alloc),
    }
}

/// The same for a set of faults.
fn beside_named(
    alloc: Global,
    scenario: &Scenario,
    set: &FaultSet,
    other: &str,
) -> Result<Reply<u8>, AllocError>
    ensures { IfOk result (λ reply. RepliesBeside other.now set.now scenario.now (string_bytes reply.text) reply.value) }
{
    match allowed_set(scenario, other) {
        Some(besides) => beside_of(alloc, scenario, set, &besides),
        None => no_set(alloc),
    }
}

/// The reply that tells how the run of a set differs from that of another.
fn beside_of(
    alloc: Global,
    scenario: &Scenario,
    set: &FaultSet,
    other: &FaultSet,
) -> Result<Reply<u8>, AllocError>
    ensures { IfOk result (λ reply.
        (string_bytes reply.text
        ≡ beside_by (words_of scenario.now.setting.machine) (world_of scenario.now.setting) other.now set.now scenario.now.formula)
        × (reply.value ≡ run_status (reaches_in scenario.now set.now))) }
{
    let setting = scenario.setting();
    let formula = scenario.formula();
    let played = run(alloc, setting, set)?;
    let besides = run(alloc, setting, other)?;
    Ok(Reply {
        text: beside(alloc, setting, formula, &played, &besides)?,
        value: run_status(holds(setting, formula, &played)),
        said: Said::Run,
    })
}
