//! The replies where notes arrive as words say, and over every delay.

ghost use Rattle.std.specs.Prelude.{◌≡◌, ℕ, List, IfOk, Some, string_bytes};
ghost use Rattle.lf_delays.specs.Answers.{IsFirstUnder};
ghost use Rattle.lf_latency.specs.Arrivals.{IsArrivals};
ghost use Rattle.lf_sim.specs.Settings.{world_of};
ghost use Rattle.leastfault.specs.Delayed.{IsAnswerAsked, IsEveryDelayReply, IsGivenOf, IsGivenTo, RepliesEveryDelay, late_report, no_delays_line};
ghost use Rattle.leastfault.specs.Known.{known_of};

use crate::answering::{answer_reply, refused};
use crate::known::read_known;
use crate::reply::Reply;
use crate::report;
use crate::said::Said;
use lf_delays::{push_delays, read_delays, tight_arrivals, told_delays};
use lf_faults::FaultSet;
use lf_latency::Arrivals;
use lf_outcome::Scenario;
use lf_protocol_file::ProtocolFile;
use lf_sim::run;
use lf_symmetry::every_delay_watched;
use lf_watch::Watch;
use std::alloc::{AllocError, Global};

/// The scenario of a text, in which notes arrive as the words say, or the reply where one of both is refused.
pub(crate) fn read_given(
    alloc: Global,
    known: Option<&ProtocolFile>,
    text: &[u8],
    delays: &str,
) -> Result<Result<Scenario, Reply<u8>>, AllocError>
    ensures { IfOk result (IsGivenOf (known_of known.entry) delays.now text.now) }
{
    match read_known(alloc, text, known) {
        Ok(scenario) => given(alloc, scenario, delays),
        Err(error) => Ok(Err(refused(alloc, error)?)),
    }
}

/// The scenario in which notes arrive as the words say, or the reply where the words are refused.
fn given(
    alloc: Global,
    scenario: Scenario,
    delays: &str,
) -> Result<Result<Scenario, Reply<u8>>, AllocError>
    ensures { IfOk result (IsGivenTo scenario delays.now) }
{
    let read = read_delays(alloc, &scenario.setting().network, delays)?;
    match read {
        Some(arrivals) => Ok(Ok(scenario.choosing(&arrivals))),
        None => Ok(Err(no_delays(alloc)?)),
    }
}

/// The reply to words that name no delays of the scenario.
fn no_delays(alloc: Global) -> Result<Reply<u8>, AllocError>
    ensures { IfOk result (λ reply. (string_bytes reply.text ≡ no_delays_line) × (reply.value ≡ 2)) }
{
    let mut text = String::new(alloc);
    text.push_str("refused delays\n")?;
    Ok(Reply {
        text,
        value: 2,
        said: Said::NoDelays,
    })
}

/// The reply that tells the answer to a scenario's text, by its seed or over every delay.
pub(crate) fn answer_asked<V: Watch>(
    alloc: Global,
    known: Option<&ProtocolFile>,
    every_delay: bool,
    text: &[u8],
    watch: &V,
) -> Result<Reply<u8>, AllocError>
    ensures { IfOk result (λ reply. IsAnswerAsked (known_of known.entry) every_delay text.now (string_bytes reply.text) reply.value) }
{
    if every_delay {
        every_delay_reply(alloc, known, text, watch)
    } else {
        answer_reply(alloc, known, text, watch)
    }
}

/// The reply that tells the answer over every delay to a scenario's text: the fewest faults that, with some delays of notes, defeat the
/// outcome, and behind them which notes come late; or that no allowed faults do, whatever each note takes between its least delay and
/// its spread beyond that. The error is that memory has run out, or that the watch says that the work isn't to go on.
pub fn every_delay_reply<V: Watch>(
    alloc: Global,
    known: Option<&ProtocolFile>,
    text: &[u8],
    watch: &V,
) -> Result<Reply<u8>, AllocError>
    ensures { IfOk result (λ reply. IsEveryDelayReply (known_of known.entry) text.now (string_bytes reply.text) reply.value) }
{
    match read_known(alloc, text, known) {
        Ok(scenario) => over_every_delay(alloc, scenario, watch),
        Err(error) => refused(alloc, error),
    }
}

/// The reply that tells the answer over every delay to a scenario.
fn over_every_delay<V: Watch>(
    alloc: Global,
    scenario: Scenario,
    watch: &V,
) -> Result<Reply<u8>, AllocError>
    ensures { IfOk result (λ reply. RepliesEveryDelay scenario (string_bytes reply.text) reply.value) }
{
    let found = every_delay_watched(alloc, &scenario, watch)?;
    match found {
        Some(answer) => tight_reply(alloc, scenario, answer),
        None => Ok(Reply {
            text: report(alloc, scenario.setting().spec.budget(), &None)?,
            value: 0,
            said: Said::Answer(None),
        }),
    }
}

/// The reply that tells the answer over every delay, which is this set, that misses under these arrivals. Of the notes that come late, those are told
/// that can't be spared.
fn tight_reply(
    alloc: Global,
    scenario: Scenario,
    answer: (FaultSet, Arrivals),
) -> Result<Reply<u8>, AllocError>
    requires { IsFirstUnder scenario.setting.network scenario.setting.spec (world_of scenario.setting) scenario.formula (Some answer) }
    ensures { IfOk result (λ reply. RepliesEveryDelay scenario (string_bytes reply.text) reply.value) }
{
    let (set, arrivals) = answer;
    let (scenario, tight) = tight_arrivals(alloc, scenario, &set, &arrivals)?;
    late_reply(alloc, scenario, &set, &tight)
}

/// The reply that tells a set of faults, and which notes come late in its run under these arrivals.
fn late_reply(
    alloc: Global,
    scenario: Scenario,
    set: &FaultSet,
    arrivals: &Arrivals,
) -> Result<Reply<u8>, AllocError>
    requires { IsArrivals scenario.setting.network arrivals.now }
    ensures { IfOk result (λ reply. (string_bytes reply.text ≡ late_report scenario set.now arrivals.now) × (reply.value ≡ 1)) }
{
    let scenario = scenario.choosing(arrivals);
    let setting = scenario.setting();
    let played = run(alloc, setting, set)?;
    let delays = told_delays(alloc, setting, &played)?;
    let mut text = report(alloc, setting.spec.budget(), &Some(*set))?;
    push_delays(&mut text, delays.as_slice())?;
    Ok(Reply {
        text,
        value: 1,
        said: Said::Late { set: *set, delays },
    })
}
