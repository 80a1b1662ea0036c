//! Who replies to the questions.

ghost use Rattle.std.specs.Prelude.{◌≡◌, ◌⊎◌, ◌≤◌, codes, false, length, IfErr, IfOk, string_bytes};
ghost use Rattle.leastfault.specs.Delayed.{IsAnswerAsked};
ghost use Rattle.leastfault.specs.Known.{known_of};
ghost use Rattle.leastfault_sweep.specs.Replies.{text_of};
ghost use Rattle.leastfault_doubt.specs.Replies.{HasNoReply, IsAnswered, IsAnsweredOrOpen, IsAnsweredWith, IsReplyOf, IsReplyTo, told_line};

use crate::limit::Limit;
use leastfault::{ProtocolFile, Reply, Said, answer_reply, every_delay_reply};
use lf_changes::{changed_text, known, mutant};
use lf_doubt::{Change, Question, holds_reply, taken_reply};
use lf_mutations::Mutation;
use lf_sweep::{Line, Questions, Replied, SweepFault, kind_of, line_of};
use std::alloc::{AllocError, Global};
use std::rt::HostRuntime;

/// The questions about the answer to a scenario, and what they are asked of.
#[derive(Drop)]
pub(crate) struct Doubt<'a> {
    /// By which the time of a question is told.
    pub(crate) clock: &'a HostRuntime,
    /// The most seconds that a question may take, where they are limited.
    pub(crate) seconds: Option<u32>,
    /// The text of the protocol file, where there is one.
    pub(crate) protocol: Option<&'a [u8]>,
    /// The text of the scenario.
    pub(crate) scenario: &'a [u8],
    /// The answer.
    pub(crate) given: &'a Replied,
    /// What is asked.
    pub(crate) questions: &'a [Question],
    ghost few: { length questions.now ≤ 1000000000 },
}

impl Questions for Doubt<'_> {
    ghost total = { λ d. length d.questions.now };

    ghost is_reply = { λ d. IsReplyTo d.seconds (text_of d.protocol) d.scenario.now (string_bytes d.given.now.text, d.given.now.status) d.questions.now };

    ghost line = { λ d. told_line d.questions.now };

    ghost refuses = { λ d number. HasNoReply (text_of d.protocol) d.scenario.now };

    fn count(&self) -> u64 {
        self.questions.len() as u64
    }

    fn ask(&self, alloc: Global, number: u64) -> Result<Line, SweepFault> {
        let question = self.questions[number as usize];
        let reply = replied(alloc, self, question)?;
        let kind = kind_of(reply.text.as_str(), reply.status);
        let bytes = line_of(alloc, &[question.name(alloc)?], reply.text.as_str())?;
        Ok(Line {
            bytes,
            kind,
            faults: reply.faults,
        })
    }
}

/// The reply to a question.
fn replied(alloc: Global, doubt: &Doubt<'_>, question: Question) -> Result<Replied, SweepFault>
    ensures reply { IfOk result (λ reply. IsReplyOf doubt.now.seconds (text_of doubt.now.protocol) doubt.now.scenario.now
        (string_bytes doubt.now.given.now.text, doubt.now.given.now.status) question
        (string_bytes reply.text) reply.status) }
    ensures cause { IfErr result (λ e. (e ≡ SweepFault.Memory) ⊎ HasNoReply (text_of doubt.now.protocol) doubt.now.scenario.now e) }
{
    match question {
        Question::Given => Ok(given(alloc, doubt.given)?),
        Question::Taken { times, runs, .. } => Ok(counted(taken_reply(alloc, times, runs)?)),
        Question::Part(stake) => Ok(counted(holds_reply(alloc, stake.times, stake.runs)?)),
        Question::Rule(mutation) => without(alloc, doubt, mutation),
        Question::With(change) => with(alloc, doubt, false, change),
        Question::EveryDelay => answered(alloc, doubt, true, doubt.scenario),
        Question::Spread => with(alloc, doubt, true, Change::Spread(1)),
    }
}

/// The answer, which is given.
fn given(alloc: Global, given: &Replied) -> Result<Replied, AllocError>
    ensures text { IfOk result (λ reply. string_bytes reply.text ≡ string_bytes given.now.text) }
    ensures status { IfOk result (λ reply. reply.status ≡ given.now.status) }
{
    Ok(Replied {
        text: String::from_str(alloc, given.text.as_str())?,
        status: given.status,
        faults: given.faults,
    })
}

/// A reply that tells what was counted.
fn counted(text: String) -> Replied
    ensures text { result.text ≡ text }
    ensures status { result.status ≡ 0 }
{
    Replied {
        text,
        status: 0,
        faults: None,
    }
}

/// The answer with the given protocol.
fn answered(
    alloc: Global,
    doubt: &Doubt<'_>,
    every_delay: bool,
    text: &[u8],
) -> Result<Replied, SweepFault>
    ensures reply { IfOk result (λ reply. IsAnswered doubt.now.seconds (text_of doubt.now.protocol) doubt.now.scenario.now
        (string_bytes doubt.now.given.now.text, doubt.now.given.now.status) every_delay text.now
        (string_bytes reply.text) reply.status) }
    ensures cause { IfErr result (λ e. (e ≡ SweepFault.Memory) ⊎ HasNoReply (text_of doubt.now.protocol) doubt.now.scenario.now e) }
{
    let limit = Limit::from_now(doubt.clock, doubt.seconds);
    match doubt.protocol {
        None => Ok(asked(alloc, None, every_delay, text, &limit)?),
        Some(protocol) => {
            let file = known(alloc, protocol)?;
            Ok(asked(alloc, Some(&file), every_delay, text, &limit)?)
        }
    }
}

/// The answer where a key of the scenario has another value.
fn with(
    alloc: Global,
    doubt: &Doubt<'_>,
    every_delay: bool,
    change: Change,
) -> Result<Replied, SweepFault>
    ensures reply { IfOk result (λ reply. IsAnsweredWith doubt.now.seconds (text_of doubt.now.protocol) doubt.now.scenario.now
        (string_bytes doubt.now.given.now.text, doubt.now.given.now.status) every_delay change
        (string_bytes reply.text) reply.status) }
    ensures cause { IfErr result (λ e. (e ≡ SweepFault.Memory) ⊎ HasNoReply (text_of doubt.now.protocol) doubt.now.scenario.now e) }
{
    let text = changed_text(alloc, doubt.scenario, change)?;
    answered(alloc, doubt, every_delay, text.as_bytes())
}

/// The answer where one thing of one rule is changed.
fn without(alloc: Global, doubt: &Doubt<'_>, mutation: Mutation) -> Result<Replied, SweepFault>
    ensures reply { IfOk result (λ reply. IsReplyOf doubt.now.seconds (text_of doubt.now.protocol) doubt.now.scenario.now
        (string_bytes doubt.now.given.now.text, doubt.now.given.now.status) (Question.Rule mutation)
        (string_bytes reply.text) reply.status) }
    ensures cause { IfErr result (λ e. (e ≡ SweepFault.Memory) ⊎ HasNoReply (text_of doubt.now.protocol) doubt.now.scenario.now e) }
{
    let limit = Limit::from_now(doubt.clock, doubt.seconds);
    let Some(protocol) = doubt.protocol else {
        return Ok(no_rule(alloc)?);
    };
    match mutant(alloc, protocol, mutation)? {
        Some(file) => Ok(asked(alloc, Some(&file), false, doubt.scenario, &limit)?),
        None => Ok(no_rule(alloc)?),
    }
}

/// The reply where there is nothing that is changed so.
fn no_rule(alloc: Global) -> Result<Replied, AllocError>
    ensures { IfOk result (λ reply. (string_bytes reply.text ≡ codes "no such rule\n") × (reply.status ≡ 2)) }
{
    Ok(Replied {
        text: String::from_str(alloc, "no such rule\n")?,
        status: 2,
        faults: None,
    })
}

/// The answer to a scenario's text, or that it is left open where it takes too long.
fn asked(
    alloc: Global,
    known: Option<&ProtocolFile>,
    every_delay: bool,
    text: &[u8],
    limit: &Limit<'_>,
) -> Result<Replied, AllocError>
    ensures { IfOk result (λ reply. IsAnsweredOrOpen limit.now.seconds (known_of known.entry) every_delay text.now (string_bytes reply.text) reply.status) }
{
    match reply_of(alloc, known, every_delay, text, limit) {
        Ok(reply) => Ok(reply),
        Err(_) if limit.is_over() => Ok(Replied {
            text: String::from_str(alloc, "open\n")?,
            status: 2,
            faults: None,
        }),
        Err(error) => Err(error),
    }
}

/// The answer to a scenario's text, by its seed or over every delay. There is none where memory runs out, or the time is over.
fn reply_of(
    alloc: Global,
    known: Option<&ProtocolFile>,
    every_delay: bool,
    text: &[u8],
    limit: &Limit<'_>,
) -> Result<Replied, AllocError>
    ensures { IfOk result (λ reply. IsAnswerAsked (known_of known.entry) every_delay text.now (string_bytes reply.text) reply.status) }
{
    let reply = answer_in(alloc, known, every_delay, text, limit)?;
    Ok(told_by(reply))
}

/// The same as the engine gives it.
fn answer_in(
    alloc: Global,
    known: Option<&ProtocolFile>,
    every_delay: bool,
    text: &[u8],
    limit: &Limit<'_>,
) -> Result<Reply<u8>, AllocError>
    ensures { IfOk result (λ reply. IsAnswerAsked (known_of known.entry) every_delay text.now (string_bytes reply.text) reply.value) }
{
    if every_delay {
        every_delay_reply(alloc, known, text, limit)
    } else {
        answer_reply(alloc, known, text, limit)
    }
}

/// The reply of an engine as that to a question.
pub(crate) fn told_by(reply: Reply<u8>) -> Replied
    ensures text { result.text ≡ reply.text }
    ensures status { result.status ≡ reply.value }
{
    let Reply { text, value, said } = reply;
    Replied {
        text,
        status: value,
        faults: faults_of(&said),
    }
}

/// How many faults the answer has, where a reply tells of one that defeats the outcome.
fn faults_of(said: &Said) -> Option<u32> {
    match said {
        Said::Answer(Some(set)) | Said::Late { set, .. } => u32::try_from(set.len()).ok(),
        _ => None,
    }
}
