//! The questions about the answer to a scenario, and their lines.

ghost use Rattle.std.specs.Prelude.{◌≡◌, ◌≤◌, false, length, string_bytes, IfOk, IfSome};
ghost use Rattle.lf_protocol_file.specs.Files.{IsText};
ghost use Rattle.lf_sweep.specs.Limits.{most_combinations};
ghost use Rattle.leastfault.specs.Known.{known_of};
ghost use Rattle.leastfault_sweep.specs.Replies.{text_of};
ghost use Rattle.leastfault_doubt.specs.Doubts.{IsBegun, IsBegunWith, WasAsked};

use crate::asking::{Doubt, told_by};
use crate::ground::questions_for;
use leastfault::{
    ProtocolError, ProtocolFile, Reply, ScenarioError, Sink, Watch, answer_reply, protocol_refusal,
    read_known, read_protocol, refusal,
};
use lf_doubt::Question;
use lf_sweep::{Counts, Marks, Part, Replied, SweepFault, sweep, sweep_shared};
use std::alloc::{AllocError, Global};
use std::rt::HostRuntime;
use std::thread::Threads;

/// The texts that a doubt is about.
#[derive(Clone, Copy)]
pub struct Texts<'a> {
    /// That of the protocol's file, where there is one.
    pub protocol: Option<&'a [u8]>,
    /// That of the scenario.
    pub scenario: &'a [u8],
}

/// What is asked, of which texts.
#[derive(Clone, Copy)]
pub struct Asking<'a> {
    /// By which the time of a question is told.
    pub clock: &'a HostRuntime,
    /// The most seconds that a question may take, where they are limited.
    pub seconds: Option<u32>,
    pub texts: Texts<'a>,
    /// The answer.
    pub given: &'a Replied,
    pub questions: &'a [Question],
}

/// What is asked of the texts, before it is asked.
#[derive(Debug, Drop)]
pub enum Begun {
    /// One of them is refused, with this line.
    Refused(String),
    /// These are the answer and the questions about it.
    Ready {
        given: Replied,
        questions: Vec<Question>,
    },
}

/// The answer to a scenario and the questions about it, or why there are none: the protocol file is refused, where there is one, or else the scenario.
/// With `deep` each assignment and each send of a rule is left out in a question of its own. How far the answer has come is told. The error is that
/// memory has run out.
pub fn prepare<V: Watch>(
    alloc: Global,
    texts: &Texts<'_>,
    deep: bool,
    watch: &V,
) -> Result<Begun, AllocError>
    ensures { IfOk result (IsBegun (text_of texts.now.protocol) texts.now.scenario.now deep) }
{
    let Some(protocol) = texts.protocol else {
        return prepare_with(alloc, None, &[], texts.scenario, deep, watch);
    };
    match read_protocol(alloc, protocol) {
        Ok(file) => prepare_with(alloc, Some(&file), protocol, texts.scenario, deep, watch),
        Err(ProtocolError::Memory) => Err(AllocError),
        Err(error) => Ok(Begun::Refused(protocol_refusal(alloc, &error)?)),
    }
}

/// The same with the protocol of a file that is known, which this text is that of, or none.
fn prepare_with<V: Watch>(
    alloc: Global,
    known: Option<&ProtocolFile>,
    protocol: &[u8],
    text: &[u8],
    deep: bool,
    watch: &V,
) -> Result<Begun, AllocError>
    requires { IfSome (known_of known) (λ file. IsText file protocol.now) }
    ensures { IfOk result (IsBegunWith (known_of known.entry) text.now deep) }
{
    match read_known(alloc, text, known) {
        Ok(scenario) => {
            let given = told_by(answer_reply(alloc, known, text, watch)?);
            let questions = questions_for(alloc, known, protocol, text, &scenario, deep)?;
            Ok(Begun::Ready { given, questions })
        }
        Err(ScenarioError::Memory) => Err(AllocError),
        Err(error) => Ok(Begun::Refused(refusal(alloc, error)?)),
    }
}

/// Asks the questions of a part, and writes the line of each as it comes, in order, by so many workers at once. A question that takes longer than so many
/// seconds is left open, where they are limited. The marks take in which questions stand out. The answer is how many replies of each kind there are.
///
/// The error says why it ended before the last: `Write` exactly where the sink failed, `Memory` where memory ran out, `Protocol` only where the protocol
/// file is refused, and `NoDocument` and `Date` only where the scenario has no text with another value.
pub fn ask<T: Threads + Sync, W: Sink>(
    threads: &T,
    alloc: Global,
    asking: &Asking<'_>,
    part: Part,
    workers: u32,
    writer: &mut W,
    marks: &mut Marks,
) -> Result<Counts, SweepFault>
    requires few { length asking.now.questions.now ≤ most_combinations }
    requires writer { W.has_failed writer.old ≡ false }
    ensures { WasAsked W.written W.has_failed asking.now.seconds (text_of asking.now.texts.protocol) asking.now.texts.scenario.now
        (string_bytes asking.now.given.now.text, asking.now.given.now.status) asking.now.questions.now part writer.old writer.new result }
{
    let doubt = Doubt {
        clock: asking.clock,
        seconds: asking.seconds,
        protocol: asking.texts.protocol,
        scenario: asking.texts.scenario,
        given: asking.given,
        questions: asking.questions,
    };
    if workers <= 1 {
        sweep(alloc, &doubt, part, writer, marks)
    } else {
        sweep_shared(threads, alloc, &doubt, part, workers, writer, marks)
    }
}
