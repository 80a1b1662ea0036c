//! Sweeps, from the files of their texts to the lines.

ghost use Rattle.std.specs.Prelude.{◌≡◌, ◌≢◌, false, option_map, string_bytes, IfOk};
ghost use Rattle.leastfault.specs.Protocols.{protocol_refusal};
ghost use Rattle.lf_sweep.specs.Studies.{WasSwept};
ghost use Rattle.leastfault_sweep.specs.Executed.{IsExecuted, IsPastProtocol, IsSweptOrNot, end_status};
ghost use Rattle.leastfault_sweep.specs.Replies.{RefusesBy, RepliesBy, text_of};

use crate::reading::{SweepTexts, read_sweep};
use crate::sweeping::{sweep, sweep_shared};
use leastfault::{
    BytesFault, Files, LONGEST, ProtocolError, ScenarioError, Sink, protocol_refusal,
    read_protocol, refusal,
};
use lf_sweep::{Counts, Marks, Study, SweepFault};
use lf_sweep_words::SweepAsked;
use std::alloc::{AllocError, Global};
use std::thread::Threads;

/// What a sweep comes to.
#[derive(Debug, Drop)]
pub enum Ended {
    /// The line of each combination was written. These are the counts of the replies.
    Swept(Counts),
    /// The protocol file or the scenario as a whole is refused: this line says so, and nothing was written.
    Refused(String),
    /// The scenario has a date, with the values of a combination, that TOML can't write.
    Undated,
}

impl Ended {
    /// The status: that of the replies' counts, or else 2.
    pub fn status(&self) -> u8
        ensures { result ≡ end_status self.now }
    {
        match self {
            Ended::Swept(counts) => counts.status(),
            Ended::Refused(_) | Ended::Undated => 2,
        }
    }
}

/// What a sweep came to, and the texts that it read.
#[derive(Debug, Drop)]
pub struct SweepExecuted {
    /// What it came to.
    pub ended: Ended,
    /// Which combinations stand out, of those whose lines were written.
    pub marks: Marks,
    /// The texts that the words name.
    pub texts: SweepTexts,
}

/// Sweeps as it is asked, and writes the line of each combination as it comes, in order.
///
/// The protocol's file is read first, where one is named, and then the scenario: of each at most one byte past the longest text. Both are
/// read before anything is refused; then the protocol's refusal comes first. The lines are those of one worker, by however many. Nothing is
/// written but the lines.
///
/// The fault is `Read` exactly where the files failed, `Write` exactly where the sink did, and else `Memory`. No read of the files may have
/// failed.
pub fn execute<T: Threads + Sync, F: Files, W: Sink>(
    threads: &T,
    alloc: Global,
    asked: &SweepAsked,
    files: &mut F,
    writer: &mut W,
) -> Result<SweepExecuted, BytesFault>
    requires read { (F.desk files.old).read_failed ≡ false }
    requires writer { W.has_failed writer.old ≡ false }
    ensures { IsExecuted W.written W.has_failed asked.now (F.desk files.old) (F.desk files.new) writer.old writer.new result }
{
    let texts = read_sweep(alloc, asked, files)?;
    let given = given(&texts.protocol);
    let mut marks = Marks::none();
    let ended = come_to(
        threads,
        alloc,
        asked,
        given,
        texts.scenario.as_slice(),
        writer,
        &mut marks,
    )?;
    Ok(SweepExecuted {
        ended,
        marks,
        texts,
    })
}

/// The bytes of a text, where there is one.
fn given(text: &Option<Vec<u8>>) -> Option<&[u8]>
    ensures { text_of result ≡ option_map (λ bytes. bytes.items) text.now }
{
    match text {
        Some(text) => Some(text.as_slice()),
        None => None,
    }
}

/// What a sweep comes to, by the texts.
fn come_to<T: Threads + Sync, W: Sink>(
    threads: &T,
    alloc: Global,
    asked: &SweepAsked,
    protocol: Option<&[u8]>,
    scenario: &[u8],
    writer: &mut W,
    marks: &mut Marks,
) -> Result<Ended, BytesFault>
    requires { W.has_failed writer.old ≡ false }
    ensures { IsSweptOrNot W.written W.has_failed asked.now (text_of protocol.entry) scenario.now writer.old writer.new result }
{
    if let Some(line) = refused_file(alloc, protocol)? {
        return Ok(Ended::Refused(line));
    }
    if scenario.len() > LONGEST {
        return Ok(Ended::Refused(refusal(alloc, ScenarioError::TooLong)?));
    }
    let study = Study {
        scenario,
        plan: &asked.plan,
    };
    match swept(threads, alloc, asked, protocol, &study, writer, marks) {
        Ok(counts) => Ok(Ended::Swept(counts)),
        Err(SweepFault::NoDocument) => {
            Ok(Ended::Refused(refusal(alloc, ScenarioError::NoDocument)?))
        }
        Err(SweepFault::Date) => Ok(Ended::Undated),
        Err(SweepFault::Protocol) => unreachable!(),
        Err(SweepFault::Memory) => Err(BytesFault::Memory),
        Err(SweepFault::Write) => Err(BytesFault::Write),
    }
}

/// Sweeps, by as many workers as are asked for.
fn swept<T: Threads + Sync, W: Sink>(
    threads: &T,
    alloc: Global,
    asked: &SweepAsked,
    protocol: Option<&[u8]>,
    study: &Study<'_>,
    writer: &mut W,
    marks: &mut Marks,
) -> Result<Counts, SweepFault>
    requires { W.has_failed writer.old ≡ false }
    ensures { WasSwept W.written W.has_failed (RepliesBy (text_of protocol.entry) asked.now.by) (RefusesBy (text_of protocol.entry))
        study.now.scenario.now study.now.plan.now.varied.items asked.now.part writer.old writer.new result }
{
    let (by, part) = (asked.by, asked.part);
    if asked.workers <= 1 {
        sweep(alloc, protocol, by, study, part, writer, marks)
    } else {
        sweep_shared(
            threads,
            alloc,
            protocol,
            by,
            study,
            part,
            asked.workers,
            writer,
            marks,
        )
    }
}

/// The line of the refusal of a protocol file. None where none is given, or where it is one.
fn refused_file(alloc: Global, protocol: Option<&[u8]>) -> Result<Option<String>, AllocError>
    ensures { IfOk result (IsPastProtocol (text_of protocol.entry)) }
{
    let Some(text) = protocol else {
        return Ok(None);
    };
    match read_protocol(alloc, text) {
        Ok(_) => Ok(None),
        Err(error) => Ok(Some(refused_line(alloc, &error)?)),
    }
}

/// The line of a refusal. The error is that memory has run out, here or in the reading.
fn refused_line(alloc: Global, error: &ProtocolError) -> Result<String, AllocError>
    ensures { IfOk result (λ line. (error.now ≢ ProtocolError.Memory) × (string_bytes line ≡ protocol_refusal error.now)) }
{
    if matches!(error, ProtocolError::Memory) {
        return Err(AllocError);
    }
    protocol_refusal(alloc, error)
}
