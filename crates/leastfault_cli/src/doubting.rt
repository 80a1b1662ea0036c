//! The command `doubt`: its devices, and what to say on standard error.

use crate::devices::print;
use crate::disk::Disk;
use crate::hint::with_option;
use crate::line::Line;
use crate::report::{Kept, Report, Unwritten};
use crate::stop::Stop;
use crate::summary::summary_words;
use crate::telling::{hinted, told, unasked_told};
use leastfault::{BytesFault, Files, LONGEST, Place, place_of, read_known, read_protocol};
use leastfault_doubt::{Asking, Begun, Question, Texts, ask, prepare};
use lf_doubt_words::{DoubtAsked, doubt_asked};
use lf_hints::scenario_hint;
use lf_protocol_hints::{own_hint, protocol_hint};
use lf_streams::ReadFault;
use lf_sweep::{Counts, MOST_COMBINATIONS, Marks, Replied, SweepFault};
use std::alloc::AllocError;
use std::thread::Threads;

/// Does what the words behind `doubt` ask for. The answer is the status.
pub(crate) fn doubt_done(
    rt: &HostRuntime,
    threads: &(impl Threads + Sync),
    words: &[String],
) -> Result<u8, Stop> {
    match doubt_asked(rt.alloc(), words) {
        Ok(asked) => done(rt, threads, &asked),
        Err(unasked) => unasked_told(rt, &unasked),
    }
}

/// The texts of a doubt, as they were read.
#[derive(Drop)]
struct Given {
    protocol: Option<Vec<u8>>,
    scenario: Vec<u8>,
}

impl Given {
    /// The same, lent.
    fn texts(&self) -> Texts<'_> {
        Texts {
            protocol: match &self.protocol {
                Some(bytes) => Some(bytes.as_slice()),
                None => None,
            },
            scenario: self.scenario.as_slice(),
        }
    }
}

/// Doubts as it is asked, with the files that are named.
fn done(rt: &HostRuntime, threads: &(impl Threads + Sync), asked: &DoubtAsked) -> Result<u8, Stop> {
    let line = Line::new(rt, asked.quiet);
    let given = read(rt, asked, &line)?;
    let begun = prepare(rt.alloc(), &given.texts(), asked.deep, &line);
    line.erase();
    match begun {
        Ok(Begun::Refused(line)) => {
            print(rt, line.as_str())?;
            hinted(rt, refused(rt, &given));
            Ok(2)
        }
        Ok(
            Begun::Ready {
                given: answer,
                questions,
            },
        ) => written(
            rt,
            threads,
            asked,
            &line,
            &given,
            &answer,
            questions.as_slice(),
        ),
        Err(_) => Err(Stop::from(BytesFault::Memory)),
    }
}

/// Asks the questions, and writes their lines. The answer is the status, that of the scenario's answer.
fn written(
    rt: &HostRuntime,
    threads: &(impl Threads + Sync),
    asked: &DoubtAsked,
    line: &Line<'_>,
    given: &Given,
    answer: &Replied,
    questions: &[Question],
) -> Result<u8, Stop> {
    let total = questions.len() as u64;
    if total > MOST_COMBINATIONS {
        return told(rt, "there are too many questions\n");
    }
    let Ok(names) = names(rt) else {
        return Err(Stop::from(BytesFault::Memory));
    };
    let kept = Kept::new(rt.alloc(), line, asked.part.count(total));
    let mut report = Report::new(
        rt.alloc(),
        rt.stdout(),
        names.as_slice(),
        asked.json,
        Some(kept),
    );
    let mut marks = Marks::none();
    let asking = Asking {
        clock: rt,
        seconds: asked.seconds,
        texts: given.texts(),
        given: answer,
        questions,
    };
    let done = ask(
        threads,
        rt.alloc(),
        &asking,
        asked.part,
        asked.workers,
        &mut report,
        &mut marks,
    );
    line.erase();
    ended(rt, asked.quiet, answer.status, done, &report)
}

/// What comes of a doubt whose lines are written, or aren't. The answer is the status, which is this where they are.
fn ended(
    rt: &HostRuntime,
    quiet: bool,
    status: u8,
    done: Result<Counts, SweepFault>,
    report: &Report<'_>,
) -> Result<u8, Stop> {
    match done {
        Ok(_) => {
            if !quiet {
                hinted(rt, summary_words(rt.alloc(), report.kept()));
            }
            Ok(status)
        }
        Err(SweepFault::Write) => Err(stopped(rt, report)),
        Err(SweepFault::Memory) => Err(Stop::from(BytesFault::Memory)),
        Err(SweepFault::Date) => told(rt, "the scenario has a date that can't be written\n"),
        Err(SweepFault::NoDocument | SweepFault::Protocol) => told(rt, "a text was refused\n"),
    }
}

/// What the cell before the reply is called.
fn names(rt: &HostRuntime) -> Result<Vec<String>, AllocError> {
    let name = String::from_str(rt.alloc(), "question")?;
    Ok(vec![in rt.alloc(); name]?)
}

/// The texts that the words name, read.
fn read(rt: &HostRuntime, asked: &DoubtAsked, line: &Line<'_>) -> Result<Given, Stop> {
    let protocol = match &asked.protocol {
        Some(file) => Some(text(rt, line, Place::File(file.as_str()))?),
        None => None,
    };
    Ok(Given {
        protocol,
        scenario: text(rt, line, place_of(asked.file.as_str()))?,
    })
}

/// The text of a file, or of standard input.
fn text(rt: &HostRuntime, line: &Line<'_>, place: Place<'_>) -> Result<Vec<u8>, Stop> {
    let mut disk = Disk::new(rt, line);
    match disk.read(rt.alloc(), place, LONGEST) {
        Ok(text) => Ok(text),
        Err(fault) => Err(disk.stopped(fault_of(&fault))),
    }
}

/// What a fault of a read is to the program.
fn fault_of(fault: &ReadFault) -> BytesFault {
    match fault {
        ReadFault::Failed => BytesFault::Read,
        ReadFault::Memory => BytesFault::Memory,
    }
}

/// What is wrong with a protocol file, or else with a scenario, that is refused.
fn refused(rt: &HostRuntime, given: &Given) -> Result<String, AllocError> {
    let (alloc, text) = (rt.alloc(), given.scenario.as_slice());
    let Some(protocol) = &given.protocol else {
        return match read_known(alloc, text, None) {
            Ok(_) => Ok(String::new(alloc)),
            Err(error) => with_option(alloc, error, scenario_hint(alloc, text, error)?),
        };
    };
    match read_protocol(alloc, protocol.as_slice()) {
        Ok(file) => match read_known(alloc, text, Some(&file)) {
            Ok(_) => Ok(String::new(alloc)),
            Err(error) => own_hint(alloc, text, &file, error),
        },
        Err(error) => protocol_hint(alloc, protocol.as_slice(), &error),
    }
}

/// Why a doubt has no whole output: the device that failed with the system's reason, or want of memory.
fn stopped(rt: &HostRuntime, report: &Report<'_>) -> Stop {
    match report.unwritten() {
        Some(Unwritten::Output(error)) => {
            Stop::at(rt.alloc(), BytesFault::Write, "standard output", error)
        }
        _ => Stop::from(BytesFault::Memory),
    }
}
