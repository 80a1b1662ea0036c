//! The command `sweep`: its devices, and what to say on standard error.

use crate::combination::refused_words;
use crate::devices::print;
use crate::disk::Disk;
use crate::line::Line;
use crate::report::{Report, Unwritten};
use crate::stop::Stop;
use crate::tally::tally_words;
use crate::telling::{hinted, told, unasked_told};
use leastfault::{BytesFault, read, read_protocol};
use leastfault_sweep::{
    Counts, Ended, Study, SweepAsked, SweepExecuted, SweepTexts, execute, names_of, sweep_asked,
};
use lf_hints::scenario_hint;
use lf_protocol_hints::protocol_hint;
use std::alloc::AllocError;
use std::thread::Threads;

/// Does what the words behind `sweep` ask for. The answer is the status.
pub(crate) fn sweep_done(
    rt: &HostRuntime,
    threads: &(impl Threads + Sync),
    words: &[String],
) -> Result<u8, Stop> {
    match sweep_asked(rt.alloc(), words) {
        Ok(asked) => done(rt, threads, &asked),
        Err(unasked) => unasked_told(rt, &unasked),
    }
}

/// Sweeps as it is asked, with the files that are named. The answer is the status.
fn done(rt: &HostRuntime, threads: &(impl Threads + Sync), asked: &SweepAsked) -> Result<u8, Stop> {
    let alloc = rt.alloc();
    let Ok(names) = names_of(alloc, asked.plan.varied()) else {
        return Err(Stop::from(BytesFault::Memory));
    };
    let line = Line::new(rt, true);
    let mut disk = Disk::new(rt, &line);
    let mut report = Report::new(alloc, rt.stdout(), names.as_slice(), asked.json, None);
    match execute(threads, alloc, asked, &mut disk, &mut report) {
        Ok(done) => {
            said(rt, asked, names.as_slice(), &done)?;
            Ok(done.ended.status())
        }
        Err(fault) => Err(stopped(rt, fault, disk, &report)),
    }
}

/// Says what a sweep comes to: its counts on standard error, or that it is refused.
fn said(
    rt: &HostRuntime,
    asked: &SweepAsked,
    names: &[String],
    done: &SweepExecuted,
) -> Result<(), Stop> {
    match &done.ended {
        Ended::Swept(counts) => {
            if !asked.quiet {
                counted(rt, asked, names, counts, done);
            }
            Ok(())
        }
        Ended::Refused(line) => {
            print(rt, line.as_str())?;
            hinted(rt, refused(rt, &done.texts));
            Ok(())
        }
        Ended::Undated => {
            let _status = told(rt, "the scenario has a date that can't be written\n")?;
            Ok(())
        }
    }
}

/// Counts the replies on standard error, and says there what is wrong with the first combination that is refused.
fn counted(
    rt: &HostRuntime,
    asked: &SweepAsked,
    names: &[String],
    counts: &Counts,
    done: &SweepExecuted,
) {
    let (alloc, plan) = (rt.alloc(), &asked.plan);
    hinted(rt, tally_words(alloc, plan, names, counts, &done.marks));
    let Some(number) = done.marks.refused else {
        return;
    };
    let study = Study {
        scenario: done.texts.scenario.as_slice(),
        plan,
    };
    hinted(
        rt,
        refused_words(alloc, protocol_of(&done.texts), &study, names, number),
    );
}

/// The text of the protocol's file, where one is named.
fn protocol_of(texts: &SweepTexts) -> Option<&[u8]> {
    match &texts.protocol {
        Some(bytes) => Some(bytes.as_slice()),
        None => None,
    }
}

/// What is wrong with a protocol file, or else with a scenario, that is refused as a whole.
fn refused(rt: &HostRuntime, texts: &SweepTexts) -> Result<String, AllocError> {
    let alloc = rt.alloc();
    if let Some(protocol) = protocol_of(texts) {
        if let Err(error) = read_protocol(alloc, protocol) {
            return protocol_hint(alloc, protocol, &error);
        }
    }
    let text = texts.scenario.as_slice();
    match read(alloc, text) {
        Ok(_) => Ok(String::new(alloc)),
        Err(error) => scenario_hint(alloc, text, error),
    }
}

/// Why a sweep has no whole output: a fault, and the device that failed with the system's reason, where one did.
fn stopped(rt: &HostRuntime, fault: BytesFault, disk: Disk<'_>, report: &Report<'_>) -> Stop {
    match (fault, report.unwritten()) {
        (BytesFault::Write, Some(Unwritten::Output(error))) => {
            Stop::at(rt.alloc(), fault, "standard output", error)
        }
        (BytesFault::Write, _) => Stop::from(BytesFault::Memory),
        _ => disk.stopped(fault),
    }
}
