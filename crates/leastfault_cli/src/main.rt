//! The program `leastfault`: it reads a scenario and prints the fewest faults that defeat its outcome, or one run, or whether
//! a certificate of its answer is right; or it reads a protocol file and prints whether it is one.
//!
//!     leastfault search FILE [--protocol PROTOCOL] [--all] [--tree TREE] [--workers N] [--quiet]
//!     leastfault answer FILE [--protocol PROTOCOL] [--every-delay] [--quiet]
//!     leastfault why FILE [--protocol PROTOCOL] [--quiet]
//!     leastfault run FILE FAULTS [--protocol PROTOCOL] [--delays LIST] [--rules | --changes | --json | --beside FAULTS]
//!     leastfault draw FILE FAULTS [--protocol PROTOCOL] [--delays LIST]
//!     leastfault check FILE TREE [--protocol PROTOCOL] [--quiet]
//!     leastfault protocol FILE
//!     leastfault sweep FILE --vary KEY=VALUES .. [--by answer|search] [--workers N] [--part I/N] [--json] [--protocol PROTOCOL] [--quiet]
//!     leastfault doubt FILE [--protocol PROTOCOL] [--deep] [--seconds S] [--workers N] [--part I/N] [--json] [--quiet]
//!
//! PROTOCOL is the file of a protocol that the scenario names besides the shipped ones, always a file's name, also where it is `-`.
//!
//! FILE is a scenario, or for `protocol` a protocol file, and `-` is standard input. FAULTS are faults joined by single commas, and the
//! empty word is none. TREE is a certificate, and `-` is standard input; it can't be that of FILE and of TREE at once. With no words it is
//! `search -`. With `--all` a search prints all sets with so few faults, and with `--tree` it writes the certificate of its answer into the
//! file TREE, and then the reply. With `--workers` N workers search at once, 1 to 32: the reply and the certificate are the same.
//!
//! `answer` prints what `search` does, by another way: it keeps configurations of the cluster and no sets, so no level can be too full, and
//! it makes no certificate. `why` prints what `search` does, and behind it what each fault is needed for, or what stands behind `none`.
//!
//! `answer --every-delay` prints the answer whatever each note takes between its link's least delay and its spread more, and behind the
//! faults the notes that are late: `arrive 0>1 @9 13` is sent at step 9 and arrives at step 13. With `--delays` a run or a picture has such
//! notes, `0>1 @9 13,2>0 @5 9`, and every other note takes its least delay; the empty word is none.
//!
//! With `--protocol` the scenario may name the protocol of that file, and give its constants anew; `run --rules` prints under each step which
//! of its rules each node took. `run --changes` prints of each step only the nodes that change, and the notes; `run --beside FAULTS` prints
//! only the lines that differ from those of the run with these faults; `run --json` prints it as a JSON document. `draw` prints the run as a picture, an SVG
//! document.
//!
//! `sweep` prints a line for each combination of values: the values, and the reply to the scenario that has them, with tabs between. `--vary` gives
//! a key its values, `--by` says which command replies, `--part` takes one of N parts of the combinations, and `--json` makes each line an object.
//! Standard error counts the replies and says what is wrong with the first combination that is refused, but with `--quiet`.
//!
//! `doubt` asks what the answer hangs on: it prints a line for the answer, and one for each question about it, with a tab before the reply: how often
//! each rule is taken and what comes of it where it never is and where it always is, what the parts of the promise speak of, the answer with wider
//! bounds, and whether a value passes its range. Standard error has a summary, but with `--quiet`. The status is that of the answer.
//!
//! `protocol` prints `ok` where the file is a protocol file, and else `refused protocol NUMBER PLACE`, without the place where the file as
//! a whole is refused.
//!
//! The status is 0 where no allowed set of faults defeats the outcome, where the run reaches it, where the certificate is right, where the
//! file is a protocol file, and after help or the version; 1 where a set defeats it, the run misses it, or the certificate is wrong; 2 where
//! the scenario, the faults, the delays, the certificate's text, the protocol file or the words are refused, or a level of the search is too full; and 3
//! where memory ran out, a device failed, or the workers gave no answer: standard error then has the line `memory`, `read` or `write`,
//! with the device on the next line, or `pool NUMBER`.
//!
//! Where the status is 2, standard error says in words what is wrong with what was refused. Where a protocol file is one, it says what the
//! file has, and what in it looks like a slip. Of a search, `why` and a run with `--protocol` it says which rules no node has, and where the
//! run without faults passes a range or replaces a note, and of an answer over every delay that a seed plays no part. Else it stays empty where
//! all is well. But where it is a terminal, a search, an answer, `why` or a check that takes longer than a second says on one line there how far
//! it has come, and erases that line before it replies. With `--quiet` it doesn't.
#![tactic(auto)]

mod combination;
mod devices;
mod disk;
mod doubting;
mod hint;
mod json_line;
mod line;
mod report;
mod same_file;
mod stop;
mod summary;
mod sweeping;
mod tally;
mod telling;

use devices::print;
use disk::Disk;
use doubting::doubt_done;
use hint::words_of;
use leastfault::{Asked, BytesFault, Executed, Unasked, asked, certificate_file, execute};
use line::Line;
use same_file::is_same_file;
use std::env;
use std::io::{ErrorKind, IsTerminal};
use std::process::ExitCode;
use std::rt::Clock;
use std::sync::Wait;
use std::thread::Threads;
use stop::Stop;
use sweeping::sweep_done;
use telling::hinted;

fn main(rt: HostRuntime) -> ExitCode {
    match status(&rt, &rt) {
        Ok(status) => ExitCode::from(status),
        Err(stop) => {
            stop.tell(&rt);
            ExitCode::from(3)
        }
    }
}

/// Does what the words ask for, in threads where that helps. The answer is the status.
fn status(rt: &HostRuntime, threads: &(impl Threads + Wait + Clock + Sync)) -> Result<u8, Stop> {
    let mut words = match env::args(rt) {
        Ok(words) => words,
        Err(error) if error.kind() == ErrorKind::OutOfMemory => {
            return Err(Stop::from(BytesFault::Memory));
        }
        Err(_) => {
            let _printed = eprintln!(rt; "error: a word is not UTF-8").is_ok();
            return Ok(2);
        }
    };
    let _program = words.next();
    let Ok(words) = words.collect::<Vec<String>>(rt.alloc()) else {
        return Err(Stop::from(BytesFault::Memory));
    };
    if words.is_empty() && rt.stdin().is_terminal() {
        let _told = eprintln!(rt; "reading a scenario from standard input; see --help").is_ok();
    }
    if let Some((first, rest)) = words.as_slice().split_first() {
        if first.as_str() == "sweep" {
            return sweep_done(rt, threads, rest);
        }
        if first.as_str() == "doubt" {
            return doubt_done(rt, threads, rest);
        }
    }
    match asked(rt.alloc(), words.as_slice()) {
        Ok(asked) => done(rt, threads, &asked),
        Err(unasked) => told(rt, &unasked),
    }
}

/// Tells why the words ask for nothing: help and the version on standard output, and anything else on standard error.
fn told(rt: &HostRuntime, unasked: &Unasked) -> Result<u8, Stop> {
    if unasked.status() == 3 {
        return Err(Stop::from(BytesFault::Memory));
    }
    if unasked.is_error() {
        return match eprint!(rt; "{}", unasked.text()) {
            Ok(()) => Ok(unasked.status()),
            Err(_) => Err(Stop::from(BytesFault::Write)),
        };
    }
    print(rt, unasked.text())?;
    Ok(unasked.status())
}

/// Does what is asked with the files that are named. The answer is the status.
fn done(
    rt: &HostRuntime,
    threads: &(impl Threads + Wait + Clock + Sync),
    asked: &Asked,
) -> Result<u8, Stop> {
    if let Some(unasked) = overwriting(rt, asked) {
        return told(rt, &unasked);
    }
    let line = Line::new(rt, is_quiet(asked));
    let mut disk = Disk::new(rt, &line);
    let ended = execute(threads, rt.alloc(), asked, &mut disk, &line);
    line.erase();
    match ended {
        Ok(done) => {
            hinted(rt, words_of(rt, asked, &done));
            Ok(done.reply.value.status)
        }
        Err(fault) => Err(disk.stopped(fault)),
    }
}

/// The refusal of a certificate that would be written over the scenario or the protocol, by another name of the same file.
fn overwriting(rt: &HostRuntime, asked: &Asked) -> Option<Unasked> {
    let tree = certificate_file(asked)?;
    if asked.file() != "-" && is_same_file(rt, tree, asked.file()) {
        return Some(Unasked::overwriting(rt.alloc(), tree, "scenario"));
    }
    let protocol = asked.protocol_file()?;
    if is_same_file(rt, tree, protocol) {
        return Some(Unasked::overwriting(rt.alloc(), tree, "protocol"));
    }
    None
}

/// Whether nothing is to be told on the way.
fn is_quiet(asked: &Asked) -> bool {
    match asked {
        Asked::Search { quiet, .. }
        | Asked::Answer { quiet, .. }
        | Asked::Why { quiet, .. }
        | Asked::Check { quiet, .. } => *quiet,
        Asked::Run { .. } | Asked::Draw { .. } | Asked::Protocol { .. } => true,
    }
}
