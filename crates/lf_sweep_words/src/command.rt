//! The command `sweep`, as `clap` reads and explains it.

ghost use Rattle.std.specs.Prelude.{◌≡◌, IfOk, false};
ghost use Rattle.clap.specs.Words.{App, Rule, rule_of, with_rule};
ghost use Rattle.lf_sweep_words.specs.Command.{IsBuilt, bare, file, flag, option, sweep, told, varying, vary, worked};

use clap::{Arg, ArgAction, Command};
use std::alloc::{AllocError, Global};

/// What the command does.
const ABOUT: &str =
    "Answers the scenario FILE for every combination of values: one line each, with tabs between
the values, the reply and its faults. The last --vary runs fastest.";

/// What VALUES are, how a study is spread over machines, examples, and the statuses.
const NOTES: &str =
    "KEY is a key of the scenario, or given.NAME for a constant of its protocol. VALUES are A..B, all whole numbers from A to B, or
values with commas between: what TOML reads, as 3, true, [2, 5] or \"a, b\", and else a text, as agreement. Of seed they are the last
digits. No key varies twice, nor within another that varies.

A combination that is refused has its line, as any other. At the end standard error counts the replies, and says what is wrong with
the first combination that is refused.

Examples:
  leastfault sweep commit.toml --vary patience=1..8 --vary seed=0..99
  leastfault sweep commit.toml --vary outcome=agreement,unblocked --workers 4
  leastfault sweep raft.toml --protocol raft_election.toml --vary given.stable=true,false --part 2/3
  leastfault sweep abd.toml --protocol abd.toml --vary 'given.enter=[5, 2, 9],[2, 5, 9]'

Exit status:
  0  no combination has faults that make it miss its outcome
  1  some combination has
  2  the arguments, the protocol file or the scenario as a whole are refused; or a combination is refused or `full`, and none has
     such faults
  3  out of memory (`memory`), or a file or stream failed (`read`, `write`)";

/// The command line of `sweep`.
pub(crate) fn command<'a>(alloc: Global) -> Result<Command<'a>, AllocError>
    ensures { IfOk result (IsBuilt sweep) }
{
    let protocol = option(
        alloc,
        "protocol",
        "PROTOCOL",
        "Lets the scenario name the protocol of the file PROTOCOL",
    );
    with_argument(
        told(worked(varying(bare(alloc), alloc), alloc), alloc),
        protocol,
    )
}

/// The command without arguments.
fn bare<'a>(alloc: Global) -> Result<Command<'a>, AllocError>
    ensures { IfOk result (IsBuilt bare) }
{
    Command::new(alloc, "sweep")
        .no_binary_name(true)
        .about(ABOUT)
        .after_help(NOTES)
        .bin_name("leastfault sweep")
}

/// The command with FILE and `--vary KEY=VALUES`.
fn varying<'a>(
    command: Result<Command<'a>, AllocError>,
    alloc: Global,
) -> Result<Command<'a>, AllocError>
    ensures { IfOk command.entry (IsBuilt bare) → IfOk result (IsBuilt varying) }
{
    with_argument(with_argument(command, file(alloc)), vary(alloc))
}

/// The argument FILE.
pub fn file<'a>(alloc: Global) -> Arg<'a>
    ensures { (rule_of result ≡ file) × (result.global ≡ false) }
{
    Arg::new(alloc, "file")
        .required(true)
        .value_name("FILE")
        .help("A scenario, a TOML file; - is standard input")
}

/// The option `--vary KEY=VALUES`, which may be there several times.
fn vary<'a>(alloc: Global) -> Arg<'a>
    ensures { (rule_of result ≡ vary) × (result.global ≡ false) }
{
    Arg::new(alloc, "vary")
        .long("vary")
        .required(true)
        .action(ArgAction::Append)
        .value_name("KEY=VALUES")
        .help("Gives a key these values in turn; as often as there are keys to vary")
}

/// The command with `--by ENGINE` and `--workers N` besides.
fn worked<'a>(
    command: Result<Command<'a>, AllocError>,
    alloc: Global,
) -> Result<Command<'a>, AllocError>
    ensures { IfOk command.entry (IsBuilt varying) → IfOk result (IsBuilt worked) }
{
    let by = option(
        alloc,
        "by",
        "ENGINE",
        "Answers as `answer` does, which is the default, or as `search`",
    );
    let workers = option(
        alloc,
        "workers",
        "N",
        "Asks with N workers at once, 1 to 32; every N gives the same lines",
    );
    with_argument(with_argument(command, by), workers)
}

/// The command with `--part I/N` and the flags `--json` and `--quiet` besides.
fn told<'a>(
    command: Result<Command<'a>, AllocError>,
    alloc: Global,
) -> Result<Command<'a>, AllocError>
    ensures { IfOk command.entry (IsBuilt worked) → IfOk result (IsBuilt told) }
{
    let part = option(
        alloc,
        "part",
        "I/N",
        "Asks of the I-th, the I+N-th combination and so on: one of N parts, up to 1000000",
    );
    let json = flag(alloc, "json", "Prints each line as a JSON object");
    let quiet = flag(
        alloc,
        "quiet",
        "Doesn't count the replies on standard error",
    );
    with_argument(with_argument(with_argument(command, part), json), quiet)
}

/// The command with one argument more.
pub fn with_argument<'a>(
    command: Result<Command<'a>, AllocError>,
    argument: Arg<'a>,
) -> Result<Command<'a>, AllocError>
    ensures { (app : App) (rule : Rule) → IfOk command.entry (IsBuilt app) → (rule_of argument.entry ≡ rule) × (argument.entry.global ≡ false)
        → IfOk result (IsBuilt (with_rule app rule)) }
{
    command?.arg(argument)
}

/// An option whose value help calls by this name.
pub fn option<'a>(alloc: Global, id: &'a str, name: &'a str, help: &'a str) -> Arg<'a>
    ensures { (rule_of result ≡ option id.entry.now) × (result.global ≡ false) }
{
    Arg::new(alloc, id).long(id).value_name(name).help(help)
}

/// A flag.
pub fn flag<'a>(alloc: Global, id: &'a str, help: &'a str) -> Arg<'a>
    ensures { (rule_of result ≡ flag id.entry.now) × (result.global ≡ false) }
{
    Arg::new(alloc, id)
        .long(id)
        .action(ArgAction::SetTrue)
        .help(help)
}
