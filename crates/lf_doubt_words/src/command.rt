//! The command `doubt`, as `clap` reads and explains it.

ghost use Rattle.std.specs.Prelude.{IfOk};
ghost use Rattle.lf_sweep_words.specs.Command.{IsBuilt};
ghost use Rattle.lf_doubt_words.specs.Command.{asking, bare, doubt, shared};

use clap::Command;
use lf_sweep_words::{file, flag, option, with_argument};
use std::alloc::{AllocError, Global};

/// What the command does.
const ABOUT: &str =
    "Asks what the answer to the scenario FILE rests on: answers it as it is, and again with one thing changed at a time. Each question has
one line, with tabs between its words and the reply.";

/// What the questions are, examples, and the statuses.
const NOTES: &str =
    "The questions, in this order: `given`, the scenario as it is; of each rule of PROTOCOL, by its number, in how many of the runs without a
fault and with a single one it is taken, and the answer where it `never` is and where it `always` is; of each part of the promise, in how
many of those runs what it speaks of holds; the answer with one bound larger, and over every delay; and whether a value is ever `clamped` or
a note `replaced`.

Where a reply is the same as that of `given`, the answer doesn't rest on what was changed. Standard error sums that up.

Examples:
  leastfault doubt commit.toml
  leastfault doubt raft.toml --protocol raft_election.toml --workers 4 --seconds 60
  leastfault doubt raft.toml --protocol raft_election.toml --deep --part 2/3

Exit status:
  0  no allowed faults make the scenario as it is miss its outcome
  1  some do
  2  the arguments, the protocol file or the scenario are refused
  3  out of memory (`memory`), or a file or stream failed (`read`, `write`)";

/// The command line of `doubt`.
pub(crate) fn command<'a>(alloc: Global) -> Result<Command<'a>, AllocError>
    ensures { IfOk result (IsBuilt doubt) }
{
    let json = flag(alloc, "json", "Prints each line as a JSON object");
    let quiet = flag(
        alloc,
        "quiet",
        "Says nothing on standard error where all is well",
    );
    let command = shared(asking(bare(alloc), alloc), alloc);
    with_argument(with_argument(command, json), quiet)
}

/// The command without arguments.
fn bare<'a>(alloc: Global) -> Result<Command<'a>, AllocError>
    ensures { IfOk result (IsBuilt bare) }
{
    Command::new(alloc, "doubt")
        .no_binary_name(true)
        .about(ABOUT)
        .after_help(NOTES)
        .bin_name("leastfault doubt")
}

/// The command with FILE, `--protocol PROTOCOL` and `--deep`.
fn asking<'a>(
    command: Result<Command<'a>, AllocError>,
    alloc: Global,
) -> Result<Command<'a>, AllocError>
    ensures { IfOk command.entry (IsBuilt bare) → IfOk result (IsBuilt asking) }
{
    let protocol = option(
        alloc,
        "protocol",
        "PROTOCOL",
        "Lets the scenario name the protocol of the file PROTOCOL",
    );
    let deep = flag(
        alloc,
        "deep",
        "Leaves out each assignment and each send of a rule, too",
    );
    with_argument(
        with_argument(with_argument(command, file(alloc)), protocol),
        deep,
    )
}

/// The command with `--seconds S`, `--workers N` and `--part I/N` besides.
fn shared<'a>(
    command: Result<Command<'a>, AllocError>,
    alloc: Global,
) -> Result<Command<'a>, AllocError>
    ensures { IfOk command.entry (IsBuilt asking) → IfOk result (IsBuilt shared) }
{
    let seconds = option(
        alloc,
        "seconds",
        "S",
        "Gives each question S seconds, 1 to 86400; one that takes longer is `open`",
    );
    let workers = option(
        alloc,
        "workers",
        "N",
        "Asks with N workers at once, 1 to 32; every N gives the same lines",
    );
    let part = option(
        alloc,
        "part",
        "I/N",
        "Asks the I-th, the I+N-th question and so on: one of N parts, up to 1000000",
    );
    with_argument(
        with_argument(with_argument(command, seconds), workers),
        part,
    )
}
