//! The program's commands, as `clap` reads and explains them.

ghost use Rattle.std.specs.Prelude.{◌≡◌, IfOk, false};
ghost use Rattle.clap.specs.Words.{App, Rule, app_of, rule_of, with_rule, with_subcommand};
ghost use Rattle.lf_words.specs.Commands.{IsBuilt, answer, check, delays, draw, faults, flag, known, of_file, option};
ghost use Rattle.lf_words.specs.Commands.{plain, positional, program, protocol, quiet, run, search, why};

use clap::{Arg, ArgAction, Command};
use std::alloc::{AllocError, Global};

/// The version of the program.
const VERSION: &str = "0.1.0";

/// What the program does.
const ABOUT: &str =
    "Finds the fewest faults (lost messages, crashes, pauses) that make a protocol miss the outcome that it promises.
Without arguments it reads a scenario from standard input and searches, as `leastfault search -` does.";

/// What the arguments of the commands stand for, the statuses that the program exits with, and two examples.
const NOTES: &str = "Arguments:
  FILE    a scenario, a TOML file, or for `protocol` a protocol file; - is standard input
  FAULTS  faults joined by single commas: 'omit 0>1 @2,crash 2 @3'; '' is no fault
  LIST    when notes arrive that are late, joined by single commas: '0>1 @9 13,2>0 @5 9'; '' is none
  TREE    a certificate, a JSON file; - is standard input, but not for FILE and TREE at once. After --tree it is the file to write

A scenario may name a protocol of your own: --protocol PROTOCOL gives its file, for search, run, draw, check, answer, why,
sweep and doubt.

Each note takes its link's least delay, and up to its spread more, as the scenario's seed has it. `answer --every-delay` answers for
every delay that the links allow, and `run` and `draw` take the late notes of its answer: --delays LIST.

Two commands more: `leastfault sweep FILE --vary KEY=VALUES ..` answers the scenario for every combination of values, and
`leastfault doubt FILE` asks what its answer rests on; see `leastfault sweep --help` and `leastfault doubt --help`.

Exit status:
  0  no allowed faults make the scenario miss its outcome, the run reaches it, or the certificate or the protocol file is right; also help
     and the version
  1  faults that make it miss were found, the run misses it, or the certificate is wrong
  2  the arguments, the scenario, the faults, the delays, the certificate's text or the protocol file are refused, or a level of the
     search has too many sets (`full`)
  3  out of memory (`memory`), a file or stream failed (`read`, `write`), or the workers gave no answer (`pool NUMBER`)

Examples:
  leastfault search commit.toml
  leastfault run commit.toml 'crash 0 @2'
  leastfault search election.toml --protocol raft.toml";

/// An example of `search`, and its statuses.
const SEARCH_NOTES: &str = "Example:
  leastfault search commit.toml --all --tree commit.json

Exit status:
  0  `none`: no allowed faults make the scenario miss its outcome
  1  faults that make it miss were found
  2  the arguments, the protocol file or the scenario are refused, or a level of the search has too many sets (`full`)
  3  out of memory (`memory`), a file or stream failed (`read`, `write`), or the workers gave no answer (`pool NUMBER`)";

/// Examples of `run`, and its statuses.
const RUN_NOTES: &str = "Examples:
  leastfault run commit.toml 'omit 0>1 @1,crash 0 @2'
  leastfault run commit.toml 'omit 0>1 @1,crash 0 @2' --beside ''
  leastfault run commit.toml '' --delays '0>1 @9 13,2>0 @5 9'

Exit status:
  0  the run reaches the outcome
  1  the run misses the outcome
  2  the arguments, the protocol file, the scenario, the faults or the delays are refused
  3  out of memory (`memory`), or a file or stream failed (`read`, `write`)";

/// An example of `draw`, and its statuses.
const DRAW_NOTES: &str = "Example:
  leastfault draw commit.toml 'omit 0>1 @1,crash 0 @2' > commit.svg

Exit status:
  0  the run reaches the outcome
  1  the run misses the outcome
  2  the arguments, the protocol file, the scenario, the faults or the delays are refused
  3  out of memory (`memory`), or a file or stream failed (`read`, `write`)";

/// An example of `check`, and its statuses.
const CHECK_NOTES: &str = "Example:
  leastfault search commit.toml --tree commit.json
  leastfault check commit.toml commit.json

Exit status:
  0  `yes`: the certificate's answer is the scenario's answer
  1  `no`: the certificate is wrong
  2  the arguments, the protocol file, the scenario or the certificate's text are refused
  3  out of memory (`memory`), or a file or stream failed (`read`, `write`)";

/// Examples of `answer`, what the lines of late notes are, and its statuses.
const ANSWER_NOTES: &str = "Examples:
  leastfault answer commit.toml
  leastfault answer commit.toml --every-delay

Behind the faults, --every-delay prints the notes that are late: `arrive 0>1 @9 13` is the note that node 0 sends to node 1 at
step 9, and it arrives at step 13. Every other note takes its least delay.

Exit status:
  0  `none`: no allowed faults make the scenario miss its outcome
  1  faults that make it miss were found
  2  the arguments, the protocol file or the scenario are refused
  3  out of memory (`memory`), or a file or stream failed (`read`, `write`)";

/// An example of `why`, and its statuses.
const WHY_NOTES: &str = "Example:
  leastfault why commit.toml

Exit status:
  0  `none`: no allowed faults make the scenario miss its outcome
  1  faults that make it miss were found
  2  the arguments, the protocol file or the scenario are refused, or a level of the search has too many sets (`full`)
  3  out of memory (`memory`), or a file or stream failed (`read`, `write`)";

/// An example of `protocol`, and its statuses.
const PROTOCOL_NOTES: &str = "Example:
  leastfault protocol commit.toml

Exit status:
  0  `ok`: the file is a protocol file. Standard error tells what it has, and what in it looks like a slip
  2  the arguments or the file are refused. Standard error tells what stands where, and what may stand there
  3  out of memory (`memory`), or a file or stream failed (`read`, `write`)";

/// What FILE is for the commands about a scenario.
const SCENARIO: &str = "A scenario, a TOML file; - is standard input";

/// The command line of the program, with the program's name in help.
pub(crate) fn program<'a>(alloc: Global) -> Result<Command<'a>, AllocError>
    ensures { IfOk result (λ c. app_of c ≡ program) }
{
    let program = with_command(plain(alloc), search(alloc));
    let program = with_command(program, run(alloc));
    let program = with_command(program, draw(alloc));
    let program = with_command(program, check(alloc));
    let program = with_command(program, answer(alloc));
    let program = with_command(program, why(alloc));
    with_command(program, protocol(alloc))
}

/// The command line without its commands.
fn plain<'a>(alloc: Global) -> Result<Command<'a>, AllocError>
    ensures { IfOk result (λ c. app_of c ≡ plain) }
{
    Command::new(alloc, "leastfault")
        .version(VERSION)
        .no_binary_name(true)
        .disable_help_subcommand(true)
        .subcommand_required(true)
        .about(ABOUT)
        .after_help(NOTES)
        .bin_name("leastfault")
}

/// The command `search FILE`, with the options `--tree TREE`, `--workers N` and `--protocol PROTOCOL` and the flags `--all` and `--quiet`.
fn search<'a>(alloc: Global) -> Result<Command<'a>, AllocError>
    ensures { IfOk result (IsBuilt search) }
{
    let command = of_file(
        alloc,
        "search",
        SCENARIO,
        "Prints the fewest faults that make the scenario FILE miss its outcome, or `none`",
        SEARCH_NOTES,
    );
    let tree = option(
        alloc,
        "tree",
        "TREE",
        "Writes the certificate of the answer to the file TREE",
    );
    let all = flag(
        alloc,
        "all",
        "Prints all sets with as few faults, one on each line",
    );
    let workers = option(
        alloc,
        "workers",
        "N",
        "Searches with N workers at once, 1 to 32; every N gives the same answer",
    );
    let command = with_argument(with_argument(command, tree), all);
    let command = with_argument(with_argument(command, workers), quiet(alloc));
    with_argument(command, known(alloc))
}

/// The command `run FILE FAULTS`, with the flags `--rules`, `--changes` and `--json` and the options `--beside FAULTS`, `--delays LIST` and
/// `--protocol PROTOCOL`.
fn run<'a>(alloc: Global) -> Result<Command<'a>, AllocError>
    ensures { IfOk result (IsBuilt run) }
{
    let command = of_file(
        alloc,
        "run",
        SCENARIO,
        "Runs the scenario FILE with the faults FAULTS and prints each step",
        RUN_NOTES,
    );
    let rules = flag(
        alloc,
        "rules",
        "Shows under each step which rules of the protocol file PROTOCOL each node took",
    );
    let changes = flag(
        alloc,
        "changes",
        "Shows of each step only the nodes that change, and the messages",
    );
    let json = flag(alloc, "json", "Shows the run as one JSON document");
    let beside = option(
        alloc,
        "beside",
        "FAULTS",
        "Shows only the lines that differ from the run with these FAULTS: - for that run, + for this one",
    );
    let command = with_argument(with_argument(command, faults(alloc)), rules);
    let command = with_argument(with_argument(command, changes), json);
    let command = with_argument(with_argument(command, beside), delays(alloc));
    with_argument(command, known(alloc))
}

/// The argument FAULTS.
fn faults<'a>(alloc: Global) -> Arg<'a>
    ensures { (rule_of result ≡ faults) × (result.global ≡ false) }
{
    positional(
        alloc,
        "faults",
        "FAULTS",
        "Faults joined by single commas: 'omit 0>1 @2,crash 2 @3'; '' is no fault",
    )
}

/// The option `--delays LIST`.
fn delays<'a>(alloc: Global) -> Arg<'a>
    ensures { (rule_of result ≡ delays) × (result.global ≡ false) }
{
    option(
        alloc,
        "delays",
        "LIST",
        "Lets the notes of LIST arrive so, '0>1 @9 13,2>0 @5 9', and each other after its least delay; '' is none",
    )
}

/// The command `draw FILE FAULTS`, with the options `--delays LIST` and `--protocol PROTOCOL`.
fn draw<'a>(alloc: Global) -> Result<Command<'a>, AllocError>
    ensures { IfOk result (IsBuilt draw) }
{
    let command = of_file(
        alloc,
        "draw",
        SCENARIO,
        "Draws the run of the scenario FILE with the faults FAULTS: prints an SVG picture",
        DRAW_NOTES,
    );
    let command = with_argument(with_argument(command, faults(alloc)), delays(alloc));
    with_argument(command, known(alloc))
}

/// The command `check FILE TREE`, with the flag `--quiet` and the option `--protocol PROTOCOL`.
fn check<'a>(alloc: Global) -> Result<Command<'a>, AllocError>
    ensures { IfOk result (IsBuilt check) }
{
    let command = of_file(
        alloc,
        "check",
        SCENARIO,
        "Checks the certificate TREE of an answer to the scenario FILE: prints `yes`, or `no` and why",
        CHECK_NOTES,
    );
    let tree = positional(
        alloc,
        "tree",
        "TREE",
        "A certificate, the file that `search --tree` wrote; - is standard input",
    );
    let command = with_argument(with_argument(command, tree), quiet(alloc));
    with_argument(command, known(alloc))
}

/// The command `answer FILE`, with the flags `--quiet` and `--every-delay` and the option `--protocol PROTOCOL`.
fn answer<'a>(alloc: Global) -> Result<Command<'a>, AllocError>
    ensures { IfOk result (IsBuilt answer) }
{
    let command = of_file(
        alloc,
        "answer",
        SCENARIO,
        "Prints the same answer as `search`, found by merging equal states of the cluster.
It has no limit on the number of sets and writes no certificate: use it where `search` says `full`.",
        ANSWER_NOTES,
    );
    let every_delay = flag(
        alloc,
        "every-delay",
        "Prints the answer over every delay: each note takes its least delay, or up to its spread more, whatever is worst",
    );
    let command = with_argument(with_argument(command, quiet(alloc)), every_delay);
    with_argument(command, known(alloc))
}

/// The command `why FILE`, with the flag `--quiet` and the option `--protocol PROTOCOL`.
fn why<'a>(alloc: Global) -> Result<Command<'a>, AllocError>
    ensures { IfOk result (IsBuilt why) }
{
    let command = of_file(
        alloc,
        "why",
        SCENARIO,
        "Prints the answer to the scenario FILE and why it is one: what each fault is needed for, or what stands behind `none`",
        WHY_NOTES,
    );
    with_argument(with_argument(command, quiet(alloc)), known(alloc))
}

/// The command `protocol FILE`.
fn protocol<'a>(alloc: Global) -> Result<Command<'a>, AllocError>
    ensures { IfOk result (IsBuilt protocol) }
{
    of_file(
        alloc,
        "protocol",
        "A protocol file, which is TOML; - is standard input",
        "Checks the protocol file FILE: prints `ok`, or where it is refused and why",
        PROTOCOL_NOTES,
    )
}

/// A command with this name and the argument FILE, which is this, and what help says of it before and behind its arguments.
fn of_file<'a>(
    alloc: Global,
    name: &'a str,
    file: &'a str,
    about: &'a str,
    notes: &'a str,
) -> Result<Command<'a>, AllocError>
    ensures { IfOk result (IsBuilt (of_file name.entry.now)) }
{
    let file = positional(alloc, "file", "FILE", file);
    Command::new(alloc, name)
        .about(about)
        .after_help(notes)
        .arg(file)
}

/// The flag `--quiet`.
fn quiet<'a>(alloc: Global) -> Arg<'a>
    ensures { (rule_of result ≡ quiet) × (result.global ≡ false) }
{
    flag(
        alloc,
        "quiet",
        "Shows no progress; without it, standard error shows it where that is a terminal",
    )
}

/// The option `--protocol PROTOCOL`.
fn known<'a>(alloc: Global) -> Arg<'a>
    ensures { (rule_of result ≡ known) × (result.global ≡ false) }
{
    option(
        alloc,
        "protocol",
        "PROTOCOL",
        "Lets the scenario name the protocol of the file PROTOCOL, and give its constants anew",
    )
}

/// The command line with one command more.
fn with_command<'a>(
    program: Result<Command<'a>, AllocError>,
    command: Result<Command<'a>, AllocError>,
) -> Result<Command<'a>, AllocError>
    ensures { (above one : App) → IfOk program.entry (λ c. app_of c ≡ above) → IfOk command.entry (IsBuilt one)
        → IfOk result (λ c. app_of c ≡ with_subcommand above one.top) }
{
    program?.subcommand(command?)
}

/// The command with one argument more.
fn with_argument<'a>(
    command: Result<Command<'a>, AllocError>,
    argument: Arg<'a>,
) -> Result<Command<'a>, AllocError>
    ensures { (app : App) (rule : Rule) → IfOk command.entry (IsBuilt app) → (rule_of argument.entry ≡ rule) × (argument.entry.global ≡ false)
        → IfOk result (IsBuilt (with_rule app rule)) }
{
    command?.arg(argument)
}

/// An argument that has to be there and that help calls by this name.
fn positional<'a>(alloc: Global, id: &'a str, name: &'a str, help: &'a str) -> Arg<'a>
    ensures { (rule_of result ≡ positional id.entry.now) × (result.global ≡ false) }
{
    Arg::new(alloc, id)
        .required(true)
        .value_name(name)
        .help(help)
}

/// An option whose value help calls by this name.
fn option<'a>(alloc: Global, id: &'a str, name: &'a str, help: &'a str) -> Arg<'a>
    ensures { (rule_of result ≡ option id.entry.now) × (result.global ≡ false) }
{
    Arg::new(alloc, id).long(id).value_name(name).help(help)
}

/// A flag.
fn flag<'a>(alloc: Global, id: &'a str, help: &'a str) -> Arg<'a>
    ensures { (rule_of result ≡ flag id.entry.now) × (result.global ≡ false) }
{
    Arg::new(alloc, id)
        .long(id)
        .action(ArgAction::SetTrue)
        .help(help)
}
