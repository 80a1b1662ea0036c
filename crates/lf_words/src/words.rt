//! The reading of a command line.

ghost use Rattle.std.specs.Prelude.{◌≡◌, ◌≢◌, ◌↔◌, ◌⊎◌, ℕ, [], ◌∷◌, map, option_map, codes, false, true};
ghost use Rattle.std.specs.Prelude.{Some, MatchOption, IsTrue, IfOk, IsErrAnd, MatchResult};
ghost use Rattle.std.specs.String.{string_bytes};
ghost use Rattle.clap.specs.Words.{Text, fault_of, first_of, found_of, kind_of, rows_of, subcommand_of, subcommand_rows_of};
ghost use Rattle.lf_words.specs.Commands.{program};
ghost use Rattle.lf_words.specs.Plain.{asks_help, asks_version, is_overwriting, is_plain, is_plain_command, is_unknown};
ghost use Rattle.lf_words.specs.Statuses.{exit_status};
ghost use Rattle.lf_words.specs.Words.{Answers, AreNamed, Asks, CanBeDone, IsAnswer, IsAskedBy, IsAskedIn, IsBarred, IsPartOf, IsPlainly};
ghost use Rattle.lf_words.specs.Words.{IsRefusal, IsShownBy, IsToldFor, IsUnread, IsWorkers, is_set, shown_flags, workers_of};
ghost use Rattle.lf_words.specs.Words.{IsOfWorkers, IsOverwriting};

use crate::commands::program;
use crate::refusals::wrong_text;
use crate::{Asked, Shown, Unasked};
use clap::error::ErrorKind;
use clap::{ArgMatches, Error};
use std::alloc::{AllocError, Global};

/// The most workers that can be asked for.
pub const MOST_WORKERS: u32 = 32;

/// What to tell where `--rules` stands without `--protocol`.
const RULES_OF_NONE: &str =
    "--rules: it tells the rules of a protocol file, which --protocol PROTOCOL gives\n";

/// What the words after the program's name ask for. No words ask for `search -`.
///
/// Plain words, which are `-` or don't begin with it, ask for just what they say; but `check - -`, which would have to read
/// both its texts from standard input, is refused. Of other words, as where an option or `--` is among them, `clap` decides; but
/// a certificate isn't to be written into the scenario's own file or the protocol's, `--rules` stands with `--protocol` alone, and
/// the workers are in 1..=32.
/// `Memory` comes only where memory has run out.
pub fn asked(alloc: Global, words: &[String]) -> Result<Asked, Unasked>
    ensures workers { IfOk result (λ a. IsWorkers (workers_of a)) }
    ensures no_words { words.now ≡ [] → MatchResult result
        (IsPlainly (codes "search" ∷ codes "-" ∷ [])) (λ u. u ≡ Unasked.Memory) }
    ensures plain { is_plain_command (map string_bytes words.now) ≡ true → MatchResult result
        (IsPlainly (map string_bytes words.now)) (λ u. u ≡ Unasked.Memory) }
    ensures shared { map string_bytes words.now ≡ codes "check" ∷ codes "-" ∷ codes "-" ∷ [] → IsErrAnd result
        (λ u. (u ≡ Unasked.SharedInput) ⊎ (u ≡ Unasked.Memory)) }
    ensures overwriting { is_overwriting (map string_bytes words.now) ≡ true → IsErrAnd result
        IsOverwriting }
    ensures uncounted { (file number : Text) → map string_bytes words.now ≡ codes "search" ∷ file ∷ codes "--workers" ∷ number ∷ []
        → is_plain file ≡ true → is_plain number ≡ true → ((n : ℕ) → ¬ AreNamed (Some number) n) → IsErrAnd result
        IsOfWorkers }
    ensures help { asks_help (map string_bytes words.now) ≡ true → IsErrAnd result
        (λ u. (exit_status u ≡ 0) ⊎ (u ≡ Unasked.Memory)) }
    ensures version { asks_version (map string_bytes words.now) ≡ true → IsErrAnd result
        (λ u. (exit_status u ≡ 0) ⊎ (u ≡ Unasked.Memory)) }
    ensures unknown { is_unknown (map string_bytes words.now) ≡ true → IsErrAnd result
        (λ u. (exit_status u ≡ 2) ⊎ (u ≡ Unasked.Memory)) }
    ensures words { words.now ≢ [] → MatchResult result
        (λ a. Asks (map string_bytes words.now) a × CanBeDone a) (IsRefusal (map string_bytes words.now)) }
{
    if words.is_empty() {
        search_of_input(alloc)
    } else {
        read(alloc, words)
    }
}

/// What words ask for, as `clap` reads them.
fn read(alloc: Global, words: &[String]) -> Result<Asked, Unasked>
    ensures { Answers (map string_bytes words.now) result }
{
    match program(alloc) {
        Ok(program) => match program.try_get_matches_from(words) {
            Ok(matches) => taken(alloc, words, &matches),
            Err(error) => Err(refused(alloc, words, &error).unwrap_or(Unasked::Memory)),
        },
        Err(_) => Err(Unasked::Memory),
    }
}

/// What words ask for that `clap` takes, from its matches.
fn taken(alloc: Global, words: &[String], matches: &ArgMatches<'_>) -> Result<Asked, Unasked>
    ensures { subcommand_rows_of matches.now ≡ subcommand_of program (map string_bytes words.now)
        → fault_of program (map string_bytes words.now) ≡ [] → Answers (map string_bytes words.now) result }
{
    match command(alloc, words, matches)? {
        Some(asked) => possible(alloc, asked),
        None => Err(unread(alloc, matches)?),
    }
}

/// The search of the scenario on standard input, which no words ask for.
fn search_of_input(alloc: Global) -> Result<Asked, Unasked>
    ensures plain { MatchResult result (IsPlainly (codes "search" ∷ codes "-" ∷ [])) (λ u. u ≡ Unasked.Memory) }
    ensures workers { IfOk result (λ a. IsWorkers (workers_of a)) }
{
    Ok(Asked::Search {
        file: String::from_str(alloc, "-")?,
        tree: None,
        all: false,
        workers: 1,
        quiet: false,
        protocol: None,
    })
}

/// What is asked for, where it can be done.
fn possible(alloc: Global, asked: Asked) -> Result<Asked, Unasked>
    ensures { MatchResult result (λ a. (a ≡ asked) × CanBeDone asked) (IsBarred asked) }
{
    if asked.shares_input() {
        return Err(Unasked::SharedInput);
    }
    if asked.overwrites() {
        let (file, what) = asked.overwritten();
        return Err(Unasked::overwriting(alloc, file, what));
    }
    if asked.lacks_protocol() {
        return Err(Unasked::Wrong(String::from_str(alloc, RULES_OF_NONE)?));
    }
    Ok(asked)
}

/// What `clap`'s matches ask for. None where they ask for nothing that is among the words.
fn command(
    alloc: Global,
    words: &[String],
    matches: &ArgMatches<'_>,
) -> Result<Option<Asked>, AllocError>
    ensures { IfOk result (IsAnswer (IsAskedIn (map string_bytes words.now)
        (subcommand_rows_of matches.now))) }
{
    let Some((name, rest)) = matches.subcommand() else {
        return Ok(None);
    };
    match name {
        "search" => search(alloc, words, rest),
        "run" => run(alloc, words, rest),
        "draw" => draw(alloc, words, rest),
        "check" => check(alloc, words, rest),
        "answer" => answer(alloc, words, rest),
        "why" => why(alloc, words, rest),
        "protocol" => protocol(alloc, words, rest),
        _ => Ok(None),
    }
}

/// What the matches of `search` ask for. None where they ask for nothing that is among the words.
fn search(
    alloc: Global,
    words: &[String],
    matches: &ArgMatches<'_>,
) -> Result<Option<Asked>, AllocError>
    ensures { IfOk result (IsAnswer (IsAskedBy (map string_bytes words.now) (codes "search")
        (rows_of (found_of matches.now)))) }
{
    let Some(file) = value(matches, "file") else {
        return Ok(None);
    };
    if !are_part_of(&["search", file], words) {
        return Ok(None);
    }
    let Some(workers) = workers(matches) else {
        return Ok(None);
    };
    Ok(Some(Asked::Search {
        file: String::from_str(alloc, file)?,
        tree: text(alloc, matches, "tree")?,
        all: is_set(matches, "all"),
        workers,
        quiet: is_set(matches, "quiet"),
        protocol: text(alloc, matches, "protocol")?,
    }))
}

/// How many workers are asked for: one where none are. None where what is named is no number of workers.
fn workers(matches: &ArgMatches<'_>) -> Option<u32>
    ensures { MatchOption result
        ((n : ℕ) → ¬ AreNamed (first_of (codes "workers") (rows_of (found_of matches.now))) n)
        (AreNamed (first_of (codes "workers") (rows_of (found_of matches.now)))) }
{
    match value(matches, "workers") {
        Some(text) => workers_in(text),
        None => Some(1),
    }
}

/// How many workers a text names. None where it is no number in 1..=32.
fn workers_in(text: &str) -> Option<u32>
    ensures { MatchOption result ((n : ℕ) → ¬ AreNamed (Some text.now) n) (AreNamed (Some text.now)) }
{
    match text.parse::<u32>() {
        Ok(workers) if 1 <= workers && workers <= MOST_WORKERS => Some(workers),
        _ => None,
    }
}

/// What the matches of `run` ask for. None where they ask for nothing that is among the words.
fn run(
    alloc: Global,
    words: &[String],
    matches: &ArgMatches<'_>,
) -> Result<Option<Asked>, AllocError>
    ensures { IfOk result (IsAnswer (IsAskedBy (map string_bytes words.now) (codes "run")
        (rows_of (found_of matches.now)))) }
{
    let Some(file) = value(matches, "file") else {
        return Ok(None);
    };
    let Some(faults) = value(matches, "faults") else {
        return Ok(None);
    };
    if !are_part_of(&["run", file, faults], words) {
        return Ok(None);
    }
    let Some(shown) = told_by(alloc, matches)? else {
        return Ok(None);
    };
    let delays = text(alloc, matches, "delays")?;
    Ok(Some(Asked::Run {
        file: String::from_str(alloc, file)?,
        faults: String::from_str(alloc, faults)?,
        shown,
        delays,
        protocol: text(alloc, matches, "protocol")?,
    }))
}

/// What is to be told of a run. None where more than one of `--rules`, `--changes`, `--json` and `--beside` is among the words.
fn told_by(alloc: Global, matches: &ArgMatches<'_>) -> Result<Option<Shown>, AllocError>
    ensures { IfOk result (IsShownBy (shown_flags (rows_of (found_of matches.now)))) }
{
    let rules = is_set(matches, "rules");
    let changes = is_set(matches, "changes");
    let json = is_set(matches, "json");
    match value(matches, "beside") {
        None => Ok(told_by_flags(rules, changes, json)),
        Some(other) => {
            if rules || changes || json {
                Ok(None)
            } else {
                Ok(Some(Shown::Beside(String::from_str(alloc, other)?)))
            }
        }
    }
}

/// What is to be told by these flags, without `--beside`. None where more than one is set.
fn told_by_flags(rules: bool, changes: bool, json: bool) -> Option<Shown>
    ensures { IsShownBy (rules, changes, json, None) result }
{
    match (rules, changes, json) {
        (false, false, false) => Some(Shown::Whole),
        (true, false, false) => Some(Shown::Rules),
        (false, true, false) => Some(Shown::Changes),
        (false, false, true) => Some(Shown::Json),
        _ => None,
    }
}

/// What the matches of `draw` ask for. None where they ask for nothing that is among the words.
fn draw(
    alloc: Global,
    words: &[String],
    matches: &ArgMatches<'_>,
) -> Result<Option<Asked>, AllocError>
    ensures { IfOk result (IsAnswer (IsAskedBy (map string_bytes words.now) (codes "draw")
        (rows_of (found_of matches.now)))) }
{
    let Some(file) = value(matches, "file") else {
        return Ok(None);
    };
    let Some(faults) = value(matches, "faults") else {
        return Ok(None);
    };
    if !are_part_of(&["draw", file, faults], words) {
        return Ok(None);
    }
    Ok(Some(Asked::Draw {
        file: String::from_str(alloc, file)?,
        faults: String::from_str(alloc, faults)?,
        delays: text(alloc, matches, "delays")?,
        protocol: text(alloc, matches, "protocol")?,
    }))
}

/// What the matches of `check` ask for. None where they ask for nothing that is among the words.
fn check(
    alloc: Global,
    words: &[String],
    matches: &ArgMatches<'_>,
) -> Result<Option<Asked>, AllocError>
    ensures { IfOk result (IsAnswer (IsAskedBy (map string_bytes words.now) (codes "check")
        (rows_of (found_of matches.now)))) }
{
    let Some(file) = value(matches, "file") else {
        return Ok(None);
    };
    let Some(tree) = value(matches, "tree") else {
        return Ok(None);
    };
    if !are_part_of(&["check", file, tree], words) {
        return Ok(None);
    }
    Ok(Some(Asked::Check {
        file: String::from_str(alloc, file)?,
        tree: String::from_str(alloc, tree)?,
        quiet: is_set(matches, "quiet"),
        protocol: text(alloc, matches, "protocol")?,
    }))
}

/// What the matches of `answer` ask for. None where they ask for nothing that is among the words.
fn answer(
    alloc: Global,
    words: &[String],
    matches: &ArgMatches<'_>,
) -> Result<Option<Asked>, AllocError>
    ensures { IfOk result (IsAnswer (IsAskedBy (map string_bytes words.now) (codes "answer")
        (rows_of (found_of matches.now)))) }
{
    let Some(file) = value(matches, "file") else {
        return Ok(None);
    };
    if !are_part_of(&["answer", file], words) {
        return Ok(None);
    }
    Ok(Some(Asked::Answer {
        file: String::from_str(alloc, file)?,
        quiet: is_set(matches, "quiet"),
        every_delay: is_set(matches, "every-delay"),
        protocol: text(alloc, matches, "protocol")?,
    }))
}

/// What the matches of `why` ask for. None where they ask for nothing that is among the words.
fn why(
    alloc: Global,
    words: &[String],
    matches: &ArgMatches<'_>,
) -> Result<Option<Asked>, AllocError>
    ensures { IfOk result (IsAnswer (IsAskedBy (map string_bytes words.now) (codes "why")
        (rows_of (found_of matches.now)))) }
{
    let Some(file) = value(matches, "file") else {
        return Ok(None);
    };
    if !are_part_of(&["why", file], words) {
        return Ok(None);
    }
    Ok(Some(Asked::Why {
        file: String::from_str(alloc, file)?,
        quiet: is_set(matches, "quiet"),
        protocol: text(alloc, matches, "protocol")?,
    }))
}

/// What the matches of `protocol` ask for. None where they ask for nothing that is among the words.
fn protocol(
    alloc: Global,
    words: &[String],
    matches: &ArgMatches<'_>,
) -> Result<Option<Asked>, AllocError>
    ensures { IfOk result (IsAnswer (IsAskedBy (map string_bytes words.now) (codes "protocol")
        (rows_of (found_of matches.now)))) }
{
    let Some(file) = value(matches, "file") else {
        return Ok(None);
    };
    if !are_part_of(&["protocol", file], words) {
        return Ok(None);
    }
    Ok(Some(Asked::Protocol {
        file: String::from_str(alloc, file)?,
    }))
}

/// Whether a flag is set.
fn is_set(matches: &ArgMatches<'_>, flag: &str) -> bool
    ensures { result ≡ is_set (first_of flag.now (rows_of (found_of matches.now))) }
{
    match value(matches, flag) {
        Some(text) => text == "true",
        None => false,
    }
}

/// The value of an argument, as a text of its own. The error is that memory has run out.
fn text(
    alloc: Global,
    matches: &ArgMatches<'_>,
    argument: &str,
) -> Result<Option<String>, AllocError>
    ensures { IfOk result (λ text. first_of argument.now (rows_of (found_of matches.now)) ≡ option_map (λ t. t.bytes.items) text) }
{
    match value(matches, argument) {
        Some(text) => Ok(Some(String::from_str(alloc, text)?)),
        None => Ok(None),
    }
}

/// The value of an argument.
fn value<'a>(matches: &ArgMatches<'a>, argument: &str) -> Option<&'a str>
    ensures { option_map (λ s. s.now) result
        ≡ first_of argument.now (rows_of (found_of matches.now)) }
{
    matches.get_str(argument)
}

/// What to tell of words that `clap` takes with these matches, and that ask for nothing.
fn unread(alloc: Global, matches: &ArgMatches<'_>) -> Result<Unasked, AllocError>
    ensures { IfOk result (IsUnread (subcommand_rows_of matches.now)) }
{
    match matches.subcommand() {
        Some(("search", rest)) if workers(rest).is_none() => {
            Ok(Unasked::Workers(uncounted(alloc, value(rest, "workers").unwrap_or(""))?))
        }
        _ => Ok(Unasked::Wrong(String::from_str(alloc, nothing_asked(matches))?)),
    }
}

/// What to tell of words that `clap` takes with these matches, where they ask for nothing, and the workers aren't why.
fn nothing_asked(matches: &ArgMatches<'_>) -> &'static str {
    match matches.subcommand_name() {
        Some("run") => "--rules, --changes, --json and --beside: one of them at a time\n",
        _ => "error: nothing is asked for\n",
    }
}

/// What to tell of a word that names no number of workers.
fn uncounted(alloc: Global, word: &str) -> Result<String, AllocError> {
    format!(in alloc; "--workers = {word}: a whole number from 1 to {MOST_WORKERS}\n")
}

/// What to tell of words that `clap` refuses.
fn refused(alloc: Global, words: &[String], error: &Error) -> Result<Unasked, AllocError>
    ensures { IfOk result (IsToldFor (kind_of error.now)) }
{
    match error.kind() {
        ErrorKind::OutOfMemory => Err(AllocError),
        ErrorKind::DisplayHelp | ErrorKind::DisplayVersion => {
            Ok(Unasked::Told(error.to_string(alloc)?))
        }
        _ => Ok(Unasked::Wrong(wrong_text(alloc, words, error)?)),
    }
}

/// Whether the texts are all among the words, in their order.
fn are_part_of(texts: &[&str], words: &[String]) -> bool
    ensures { IsTrue result ↔ IsPartOf (map (λ t. t.now) texts.now) (map string_bytes words.now) }
{
    let mut met = 0;
    for word in words {
        if met < texts.len() && texts[met] == word.as_str() {
            met += 1;
        }
    }
    met == texts.len()
}
