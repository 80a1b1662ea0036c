//! The reading of the words of `sweep`.

ghost use Rattle.std.specs.Prelude.{◌≡◌, ◌⊎◌, ℕ, true, Some, map, option_map, codes, MatchOption, MatchResult, IfOk, IsErrAnd, string_bytes};
ghost use Rattle.clap.specs.Words.{Text, all_of, first_of, found_of, kind_of, rows_of};
ghost use Rattle.lf_sweep.specs.Varied.{IsCut};
ghost use Rattle.lf_sweep.specs.declared.part.Part.{Part};
ghost use Rattle.lf_sweep_words.specs.Help.{asks_help};
ghost use Rattle.lf_sweep_words.specs.Statuses.{exit_status};
ghost use Rattle.lf_sweep_words.specs.Words.{Answers, AreNamed, IsBy, IsMatched, IsNothing, IsPart, IsPartBy, IsPlanned, IsToldFor, is_set};

use crate::command::command;
use crate::planning::plan_of;
use crate::types::{By, SweepAsked};
use crate::unasked::{SweepUnasked, wrong};
use clap::error::ErrorKind;
use clap::{ArgMatches, Error};
use lf_sweep::{Part, Plan};
use std::alloc::{AllocError, Global};

/// The most workers that can be asked for.
pub const MOST_WORKERS: u32 = 32;

/// What the words behind `sweep` ask for, as `clap` reads them.
///
/// The first text that is no value of its option is refused, in the order `--by`, `--workers`, `--part`, `--vary`. `Memory` comes only
/// where memory has run out.
pub fn sweep_asked(alloc: Global, words: &[String]) -> Result<SweepAsked, SweepUnasked>
    ensures words { Answers (map string_bytes words.now) result }
    ensures help { asks_help (map string_bytes words.now) ≡ true → IsErrAnd result (λ u. (exit_status u ≡ 0) ⊎ (u ≡ SweepUnasked.Memory)) }
{
    read(alloc, words)
}

/// What words ask for, as `clap` reads them.
fn read(alloc: Global, words: &[String]) -> Result<SweepAsked, SweepUnasked>
    ensures { Answers (map string_bytes words.now) result }
{
    match command(alloc) {
        Ok(command) => match command.try_get_matches_from(words) {
            Ok(matches) => taken(alloc, &matches),
            Err(error) => Err(refused(alloc, &error).unwrap_or(SweepUnasked::Memory)),
        },
        Err(_) => Err(SweepUnasked::Memory),
    }
}

/// What `clap`'s matches ask for.
fn taken(alloc: Global, matches: &ArgMatches<'_>) -> Result<SweepAsked, SweepUnasked>
    ensures { MatchResult result (IsMatched (rows_of (found_of matches.now))) (IsNothing (IsMatched (rows_of (found_of matches.now)))) }
{
    let by = by_in(alloc, matches)?;
    let workers = workers_in(alloc, matches)?;
    let part = part_in(alloc, matches)?;
    let plan = plan_in(alloc, matches)?;
    let (file, protocol) = files_in(alloc, matches)?;
    Ok(SweepAsked {
        file,
        plan,
        by,
        workers,
        part,
        json: is_set(matches, "json"),
        quiet: is_set(matches, "quiet"),
        protocol,
    })
}

/// How each combination is to be answered.
fn by_in(alloc: Global, matches: &ArgMatches<'_>) -> Result<By, SweepUnasked>
    ensures { MatchResult result (IsBy (first_of (codes "by") (rows_of (found_of matches.now))))
        (IsNothing (IsBy (first_of (codes "by") (rows_of (found_of matches.now))))) }
{
    match value(matches, "by") {
        Some(word) => by_of(alloc, word),
        None => Ok(By::Answer),
    }
}

/// How a word says that each combination is to be answered.
fn by_of(alloc: Global, word: &str) -> Result<By, SweepUnasked>
    ensures { MatchResult result (IsBy (Some word.now)) (IsNothing (IsBy (Some word.now))) }
{
    match word {
        "answer" => Ok(By::Answer),
        "search" => Ok(By::Search),
        _ => Err(wrong(alloc, "--by: it takes answer or search\n")),
    }
}

/// How many workers there are to be.
pub fn workers_in(alloc: Global, matches: &ArgMatches<'_>) -> Result<u32, SweepUnasked>
    ensures { MatchResult result (AreNamed (first_of (codes "workers") (rows_of (found_of matches.now))))
        (IsNothing (AreNamed (first_of (codes "workers") (rows_of (found_of matches.now))))) }
{
    match value(matches, "workers") {
        Some(word) => workers_of(alloc, word),
        None => Ok(1),
    }
}

/// How many workers a word names.
fn workers_of(alloc: Global, word: &str) -> Result<u32, SweepUnasked>
    ensures { MatchResult result (AreNamed (Some word.now)) (IsNothing (AreNamed (Some word.now))) }
{
    match number_of_workers(word) {
        Some(workers) => Ok(workers),
        None => Err(wrong(alloc, "--workers: it takes a whole number from 1 to 32\n")),
    }
}

/// The number in 1..=32 that a word is. None where it is none.
fn number_of_workers(word: &str) -> Option<u32>
    ensures { MatchOption result ((n : ℕ) → ¬ AreNamed (Some word.now) n) (AreNamed (Some word.now)) }
{
    match word.parse::<u32>() {
        Ok(workers) if 1 <= workers && workers <= MOST_WORKERS => Some(workers),
        _ => None,
    }
}

/// Which of the combinations are asked of.
pub fn part_in(alloc: Global, matches: &ArgMatches<'_>) -> Result<Part, SweepUnasked>
    ensures { MatchResult result (IsPart (first_of (codes "part") (rows_of (found_of matches.now))))
        (IsNothing (IsPart (first_of (codes "part") (rows_of (found_of matches.now))))) }
{
    match value(matches, "part") {
        Some(word) => part_of(alloc, word),
        None => Ok(Part::whole()),
    }
}

/// Which part a word means.
fn part_of(alloc: Global, word: &str) -> Result<Part, SweepUnasked>
    ensures { MatchResult result (IsPart (Some word.now)) (IsNothing (IsPart (Some word.now))) }
{
    match parted(word) {
        Some(part) => Ok(part),
        None => Err(wrong(
            alloc,
            "--part: it takes I/N, as in 2/3, with I from 1 to N, and N up to 1000000\n",
        )),
    }
}

/// The part that a word means. None where it means none.
fn parted(word: &str) -> Option<Part>
    ensures { MatchOption result ((part : Part) → ¬ IsPart (Some word.now) part) (IsPart (Some word.now)) }
{
    match slashed(word) {
        Some((which, parts)) => part_by(which, parts),
        None => None,
    }
}

/// What stands before the first slash and behind it. None where there is none.
fn slashed(word: &str) -> Option<(&str, &str)>
    ensures { MatchOption result ((front back : Text) → ¬ IsCut 47 word.now front back) (λ parts. IsCut 47 word.now parts.0.now parts.1.now) }
{
    word.split_once('/')
}

/// The part with these numbers. None where there is none.
fn part_by(which: &str, parts: &str) -> Option<Part>
    ensures { MatchOption result ((part : Part) → ¬ IsPartBy which.now parts.now part) (IsPartBy which.now parts.now) }
{
    let (Ok(which), Ok(parts)) = (which.parse::<u64>(), parts.parse::<u64>()) else {
        return None;
    };
    Part::new(which, parts)
}

/// The plan of what varies.
fn plan_in(alloc: Global, matches: &ArgMatches<'_>) -> Result<Plan, SweepUnasked>
    ensures { MatchResult result (IsPlanned (all_of (codes "vary") (rows_of (found_of matches.now))))
        (IsNothing (IsPlanned (all_of (codes "vary") (rows_of (found_of matches.now))))) }
{
    match values(matches, "vary") {
        Some(texts) => plan_of(alloc, texts),
        None => Err(wrong(alloc, "--vary: nothing varies\n")),
    }
}

/// The file of the scenario, and that of the protocol, where one is named.
pub fn files_in(
    alloc: Global,
    matches: &ArgMatches<'_>,
) -> Result<(String, Option<String>), SweepUnasked>
    ensures { MatchResult result (λ files. (first_of (codes "file") (rows_of (found_of matches.now)) ≡ Some (string_bytes files.0))
        × (first_of (codes "protocol") (rows_of (found_of matches.now)) ≡ option_map (λ name. string_bytes name) files.1))
        (IsNothing (λ file. first_of (codes "file") (rows_of (found_of matches.now)) ≡ Some file)) }
{
    match value(matches, "file") {
        Some(file) => Ok((
            String::from_str(alloc, file)?,
            text(alloc, matches, "protocol")?,
        )),
        None => Err(wrong(alloc, "error: no FILE is named\n")),
    }
}

/// Whether a flag is set.
pub fn is_set(matches: &ArgMatches<'_>, flag: &str) -> bool
    ensures { result ≡ is_set (first_of flag.now (rows_of (found_of matches.now))) }
{
    match value(matches, flag) {
        Some(text) => text == "true",
        None => false,
    }
}

/// The value of an argument, as a text of its own. The error is that memory has run out.
fn text(
    alloc: Global,
    matches: &ArgMatches<'_>,
    argument: &str,
) -> Result<Option<String>, AllocError>
    ensures { IfOk result (λ text. first_of argument.now (rows_of (found_of matches.now)) ≡ option_map (λ t. string_bytes t) text) }
{
    match value(matches, argument) {
        Some(text) => Ok(Some(String::from_str(alloc, text)?)),
        None => Ok(None),
    }
}

/// The value of an argument.
pub fn value<'a>(matches: &ArgMatches<'a>, argument: &str) -> Option<&'a str>
    ensures { option_map (λ s. s.now) result
        ≡ first_of argument.now (rows_of (found_of matches.now)) }
{
    matches.get_str(argument)
}

/// The values of an argument, of all its uses.
fn values<'m, 'a>(matches: &'m ArgMatches<'a>, argument: &str) -> Option<&'m [&'a str]>
    ensures { option_map (λ s. map (λ v. v.now) s.now) result
        ≡ all_of argument.now (rows_of (found_of matches.now)) }
{
    matches.get_strs(argument)
}

/// What to tell of words that `clap` refuses.
pub fn refused(alloc: Global, error: &Error) -> Result<SweepUnasked, AllocError>
    ensures { IfOk result (IsToldFor (kind_of error.now)) }
{
    match error.kind() {
        ErrorKind::OutOfMemory => Err(AllocError),
        ErrorKind::DisplayHelp | ErrorKind::DisplayVersion => {
            Ok(SweepUnasked::Told(error.to_string(alloc)?))
        }
        _ => Ok(SweepUnasked::Wrong(error.to_string(alloc)?)),
    }
}
