//! The reading of the words of `doubt`.

ghost use Rattle.std.specs.Prelude.{◌≡◌, ◌⊎◌, ℕ, true, None, Some, map, codes, MatchOption, MatchResult, IsErrAnd, string_bytes};
ghost use Rattle.clap.specs.Words.{first_of, found_of, rows_of};
ghost use Rattle.lf_sweep_words.specs.Help.{asks_help};
ghost use Rattle.lf_sweep_words.specs.Statuses.{exit_status};
ghost use Rattle.lf_sweep_words.specs.Words.{IsNothing};
ghost use Rattle.lf_doubt_words.specs.Words.{Answers, AreSeconds, IsMatched, IsSeconds};

use crate::command::command;
use crate::types::DoubtAsked;
use clap::ArgMatches;
use lf_sweep_words::{SweepUnasked, files_in, is_set, part_in, refused, value, workers_in, wrong};
use std::alloc::Global;

/// The most seconds that a question can be given: a day.
pub const MOST_SECONDS: u32 = 86400;

/// What the words behind `doubt` ask for, as `clap` reads them.
///
/// The first text that is no value of its option is refused, in the order `--seconds`, `--workers`, `--part`. `Memory` comes only where
/// memory has run out.
pub fn doubt_asked(alloc: Global, words: &[String]) -> Result<DoubtAsked, SweepUnasked>
    ensures words { Answers (map string_bytes words.now) result }
    ensures help { asks_help (map string_bytes words.now) ≡ true → IsErrAnd result (λ u. (exit_status u ≡ 0) ⊎ (u ≡ SweepUnasked.Memory)) }
{
    read(alloc, words)
}

/// What words ask for, as `clap` reads them.
fn read(alloc: Global, words: &[String]) -> Result<DoubtAsked, SweepUnasked>
    ensures { Answers (map string_bytes words.now) result }
{
    match command(alloc) {
        Ok(command) => match command.try_get_matches_from(words) {
            Ok(matches) => taken(alloc, &matches),
            Err(error) => Err(refused(alloc, &error).unwrap_or(SweepUnasked::Memory)),
        },
        Err(_) => Err(SweepUnasked::Memory),
    }
}

/// What `clap`'s matches ask for.
fn taken(alloc: Global, matches: &ArgMatches<'_>) -> Result<DoubtAsked, SweepUnasked>
    ensures { MatchResult result (IsMatched (rows_of (found_of matches.now))) (IsNothing (IsMatched (rows_of (found_of matches.now)))) }
{
    let seconds = seconds_in(alloc, matches)?;
    let workers = workers_in(alloc, matches)?;
    let part = part_in(alloc, matches)?;
    let (file, protocol) = files_in(alloc, matches)?;
    Ok(DoubtAsked {
        file,
        protocol,
        deep: is_set(matches, "deep"),
        seconds,
        workers,
        part,
        json: is_set(matches, "json"),
        quiet: is_set(matches, "quiet"),
    })
}

/// The most seconds that each question is given. None is without end.
fn seconds_in(alloc: Global, matches: &ArgMatches<'_>) -> Result<Option<u32>, SweepUnasked>
    ensures { MatchResult result (AreSeconds (first_of (codes "seconds") (rows_of (found_of matches.now))))
        (IsNothing (AreSeconds (first_of (codes "seconds") (rows_of (found_of matches.now))))) }
{
    match value(matches, "seconds") {
        Some(word) => Ok(Some(seconds_of(alloc, word)?)),
        None => Ok(None),
    }
}

/// How many seconds a word names.
fn seconds_of(alloc: Global, word: &str) -> Result<u32, SweepUnasked>
    ensures { MatchResult result (IsSeconds word.now) (IsNothing (IsSeconds word.now)) }
{
    match number_of_seconds(word) {
        Some(seconds) => Ok(seconds),
        None => Err(wrong(
            alloc,
            "--seconds: it takes a whole number from 1 to 86400\n",
        )),
    }
}

/// The number in 1..=86400 that a word is. None where it is none.
fn number_of_seconds(word: &str) -> Option<u32>
    ensures { MatchOption result ((n : ℕ) → ¬ IsSeconds word.now n) (IsSeconds word.now) }
{
    match word.parse::<u32>() {
        Ok(seconds) if 1 <= seconds && seconds <= MOST_SECONDS => Some(seconds),
        _ => None,
    }
}
