//! The laws of the texts of combinations and of sweeps, at scenarios without floats: no premise of them is left.

ghost use Rattle.std.specs.Prelude.{◌≡◌, List, ℕ, None, Some, codes, false, string_bytes, IfOk, IfSome};
ghost use Rattle.std.specs.Io.KnownBytes.{Appends};
ghost use Rattle.leastfault_sweep.specs.Replies.{IsSweep};
ghost use Rattle.reply_examples.specs.Floats.{AreExact, scenario_text};

use crate::floats::are_exact;
use crate::reply_laws::input_of;
use leastfault::BytesFault;
use leastfault_sweep::{Counts, Ended, SweepAsked, execute, sweep_asked, sweeps_are_one};
use lf_streams::{Sink, ToWrite};
use lf_sweep::{TextError, text_of, texts_are_one};
use std::alloc::{AllocError, Global};
use std::process::Abort;
use std::thread::Threads;

/// What is found is what is wanted. Each comparison ends here: an assertion is dear to prove.
fn agrees(rt: &impl Abort, truth: bool, what: &str) {
    assert!(rt; truth, "at {what}");
}

/// The text of a scenario in which nothing varies, written twice: both are one.
fn text_twice(alloc: Global, scenario: &[u8]) -> Result<(String, String), TextError>
    requires { scenario.now ≡ codes "nodes = 3\n" }
    ensures { IfOk result (λ both. string_bytes both.0 ≡ string_bytes both.1) }
{
    texts_are_one();
    let one = text_of(alloc, scenario, &[], &[])?;
    let other = text_of(alloc, scenario, &[], &[])?;
    Ok((one, other))
}

/// A sweep of the scenario on standard input, done: the counts of its lines, where all were written.
fn swept<W: Sink>(
    rt: &(impl Threads + Sync),
    alloc: Global,
    asked: &SweepAsked,
    text: &[u8],
    writer: &mut W,
) -> Result<Option<Counts>, BytesFault>
    requires file { string_bytes asked.now.file ≡ codes "-" }
    requires protocol { asked.now.protocol ≡ None }
    requires writer { W.has_failed writer.old ≡ false }
    ensures { IfOk result (λ counts. IfSome counts (λ n. (bytes : List ℕ)
        × IsSweep None asked.now.by text.now asked.now.plan.varied.items asked.now.part bytes n
        × Appends (W.written writer.old) (W.written writer.new) bytes)) }
{
    let mut files = input_of(alloc, text)?;
    let done = execute(rt, alloc, asked, &mut files, writer)?;
    match done.ended {
        Ended::Swept(counts) => Ok(Some(counts)),
        Ended::Refused(_) | Ended::Undated => Ok(None),
    }
}

/// Both counts, where there are two.
fn both(first: Option<Counts>, second: Option<Counts>) -> Option<(Counts, Counts)>
    ensures { IfSome result (λ b. (first ≡ Some b.0) × (second ≡ Some b.1)) }
{
    Some((first?, second?))
}

/// The same sweep, done twice: the same lines were written, and they have the same counts.
fn swept_twice<W: Sink>(
    rt: &(impl Threads + Sync),
    alloc: Global,
    asked: &SweepAsked,
    text: &[u8],
    one: &mut W,
    other: &mut W,
) -> Result<Option<(Counts, Counts)>, BytesFault>
    requires file { string_bytes asked.now.file ≡ codes "-" }
    requires protocol { asked.now.protocol ≡ None }
    requires text { text.now ≡ scenario_text }
    requires exact { AreExact asked.now.plan.varied.items }
    requires one { W.has_failed one.old ≡ false }
    requires other { W.has_failed other.old ≡ false }
    ensures counts { IfOk result (λ both. IfSome both (λ b. b.0 ≡ b.1)) }
    ensures lines { IfOk result (λ both. IfSome both (λ _. (bytes : List ℕ) × Appends (W.written one.old) (W.written one.new) bytes
        × Appends (W.written other.old) (W.written other.new) bytes)) }
{
    sweeps_are_one();
    let first = swept(rt, alloc, asked, text, one)?;
    let second = swept(rt, alloc, asked, text, other)?;
    Ok(both(first, second))
}

#[test]
fn the_text_of_a_combination_is_one(rt: HostRuntime) {
    let texts = text_twice(rt.alloc(), "nodes = 3\n".as_bytes());
    agrees(&rt, texts.is_ok(), "a text");
}

/// Three nodes that commit, of which one may crash.
const COMMIT: &str = concat!(
    "nodes = 3\nhorizon = 5\nlast_omission = 0\ncrashes = 1\nbudget = 1\n",
    "protocol = \"two_phase\"\npatience = 3\nvotes = [true, true]\noutcome = \"unblocked\"\n"
);

/// The words of a line.
fn words_of(alloc: Global, line: &str) -> Result<Vec<String>, AllocError> {
    let mut words = Vec::new(alloc);
    for word in line.split(' ') {
        words.push(String::from_str(alloc, word)?)?;
    }
    Ok(words)
}

/// What the words of a line ask for, where it is a sweep of standard input in which no value is a float: the counts of two such sweeps, and whether
/// the same lines were written.
fn counts_of(
    rt: &(impl Threads + Sync),
    alloc: Global,
    line: &str,
) -> Option<(Counts, Counts, bool)> {
    let words = words_of(alloc, line).ok()?;
    let asked = sweep_asked(alloc, words.as_slice()).ok()?;
    if asked.file.as_str() != "-" || asked.protocol.is_some() {
        return None;
    }
    if !are_exact(alloc, asked.plan.varied()) {
        return None;
    }
    let mut lines = Vec::new(alloc);
    let mut more = Vec::new(alloc);
    let mut one = ToWrite::new(&mut lines);
    let mut other = ToWrite::new(&mut more);
    let swept = swept_twice(rt, alloc, &asked, COMMIT.as_bytes(), &mut one, &mut other);
    let (first, second) = swept.ok()??;
    Some((first, second, lines.as_slice() == more.as_slice()))
}

/// Whether a sweep has these counts twice, and its lines.
fn is_one(rt: &(impl Threads + Sync), alloc: Global, line: &str) -> bool {
    match counts_of(rt, alloc, line) {
        Some((first, second, same)) => same
            && first == second
            && first.none == 3
            && first.least == 1,
        None => false,
    }
}

#[test]
fn a_sweep_is_one(rt: HostRuntime) {
    let line = "- --vary crashes=0,1 --vary outcome=agreement,unblocked";
    agrees(&rt, is_one(&rt, rt.alloc(), line), line);
    let line = "- --vary crashes=0,1 --vary outcome=agreement,unblocked --workers 2";
    agrees(&rt, is_one(&rt, rt.alloc(), line), line);
}
