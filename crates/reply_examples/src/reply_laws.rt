//! The laws of replies, at what is asked of a text on standard input: each call cites a law, and no premise of it is left.

ghost use Rattle.std.specs.Prelude.{◌≡◌, ◌≢◌, None, Some, false, codes, IfOk, IfSome, IsTrue, string_bytes};
ghost use Rattle.lf_words.specs.declared.types.Shown.{Shown};
ghost use Rattle.lf_words.specs.Words.{file_of, protocol_file};
ghost use Rattle.leastfault.specs.Commands.{IsDoneFor, tree_file};
ghost use Rattle.leastfault.specs.Delayed.{IsEveryDelayReply};
ghost use Rattle.leastfault.specs.Replays.{AgreeButForDelays, EndsInMisses};
ghost use Rattle.leastfault.specs.Shown.{IsShownReply};
ghost use Rattle.reply_examples.specs.Played.{IsNamedBy};

use crate::texts::{agrees, columns};
use leastfault::{
    Asked, BytesFault, Certified, NoWatch, Reply, Shown, every_delay_replies_are_one,
    every_delay_replies_replay, execute, shown_replies_are_one,
};
use lf_streams::in_memory::InMemory;
use std::alloc::{AllocError, Global};
use std::rt::Clock;
use std::sync::Wait;
use std::thread::Threads;

/// A reply, made twice.
type Both = (Reply<Certified>, Reply<Certified>);

/// Files in memory, of which standard input has this text.
pub(crate) fn input_of(alloc: Global, text: &[u8]) -> Result<InMemory, AllocError>
    ensures input { IfOk result (λ files. files.input.items ≡ text.now) }
    ensures read { IfOk result (λ files. files.read_failed ≡ false) }
    ensures write { IfOk result (λ files. files.write_failed ≡ false) }
{
    let mut files = InMemory::new(alloc, 1, 1);
    files.input = Vec::from_slice(alloc, text)?;
    Ok(files)
}

/// What is asked of the text on standard input, and of no other, done.
fn done(
    rt: &(impl Threads + Wait + Clock + Sync),
    alloc: Global,
    asked: &Asked,
    text: &[u8],
) -> Result<Reply<Certified>, BytesFault>
    requires file { file_of asked.now ≡ codes "-" }
    requires protocol { protocol_file asked.now ≡ None }
    requires tree { tree_file asked.now ≡ None }
    ensures { IfOk result (λ reply. IsDoneFor None asked.now text.now None (string_bytes reply.text) reply.value) }
{
    let mut files = input_of(alloc, text)?;
    let done = execute(rt, alloc, asked, &mut files, &NoWatch)?;
    Ok(done.reply)
}

/// The answer over every delay, told.
fn over_every_delay(
    rt: &(impl Threads + Wait + Clock + Sync),
    alloc: Global,
    text: &[u8],
) -> Result<Reply<Certified>, BytesFault>
    ensures { IfOk result (λ reply. IsEveryDelayReply None text.now (string_bytes reply.text) reply.value.status) }
{
    let asked = Asked::Answer {
        file: String::from_str(alloc, "-")?,
        quiet: true,
        every_delay: true,
        protocol: None,
    };
    done(rt, alloc, &asked, text)
}

/// The answer over every delay, told twice: both replies have one status, and differ at most in which notes come late.
fn answered_twice(
    rt: &(impl Threads + Wait + Clock + Sync),
    alloc: Global,
    text: &[u8],
) -> Result<Both, BytesFault>
    ensures text { IfOk result (λ both. AgreeButForDelays (string_bytes both.0.text) (string_bytes both.1.text)) }
    ensures status { IfOk result (λ both. both.0.value.status ≡ both.1.value.status) }
{
    every_delay_replies_are_one();
    let one = over_every_delay(rt, alloc, text)?;
    let other = over_every_delay(rt, alloc, text)?;
    Ok((one, other))
}

/// A run, told twice as it is asked: both replies are one. Of a JSON document the statuses are, and the refusals.
fn told_twice(
    rt: &(impl Threads + Wait + Clock + Sync),
    alloc: Global,
    text: &[u8],
    faults: &str,
    shown: Shown,
    delays: Option<String>,
) -> Result<Both, BytesFault>
    ensures status { IfOk result (λ both. both.0.value.status ≡ both.1.value.status) }
    ensures text { IfOk result (λ both. shown ≢ Shown.Json → string_bytes both.0.text ≡ string_bytes both.1.text) }
    ensures refused { IfOk result (λ both. both.0.value.status ≡ 2 → string_bytes both.0.text ≡ string_bytes both.1.text) }
{
    shown_replies_are_one(&shown, faults);
    let asked = Asked::Run {
        file: String::from_str(alloc, "-")?,
        faults: String::from_str(alloc, faults)?,
        shown,
        delays,
        protocol: None,
    };
    let one = done(rt, alloc, &asked, text)?;
    let other = done(rt, alloc, &asked, text)?;
    Ok((one, other))
}

/// A run, drawn twice: the statuses are one, and the refusals.
fn drawn_twice(
    rt: &(impl Threads + Wait + Clock + Sync),
    alloc: Global,
    text: &[u8],
    faults: &str,
    delays: Option<String>,
) -> Result<Both, BytesFault>
    ensures status { IfOk result (λ both. both.0.value.status ≡ both.1.value.status) }
    ensures refused { IfOk result (λ both. both.0.value.status ≡ 2 → string_bytes both.0.text ≡ string_bytes both.1.text) }
{
    shown_replies_are_one(&Shown::Whole, faults);
    let asked = Asked::Draw {
        file: String::from_str(alloc, "-")?,
        faults: String::from_str(alloc, faults)?,
        delays,
        protocol: None,
    };
    let one = done(rt, alloc, &asked, text)?;
    let other = done(rt, alloc, &asked, text)?;
    Ok((one, other))
}

/// The trace of a run in which notes arrive as words say.
fn traced(
    rt: &(impl Threads + Wait + Clock + Sync),
    alloc: Global,
    text: &[u8],
    faults: &str,
    delays: &str,
) -> Result<Reply<Certified>, BytesFault>
    ensures { IfOk result (λ reply.
        IsShownReply None Shown.Whole (Some delays.now) faults.now text.now (string_bytes reply.text) reply.value.status) }
{
    let asked = Asked::Run {
        file: String::from_str(alloc, "-")?,
        faults: String::from_str(alloc, faults)?,
        shown: Shown::Whole,
        delays: Some(String::from_str(alloc, delays)?),
        protocol: None,
    };
    done(rt, alloc, &asked, text)
}

/// Whether a text is what is wanted.
fn is_text(text: &str, wanted: &str) -> bool
    ensures { IsTrue result → text.now ≡ wanted.now }
{
    text == wanted
}

/// The answer over every delay, where it is told so, played again by the words that name its faults and its late notes: the run misses. None
/// where it isn't told so.
fn played_again(
    rt: &(impl Threads + Wait + Clock + Sync),
    alloc: Global,
    text: &[u8],
    told: &str,
    faults: &str,
    delays: &str,
) -> Result<Option<Reply<Certified>>, BytesFault>
    requires { IsNamedBy told.now faults.now delays.now }
    ensures { IfOk result (λ again. IfSome again (λ reply. EndsInMisses (string_bytes reply.text) reply.value.status)) }
{
    let Ok(scenario) = leastfault::read(alloc, text) else {
        return Ok(None);
    };
    let reply = over_every_delay(rt, alloc, text)?;
    if reply.value.status != 1 {
        return Ok(None);
    }
    if !is_text(reply.text.as_str(), told) {
        return Ok(None);
    }
    every_delay_replies_replay(&scenario, faults);
    let again = traced(rt, alloc, text, faults, delays)?;
    Ok(Some(again))
}

/// A scenario in which a lost note and two late ones keep the value from a node.
const LATE: &str = concat!(
    "nodes = 3\nhorizon = 6\nlast_omission = 2\ncrashes = 0\nbudget = 3\n",
    "protocol = \"redundant\"\nspread = 3\ntries = 1\noutcome = \"delivered\"\n",
);

/// The status of that scenario's answer over every delay, which is told twice.
fn late_status(rt: &(impl Threads + Wait + Clock + Sync), alloc: Global) -> Result<u8, BytesFault> {
    let (one, _) = answered_twice(rt, alloc, LATE.as_bytes())?;
    Ok(one.value.status)
}

#[test]
fn answers_over_every_delay_agree(rt: HostRuntime) {
    agrees(&rt, late_status(&rt, rt.alloc()) == Ok(1), "an answer");
}

/// What is to be told of a run.
fn shown_as(alloc: Global, word: &str) -> Result<Shown, AllocError> {
    match word {
        "whole" => Ok(Shown::Whole),
        "rules" => Ok(Shown::Rules),
        "changes" => Ok(Shown::Changes),
        "json" => Ok(Shown::Json),
        _ => Ok(Shown::Beside(String::from_str(alloc, "")?)),
    }
}

/// The delays of a row; none where it has a star.
fn delays_in(alloc: Global, words: &str) -> Result<Option<String>, AllocError> {
    match words {
        "*" => Ok(None),
        _ => Ok(Some(String::from_str(alloc, words)?)),
    }
}

/// The status of a run that is told twice as a row says.
fn told_status(
    rt: &(impl Threads + Wait + Clock + Sync),
    alloc: Global,
    row: &str,
) -> Result<u8, BytesFault> {
    let (how, rest) = columns(row);
    let (faults, delays) = columns(rest);
    let shown = shown_as(alloc, how)?;
    let delays = delays_in(alloc, delays)?;
    let (told, _) = told_twice(rt, alloc, LATE.as_bytes(), faults, shown, delays)?;
    Ok(told.value.status)
}

/// The status of the same run, which is drawn twice.
fn drawn_status(
    rt: &(impl Threads + Wait + Clock + Sync),
    alloc: Global,
    row: &str,
) -> Result<u8, BytesFault> {
    let (_, rest) = columns(row);
    let (faults, delays) = columns(rest);
    let delays = delays_in(alloc, delays)?;
    let (drawn, _) = drawn_twice(rt, alloc, LATE.as_bytes(), faults, delays)?;
    Ok(drawn.value.status)
}

/// The status of a run that is told twice as a row says, and of one that is drawn twice.
fn status_of(
    rt: &(impl Threads + Wait + Clock + Sync),
    alloc: Global,
    row: &str,
) -> Result<(u8, u8), BytesFault> {
    Ok((told_status(rt, alloc, row)?, drawn_status(rt, alloc, row)?))
}

/// How a run is told, its faults, and the arrivals of its late notes: it misses.
const MISSED: &str = concat!(
    "whole|omit 0>1 @1|0>2 @1 3,2>1 @3 7\n",
    "rules|omit 0>1 @1|0>2 @1 3,2>1 @3 7\n",
    "changes|omit 0>1 @1|0>2 @1 3,2>1 @3 7\n",
    "json|omit 0>1 @1|0>2 @1 3,2>1 @3 7\n",
    "beside|omit 0>1 @1|0>2 @1 3,2>1 @3 7\n",
    "whole|omit 0>1 @1,omit 0>2 @1|*\n",
    "beside|omit 0>1 @1,omit 0>2 @1|*\n",
);

/// The same of what is refused: the faults, or the arrivals.
const REFUSED: &str = concat!(
    "whole|crash 0 @1|*\n",
    "json|crash 0 @1|0>2 @1 3\n",
    "beside|omit 0>1 @1|0>2 @1 9\n",
);

#[test]
fn runs_agree_however_they_are_told(rt: HostRuntime) {
    for row in MISSED.lines() {
        agrees(&rt, status_of(&rt, rt.alloc(), row) == Ok((1, 1)), row);
    }
    for row in REFUSED.lines() {
        agrees(&rt, status_of(&rt, rt.alloc(), row) == Ok((2, 2)), row);
    }
}

/// That scenario's answer over every delay as it is told, and the words that name its faults and its late notes.
fn late_words() -> (&'static str, &'static str, &'static str)
    ensures { IsNamedBy result.0.now result.1.now result.2.now }
{
    (
        "least 1\nomit 0>1 @1\narrive 0>2 @1 3\narrive 2>1 @3 7\n",
        "omit 0>1 @1",
        "0>2 @1 3,2>1 @3 7",
    )
}

#[test]
fn answers_over_every_delay_are_played_again(rt: HostRuntime) {
    let (told, faults, delays) = late_words();
    let misses = match played_again(&rt, rt.alloc(), LATE.as_bytes(), told, faults, delays) {
        Ok(Some(reply)) => reply.value.status == 1,
        _ => false,
    };
    agrees(&rt, misses, "an answer");
}
