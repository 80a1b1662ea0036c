//! The questions of a part asked, by one worker and by several.

ghost use Rattle.std.specs.Prelude.{◌≡◌, ◌+◌, ◌*◌, ◌≤◌, ◌<◌, ℕ, false, vec_len, slice_index_or, IfErr, IfOk};
ghost use Rattle.lf_sweep.specs.Faults.{HasCause, is_write};
ghost use Rattle.lf_sweep.specs.Limits.{most_combinations};
ghost use Rattle.lf_sweep.specs.Rows.{AreInside, AreLinesAt};
ghost use Rattle.lf_sweep.specs.Sweeps.{WasPut, WasSwept, WerePut};

use crate::Part;
use crate::counts::Counts;
use crate::fault::SweepFault;
use crate::lines::{Lines, part_lines};
use crate::marks::Marks;
use crate::questions::Questions;
use lf_streams::{Sink, write_all};
use std::alloc::{AllocError, Global};
use std::thread;
use std::thread::Threads;

/// How many questions a worker asks before their lines are written.
const ROUND: u64 = 8;

/// Asks all questions of a part, and writes the line of each as it comes, in order. The answer is how many replies of each kind there are. The
/// marks take in which questions stand out.
///
/// The error says why it ended before the last: `Write` exactly where the sink failed, `Memory` where memory ran out, and else why a question
/// has no line.
///
/// It runs in one thread.
pub fn sweep<Q: Questions, W: Sink>(
    alloc: Global,
    questions: &Q,
    part: Part,
    writer: &mut W,
    marks: &mut Marks,
) -> Result<Counts, SweepFault>
    requires { W.has_failed writer.old ≡ false }
    ensures { WasSwept W.written W.has_failed (Q.total questions.now) (Q.is_reply questions.now) (Q.line questions.now) (Q.refuses questions.now) part
        writer.old writer.new result }
{
    let count = part.count(questions.count());
    let mut counts = Counts::empty();
    'places: for place in 0..count {
        let line = part_lines(alloc, questions, part, place, 1)?;
        put(writer, line.bytes.as_slice())?;
        counts = counts.plus(line.counts);
        marks.take(line.marks);
    }
    Ok(counts)
}

/// The same as `sweep`, by so many workers at once, 1 at least: the bytes are the same.
pub fn sweep_shared<R: Threads + Sync, Q: Questions + Sync, W: Sink>(
    rt: &R,
    alloc: Global,
    questions: &Q,
    part: Part,
    workers: u32,
    writer: &mut W,
    marks: &mut Marks,
) -> Result<Counts, SweepFault>
    requires workers { 1 ≤ workers }
    requires writer { W.has_failed writer.old ≡ false }
    ensures { WasSwept W.written W.has_failed (Q.total questions.now) (Q.is_reply questions.now) (Q.line questions.now) (Q.refuses questions.now) part
        writer.old writer.new result }
{
    let count = part.count(questions.count());
    let mut place = 0;
    let mut counts = Counts::empty();
    'rounds: while place < count {
        let round = Round::of(place, count - place, workers);
        counts = counts.plus(put_round(rt, alloc, questions, part, round, writer, marks)?);
        place += round.lanes * round.size;
    }
    Ok(counts)
}

/// What workers ask before their lines are written.
#[derive(Clone, Copy)]
struct Round {
    /// The place of the first question.
    place: u64,
    /// How many workers ask.
    lanes: u64,
    /// How many questions each asks.
    size: u64,
    ghost sized: { 1 ≤ size },
}

impl Round {
    /// The next round of so many workers, where some places are left.
    fn of(place: u64, left: u64, workers: u32) -> Round
        requires left { 1 ≤ left }
        requires workers { 1 ≤ workers }
        ensures place { result.place ≡ place }
        ensures some { 1 ≤ result.lanes * result.size }
        ensures inside { result.lanes * result.size ≤ left }
    {
        let lanes = u64::from(workers).min(left);
        let size = (left / lanes).min(ROUND);
        Round { place, lanes, size }
    }
}

/// Asks the questions of a round, and writes their lines in order.
fn put_round<R: Threads + Sync, Q: Questions + Sync, W: Sink>(
    rt: &R,
    alloc: Global,
    questions: &Q,
    part: Part,
    round: Round,
    writer: &mut W,
    marks: &mut Marks,
) -> Result<Counts, SweepFault>
    requires few { Q.total questions.now ≤ most_combinations }
    requires inside { AreInside (Q.total questions.now) part (round.place + round.lanes * round.size) }
    requires writer { W.has_failed writer.old ≡ false }
    ensures { WerePut W.written W.has_failed (Q.total questions.now) (Q.is_reply questions.now) (Q.line questions.now) (Q.refuses questions.now) part
        round.place (round.lanes * round.size) writer.old writer.new result }
{
    let Ok(found) = asked(rt, alloc, questions, part, round) else {
        return Err(SweepFault::Memory);
    };
    let mut counts = Counts::empty();
    'lanes: for lane in 0..found.len() {
        match &found[lane] {
            Ok(lines) => {
                put(writer, lines.bytes.as_slice())?;
                counts = counts.plus(lines.counts);
                marks.take(lines.marks);
            }
            Err(fault) => return Err(*fault),
        }
    }
    Ok(counts)
}

/// The lines of the questions of a round, worker by worker.
fn asked<R: Threads + Sync, Q: Questions + Sync>(
    rt: &R,
    alloc: Global,
    questions: &Q,
    part: Part,
    round: Round,
) -> Result<Vec<Result<Lines, SweepFault>>, AllocError>
    requires few { Q.total questions.now ≤ most_combinations }
    requires inside { AreInside (Q.total questions.now) part (round.place + round.lanes * round.size) }
    ensures lanes { IfOk result (λ found. vec_len found ≡ round.lanes) }
    ensures lines { IfOk result (λ found. (lane : ℕ) (d : _) → lane < round.lanes →
        IfOk (slice_index_or found.items lane d) (AreLinesAt (Q.total questions.now) (Q.is_reply questions.now) (Q.line questions.now) part
        (round.place + lane * round.size) round.size)) }
    ensures cause { IfOk result (λ found. (lane : ℕ) (d : _) → lane < round.lanes →
        IfErr (slice_index_or found.items lane d) (HasCause (Q.refuses questions.now) (Q.total questions.now) part)) }
    ensures sink { IfOk result (λ found. (lane : ℕ) (d : _) → lane < round.lanes → IfErr (slice_index_or found.items lane d) (λ e. is_write e ≡ false)) }
{
    thread::map_indices(
        rt,
        alloc,
        round.lanes as usize,
        &|lane: usize| lane_lines(alloc, questions, part, round, lane as u64),
    )
}

/// The lines of the questions that one worker asks in a round.
fn lane_lines<Q: Questions>(
    alloc: Global,
    questions: &Q,
    part: Part,
    round: Round,
    lane: u64,
) -> Result<Lines, SweepFault>
    requires few { Q.total questions.now ≤ most_combinations }
    requires inside { AreInside (Q.total questions.now) part (round.place + round.lanes * round.size) }
    requires lane { lane < round.lanes }
    ensures lines { IfOk result (AreLinesAt (Q.total questions.now) (Q.is_reply questions.now) (Q.line questions.now) part
        (round.place + lane * round.size) round.size) }
    ensures cause { IfErr result (HasCause (Q.refuses questions.now) (Q.total questions.now) part) }
    ensures sink { IfErr result (λ e. is_write e ≡ false) }
{
    part_lines(
        alloc,
        questions,
        part,
        round.place + lane * round.size,
        round.size,
    )
}

/// Writes bytes.
fn put<W: Sink>(writer: &mut W, bytes: &[u8]) -> Result<(), SweepFault>
    requires { W.has_failed writer.old ≡ false }
    ensures { WasPut W.written W.has_failed bytes.now writer.old writer.new result }
{
    match write_all(writer, bytes) {
        Ok(()) => Ok(()),
        Err(_) => Err(SweepFault::Write),
    }
}
