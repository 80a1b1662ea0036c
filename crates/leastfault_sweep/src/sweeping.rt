//! Sweeps, by one worker and by several.

ghost use Rattle.std.specs.Prelude.{◌≡◌, ◌≤◌, false};
ghost use Rattle.lf_sweep.specs.Studies.{WasSwept};
ghost use Rattle.leastfault_sweep.specs.Replies.{RefusesBy, RepliesBy, text_of};

use crate::asking::Reading;
use lf_streams::Sink;
use lf_sweep::{Combinations, Counts, Marks, Part, Study, SweepFault};
use lf_sweep_words::By;
use std::alloc::Global;
use std::thread::Threads;

/// Asks of all combinations of a part of a sweep, and writes the line of each as it comes, in order. The answer is how many replies of each
/// kind there are, and the marks take in which combinations stand out. The scenario may name the protocol of a file, where its text is given.
///
/// The error says why it ended before the last: `NoDocument` and `Date` only where a combination has no text for that reason, `Protocol` only
/// where the protocol file is refused, `Write` exactly where the sink failed, and `Memory` where memory ran out.
///
/// It runs in one thread.
pub fn sweep<W: Sink>(
    alloc: Global,
    protocol: Option<&[u8]>,
    by: By,
    study: &Study<'_>,
    part: Part,
    writer: &mut W,
    marks: &mut Marks,
) -> Result<Counts, SweepFault>
    requires { W.has_failed writer.old ≡ false }
    ensures { WasSwept W.written W.has_failed (RepliesBy (text_of protocol.entry) by) (RefusesBy (text_of protocol.entry)) study.now.scenario.now
        study.now.plan.now.varied.items part writer.old writer.new result }
{
    let asker = Reading { protocol, by };
    let questions = Combinations {
        asker: &asker,
        study: *study,
    };
    lf_sweep::sweep(alloc, &questions, part, writer, marks)
}

/// The same as `sweep`, by so many workers at once, 1 at least: the bytes are the same.
pub fn sweep_shared<R: Threads + Sync, W: Sink>(
    rt: &R,
    alloc: Global,
    protocol: Option<&[u8]>,
    by: By,
    study: &Study<'_>,
    part: Part,
    workers: u32,
    writer: &mut W,
    marks: &mut Marks,
) -> Result<Counts, SweepFault>
    requires workers { 1 ≤ workers }
    requires writer { W.has_failed writer.old ≡ false }
    ensures { WasSwept W.written W.has_failed (RepliesBy (text_of protocol.entry) by) (RefusesBy (text_of protocol.entry)) study.now.scenario.now
        study.now.plan.now.varied.items part writer.old writer.new result }
{
    let asker = Reading { protocol, by };
    let questions = Combinations {
        asker: &asker,
        study: *study,
    };
    lf_sweep::sweep_shared(rt, alloc, &questions, part, workers, writer, marks)
}
