//! Engines: bytes in, bytes out.

ghost use Rattle.std.specs.Prelude.{◌≡◌, false, None};
ghost use Rattle.leastfault.specs.Engines.{IsEngine, IsEngineOfBoth, NoCause};
ghost use Rattle.leastfault.specs.Replies.{IsCheckReply, IsPoolCause, IsRunReply};
ghost use Rattle.leastfault.specs.Replies.{IsSearched, IsSearchedAll, IsShared, IsSharedAll};

use crate::answering::Wanted;
use crate::checking::{judged_alone, judged_in_rows};
use crate::fault::BytesFault;
use crate::made::{given_made, run_made, search_made, shared_made};
use crate::reply::Searched;
use crate::sending::send;
use lf_streams::{Sink, Source};
use std::alloc::Global;
use std::rt::Clock;
use std::sync::Wait;
use std::thread::Threads;

/// Reads a scenario, searches it, and writes the report of its answer, or the line of its refusal, or that a level of the search has
/// more sets than the scenario lets it keep. With an answer comes the tree of the search, which a checker accepts.
///
/// Of the source it takes at most `LONGEST + 1` bytes. It writes once the whole reply is there: after `Read` and `Memory`
/// nothing was written. A read that fails, also one that was interrupted, is `Read` at once. It runs in one thread, and
/// waits for nobody.
pub fn search_bytes<R: Source, W: Sink>(
    alloc: Global,
    reader: &mut R,
    writer: &mut W,
) -> Result<Searched, BytesFault>
    requires reader { R.has_failed reader.old ≡ false }
    requires writer { W.has_failed writer.old ≡ false }
    ensures { IsEngine R.left R.has_failed (IsSearched None) NoCause reader.old reader.new W.written W.has_failed writer.old writer.new result }
{
    let made = search_made(alloc, Wanted::Answer, reader);
    send(writer, made)
}

/// The same as `search_bytes`, but where there is an answer the reply reports all least sets: `all K M`, and the M allowed sets of K
/// faults that defeat the outcome, where none with fewer faults does, each on a line of its own. The tree and the status are those of
/// `search_bytes`.
pub fn all_bytes<R: Source, W: Sink>(
    alloc: Global,
    reader: &mut R,
    writer: &mut W,
) -> Result<Searched, BytesFault>
    requires reader { R.has_failed reader.old ≡ false }
    requires writer { W.has_failed writer.old ≡ false }
    ensures { IsEngine R.left R.has_failed (IsSearchedAll None) NoCause reader.old reader.new W.written W.has_failed writer.old writer.new result }
{
    let made = search_made(alloc, Wanted::AllLeast, reader);
    send(writer, made)
}

/// The same as `search_bytes`, but the search is made by so many workers at once, 1..=32: the reply, the tree and the status are the
/// same for every number of them. For a scenario that isn't refused another number is `Pool(1)`. It may wait for ever: what is promised
/// holds if it returns.
pub fn search_shared<T: Threads + Wait + Clock + Sync, R: Source, W: Sink>(
    rt: &T,
    alloc: Global,
    reader: &mut R,
    writer: &mut W,
    workers: u32,
) -> Result<Searched, BytesFault>
    requires reader { R.has_failed reader.old ≡ false }
    requires writer { W.has_failed writer.old ≡ false }
    ensures { IsEngine R.left R.has_failed (IsShared None workers) (IsPoolCause None workers) reader.old reader.new W.written W.has_failed writer.old
        writer.new result }
{
    let made = shared_made(rt, alloc, Wanted::Answer, workers, reader);
    send(writer, made)
}

/// The same as `all_bytes`, by so many workers, as `search_shared`.
pub fn all_shared<T: Threads + Wait + Clock + Sync, R: Source, W: Sink>(
    rt: &T,
    alloc: Global,
    reader: &mut R,
    writer: &mut W,
    workers: u32,
) -> Result<Searched, BytesFault>
    requires reader { R.has_failed reader.old ≡ false }
    requires writer { W.has_failed writer.old ≡ false }
    ensures { IsEngine R.left R.has_failed (IsSharedAll None workers) (IsPoolCause None workers) reader.old reader.new
        W.written W.has_failed writer.old writer.new result }
{
    let made = shared_made(rt, alloc, Wanted::AllLeast, workers, reader);
    send(writer, made)
}

/// Reads a scenario, runs it under the set of faults that `faults` names, and writes the trace of that run. It answers the
/// status: 0 where the run reaches the outcome, 1 where it misses, 2 where the scenario or the faults are refused.
///
/// `faults` holds the texts of faults in any order, with one comma between each two; the empty text names no fault. A text
/// that is no scenario has the line of its refusal as the reply, whatever the faults; words that name no set of faults, or
/// one that the scenario doesn't allow, have `refused faults`.
///
/// It takes and writes as `search_bytes` does: at most `LONGEST + 1` bytes of the source, and nothing before the whole
/// reply is there.
pub fn run_bytes<R: Source, W: Sink>(
    alloc: Global,
    reader: &mut R,
    faults: &str,
    writer: &mut W,
) -> Result<u8, BytesFault>
    requires reader { R.has_failed reader.old ≡ false }
    requires writer { W.has_failed writer.old ≡ false }
    ensures { IsEngine R.left R.has_failed (IsRunReply None false faults.now) NoCause reader.old reader.new W.written W.has_failed writer.old writer.new
        result }
{
    let made = run_made(alloc, reader, faults);
    send(writer, made)
}

/// Reads a scenario and the text of a tree, judges the tree for the scenario, and writes the line of the verdict: `yes`, or
/// `no REASON PATH` with the number of what is wrong first and the way from the root to where that is (the places of kids,
/// from 0, with a dot between any two; `-` for the root). It answers the status: 0 for yes, 1 for no, 2 where a text is refused.
///
/// A text that is no scenario has the line of its refusal as the reply, whatever the other text; then a text that is no
/// tree's has `refused tree NUMBER`.
///
/// It reads the scenario to its end and then the tree, of which it takes at most `LONGEST + 1` and `LONGEST_TREE + 1` bytes.
/// After `Read` and `Memory` nothing was written. It runs in one thread, and waits for nobody.
pub fn check_bytes<R: Source, S: Source, W: Sink>(
    alloc: Global,
    scenario_reader: &mut R,
    tree_reader: &mut S,
    writer: &mut W,
) -> Result<u8, BytesFault>
    requires scenario { R.has_failed scenario_reader.old ≡ false }
    requires tree { S.has_failed tree_reader.old ≡ false }
    requires writer { W.has_failed writer.old ≡ false }
    ensures { IsEngineOfBoth R.left R.has_failed S.left S.has_failed (IsCheckReply None) NoCause
        scenario_reader.old scenario_reader.new tree_reader.old tree_reader.new W.written W.has_failed writer.old writer.new result }
{
    let given = given_made(alloc, scenario_reader, tree_reader);
    send(writer, judged_alone(alloc, given))
}

/// The same as `check_bytes`, where the tree is judged in as many threads as there are processors.
pub fn check_bytes_rows<R: Source, S: Source, W: Sink>(
    rt: &(impl Threads + Sync),
    alloc: Global,
    scenario_reader: &mut R,
    tree_reader: &mut S,
    writer: &mut W,
) -> Result<u8, BytesFault>
    requires scenario { R.has_failed scenario_reader.old ≡ false }
    requires tree { S.has_failed tree_reader.old ≡ false }
    requires writer { W.has_failed writer.old ≡ false }
    ensures { IsEngineOfBoth R.left R.has_failed S.left S.has_failed (IsCheckReply None) NoCause
        scenario_reader.old scenario_reader.new tree_reader.old tree_reader.new W.written W.has_failed writer.old writer.new result }
{
    let given = given_made(alloc, scenario_reader, tree_reader);
    send(writer, judged_in_rows(rt, alloc, given))
}
