//! What is made of what sources hold, before it is written.

ghost use Rattle.std.specs.Prelude.{◌≡◌, false, None};
ghost use Rattle.leastfault.specs.Checks.{IsGiven};
ghost use Rattle.leastfault.specs.Engines.{IsMadeOfBoth, IsMadeOfOne, NoCause, OfReply};
ghost use Rattle.leastfault.specs.Replies.{IsPoolCause, IsRunReply, IsSearchedWith, IsSharedWith, reports_of};

use crate::answering::{Wanted, run_reply, search_reply};
use crate::checking::{Given, texts_given};
use crate::fault::BytesFault;
use crate::reading::{read_text, read_texts};
use crate::reply::{Reply, Searched};
use crate::workers::shared_reply;
use lf_scenario::LONGEST;
use lf_streams::Source;
use lf_watch::NoWatch;
use std::alloc::Global;
use std::rt::Clock;
use std::sync::Wait;
use std::thread::Threads;

/// The reply of a search to what a source holds.
pub(crate) fn search_made<R: Source>(
    alloc: Global,
    wanted: Wanted,
    reader: &mut R,
) -> Result<Reply<Searched>, BytesFault>
    requires { R.has_failed reader.old ≡ false }
    ensures { IsMadeOfOne R.left R.has_failed (OfReply (IsSearchedWith None (reports_of wanted))) NoCause reader.old reader.new result }
{
    let text = read_text(alloc, reader, LONGEST)?;
    Ok(search_reply(alloc, None, wanted, text.as_slice(), &NoWatch)?)
}

/// The reply of a search by so many workers to what a source holds.
pub(crate) fn shared_made<T: Threads + Wait + Clock + Sync, R: Source>(
    rt: &T,
    alloc: Global,
    wanted: Wanted,
    workers: u32,
    reader: &mut R,
) -> Result<Reply<Searched>, BytesFault>
    requires { R.has_failed reader.old ≡ false }
    ensures { IsMadeOfOne R.left R.has_failed (OfReply (IsSharedWith None (reports_of wanted) workers)) (IsPoolCause None workers)
        reader.old reader.new result }
{
    let text = read_text(alloc, reader, LONGEST)?;
    shared_reply(rt, alloc, None, wanted, workers, text.as_slice(), &NoWatch)
}

/// The reply of a run to what a source holds.
pub(crate) fn run_made<R: Source>(
    alloc: Global,
    reader: &mut R,
    faults: &str,
) -> Result<Reply<u8>, BytesFault>
    requires { R.has_failed reader.old ≡ false }
    ensures { IsMadeOfOne R.left R.has_failed (OfReply (IsRunReply None false faults.now)) NoCause reader.old reader.new result }
{
    let text = read_text(alloc, reader, LONGEST)?;
    Ok(run_reply(alloc, None, text.as_slice(), faults)?)
}

/// What two sources give to be judged, of a scenario and of a tree.
pub(crate) fn given_made<R: Source, S: Source>(
    alloc: Global,
    reader: &mut R,
    tree_reader: &mut S,
) -> Result<Given, BytesFault>
    requires scenario { R.has_failed reader.old ≡ false }
    requires tree { S.has_failed tree_reader.old ≡ false }
    ensures { IsMadeOfBoth R.left R.has_failed S.left S.has_failed (IsGiven None) NoCause reader.old reader.new tree_reader.old
        tree_reader.new result }
{
    let texts = read_texts(alloc, reader, tree_reader)?;
    Ok(texts_given(
        alloc,
        None,
        texts.scenario.as_slice(),
        texts.tree.as_slice(),
    )?)
}
