//! Searches with the certificate of their answer.

ghost use Rattle.std.specs.Prelude.{string_bytes, IfOk};
ghost use Rattle.leastfault.specs.Commands.{GetsCertified, IsCauseAt, IsCertifiedBy, IsWritten};
ghost use Rattle.leastfault.specs.Engines.{IsMadeHere, OfReply, Remakes};
ghost use Rattle.leastfault.specs.Known.{known_of};
ghost use Rattle.leastfault.specs.Replies.{IsSharedWith, reports_of};

use crate::answering::{Wanted, search_reply};
use crate::checking::tree_refused;
use crate::fault::BytesFault;
use crate::reply::{Certified, Reply, Searched, without_certificate};
use crate::said::Said;
use crate::workers::shared_reply;
use lf_protocol_file::ProtocolFile;
use lf_tree::{Tree, to_text, types_are_kept};
use lf_watch::Watch;
use std::alloc::{AllocError, Global};
use std::rt::Clock;
use std::sync::Wait;
use std::thread::Threads;

/// The reply of a search by so many workers at once, 1..=32, to a scenario's text, with its status and, where there is an answer, the
/// certificate's text. Where that text would be longer than `LONGEST_TREE` bytes the reply is `refused tree 1`, the status 2, and there is
/// no certificate.
///
/// One worker searches in this thread, and waits for nobody. For a scenario that isn't refused a number of workers out of range is
/// `Pool(1)`. The fault is `Memory` or `Pool`.
pub(crate) fn certified_reply<T: Threads + Wait + Clock + Sync, V: Watch>(
    rt: &T,
    alloc: Global,
    known: Option<&ProtocolFile>,
    wanted: Wanted,
    workers: u32,
    text: &[u8],
    watch: &V,
) -> Result<Reply<Certified>, BytesFault>
    ensures { IsMadeHere (OfReply (IsCertifiedBy (known_of known.entry) wanted workers) text.now) (IsCauseAt (known_of known.entry) workers text.now) result }
{
    let made = reply_by(rt, alloc, known, wanted, workers, text, watch);
    certified(alloc, made)
}

/// The reply of a search by so many workers to a scenario's text. One worker searches in this thread.
pub(crate) fn reply_by<T: Threads + Wait + Clock + Sync, V: Watch>(
    rt: &T,
    alloc: Global,
    known: Option<&ProtocolFile>,
    wanted: Wanted,
    workers: u32,
    text: &[u8],
    watch: &V,
) -> Result<Reply<Searched>, BytesFault>
    ensures { IsMadeHere (OfReply (IsSharedWith (known_of known.entry) (reports_of wanted) workers) text.now)
        (IsCauseAt (known_of known.entry) workers text.now)
        result }
{
    match workers {
        1 => Ok(search_reply(alloc, known, wanted, text, watch)?),
        several => shared_reply(rt, alloc, known, wanted, several, text, watch),
    }
}

/// The reply of a search, with the text of its tree in place of it.
fn certified(
    alloc: Global,
    made: Result<Reply<Searched>, BytesFault>,
) -> Result<Reply<Certified>, BytesFault>
    ensures { Remakes GetsCertified made result }
{
    let Reply { text, value, said } = made?;
    let Searched { status, tree } = value;
    match tree {
        Some(tree) => Ok(written(alloc, text, status, said, &tree)?),
        None => Ok(without_certificate(text, status, said)),
    }
}

/// The reply with this text and status, and the text of the tree; or that the latter is too long.
fn written(
    alloc: Global,
    text: String,
    status: u8,
    said: Said,
    tree: &Tree,
) -> Result<Reply<Certified>, AllocError>
    ensures { IfOk result (IsWritten (string_bytes text) status tree.now) }
{
    types_are_kept(tree);
    match to_text(alloc, tree) {
        Ok(certificate) => Ok(Reply {
            text,
            value: Certified {
                status,
                certificate: Some(certificate),
            },
            said,
        }),
        Err(fault) => {
            let refusal = tree_refused(alloc, fault)?;
            Ok(without_certificate(refusal.text, refusal.value, refusal.said))
        }
    }
}
