//! The replies of a check, before they are written.

ghost use Rattle.std.specs.Prelude.{◌≡◌, ◌≢◌, ℕ, List, Option, string_bytes, IfOk};
ghost use Rattle.lf_check.specs.Verdicts.{IsVerdict};
ghost use Rattle.lf_sim.specs.Settings.{world_of};
ghost use Rattle.lf_protocol_file.specs.declared.declared.Declared.{Declared};
ghost use Rattle.leastfault.specs.Checks.{IsGiven, IsReplyTo};
ghost use Rattle.leastfault.specs.Engines.{Remakes};
ghost use Rattle.leastfault.specs.Known.{IsTextOf, known_of};
ghost use Rattle.leastfault.specs.Replies.{IsCheckReply};
ghost use Rattle.leastfault.specs.Reports.{check_status, judgement, tree_refusal};

use crate::answering::refused;
use crate::fault::BytesFault;
use crate::known::read_known;
use crate::replies::{judgement, tree_refusal};
use crate::reply::Reply;
use crate::said::Said;
use lf_check::{Verdict, check, check_rows_watched};
use lf_outcome::Scenario;
use lf_protocol_file::ProtocolFile;
use lf_tree::{Tree, TreeFault, read_tree, types_are_kept};
use lf_watch::{NoWatch, Watch};
use std::alloc::{AllocError, Global};
use std::thread::Threads;

/// What the texts of a scenario and of a tree give to be judged.
#[derive(Drop)]
pub(crate) enum Given {
    /// Nothing: one of them is refused, and this is the reply.
    Refused(Reply<u8>),
    /// A scenario and a tree.
    Both {
        /// The scenario.
        scenario: Scenario,
        /// The tree.
        tree: Tree,
    },
}

/// What the texts of a scenario and of a tree give to be judged.
pub(crate) fn texts_given(
    alloc: Global,
    known: Option<&ProtocolFile>,
    text: &[u8],
    certificate: &[u8],
) -> Result<Given, AllocError>
    ensures { IfOk result (IsGiven (known_of known.entry) text.now certificate.now) }
{
    match read_known(alloc, text, known) {
        Ok(scenario) => given_for(alloc, scenario, certificate),
        Err(error) => Ok(Given::Refused(refused(alloc, error)?)),
    }
}

/// What a scenario and the text of a tree give to be judged.
fn given_for(alloc: Global, scenario: Scenario, certificate: &[u8]) -> Result<Given, AllocError>
    ensures { (known : Option Declared) (text : List ℕ) → IsTextOf known scenario text → IfOk result (IsGiven known text certificate.now) }
{
    match read_tree(alloc, certificate) {
        Ok(tree) => {
            types_are_kept(&tree);
            Ok(Given::Both { scenario, tree })
        }
        Err(fault) => Ok(Given::Refused(tree_refused(alloc, fault)?)),
    }
}

/// The reply to what is given, judged in one thread.
pub(crate) fn judged_alone(
    alloc: Global,
    given: Result<Given, BytesFault>,
) -> Result<Reply<u8>, BytesFault>
    ensures { Remakes IsReplyTo given result }
{
    match given? {
        Given::Refused(reply) => Ok(reply),
        Given::Both { scenario, tree } => {
            let verdict = check(alloc, &scenario, &tree)?;
            Ok(judged(alloc, verdict, scenario, tree)?)
        }
    }
}

/// The reply to what is given, judged in as many threads as there are processors.
pub(crate) fn judged_in_rows<T: Threads + Sync>(
    rt: &T,
    alloc: Global,
    given: Result<Given, BytesFault>,
) -> Result<Reply<u8>, BytesFault>
    ensures { Remakes IsReplyTo given result }
{
    Ok(replied_in_rows(rt, alloc, given?, &NoWatch)?)
}

/// The same of what is given.
fn replied_in_rows<T: Threads + Sync, V: Watch>(
    rt: &T,
    alloc: Global,
    given: Given,
    watch: &V,
) -> Result<Reply<u8>, AllocError>
    ensures { IfOk result (IsReplyTo given) }
{
    match given {
        Given::Refused(reply) => Ok(reply),
        Given::Both { scenario, tree } => {
            let verdict = check_rows_watched(rt, alloc, &scenario, &tree, watch)?;
            Ok(judged(alloc, verdict, scenario, tree)?)
        }
    }
}

/// The reply of a check to the texts of a scenario and of a tree, judged in as many threads as there are processors.
pub(crate) fn check_reply<T: Threads + Sync, V: Watch>(
    rt: &T,
    alloc: Global,
    known: Option<&ProtocolFile>,
    text: &[u8],
    certificate: &[u8],
    watch: &V,
) -> Result<Reply<u8>, AllocError>
    ensures { IfOk result (λ reply. IsCheckReply (known_of known.entry) text.now certificate.now (string_bytes reply.text) reply.value) }
{
    let given = texts_given(alloc, known, text, certificate)?;
    replied_in_rows(rt, alloc, given, watch)
}

/// The reply that tells a verdict on a tree for a scenario.
fn judged(
    alloc: Global,
    verdict: Verdict,
    scenario: Scenario,
    tree: Tree,
) -> Result<Reply<u8>, AllocError>
    ensures { IfOk result (λ reply.
        (string_bytes reply.text ≡ judgement verdict) × (reply.value ≡ check_status verdict)) }
{
    Ok(Reply {
        text: judgement(alloc, &verdict)?,
        value: check_status(&verdict),
        said: Said::Judged {
            verdict,
            scenario,
            tree,
        },
    })
}

/// The reply to a tree's text that is refused. The error is that memory has run out, here or in the reading.
pub(crate) fn tree_refused(alloc: Global, fault: TreeFault) -> Result<Reply<u8>, AllocError>
    ensures { IfOk result (λ reply. (fault ≢ TreeFault.Memory)
        × (string_bytes reply.text ≡ tree_refusal fault) × (reply.value ≡ 2)) }
{
    if fault == TreeFault::Memory {
        return Err(AllocError);
    }
    Ok(Reply {
        text: tree_refusal(alloc, fault)?,
        value: 2,
        said: Said::NoTree(fault),
    })
}

/// The status of a verdict: 0 where the tree is accepted, 1 where it isn't.
fn check_status(verdict: &Verdict) -> u8
    ensures { result ≡ check_status verdict.now }
{
    match verdict {
        Verdict::Yes => 0,
        Verdict::No { .. } => 1,
    }
}
