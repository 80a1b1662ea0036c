//! The replies that tell why an answer is one.

ghost use Rattle.std.specs.Prelude.{◌≡◌, ◌++◌, List, ℕ, IfOk, string_bytes};
ghost use Rattle.leastfault.specs.Known.{known_of};
ghost use Rattle.leastfault.specs.Replies.{IsTreeFor, RepliesSearch};
ghost use Rattle.leastfault.specs.Why.{HasReasons, IsWhyReply, RepliesWhy};

use crate::answering::{Wanted, refused, searched};
use crate::known::read_known;
use crate::reply::{Reply, Searched};
use crate::said::Said;
use lf_outcome::Scenario;
use lf_protocol_file::ProtocolFile;
use lf_tree::Tree;
use lf_watch::Watch;
use lf_why::why;
use std::alloc::{AllocError, Global};
use std::sync::Arc;

/// The reply to a scenario's text that tells the answer and why it is one.
pub(crate) fn why_reply<V: Watch>(
    alloc: Global,
    known: Option<&ProtocolFile>,
    text: &[u8],
    watch: &V,
) -> Result<Reply<u8>, AllocError>
    ensures { IfOk result (λ reply. IsWhyReply (known_of known.entry) text.now (string_bytes reply.text) reply.value) }
{
    match read_known(alloc, text, known) {
        Ok(scenario) => explained(alloc, scenario, watch),
        Err(error) => refused(alloc, error),
    }
}

/// The reply for a scenario that tells the answer and why it is one.
fn explained<V: Watch>(
    alloc: Global,
    scenario: Scenario,
    watch: &V,
) -> Result<Reply<u8>, AllocError>
    ensures { IfOk result (λ reply. RepliesSearch RepliesWhy scenario (string_bytes reply.text) reply.value) }
{
    let scenario = Arc::new(alloc, scenario)?;
    let shared = Arc::try_clone(&scenario)?;
    let Reply { text, value, said } = searched(alloc, Wanted::Answer, shared, watch)?;
    let Searched { status, tree } = value;
    match tree {
        Some(tree) => with_reasons(alloc, &scenario, text, status, said, &tree),
        None => Ok(Reply {
            text,
            value: status,
            said,
        }),
    }
}

/// The reply of a search that has ended, with why its answer is one.
fn with_reasons(
    alloc: Global,
    scenario: &Scenario,
    text: String,
    status: u8,
    said: Said,
    tree: &Tree,
) -> Result<Reply<u8>, AllocError>
    requires { IsTreeFor scenario.now tree.now }
    ensures { IfOk result (λ reply. HasReasons scenario.now tree.now (string_bytes text) (string_bytes reply.text) × (reply.value ≡ status)) }
{
    let reasons = why(alloc, scenario.setting(), scenario.formula(), tree)?;
    let mut text = text;
    text.push_str(reasons.as_str())?;
    Ok(Reply {
        text,
        value: status,
        said,
    })
}
