//! Who replies to the scenarios of a sweep.

ghost use Rattle.std.specs.Prelude.{◌≡◌, ◌≢◌, ◌⊎◌, IfErr, IfOk, Some, string_bytes};
ghost use Rattle.leastfault.specs.Known.{known_of};
ghost use Rattle.lf_protocol_file.specs.Files.{IsText};
ghost use Rattle.leastfault_sweep.specs.Replies.{IsRefusedIn, IsReplyBy, RefusesBy, RepliesBy, text_of};

use leastfault::{
    ProtocolError, ProtocolFile, Reply, Said, Wanted, answer_reply, read_protocol, search_reply,
};
use lf_sweep::{Asker, Replied, SweepFault};
use lf_sweep_words::By;
use lf_watch::NoWatch;
use std::alloc::{AllocError, Global};

/// Replies by a protocol file that it reads each time, where there is one, so that threads share its text alone.
#[derive(Clone, Copy)]
pub(crate) struct Reading<'a> {
    pub(crate) protocol: Option<&'a [u8]>,
    pub(crate) by: By,
}

impl Asker for Reading<'_> {
    ghost replies = { λ asker. RepliesBy (text_of asker.protocol) asker.by };

    ghost refuses = { λ asker. RefusesBy (text_of asker.protocol) };

    fn reply(&self, alloc: Global, text: &[u8]) -> Result<Replied, SweepFault> {
        match self.protocol {
            None => Ok(reply_by(alloc, self.by, None, text)?),
            Some(protocol) => {
                let file = known(alloc, protocol)?;
                Ok(reply_by(alloc, self.by, Some(&file), text)?)
            }
        }
    }
}

/// The protocol file that a text is. The fault is that it is none, or that memory has run out.
fn known(alloc: Global, text: &[u8]) -> Result<ProtocolFile, SweepFault>
    ensures file { IfOk result (λ file. IsText file text.now) }
    ensures fault { IfErr result (λ e. (e ≡ SweepFault.Memory) ⊎ ((e ≡ SweepFault.Protocol) × IsRefusedIn (Some text.now))) }
{
    match read_protocol(alloc, text) {
        Ok(file) => Ok(file),
        Err(error) => Err(fault_of(&error)),
    }
}

/// What the refusal of a protocol file is to a sweep.
fn fault_of(error: &ProtocolError) -> SweepFault
    ensures { ((error.now ≡ ProtocolError.Memory) × (result ≡ SweepFault.Memory))
        ⊎ ((error.now ≢ ProtocolError.Memory) × (result ≡ SweepFault.Protocol)) }
{
    if matches!(error, ProtocolError::Memory) {
        SweepFault::Memory
    } else {
        SweepFault::Protocol
    }
}

/// The reply to the text of a scenario.
fn reply_by(
    alloc: Global,
    by: By,
    known: Option<&ProtocolFile>,
    text: &[u8],
) -> Result<Replied, AllocError>
    ensures { IfOk result (λ reply. IsReplyBy by (known_of known.entry) text.now (string_bytes reply.text) reply.status) }
{
    match by {
        By::Answer => {
            let Reply { text, value, said } = answer_reply(alloc, known, text, &NoWatch)?;
            Ok(Replied {
                text,
                status: value,
                faults: faults_of(&said),
            })
        }
        By::Search => {
            let Reply { text, value, said } = search_reply(
                alloc,
                known,
                Wanted::Answer,
                text,
                &NoWatch,
            )?;
            Ok(Replied {
                text,
                status: value.status,
                faults: faults_of(&said),
            })
        }
    }
}

/// How many faults the answer has, where a reply tells of one that defeats the outcome.
fn faults_of(said: &Said) -> Option<u32> {
    match said {
        Said::Answer(Some(set)) => u32::try_from(set.len()).ok(),
        _ => None,
    }
}
