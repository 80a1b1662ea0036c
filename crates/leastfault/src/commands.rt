//! What the words of a command line ask for, done.

ghost use Rattle.std.specs.Prelude.{◌≡◌, false, true, IfOk, is_some, string_bytes};
ghost use Rattle.std.specs.Option.{option_map};
ghost use Rattle.leastfault.specs.Commands.{IsAlone, IsCause, IsCauseFor, IsCheckOf, IsDone, IsDoneFor, tree_file, wanted_of};
ghost use Rattle.leastfault.specs.Engines.{IsMadeHere, Remakes};
ghost use Rattle.leastfault.specs.Known.{known_of};
ghost use Rattle.leastfault.specs.Places.{IsExecuted, writes_of};

use crate::answering::Wanted;
use crate::certified::{certified_reply, reply_by};
use crate::checking::check_reply;
use crate::delayed::answer_asked;
use crate::delivering::deliver;
use crate::fault::BytesFault;
use crate::named::{CommandTexts, read_command};
use crate::protocol::{protocol_refused, protocol_reply};
use crate::reply::{Certified, Reply, Searched, without_certificate};
use crate::shown::{drawn_reply, shown_reply};
use crate::why::why_reply;
use lf_protocol_file::{ProtocolFile, read_protocol};
use lf_streams::Files;
use lf_watch::Watch;
use lf_words::Asked;
use std::alloc::{AllocError, Global};
use std::rt::Clock;
use std::sync::Wait;
use std::thread::Threads;

// Words may ask for as many workers as may search.
const _: () = prove!(lf_words::MOST_WORKERS == lf_pool::MOST_WORKERS);

/// What a command came to, once it is written, and the texts that it read.
#[derive(Drop)]
pub struct Executed {
    /// The reply and its status, and the certificate where one was to be written and there is an answer.
    pub reply: Reply<Certified>,
    /// The texts that the words name.
    pub texts: CommandTexts,
}

/// Does what is asked, and writes what it comes to: first the certificate into the file that is named for it, where one is to be written and
/// there is an answer, and then the reply to standard output.
///
/// The protocol's file is read first, where one is named, then the scenario, or the file that `protocol` checks, and last the certificate
/// that is to be judged: of each at most one byte past its limit. All are read before anything is refused; then the protocol's refusal comes
/// first, the scenario's second, and last that of the delays, the faults or the certificate.
///
/// A search by one worker and an answer are made in this thread, and a search by several and a check in several threads. After `Read`,
/// `Memory` and `Pool` nothing was written; after `Write` a part of what there is to write, from its front and not the whole. No read or
/// write of the files may have failed.
pub fn execute<T: Threads + Wait + Clock + Sync, F: Files, V: Watch>(
    rt: &T,
    alloc: Global,
    asked: &Asked,
    files: &mut F,
    watch: &V,
) -> Result<Executed, BytesFault>
    requires read { (F.desk files.old).read_failed ≡ false }
    requires write { (F.desk files.old).write_failed ≡ false }
    ensures { IsExecuted asked.now (λ protocol text certificate done.
        IsDone asked.now protocol text certificate (string_bytes done.reply.text) done.reply.value) (IsCause asked.now)
        (λ done. writes_of asked.now (string_bytes done.reply.text) done.reply.value) (F.desk files.old) (F.desk files.new) result }
{
    let texts = read_command(alloc, asked, files)?;
    let reply = reply_to(rt, alloc, asked, &texts, watch)?;
    deliver(asked, files, &reply)?;
    Ok(Executed { reply, texts })
}

/// What is asked for, done with these texts.
fn reply_to<T: Threads + Wait + Clock + Sync, V: Watch>(
    rt: &T,
    alloc: Global,
    asked: &Asked,
    texts: &CommandTexts,
    watch: &V,
) -> Result<Reply<Certified>, BytesFault>
    requires { is_some (option_map (λ bytes. bytes.items) texts.now.tree) ≡ is_some (tree_file asked.now) }
    ensures { IsMadeHere (λ r. IsDone asked.now (option_map (λ bytes. bytes.items) texts.now.protocol) texts.now.scenario.items
        (option_map (λ bytes. bytes.items) texts.now.tree) (string_bytes r.text) r.value)
        (IsCause asked.now (option_map (λ bytes. bytes.items) texts.now.protocol) texts.now.scenario.items) result }
{
    match &texts.protocol {
        None => reply_knowing(rt, alloc, None, asked, texts, watch),
        Some(protocol) => match read_protocol(alloc, protocol.as_slice()) {
            Ok(file) => reply_knowing(rt, alloc, Some(&file), asked, texts, watch),
            Err(error) => Ok(alone(protocol_refused(alloc, error)?)),
        },
    }
}

/// What is asked for, done with the texts of the scenario and the certificate, where the protocol of a file may be known.
fn reply_knowing<T: Threads + Wait + Clock + Sync, V: Watch>(
    rt: &T,
    alloc: Global,
    known: Option<&ProtocolFile>,
    asked: &Asked,
    texts: &CommandTexts,
    watch: &V,
) -> Result<Reply<Certified>, BytesFault>
    requires { is_some (option_map (λ bytes. bytes.items) texts.now.tree) ≡ is_some (tree_file asked.now) }
    ensures { IsMadeHere (λ r. IsDoneFor (known_of known.entry) asked.now texts.now.scenario.items (option_map (λ bytes. bytes.items) texts.now.tree)
        (string_bytes r.text) r.value) (IsCauseFor (known_of known.entry) asked.now texts.now.scenario.items) result }
{
    let text = texts.scenario.as_slice();
    match asked {
        Asked::Search {
            tree,
            all,
            workers,
            ..
        } => match tree {
            Some(_) => certified_reply(rt, alloc, known, wanted_of(*all), *workers, text, watch),
            None => uncertified(reply_by(rt, alloc, known, wanted_of(*all), *workers, text, watch)),
        },
        Asked::Answer { every_delay, .. } => {
            Ok(alone(answer_asked(alloc, known, *every_delay, text, watch)?))
        }
        Asked::Why { .. } => Ok(alone(why_reply(alloc, known, text, watch)?)),
        Asked::Run {
            faults,
            shown,
            delays,
            ..
        } => {
            let delays = delays.as_deref();
            Ok(alone(shown_reply(alloc, known, shown, delays, text, faults.as_str())?))
        }
        Asked::Draw { faults, delays, .. } => {
            Ok(alone(drawn_reply(alloc, known, delays.as_deref(), text, faults.as_str())?))
        }
        Asked::Check { .. } => {
            Ok(alone(check_asked(rt, alloc, known, text, &texts.tree, watch)?))
        }
        Asked::Protocol { .. } => Ok(alone(protocol_reply(alloc, text)?)),
    }
}

/// The reply of a check to the texts of a scenario and of a certificate, which has to be there.
fn check_asked<T: Threads + Sync, V: Watch>(
    rt: &T,
    alloc: Global,
    known: Option<&ProtocolFile>,
    text: &[u8],
    tree: &Option<Vec<u8>>,
    watch: &V,
) -> Result<Reply<u8>, AllocError>
    requires { is_some (option_map (λ bytes. bytes.items) tree.now) ≡ true }
    ensures { IfOk result (λ reply. IsCheckOf (known_of known.entry) text.now (option_map (λ bytes. bytes.items) tree.now) (string_bytes reply.text)
        reply.value) }
{
    match tree {
        Some(certificate) => check_reply(rt, alloc, known, text, certificate.as_slice(), watch),
        None => unreachable!(),
    }
}

/// What a search is to report, by whether all least sets are to be told.
fn wanted_of(all: bool) -> Wanted
    ensures { result ≡ wanted_of all }
{
    if all {
        Wanted::AllLeast
    } else {
        Wanted::Answer
    }
}

/// A reply with its status alone.
fn alone(reply: Reply<u8>) -> Reply<Certified>
    ensures { IsAlone (λ status. status) reply result }
{
    without_certificate(reply.text, reply.value, reply.said)
}

/// What a search made, without its tree.
fn uncertified(made: Result<Reply<Searched>, BytesFault>) -> Result<Reply<Certified>, BytesFault>
    ensures { Remakes (IsAlone (λ searched. searched.status)) made result }
{
    let Reply { text, value, said } = made?;
    Ok(without_certificate(text, value.status, said))
}
