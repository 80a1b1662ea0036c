//! The replies to protocol files, before they are written.

ghost use Rattle.std.specs.Prelude.{◌≡◌, ◌≢◌, ◌++◌, IfOk, option_map, string_bytes};
ghost use Rattle.lf_trace.specs.Lines.{line};
ghost use Rattle.leastfault.specs.Protocols.{IsProtocolReply, place_words, protocol_refusal};

use crate::reply::Reply;
use crate::said::Said;
use lf_protocol_file::{Path, ProtocolError, read_protocol};
use std::alloc::{AllocError, Global};

/// The reply to the text of a protocol file.
pub(crate) fn protocol_reply(alloc: Global, text: &[u8]) -> Result<Reply<u8>, AllocError>
    ensures { IfOk result (λ reply. IsProtocolReply text.now (string_bytes reply.text) reply.value) }
{
    match read_protocol(alloc, text) {
        Ok(file) => Ok(Reply {
            text: String::from_str(alloc, "ok\n")?,
            value: 0,
            said: Said::File(file),
        }),
        Err(error) => protocol_refused(alloc, error),
    }
}

/// The reply to a text that is refused. The error is that memory has run out, here or in the reading.
pub(crate) fn protocol_refused(alloc: Global, error: ProtocolError) -> Result<Reply<u8>, AllocError>
    ensures { IfOk result (λ reply. (error ≢ ProtocolError.Memory)
        × (string_bytes reply.text ≡ protocol_refusal error) × (reply.value ≡ 2)) }
{
    if matches!(error, ProtocolError::Memory) {
        return Err(AllocError);
    }
    Ok(Reply {
        text: protocol_refusal(alloc, &error)?,
        value: 2,
        said: Said::NoFile(error),
    })
}

/// The line of a refused protocol file: `refused protocol NUMBER PLACE`, or without ` PLACE` where no place is named.
pub fn protocol_refusal(alloc: Global, error: &ProtocolError) -> Result<String, AllocError>
    ensures { IfOk result (λ text. string_bytes text ≡ protocol_refusal error.now) }
{
    let mut text = format!(in alloc; "refused protocol {}", error.number())?;
    push_place_line(error.place(), &mut text)?;
    Ok(text)
}

/// Adds one space and a place, where there is one, and ends the line.
fn push_place_line(place: Option<&Path>, text: &mut String) -> Result<(), AllocError>
    ensures { IfOk result (λ _. string_bytes text.new ≡ string_bytes text.old ++ line (place_words (option_map (λ p. p.now) place.entry))) }
{
    match place {
        Some(path) => write!(text, " {path}\n"),
        None => text.push('\n'),
    }
}
