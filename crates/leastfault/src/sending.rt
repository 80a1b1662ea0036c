//! The writing of replies.

ghost use Rattle.std.specs.Prelude.{◌≡◌, false};
ghost use Rattle.leastfault.specs.Engines.{WasSent};

use crate::fault::BytesFault;
use crate::reply::Reply;
use lf_streams::{Sink, write_all};

/// Writes a reply that was made, and answers what its engine answers with it. Where none was made nothing is written.
pub(crate) fn send<X: Drop, W: Sink>(
    writer: &mut W,
    made: Result<Reply<X>, BytesFault>,
) -> Result<X, BytesFault>
    requires { W.has_failed writer.old ≡ false }
    ensures { WasSent W.written W.has_failed made writer.old writer.new result }
{
    let Reply { text, value, .. } = made?;
    match write_all(writer, text.as_bytes()) {
        Ok(()) => Ok(value),
        Err(_) => Err(BytesFault::Write),
    }
}
