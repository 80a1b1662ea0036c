//! What the protocols with time-outs have in common.

ghost use Rattle.std.specs.Prelude.{◌≡◌};
ghost use Rattle.lf_protocols.specs.Turns.{begin, is_time_out};

use crate::Note;
use lf_sim::{Out, Stepped};

/// A turn in which nothing has been done yet.
pub fn begin<S>(state: S) -> Stepped<S, Note>
    ensures { result ≡ begin state }
{
    Stepped {
        state,
        out: Out::none(),
    }
}

/// Whether the time-out that counts from `since` has come at step `t`.
pub fn is_time_out(patience: u32, t: u32, since: u32) -> bool
    ensures { result ≡ is_time_out patience t since }
{
    patience <= t.saturating_sub(since)
}
