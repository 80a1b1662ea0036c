//! The standard library's writers as sinks.

ghost use Rattle.std.specs.Prelude.{◌≡◌, false};

use crate::{Failed, Sink};
use std::io::Write;

/// A writer as a sink.
///
/// Every error of the writer is a failure, also `Interrupted`, and so is a write of some bytes that takes none: none is
/// tried again. Nothing is flushed: whoever gave the writer flushes it.
#[derive(Debug, Drop)]
pub struct ToWrite<W> {
    inner: W,
    failed: bool,
}

impl<W: Write> ToWrite<W> {
    /// The sink that adds to what the writer holds. Nothing has failed.
    pub fn new(inner: W) -> ToWrite<W>
        ensures well { ⟦<ToWrite<W> as Sink>⟧.has_failed result ≡ false }
        ensures written { ⟦<ToWrite<W> as Sink>⟧.written result ≡ W.contents inner }
    {
        ToWrite {
            inner,
            failed: false,
        }
    }
}

impl<W: Write> Sink for ToWrite<W> {
    ghost written = { λ sink. W.contents sink.inner };

    ghost has_failed = { λ sink. sink.failed };

    fn write(&mut self, bytes: &[u8]) -> Result<usize, Failed> {
        match self.inner.write(bytes) {
            Ok(taken) if taken > 0 || bytes.is_empty() => Ok(taken),
            _ => {
                self.failed = true;
                Err(Failed)
            }
        }
    }

    fn failed(&self) -> bool {
        self.failed
    }
}
