//! The standard library's readers as sources.

ghost use Rattle.std.specs.Prelude.{◌≡◌, false, is_some};

use crate::{Failed, Source};
use std::io;
use std::io::Read;

/// A reader as a source.
///
/// Every error of the reader is a failure, also `Interrupted`: each call of a search is bounded, so each read brings a
/// byte, ends or fails, and none is tried again. A reader that is to survive interrupts has to try again itself.
#[derive(Debug, Drop)]
pub struct FromRead<R> {
    inner: R,
    /// Why the last read that failed did.
    error: Option<io::Error>,
}

impl<R: Read> FromRead<R> {
    /// The source of what the reader has left. Nothing has failed.
    pub fn new(inner: R) -> FromRead<R>
        ensures well { ⟦<FromRead<R> as Source>⟧.has_failed result ≡ false }
        ensures left { ⟦<FromRead<R> as Source>⟧.left result ≡ R.remaining inner }
    {
        FromRead { inner, error: None }
    }

    /// Why the reader failed at a read, where one has failed: the reader's own error, of the last such read.
    pub fn error(&self) -> Option<&io::Error>
        ensures { is_some result ≡ ⟦<FromRead<R> as Source>⟧.has_failed self.now }
    {
        self.error.as_ref()
    }
}

impl<R: Read> Source for FromRead<R> {
    ghost left = { λ source. R.remaining source.inner };

    ghost has_failed = { λ source. is_some source.error };

    fn read(&mut self, buf: &mut [u8]) -> Result<usize, Failed> {
        match self.inner.read(buf) {
            Ok(taken) => Ok(taken),
            Err(error) => {
                self.error = Some(error);
                Err(Failed)
            }
        }
    }

    fn failed(&self) -> bool {
        self.error.is_some()
    }
}
