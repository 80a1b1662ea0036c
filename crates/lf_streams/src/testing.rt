//! Devices for tests: they give and take in pieces, fail at a given call, or never end.

ghost use Rattle.std.specs.Prelude.{◌≡◌, ◌+◌, ◌-◌, ◌^◌, min, false, Ok, length};
ghost use Rattle.std.specs.Io.{ReadsAtMost};

use crate::{Failed, Sink, Source};

/// A source or a sink that gives or takes at most `most` bytes a call, and at least one where `most` is 0.
#[derive(Debug, Drop)]
pub struct Chunks<D> {
    /// The device that it asks.
    pub inner: D,
    /// How many bytes a call gives or takes at most.
    pub most: usize,
}

impl<S: Source> Source for Chunks<S> {
    ghost left = { λ chunks. S.left chunks.inner };

    ghost has_failed = { λ chunks. S.has_failed chunks.inner };

    fn read(&mut self, buf: &mut [u8]) -> Result<usize, Failed> {
        let wanted = buf.len().min(self.most.max(1));
        self.inner.read(&mut buf[..wanted])
    }

    fn failed(&self) -> bool {
        self.inner.failed()
    }
}

impl<K: Sink> Sink for Chunks<K> {
    ghost written = { λ chunks. K.written chunks.inner };

    ghost has_failed = { λ chunks. K.has_failed chunks.inner };

    fn write(&mut self, bytes: &[u8]) -> Result<usize, Failed> {
        let given = bytes.len().min(self.most.max(1));
        self.inner.write(&bytes[..given])
    }

    fn failed(&self) -> bool {
        self.inner.failed()
    }
}

/// A source or a sink that passes its first calls on, and fails at each call after them.
#[derive(Debug, Drop)]
pub struct FailsAfter<D> {
    /// The device that it asks.
    pub inner: D,
    /// How many calls it still passes on.
    pub calls: usize,
    /// Whether a call has failed.
    pub failed: bool,
}

impl<D> FailsAfter<D> {
    /// A device that passes on `calls` calls. Nothing has failed.
    pub fn new(inner: D, calls: usize) -> FailsAfter<D>
        ensures inner { result.inner ≡ inner }
        ensures calls { result.calls ≡ calls }
        ensures well { result.failed ≡ false }
    {
        FailsAfter {
            inner,
            calls,
            failed: false,
        }
    }
}

impl<S: Source> Source for FailsAfter<S> {
    ghost left = { λ source. S.left source.inner };

    ghost has_failed = { λ source. source.failed };

    fn read(&mut self, buf: &mut [u8]) -> Result<usize, Failed> {
        if self.calls > 0 {
            self.calls -= 1;
            if let Ok(taken) = self.inner.read(buf) {
                return Ok(taken);
            }
        }
        self.failed = true;
        Err(Failed)
    }

    fn failed(&self) -> bool {
        self.failed
    }
}

impl<K: Sink> Sink for FailsAfter<K> {
    ghost written = { λ sink. K.written sink.inner };

    ghost has_failed = { λ sink. sink.failed };

    fn write(&mut self, bytes: &[u8]) -> Result<usize, Failed> {
        if self.calls > 0 {
            self.calls -= 1;
            if let Ok(taken) = self.inner.write(bytes) {
                return Ok(taken);
            }
        }
        self.failed = true;
        Err(Failed)
    }

    fn failed(&self) -> bool {
        self.failed
    }
}

/// A source without end, of zeros.
#[derive(Clone, Copy, Debug, PartialEq, Eq)]
pub struct Endless {
    /// How many bytes were taken so far, up to `u64::MAX`.
    pub taken: u64,
}

impl Source for Endless {
    ghost has_failed = { λ _. false };

    fn read(&mut self, buf: &mut [u8]) -> Result<usize, Failed>
        ensures bound { ReadsAtMost result buf.new }
        ensures full { result ≡ Ok (length buf.new) }
        ensures count { self.new.taken ≡ min (self.old.taken + length buf.new) (2 ^ 64 - 1) }
    {
        buf.fill(0);
        self.taken = self.taken.saturating_add(buf.len() as u64);
        Ok(buf.len())
    }

    fn failed(&self) -> bool {
        false
    }
}
