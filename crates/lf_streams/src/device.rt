//! What can be read from, and what can be written to.

ghost use Rattle.std.specs.Prelude.{◌≡◌, ℕ, ◌<◌, Bool, true, List, Option, None, length, IfOk, OnOk, OnErr};
ghost use Rattle.std.specs.Io.{ReadsAtMost, WritesAtMost};
ghost use Rattle.std.specs.Io.KnownBytes.{ReadConsumes, WriteAppends};

use crate::Failed;

/// Where bytes come from: an end comes, or a failure, or bytes without end.
pub trait Source {
    /// The bytes still to come, where the source tells them.
    ghost left: { Self → Option (List ℕ) } = { λ _. None };

    /// Whether a read has failed.
    ghost has_failed: { Self → Bool };

    /// Puts the next bytes at the front of `buf` and answers how many, at most the length of `buf`. 0 is the end, where
    /// `buf` has room. A read that fails takes no byte.
    fn read(&mut self, buf: &mut [u8]) -> Result<usize, Failed>
        ensures bound { ReadsAtMost result buf.new }
        ensures bytes { ReadConsumes (left self.old) (left self.new) result buf.new }
        ensures well { OnOk result (has_failed self.new ≡ has_failed self.old) }
        ensures failed { OnErr result (has_failed self.new ≡ true) };

    /// Whether a read has failed so far.
    fn failed(&self) -> bool
        ensures { result ≡ has_failed self.now };
}

/// Where bytes go.
pub trait Sink {
    /// The bytes that were written so far, where the sink tells them.
    ghost written: { Self → Option (List ℕ) } = { λ _. None };

    /// Whether a write has failed.
    ghost has_failed: { Self → Bool };

    /// Takes the first bytes of `bytes` and answers how many: at least one, where there is any. A write that fails takes
    /// none.
    fn write(&mut self, bytes: &[u8]) -> Result<usize, Failed>
        ensures bound { WritesAtMost result bytes.now }
        ensures some { 0 < length bytes.now → IfOk result (λ n. 0 < n) }
        ensures bytes { WriteAppends (written self.old) (written self.new) result bytes.now }
        ensures well { OnOk result (has_failed self.new ≡ has_failed self.old) }
        ensures failed { OnErr result (has_failed self.new ≡ true) };

    /// Whether a write has failed so far.
    fn failed(&self) -> bool
        ensures { result ≡ has_failed self.now };
}
