//! Who is told.

use crate::Progress;

/// Is told how far work has come, from time to time, by one thread or by several at once.
pub trait Watch: Sync {
    /// Takes what is told. Nothing waits for it but the work that tells.
    fn tell(&self, progress: Progress);

    /// Whether the work is to go on. Where it isn't, a search over configurations ends without an answer, as it does where memory runs out.
    fn goes_on(&self) -> bool {
        true
    }
}

/// Passes by what it is told.
#[derive(Clone, Copy, Debug, Drop)]
pub struct NoWatch;

impl Watch for NoWatch {
    fn tell(&self, _progress: Progress) {}
}
