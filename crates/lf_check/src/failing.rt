//! Which part of a tree is known to hold something wrong.

use std::sync::atomic::{AtomicUsize, Ordering};

/// The first part in which a node is known to fail, of those that were judged so far, by whichever threads.
///
/// It only saves work: nothing that is found rests on it.
#[derive(Drop)]
pub(crate) struct FirstFailing {
    part: AtomicUsize,
}

impl FirstFailing {
    /// No part is known.
    pub(crate) fn new() -> FirstFailing {
        FirstFailing {
            part: AtomicUsize::new(usize::MAX),
        }
    }

    /// In this part a node fails.
    pub(crate) fn note(&self, part: usize) {
        let _known = self.part.fetch_min(part, Ordering::Relaxed);
    }

    /// Whether a part is known that stands before this one.
    pub(crate) fn is_before(&self, part: usize) -> bool {
        self.part.load(Ordering::Relaxed) < part
    }
}
