//! How many nodes of a tree were judged so far, by whichever threads.

use lf_watch::{Progress, Watch};
use std::sync::atomic::{AtomicU64, Ordering};

/// Counts the nodes that were judged, and tells a watch.
#[derive(Drop)]
pub(crate) struct Tally<'a, W> {
    watch: &'a W,
    done: AtomicU64,
    /// How many nodes the tree has.
    all: u64,
}

impl<'a, W: Watch> Tally<'a, W> {
    /// Nothing of a tree with so many nodes was judged.
    pub(crate) fn new(watch: &'a W, all: usize) -> Tally<'a, W> {
        Tally {
            watch,
            done: AtomicU64::new(0),
            all: all as u64,
        }
    }

    /// Tells the watch that a part of the tree was judged, which has so many nodes at most.
    pub(crate) fn add(&self, part: usize) {
        let before = self.done.fetch_add(part as u64, Ordering::Relaxed);
        self.watch.tell(Progress::Nodes {
            done: before.saturating_add(part as u64).min(self.all),
            all: self.all,
        });
    }
}
