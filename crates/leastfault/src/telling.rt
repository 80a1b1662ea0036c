//! How workers tell how far their search has come.

use lf_pool::Gate;
use lf_watch::{Progress, Watch};
use lf_work::{Finding, Job, Scratch, work_suited};
use std::alloc::AllocError;
use std::rt::Clock;
use std::sync::atomic::{AtomicU64, Ordering};

/// A gate that works each job at once, and tells a watch of it.
#[derive(Drop)]
pub(crate) struct Told<'a, V> {
    watch: &'a V,
    /// How many sets were run of each level.
    done: [AtomicU64; 7],
}

impl<'a, V> Told<'a, V> {
    /// A gate through which nothing went so far.
    pub(crate) fn new(watch: &'a V) -> Told<'a, V> {
        Told {
            watch,
            done: [
                AtomicU64::new(0),
                AtomicU64::new(0),
                AtomicU64::new(0),
                AtomicU64::new(0),
                AtomicU64::new(0),
                AtomicU64::new(0),
                AtomicU64::new(0),
            ],
        }
    }

    /// How far the search has come with one more set of a level, 0..=6. How many the level has isn't known here.
    fn one_more(&self, level: usize) -> Option<Progress> {
        let done = self.done.get(level)?;
        let before = done.fetch_add(1, Ordering::Relaxed);
        Some(Progress::Sets {
            level: level as u32,
            done: before.saturating_add(1),
            all: None,
        })
    }
}

impl<'a, V: Watch> Gate for Told<'a, V> {
    fn run<R: Clock>(
        &self,
        _rt: &R,
        job: &Job,
        scratch: &mut Scratch,
    ) -> Result<Finding, AllocError> {
        let found = work_suited(job, scratch);
        if let Some(progress) = self.one_more(job.set().len()) {
            self.watch.tell(progress);
        }
        found
    }
}
