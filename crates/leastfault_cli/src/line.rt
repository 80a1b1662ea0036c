//! The line on standard error that says how far the program has come.

use leastfault::{Progress, Watch};
use std::alloc::AllocError;
use std::io::IsTerminal;
use std::sync::atomic::{AtomicBool, AtomicU64, Ordering};
use std::time::Instant;

/// How long work goes on before anything is told of it, in milliseconds.
const PATIENCE: u64 = 1000;

/// How long a line stands before the next takes its place, in milliseconds.
const PAUSE: u64 = 100;

/// One line that is kept up to date while work goes on that takes its time. It is shown where standard error is a terminal alone.
#[derive(Drop)]
pub(crate) struct Line<'a> {
    rt: &'a HostRuntime,
    /// When the line was made; nothing where it is never to be shown.
    made: Option<Instant>,
    /// When it may be shown next, in milliseconds since then; 0 before anything was told.
    next: AtomicU64,
    /// Whether it is shown.
    shown: AtomicBool,
}

impl<'a> Line<'a> {
    /// A line that isn't shown yet, and where it is to be quiet never.
    pub(crate) fn new(rt: &'a HostRuntime, quiet: bool) -> Line<'a> {
        let made = if !quiet && rt.stderr().is_terminal() {
            Instant::now(rt).ok()
        } else {
            None
        };
        Line {
            rt,
            made,
            next: AtomicU64::new(0),
            shown: AtomicBool::new(false),
        }
    }

    /// Erases the line, where it is shown.
    pub(crate) fn erase(&self) {
        if self.shown.swap(false, Ordering::Relaxed) {
            let _erased = eprint!(self.rt; "\r\x1b[K").is_ok();
        }
    }

    /// Says that so many of all questions are answered, where it may be shown.
    pub(crate) fn count(&self, done: u64, all: u64) {
        if self.made.is_some() && done < all {
            self.shown.store(true, Ordering::Relaxed);
            let _told = eprint!(self.rt; "\r\x1b[K{done} of {all} questions").is_ok();
        }
    }

    /// Whether it is time to show what is told now. Of several threads that ask at once one alone is to.
    fn is_due(&self) -> bool {
        let Some(made) = self.made else {
            return false;
        };
        let Ok(passed) = made.elapsed(self.rt) else {
            return false;
        };
        let now = passed
            .as_secs()
            .saturating_mul(1000)
            .saturating_add(u64::from(passed.subsec_millis()));
        let next = self.next.load(Ordering::Relaxed);
        let wait = if next == 0 { PATIENCE } else { PAUSE };
        next <= now && self.postpone(next, now.saturating_add(wait)) && next > 0
    }

    /// Puts off when the line may be shown, where no other thread has done so.
    fn postpone(&self, next: u64, later: u64) -> bool {
        self.next
            .compare_exchange(next, later, Ordering::Relaxed, Ordering::Relaxed)
            .is_ok()
    }

    /// The line for what is told, in the place of the one that is shown.
    fn text(&self, progress: Progress) -> Result<String, AllocError> {
        let alloc = self.rt.alloc();
        match progress {
            Progress::Sets {
                level,
                done,
                all: Some(all),
            } => format!(in alloc; "\r\x1b[Kfaults {level}: {done} of {all} sets"),
            Progress::Sets {
                level,
                done,
                all: None,
            } => format!(in alloc; "\r\x1b[Kfaults {level}: {done} sets"),
            Progress::Configurations { pass, done } => {
                format!(in alloc; "\r\x1b[Kfaults up to {pass}: {done} configurations")
            }
            Progress::Nodes { done, all } => format!(in alloc; "\r\x1b[K{done} of {all} nodes"),
        }
    }
}

impl<'a> Watch for Line<'a> {
    fn tell(&self, progress: Progress) {
        if self.is_due() {
            if let Ok(text) = self.text(progress) {
                self.shown.store(true, Ordering::Relaxed);
                let _told = eprint!(self.rt; "{text}").is_ok();
            }
        }
    }
}
