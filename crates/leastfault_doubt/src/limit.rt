//! How long a question may take.

ghost use Rattle.std.specs.Prelude.{◌≡◌, IsSome, IsTrue};

use lf_watch::{Progress, Watch};
use std::rt::HostRuntime;
use std::time::Instant;

/// Ends a search once it has taken so many seconds, where they are limited. Where the clock can't be read it doesn't.
#[derive(Clone, Copy, Drop)]
pub(crate) struct Limit<'a> {
    clock: &'a HostRuntime,
    start: Option<Instant>,
    seconds: Option<u32>,
}

impl<'a> Limit<'a> {
    /// The limit of a question that is asked now.
    pub(crate) fn from_now(clock: &'a HostRuntime, seconds: Option<u32>) -> Limit<'a>
        ensures { result.seconds ≡ seconds }
    {
        Limit {
            clock,
            start: Instant::now(clock).ok(),
            seconds,
        }
    }

    /// Whether the time is over.
    pub(crate) fn is_over(&self) -> bool
        ensures { IsTrue result → IsSome self.now.seconds }
    {
        match (self.start, self.seconds) {
            (Some(start), Some(seconds)) => match start.elapsed(self.clock) {
                Ok(passed) => passed.as_secs() >= u64::from(seconds),
                Err(_) => false,
            },
            _ => false,
        }
    }
}

impl Watch for Limit<'_> {
    fn tell(&self, _progress: Progress) {}

    fn goes_on(&self) -> bool {
        !self.is_over()
    }
}
