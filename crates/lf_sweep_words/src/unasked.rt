//! Why the words of `sweep`, or of a command that is read so, ask for nothing.

ghost use Rattle.std.specs.Prelude.{◌≡◌};
ghost use Rattle.lf_sweep_words.specs.Statuses.{exit_status, goes_to_error, text_of};
ghost use Rattle.lf_sweep_words.specs.Words.{IsWrong};

use std::alloc::{AllocError, Global};
use std::error::Error;
use std::fmt;

/// Why the words of `sweep`, or of a command that is read so, ask for nothing. It is displayed as its text without the last line feed.
#[derive(Debug, Drop)]
pub enum SweepUnasked {
    /// Help was asked for: what to tell.
    Told(String),
    /// The words are wrong: what to tell.
    Wrong(String),
    /// Memory ran out.
    Memory,
}

impl SweepUnasked {
    /// The status to exit with: 0 where help was asked for, 3 for want of memory, and else 2.
    pub fn status(&self) -> u8
        ensures { result ≡ exit_status self.now }
    {
        match self {
            SweepUnasked::Told(_) => 0,
            SweepUnasked::Wrong(_) => 2,
            SweepUnasked::Memory => 3,
        }
    }

    /// What to tell the user, with its last line feed. Empty for want of memory.
    pub fn text(&self) -> &str
        ensures { result.now ≡ text_of self.now }
    {
        match self {
            SweepUnasked::Told(text) | SweepUnasked::Wrong(text) => text.as_str(),
            SweepUnasked::Memory => "",
        }
    }

    /// Whether the text goes to standard error. Help goes to standard output.
    pub fn is_error(&self) -> bool
        ensures { result ≡ goes_to_error self.now }
    {
        !matches!(self, SweepUnasked::Told(_))
    }
}

impl fmt::Display for SweepUnasked {
    fn fmt<W: fmt::Write>(&self, f: &mut fmt::Formatter<W>) -> fmt::Result {
        match self {
            SweepUnasked::Memory => f.write_str("out of memory"),
            _ => f.write_str(self.text().trim_end()),
        }
    }
}

impl Error for SweepUnasked {}

impl From<AllocError> for SweepUnasked {
    ghost use Rattle.lf_sweep_words.specs.declared.unasked.SweepUnasked.TheVariants.{Memory};

    ghost from_gives = { λ _ u. u ≡ Memory };

    fn from(_error: AllocError) -> SweepUnasked {
        SweepUnasked::Memory
    }
}

/// Wrong words, of which this is to be told; or want of memory.
pub fn wrong(alloc: Global, text: &str) -> SweepUnasked
    ensures { IsWrong result }
{
    told_or_memory(String::from_str(alloc, text))
}

/// Wrong words, of which this is to be told; or want of memory.
pub(crate) fn told_or_memory(text: Result<String, AllocError>) -> SweepUnasked
    ensures { IsWrong result }
{
    match text {
        Ok(text) => SweepUnasked::Wrong(text),
        Err(_) => SweepUnasked::Memory,
    }
}
