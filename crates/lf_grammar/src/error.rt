//! Why tokens aren't read.

ghost use Rattle.std.specs.Prelude.{◌≡◌, ◌≢◌};

use crate::{Slip, Why};
use std::alloc::AllocError;

/// Why there is nothing to read in tokens.
#[derive(Clone, Copy, Debug, PartialEq, Eq)]
pub enum Unread {
    /// What stands there can't stand there, and why.
    Wrong(Slip),
    /// Memory has run out.
    Memory,
}

impl From<AllocError> for Unread {
    ghost use Rattle.lf_grammar.specs.declared.error.Unread.TheVariants.{Memory};

    ghost from_gives = { λ _ fault. fault ≡ Memory };

    fn from(_: AllocError) -> Unread {
        Unread::Memory
    }
}

/// The refusal of the first of so many tokens.
pub fn wrong(why: Why, left: usize) -> Unread
    ensures { result ≢ Unread.Memory }
{
    Unread::Wrong(Slip::first(why, left))
}
