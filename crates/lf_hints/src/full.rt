//! What to do where a level of a search has too many sets.

use crate::hint::{Hint, Words};
use lf_outcome::MOST_SETS;

/// What a search was to tell.
#[derive(Clone, Copy, Debug, PartialEq, Eq)]
pub enum Wanted {
    /// The answer.
    Answer,
    /// All least sets.
    AllLeast,
}

/// What to do where a level of a search has `count` sets, and at most `most` may be kept.
pub(crate) fn full_hint(wanted: Wanted, level: u32, count: u64, most: u32) -> Hint {
    let below = level.saturating_sub(1);
    let instead = match wanted {
        Wanted::Answer => "use `leastfault answer`, which has no such limit; or ",
        Wanted::AllLeast => "",
    };
    let room = room_for(count);
    Hint::of(format_args!(
        "max_sets = {most}, and there are {count} sets of {level} faults: {instead}{}lower budget to {below}, or last_omission, crashes or pauses",
        room.as_str()
    ))
}

/// What may be done about the most sets that a search keeps, for a level with so many.
fn room_for(count: u64) -> Words {
    if count <= u64::from(MOST_SETS) {
        Words::of(format_args!("raise max_sets to {count} or more, or "))
    } else {
        Words::of("")
    }
}
