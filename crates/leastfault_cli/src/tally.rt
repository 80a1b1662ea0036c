//! What to say of the replies of a sweep.

use crate::combination::place_words;
use leastfault_sweep::{Counts, Marks, Plan};
use std::alloc::{AllocError, Global};

/// How many replies of each kind a sweep has, and which of its combinations is the first with the fewest faults, by the names of what varies.
pub(crate) fn tally_words(
    alloc: Global,
    plan: &Plan,
    names: &[String],
    counts: &Counts,
    marks: &Marks,
) -> Result<String, AllocError> {
    let all = counts
        .none
        .saturating_add(counts.least)
        .saturating_add(counts.refused)
        .saturating_add(counts.full);
    let mut words = format!(in alloc;
        "{all} combinations: {} none, {} least",
        counts.none, counts.least
    )?;
    if counts.full > 0 {
        write!(words, ", {} full", counts.full)?;
    }
    if counts.refused > 0 {
        write!(words, ", {} refused", counts.refused)?;
    }
    if let Some(first) = &marks.fewest {
        let place = place_words(alloc, plan, names, first.number)?;
        write!(
            words,
            "; the fewest faults: {}, first at{place}",
            first.faults
        )?;
    }
    Ok(words)
}
