//! What the text of a scenario may have at most, and what it leaves out.

/// The most bytes that the text of a scenario may have.
pub const LONGEST: usize = 65536;

/// The most atoms of a formula that it says as a list.
pub const MOST_LISTED: u32 = 512;

/// How many sets of faults of one size it lets the search keep where it doesn't say so.
pub(crate) const USUAL_SETS: u32 = 100000;
