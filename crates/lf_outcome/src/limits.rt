//! What a scenario may have at most.

/// How deep the formula of a scenario may be.
pub const DEEPEST: u32 = 8;

/// The most atoms that the formula of a scenario may have.
pub const MOST_ATOMS: u32 = 4096;

/// The most sets of faults of one size that a scenario may let the search keep.
pub const MOST_SETS: u32 = 1000000;
