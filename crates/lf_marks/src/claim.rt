//! Who works which set.

ghost use Rattle.std.specs.Prelude.{◌≤◌, length};

/// A set that is worked.
#[derive(Clone, Copy)]
pub(crate) struct Claim {
    /// The ticket of its worker.
    pub(crate) ticket: u64,
    /// The place of the set.
    pub(crate) place: usize,
}

/// The claims that stand, in the order of their tickets. Most end in the order in which they were made: then none of the others moves.
#[derive(Drop)]
pub(crate) struct Claims {
    /// Claims that have ended, and then those that stand.
    pub(crate) list: Vec<Claim>,
    /// How many have ended.
    pub(crate) gone: usize,
    ghost within: { gone ≤ length list.items },
}
