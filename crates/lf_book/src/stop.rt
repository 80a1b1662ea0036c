//! Where a search stops.

/// Where a search stops that went on from a book.
#[derive(Clone, Copy, Debug, PartialEq, Eq)]
pub enum Stop {
    /// It found the answer: the book is finished.
    Finished,
    /// The sets of `level` faults would be `count`, more than the scenario lets a search keep: the book can't be deepened.
    Full {
        /// How many faults these sets have.
        level: u32,
        /// How many there are.
        count: u64,
    },
    /// A set is open, but all tickets were given.
    Spent,
}
