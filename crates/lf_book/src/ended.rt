//! How a search ends.

use crate::Book;

/// How a search ended.
#[derive(Drop)]
pub enum Ended {
    /// It found the answer: the book is finished.
    Finished(Book),
    /// The sets of `level` faults would be `count`, more than the scenario lets a search keep.
    Full {
        /// How many faults these sets have.
        level: u32,
        /// How many there are.
        count: u64,
    },
}
