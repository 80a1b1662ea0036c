//! Why a search by several workers gives nothing.

ghost use Rattle.std.specs.Prelude.{◌≡◌};
ghost use Rattle.lf_pool.specs.Solved.{number_of};

use crate::solving::MOST_WORKERS;
use lf_book::Book;
use std::fmt;
use std::fmt::{Debug, Formatter, Write};
use thiserror::Error;

/// Why a search by several workers gives nothing.
#[derive(Drop, Error)]
pub enum PoolError {
    /// There are to be no workers, or more than `MOST_WORKERS`.
    #[error("the number of workers must be from 1 to {}", MOST_WORKERS)]
    Workers,
    /// Memory has run out.
    #[error("out of memory")]
    Memory,
    /// The book that came back is of another scenario. No search gives this error: the lock's type keeps the scenario.
    #[error("the book that the workers left is of another scenario")]
    OtherScenario(Book),
    /// All tickets were given, and a set is open.
    #[error("a set is left to be run, and there is no ticket for it")]
    Spent(Book),
}

impl PoolError {
    /// The number by which a reply names the error, 1..=4.
    pub fn number(&self) -> u32
        ensures { result ≡ number_of self.now }
    {
        match self {
            PoolError::Workers => 1,
            PoolError::Memory => 2,
            PoolError::OtherScenario(_) => 3,
            PoolError::Spent(_) => 4,
        }
    }
}

/// The error by the name of its variant, without its book.
impl Debug for PoolError {
    fn fmt<W: Write>(&self, f: &mut Formatter<W>) -> fmt::Result {
        f.write_str(match self {
            PoolError::Workers => "Workers",
            PoolError::Memory => "Memory",
            PoolError::OtherScenario(_) => "OtherScenario(..)",
            PoolError::Spent(_) => "Spent(..)",
        })
    }
}
