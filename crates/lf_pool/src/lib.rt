//! Several workers over one book: the answer and the tree are the same for every number of them.
//!
//! The book lies under a lock, beside a total of what was filed. Its type keeps the book closed, and the total at the number of its sets that
//! are answered. A worker takes a set in one hold of the lock, runs it outside, and files what it found in another hold.
#![tactic(auto)]

mod answers;
mod error;
mod facts;
mod fetching;
mod finish;
mod gate;
mod handful;
mod hands;
mod locked;
mod promises;
mod rounds;
mod searched;
mod share;
mod shared;
mod solving;
mod turning;

pub use error::PoolError;
pub use gate::{Gate, NoGate};
pub use promises::answers_are_one;
pub use searched::Searched;
pub use share::Share;
pub use shared::SharedBook;
pub use solving::{MOST_WORKERS, Solved, SolvedAll, solve, solve_all};
pub use turning::Turn;
