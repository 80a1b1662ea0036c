//! The search as a machine over events: whichever open set each take picks, and whenever and in whatever order its finding is filed, the
//! book stays right, and a finished one has the answer and the one tree of its scenario.
//!
//! One thread makes a search by itself: it takes, works and files sets one after another, level by level, until the book has ended or a level is too full. It
//! begins anew, or goes on from a book that others left.
#![tactic(auto)]

mod alone_facts;
mod book;
mod deepening;
mod driving;
mod ended;
mod ending;
mod facts;
mod filing;
mod finishing;
mod solving;
mod stop;
mod taking;
mod tasks;

pub use book::Book;
pub use deepening::Deepened;
pub use driving::{Event, Reply};
pub use ended::Ended;
pub use ending::{finish, finish_watched};
pub use filing::Refusal;
pub use finishing::Unfinished;
pub use lf_marks::{Counts, Steps};
pub use lf_work::{
    Finding, Job, Scratch, Spent, work, work_on, work_reusing, work_suited, work_up,
};
pub use solving::{solve, solve_watched};
pub use stop::Stop;
pub use taking::Taken;
