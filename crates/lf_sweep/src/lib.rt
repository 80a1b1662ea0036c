//! The combinations of a sweep.
//!
//! A sweep asks of one scenario again and again, with other values at some of its keys. What varies is written `KEY=VALUES`; the
//! combinations of the values are numbered, the last key that varies runs fastest. Each has the words of its values, and the text of the
//! scenario that has these values.
//!
//! Questions have numbers, and each has a line. They are asked in parts, by one worker or by several. The combinations of a study are such
//! questions, whoever replies to their texts.
//!
//! The lines are written in the order of the numbers, whatever the number of workers.
#![tactic(auto)]

mod apart;
mod asker;
mod combinations;
mod counts;
mod error;
mod fault;
mod laws;
mod line;
mod lines;
mod listed;
mod marks;
mod members;
mod part;
mod placed;
mod plan;
mod questions;
mod reading;
mod study;
mod sweeping;
mod text;
mod value;
mod varied;
mod words;

pub use asker::{Asker, Replied};
pub use combinations::Combinations;
pub use counts::{Counts, Kind, kind_of};
pub use error::{PlanError, TextError, VaryError};
pub use fault::SweepFault;
pub use laws::{combinations_are_numbered, texts_are_one};
pub use line::line_of;
pub use marks::{Defeated, Marks};
pub use part::{MOST_PARTS, Part};
pub use placed::text_with;
pub use plan::{MOST_COMBINATIONS, Plan};
pub use questions::{Line, Questions};
pub use reading::read_varied;
pub use study::Study;
pub use sweeping::{sweep, sweep_shared};
pub use text::text_of;
pub use varied::{Place, Varied};
pub use words::{MOST_VALUES, Words};
