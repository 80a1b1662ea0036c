//! The devices that a search reads from and writes to, and the calls that read and write them whole.
//!
//! A `Source` and a `Sink` remember that they failed, and each call of theirs brings a byte, ends or fails: nobody tries
//! again. So every walk over them has an end, whatever the device.
#![tactic(auto)]

mod device;
mod error;
mod files;
pub mod in_memory;
mod reader;
mod reading;
pub mod testing;
mod writer;
mod writing;

pub use device::{Sink, Source};
pub use error::{Failed, ReadFault};
pub use files::{Files, Place};
pub use reader::FromRead;
pub use reading::read_up_to;
pub use writer::ToWrite;
pub use writing::write_all;
