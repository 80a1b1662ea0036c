//! The reader of protocol files, in which a designer writes a protocol as rules.
//!
//! A file is TOML. Its sections are read in the order of `file_in`, each from its first entry to its last, and the first fault is the refusal, with its place.
//! What a file declares are constants, variables, notes, named expressions, named guards, outcomes, and what a trace shows.
//!
//! A draft is a protocol as far as it is read: each reader takes one, and gives it with one thing more. Once all is read it is rules, with what names mean and
//! what is promised.
#![tactic(auto)]

mod chains;
mod constants;
mod declared;
mod draft;
mod error;
mod fault;
mod file;
mod named;
mod numbers;
mod path;
mod reader;
mod rules;
mod section;
mod sections;
mod text;
mod uniqueness;
mod variables;
mod wholeness;

pub use constants::with_constant;
pub use declared::{Declared, Outcome};
pub use draft::{Begun, Draft, Who, none_of, push};
pub use error::{LONGEST, ProtocolError};
pub use fault::Fault;
pub use file::ProtocolFile;
pub use named::{with_all_shown, with_fact, with_let, with_note, with_outcome, with_shown};
pub use numbers::numbers_are_places;
pub use path::{Path, Shown};
pub use reader::{read_declared, read_protocol};
pub use section::{Listing, Naming, Part, Section, is_part, is_section};
pub use text::{at, name_of, tokens_in};
pub use uniqueness::{files_are_one, refusals_are_one};
pub use variables::{Sketch, with_sketch, with_variables};
pub use wholeness::files_are_whole;
