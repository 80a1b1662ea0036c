//! The words of what a protocol of rules shows: the texts of its states and notes in a trace, and the names of its facts.
//!
//! Nothing here asks that a definition be well formed: what a number names that there isn't has no text.
#![tactic(auto)]

mod fact;
mod finding;
mod names;
mod note;
mod packet;
mod state;
mod value;

pub use fact::push_fact;
pub use finding::fact_named;
pub use note::push_note;
pub use packet::push_packet;
pub use state::push_state;
