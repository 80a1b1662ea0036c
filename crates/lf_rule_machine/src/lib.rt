//! Protocols of rules as machines: what expressions are worth, what a node does at an event, and the machine of a definition with its constants.
//!
//! Nothing here asks that a definition be well formed, takes memory in a step, or fails: what a number names that there isn't is 0, or does nothing.
#![tactic(auto)]

mod acting;
mod assigning;
mod bodies;
mod choosing;
mod constants;
mod event_laws;
mod fact;
mod fitting;
mod index;
mod indexed;
mod machine;
mod machine_laws;
mod moment;
mod operators;
mod packet_laws;
mod places;
mod sending;
mod set_laws;
pub mod sets;
mod single_laws;
mod state;
mod values;

pub use acting::go_through;
pub use assigning::assign_all;
pub use choosing::chosen;
pub use constants::given_table;
pub use event_laws::{chains_by_what_was_taken, chosen_chains_are_all, events_keep_ranges};
pub use fact::{Fact, Told};
pub use machine::Ruled;
pub use machine_laws::{steps_are_folds, values_are_of_their_kinds};
pub use moment::Moment;
pub use operators::truth;
pub use packet_laws::{packets_are_lists, packets_have_each_form_once};
pub use places::{cell_at, item};
pub use set_laws::{sets_have_ends, sets_have_their_members};
pub use single_laws::{
    kept_notes_are_single, one_form_sends_single_notes, runs_with_single_notes,
    steps_with_single_notes,
};
pub use state::{Note, Packet, State};
pub use values::{fact_value, fixed_value, value_of};
