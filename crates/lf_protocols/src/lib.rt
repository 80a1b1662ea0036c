//! The built-in protocols, as machines.
//!
//! At each step a node first does what its protocol's table says for that step's number, then handles its letters in
//! inbox order, then its conditions once. It ignores each note and state that the table doesn't name. The tables stand
//! in `specs/`, one file for each protocol.
//!
//! Laws of what threads may share and hand to each other: protocols, with the rules that they hold.
#![tactic(auto)]

mod commit;
mod fact;
mod folding;
mod machine;
mod nodes;
mod note;
mod primary_backup;
mod protocol;
mod redundant;
mod retry;
mod ruled;
mod state;
mod tables;
mod three_phase;
mod turns;
mod two_phase;
mod words;

pub use fact::Fact;
pub use folding::{rules_do_as_their_machine, steps_are_folds};
pub use nodes::Nodes;
pub use note::Note;
pub use protocol::{Kind, Protocol};
pub use state::{Holding, Phase, Progress, Relay, Replica, State};
pub use tables::{
    claims_are_heard, facts_are_opposites, prepared_gives_up, prepared_waits, redundant_delivers,
    retry_delivers,
};
