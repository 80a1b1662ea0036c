//! The least faults that defeat an outcome.
//!
//! An engine reads a scenario's text and writes a reply: the fewest faults that defeat the scenario's outcome, or all sets with so few,
//! or that no allowed set of faults does, with a certificate of that; or the trace of one run; or, of a certificate's text beside it,
//! whether it is right. A scenario may name one of the shipped protocols, or the protocol of a file that is given beside it.
#![tactic(auto)]

mod answer;
mod answering;
mod certified;
mod checking;
mod commands;
mod delay_laws;
mod delayed;
mod delivering;
mod engine;
mod fault;
mod known;
mod laws;
mod least;
mod made;
mod named;
mod places;
mod protocol;
mod reading;
mod replies;
mod reply;
mod ruled;
mod said;
mod sending;
mod shown;
mod telling;
mod why;
mod workers;

pub use answer::plain_answer;
pub use answering::{Wanted, answer_reply, search_reply};
pub use commands::{Executed, execute};
pub use delay_laws::{every_delay_replies_are_one, every_delay_replies_replay};
pub use delayed::every_delay_reply;
pub use engine::{
    all_bytes, all_shared, check_bytes, check_bytes_rows, run_bytes, search_bytes, search_shared,
};
pub use fault::BytesFault;
pub use known::read_known;
pub use laws::{
    answers_are_one, check_replies_are_one, least_sets_are_one, protocol_replies_are_one,
    replies_are_one, shown_replies_are_one, yes_is_the_answer,
};
pub use least::plain_all;
pub use lf_check::{Reason, Verdict, check};
pub use lf_faults::{Fault, FaultSet, Parts};
pub use lf_protocol_file::{ProtocolError, ProtocolFile, read_protocol};
pub use lf_scenario::{Key, LONGEST, Scenario, ScenarioError, read};
pub use lf_streams::{Failed, Files, FromRead, Place, Sink, Source, ToWrite};
pub use lf_tree::{LONGEST_TREE, Tree, TreeFault, read_tree, to_text};
pub use lf_watch::{NoWatch, Progress, Watch};
pub use lf_words::{Asked, Shown, Unasked, asked};
pub use named::CommandTexts;
pub use places::{certificate_file, place_of, tree_file};
pub use protocol::protocol_refusal;
pub use replies::{all_report, refusal, report};
pub use reply::{Certified, Reply, Searched};
pub use said::Said;
