//! When notes arrive: each pair of nodes has a least delay and a spread, and a stream cipher picks within them, or they are chosen one by one.
//!
//! Nothing here takes memory.
#![tactic(auto)]

mod arrivals;
mod links;
mod network;
mod words;

pub use arrivals::Arrivals;
pub use links::{Links, is_pair, link};
pub use network::{Network, Timing, arrives_late, keeps_limits};
pub use words::word;
