//! Protocols of rules beside what says the same in another way.
//!
//! The shipped protocols, each written as rules, stand beside the built-in one in made settings: the same nodes up, the same notes, and the same facts. Made
//! protocols are the texts of a grammar, and so are the scenarios of each: they are answered by a search, by merged states, and by a run of each allowed
//! set. Besides, pairs of texts say the same scenario.
#![tactic(auto)]

#[cfg(test)]
mod answers;
#[cfg(test)]
mod beside;
#[cfg(test)]
mod build;
#[cfg(test)]
mod cases;
#[cfg(test)]
mod commit;
#[cfg(test)]
mod grammar;
#[cfg(test)]
mod made;
#[cfg(test)]
mod made_files;
#[cfg(test)]
mod primary_backup;
#[cfg(test)]
mod protocols;
#[cfg(test)]
mod redundant;
#[cfg(test)]
mod retry;
#[cfg(test)]
mod same;
#[cfg(test)]
mod tally;
#[cfg(test)]
mod three_phase;
#[cfg(test)]
mod two_phase;
