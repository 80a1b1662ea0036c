//! Worked examples of fault sets, of latencies, and of machines and their runs.
//!
//! The texts of faults, the order of the allowed sets beside a plain enumeration, the words of the published stream, and arrivals. Runs stand beside a plain
//! evaluation that walks all slots, and a player beside runs: over lists of sets near to each other and far apart, every point and note is that of the set's
//! own run. Besides, lists that a type holds of itself, and two automata in layers: a small one, searched beside all its walks, and one with normal forms,
//! searched by them and without.
#![tactic(auto)]

#[cfg(test)]
mod beacons;
pub mod doors;
#[cfg(test)]
mod fault_texts;
#[cfg(test)]
mod kept;
#[cfg(test)]
mod latencies;
#[cfg(test)]
mod laws;
#[cfg(test)]
mod lists;
#[cfg(test)]
mod machines;
pub mod mazes;
#[cfg(test)]
mod order;
#[cfg(test)]
mod plain;
#[cfg(test)]
mod player;
#[cfg(test)]
mod rows;
#[cfg(test)]
mod runs;
#[cfg(test)]
mod searches;
#[cfg(test)]
mod set_walks;
#[cfg(test)]
mod settings;
#[cfg(test)]
mod texts;
#[cfg(test)]
mod turns;
#[cfg(test)]
mod walks;
