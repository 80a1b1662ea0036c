//! Worked examples of trees that are judged: trees of small scenarios, each with every change in one place, and trees made
//! by hand.
//!
//! What a changed tree is to be judged as is said by a plain checker, which is written here from the definitions, and not
//! from the checker's crate or from that of cones.
#![tactic(auto)]

#[cfg(test)]
mod by_hand;
#[cfg(test)]
mod changes;
#[cfg(test)]
mod growing;
#[cfg(test)]
mod grown_trees;
#[cfg(test)]
mod large;
#[cfg(test)]
mod lists;
#[cfg(test)]
mod plain;
#[cfg(test)]
mod required;
#[cfg(test)]
mod texts;
