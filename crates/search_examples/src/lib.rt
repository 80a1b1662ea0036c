//! Worked examples of searches, and of answers by merged states.
//!
//! Trees of marked sets are taken and answered by hand, and sets are worked. Whole searches are made by several workers: each number of them
//! comes to the same, whatever their gates do. Made scenarios, and some whose answers are known, are answered by merged states, and beside
//! that by a run of each allowed set.
//!
//! A table of scenarios is one text, a line for each, in which `|` parts the columns and `;` stands for the end of a line.
#![tactic(auto)]

#[cfg(test)]
mod gates;
#[cfg(test)]
mod known;
#[cfg(test)]
mod large;
#[cfg(test)]
mod leaving;
#[cfg(test)]
mod made;
#[cfg(test)]
mod marks;
#[cfg(test)]
mod merged;
#[cfg(test)]
mod protocols;
#[cfg(test)]
mod searches;
#[cfg(test)]
mod texts;
#[cfg(test)]
mod told;
#[cfg(test)]
mod turns;
#[cfg(test)]
mod waits;
#[cfg(test)]
mod works;
