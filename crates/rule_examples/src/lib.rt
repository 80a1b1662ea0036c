//! Worked examples of protocols: steps of nodes, rule by rule, the limits and words of the five, and definitions of rules that are made of values.
//!
//! A table of examples is one text, a line for each, in which `|` parts the columns, `,` the items of a list, and blanks the
//! words. Of a state `@` stands before the step from which its time-out counts, and `-` for no nodes.
#![tactic(auto)]

#[cfg(test)]
mod build;
#[cfg(test)]
mod commits;
#[cfg(test)]
mod deliveries;
#[cfg(test)]
mod events;
#[cfg(test)]
mod forms;
#[cfg(test)]
mod lasting;
#[cfg(test)]
mod laws;
#[cfg(test)]
mod limits;
#[cfg(test)]
mod machines;
#[cfg(test)]
mod packets;
#[cfg(test)]
mod replicas;
#[cfg(test)]
mod sameness;
#[cfg(test)]
mod single_runs;
#[cfg(test)]
mod singles;
#[cfg(test)]
mod states;
#[cfg(test)]
mod steps;
#[cfg(test)]
mod texts;
#[cfg(test)]
mod two_phase;
#[cfg(test)]
mod words;
