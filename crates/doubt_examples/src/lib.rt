//! Worked examples of what an answer hangs on: the sets of small bounds, and the runs in which the rules of small protocols are taken, something is entered
//! under their topics, and outcomes are reached.
#![tactic(auto)]

#[cfg(test)]
mod asking;
#[cfg(test)]
mod counts;
#[cfg(test)]
mod mutations;
#[cfg(test)]
mod reached;
#[cfg(test)]
mod sets;
