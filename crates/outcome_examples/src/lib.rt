//! Worked examples of outcomes and of what they rest on, and of answers over every delay.
//!
//! Formulas with their truth, size and evidence, and the reaches and required edges of small scenarios, by hand and beside a plain search over all reaches and
//! all faults. Besides, the light-cone law at a run, lists of late arrivals, and why answers are ones. Runs, and answers that are known, stand in
//! `examples/cases/`. Answers over every delay are found without an exchange of alike nodes' names, and were found by a run of each allowed set under each
//! assignment of delays. Those with an exchange are the program's, which stand in `examples/cases/delays/`, but for those of nodes past a client.
//!
//! A table of examples is one text, a line for each, in which `|` parts the columns, `,` the items of a list, and blanks the
//! words. A formula stands behind its parts: `all 2` is of the two formulas before it. In scenarios `;` stands for the end of a line.
#![tactic(auto)]

#[cfg(test)]
mod alike_nodes;
#[cfg(test)]
mod cones;
#[cfg(test)]
mod delay_laws;
#[cfg(test)]
mod delay_texts;
#[cfg(test)]
mod delays;
#[cfg(test)]
mod evidence;
#[cfg(test)]
mod formulas;
#[cfg(test)]
mod known_delays;
#[cfg(test)]
mod law;
#[cfg(test)]
mod plain;
#[cfg(test)]
mod reaches;
#[cfg(test)]
mod searched;
#[cfg(test)]
mod sizes;
#[cfg(test)]
mod texts;
#[cfg(test)]
mod why;
#[cfg(test)]
mod witnesses;
