//! Worked examples of texts.
//!
//! Texts of protocols of rules, read: their tokens, their expressions, what else they say, their promises with the formulas that these are and with their
//! parts, and the faults of texts that can't stand where they stand; and their words: states and notes in a trace, and facts by their names. What is read of
//! scenarios, and the words of refusals; and certificates: small trees written, counted and read, trees of all shapes, and texts as long as may be. Texts that
//! are refused stand in `examples/cases/`.
//!
//! A table of examples is one text, a line for each, in which `|` parts the columns and blanks the words. In scenarios `;` stands for the end of a line. A
//! row of a scenario is a key, lines that stand in the scenario in place of that key's, what is looked at, and what is found there.
#![tactic(auto)]

#[cfg(test)]
mod build;
#[cfg(test)]
mod expressions;
#[cfg(test)]
mod facts;
#[cfg(test)]
mod formula_rows;
#[cfg(test)]
mod formulas;
#[cfg(test)]
mod laws;
#[cfg(test)]
mod notes;
#[cfg(test)]
mod own_laws;
#[cfg(test)]
mod parts;
#[cfg(test)]
mod readings;
#[cfg(test)]
mod refusals;
#[cfg(test)]
mod row_texts;
#[cfg(test)]
mod rows;
#[cfg(test)]
mod same;
#[cfg(test)]
mod states;
#[cfg(test)]
mod texts;
#[cfg(test)]
mod tokens;
#[cfg(test)]
mod told;
#[cfg(test)]
mod topics;
#[cfg(test)]
mod tree_limit;
#[cfg(test)]
mod tree_rows;
#[cfg(test)]
mod tree_shapes;
#[cfg(test)]
mod tree_texts;
