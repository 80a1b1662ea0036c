//! Worked examples of replies and sweeps that no command shows, and of what stands at the edge of the program.
//!
//! Searches beside a run of each allowed set, by several workers and under watches, files in memory, devices that fail, and numbers of workers that words can't
//! ask for; sweeps by one worker and several, and the files that they read; questions of another kind, asked as those of sweeps are; command lines, hints,
//! and the devices that are read and written. What commands show stands in `examples/cases/`.
//!
//! A table of examples is one text, a line for each, in which `|` parts the columns and `;` stands for the end of a line.
#![tactic(auto)]

#[cfg(test)]
mod asking;
#[cfg(test)]
mod command_lines;
#[cfg(test)]
mod commands;
#[cfg(test)]
mod devices;
#[cfg(test)]
mod doubt_lines;
#[cfg(test)]
mod executed;
#[cfg(test)]
mod files;
#[cfg(test)]
mod floats;
#[cfg(test)]
mod hints;
#[cfg(test)]
mod plain;
#[cfg(test)]
mod questions;
#[cfg(test)]
mod reading;
#[cfg(test)]
mod reply_laws;
#[cfg(test)]
mod streams;
#[cfg(test)]
mod sweep_laws;
#[cfg(test)]
mod sweep_lines;
#[cfg(test)]
mod sweeps;
#[cfg(test)]
mod texts;
#[cfg(test)]
mod watches;
#[cfg(test)]
mod workers;
