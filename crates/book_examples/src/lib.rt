//! Worked examples of searches by a book, and of lists of events beside a plain model of what each event does.
//!
//! The model is written here from what the events mean: it keeps every set, and runs each by itself.
#![tactic(auto)]

#[cfg(test)]
mod claims;
#[cfg(test)]
mod drives;
#[cfg(test)]
mod made;
#[cfg(test)]
mod model;
#[cfg(test)]
mod refusals;
#[cfg(test)]
mod searches;
#[cfg(test)]
mod spent;
#[cfg(test)]
mod texts;
