//! What a question is called.

ghost use Rattle.std.specs.Prelude.{◌≡◌, ◌++◌, IfOk, string_bytes};
ghost use Rattle.lf_doubt.specs.Names.{change_name, mutation_name, question_name};

use crate::{Change, Question};
use lf_mutations::Mutation;
use std::alloc::{AllocError, Global};

impl Question {
    /// What it is called: the first cell of its line. The error is that memory has run out.
    pub fn name(self, alloc: Global) -> Result<String, AllocError>
        ensures { IfOk result (λ name. string_bytes name ≡ question_name self) }
    {
        let mut text = String::new(alloc);
        match self {
            Question::Given => text.push_str("given")?,
            Question::Taken { rule, .. } => write!(text, "rule {rule}")?,
            Question::Rule(mutation) => push_mutation(mutation, &mut text)?,
            Question::Part(stake) => {
                write!(text, "part {} ", stake.place)?;
                stake.part.push_words(&mut text)?;
            }
            Question::With(change) => push_change(change, &mut text)?,
            Question::EveryDelay => text.push_str("every delay")?,
            Question::Spread => text.push_str("every delay, spread 1")?,
        }
        Ok(text)
    }
}

/// Adds what a change of a rule is called.
fn push_mutation(mutation: Mutation, text: &mut String) -> Result<(), AllocError>
    ensures { IfOk result (λ _. string_bytes text.new ≡ string_bytes text.old ++ mutation_name mutation) }
{
    match mutation {
        Mutation::Never { rule } => write!(text, "rule {rule} never"),
        Mutation::Always { rule } => write!(text, "rule {rule} always"),
        Mutation::Unset { rule, place } => write!(text, "rule {rule} without set {place}"),
        Mutation::Unsent { rule, place } => write!(text, "rule {rule} without send {place}"),
    }
}

/// Adds what a change of a key is called.
fn push_change(change: Change, text: &mut String) -> Result<(), AllocError>
    ensures { IfOk result (λ _. string_bytes text.new ≡ string_bytes text.old ++ change_name change) }
{
    match change {
        Change::Horizon(number) => write!(text, "horizon {number}"),
        Change::Budget(number) => write!(text, "budget {number}"),
        Change::Crashes(number) => write!(text, "crashes {number}"),
        Change::PauseLength(number) => write!(text, "pause_length {number}"),
        Change::Spread(number) => write!(text, "spread {number}"),
        Change::NoneClamped => text.push_str("clamped"),
        Change::NoneReplaced => text.push_str("replaced"),
    }
}
