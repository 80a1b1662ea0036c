//! All that is asked.

ghost use Rattle.std.specs.Prelude.{◌≡◌, ◌++◌, ◌-◌, IfOk, map, slice_get};
ghost use Rattle.std.specs.List.{flat_map};
ghost use Rattle.lf_doubt.specs.Questions.{is_starting, model_asked, questions_of, rule_asked, times_in};

use crate::bounds::{push_bounds, push_delays};
use crate::{Change, Ground, Question, Stake};
use lf_mutations::Mutation;
use std::alloc::{AllocError, Global};

/// What is asked of the answer to a scenario, in order: the answer itself; of each rule in how many runs it is taken, and each change of
/// it; each part of the promise; the bounds on faults and steps; the delays of notes; and, of a protocol of a file, whether a value ever
/// passes its range, or a note is replaced. The error is that memory has run out.
pub fn questions(alloc: Global, ground: &Ground<'_>) -> Result<Vec<Question>, AllocError>
    ensures { IfOk result (λ questions. questions.items ≡ questions_of ground.now) }
{
    let mut questions = vec![in alloc; Question::Given]?;
    push_rules(&mut questions, ground)?;
    push_parts(&mut questions, ground.stakes)?;
    push_bounds(&mut questions, &ground.bounds)?;
    push_delays(&mut questions, ground.has_spread)?;
    push_model(&mut questions, ground.is_own)?;
    Ok(questions)
}

/// Adds the questions about rules.
fn push_rules(questions: &mut Vec<Question>, ground: &Ground<'_>) -> Result<(), AllocError>
    ensures { IfOk result (λ _. questions.new.items ≡ questions.old.items ++ flat_map (rule_asked ground.now) ground.now.mutations.now) }
{
    let mutations = ground.mutations;
    for mutation in mutations {
        push_rule(questions, ground, *mutation)?;
    }
    Ok(())
}

/// Adds the question about a change, and before the first of a rule in how many runs the rule is taken, where it is one of steps.
fn push_rule(
    questions: &mut Vec<Question>,
    ground: &Ground<'_>,
    mutation: Mutation,
) -> Result<(), AllocError>
    ensures { IfOk result (λ _. questions.new.items ≡ questions.old.items ++ rule_asked ground.now mutation) }
{
    if let Mutation::Never { rule } = mutation {
        if !is_starting(ground.starting, rule) {
            questions.push(Question::Taken {
                rule,
                times: times_in(ground.taken, rule),
                runs: ground.runs,
            })?;
        }
    }
    questions.push(Question::Rule(mutation))?;
    Ok(())
}

/// Whether a rule is one of the start: none is where there is no such rule.
fn is_starting(starting: &[bool], rule: u8) -> bool
    ensures { result ≡ is_starting starting.now rule }
{
    match starting.get(usize::from(rule).saturating_sub(1)) {
        Some(is) => *is,
        None => false,
    }
}

/// In how many runs a rule is taken: in none where there is no such rule.
fn times_in(taken: &[usize], rule: u8) -> usize
    ensures { result ≡ times_in taken.now rule }
{
    match taken.get(usize::from(rule).saturating_sub(1)) {
        Some(times) => *times,
        None => 0,
    }
}

/// Adds the questions about the parts of the promise.
fn push_parts(questions: &mut Vec<Question>, stakes: &[Stake]) -> Result<(), AllocError>
    ensures { IfOk result (λ _. questions.new.items ≡ questions.old.items ++ map Question.Part stakes.now) }
{
    for stake in stakes {
        questions.push(Question::Part(*stake))?;
    }
    Ok(())
}

/// Adds the questions about the model, where the protocol is one of a file.
fn push_model(questions: &mut Vec<Question>, is_own: bool) -> Result<(), AllocError>
    ensures { IfOk result (λ _. questions.new.items ≡ questions.old.items ++ model_asked is_own) }
{
    if is_own {
        questions.push(Question::With(Change::NoneClamped))?;
        questions.push(Question::With(Change::NoneReplaced))?;
    }
    Ok(())
}
