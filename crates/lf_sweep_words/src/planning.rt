//! What varies, as it is written behind `--vary`.

ghost use Rattle.std.specs.Prelude.{◌≡◌, ◌≢◌, ◌⊎◌, ◌++◌, ◌∷◌, [], map, IfOk, MatchResult};
ghost use Rattle.lf_sweep.specs.declared.plan.Plan.{Plan};
ghost use Rattle.lf_sweep_words.specs.Words.{AreVaried, IsNothing, IsVariedBy, IsWrong, has_control};

use crate::names::names_of;
use crate::unasked::{SweepUnasked, told_or_memory, wrong};
use lf_sweep::{Plan, PlanError, Varied, VaryError, read_varied};
use std::alloc::{AllocError, Global};

/// The plan of what varies, as it was written.
pub(crate) fn plan_of(alloc: Global, texts: &[&str]) -> Result<Plan, SweepUnasked>
    ensures { MatchResult result (λ (plan : Plan). AreVaried (map (λ t. t.now) texts.now) plan.varied.items)
        (IsNothing (λ (plan : Plan). AreVaried (map (λ t. t.now) texts.now) plan.varied.items)) }
{
    let varied = varied_in(alloc, texts)?;
    let names = names_of(alloc, varied.as_slice())?;
    match Plan::new(varied) {
        Ok(plan) => Ok(plan),
        Err(error) => Err(told_or_memory(unplanned(alloc, names.as_slice(), error))),
    }
}

/// What varies, of each of the texts.
fn varied_in(alloc: Global, texts: &[&str]) -> Result<Vec<Varied>, SweepUnasked>
    ensures { MatchResult result (λ varied. AreVaried (map (λ t. t.now) texts.now) varied.items)
        (IsNothing (AreVaried (map (λ t. t.now) texts.now))) }
{
    let mut varied = Vec::new(alloc);
    'texts: for text in texts {
        let one = varied_of(alloc, text)?;
        add(&mut varied, one)?;
    }
    Ok(varied)
}

/// Adds one more that varies.
fn add(varied: &mut Vec<Varied>, one: Varied) -> Result<(), AllocError>
    ensures { IfOk result (λ _. varied.new.items ≡ varied.old.items ++ one ∷ []) }
{
    varied.push(one)?;
    Ok(())
}

/// What varies, of one text.
fn varied_of(alloc: Global, text: &str) -> Result<Varied, SweepUnasked>
    ensures { MatchResult result (IsVariedBy text.now) (IsNothing (IsVariedBy text.now)) }
{
    if has_control(text.as_bytes()) {
        return Err(wrong(
            alloc,
            "--vary: a value has a tab, a line feed or another control character\n",
        ));
    }
    match read_varied(alloc, text) {
        Ok(one) => Ok(one),
        Err(error) => Err(unvaried(alloc, text, error)),
    }
}

/// Whether a text has a control character.
fn has_control(text: &[u8]) -> bool
    ensures { result ≡ has_control text.now }
{
    text.iter().any(|byte| *byte < 32)
}

/// What to tell of a text that doesn't say what varies.
fn unvaried(alloc: Global, text: &str, error: VaryError) -> SweepUnasked
    ensures { ((error ≡ VaryError.Memory) × (result ≡ SweepUnasked.Memory)) ⊎ ((error ≢ VaryError.Memory) × IsWrong result) }
{
    if matches!(error, VaryError::Memory) {
        SweepUnasked::Memory
    } else {
        told_or_memory(format!(in alloc; "--vary {text}: {error}\n"))
    }
}

/// Why these can't vary together.
fn unplanned(alloc: Global, names: &[String], error: PlanError) -> Result<String, AllocError> {
    for (place, name) in names.iter().enumerate() {
        for other in names.iter().take(place) {
            let (name, other) = (name.as_str(), other.as_str());
            match error {
                PlanError::Twice if name == other => return twice(alloc, name),
                PlanError::Within if is_within(other, name) => return within(alloc, other, name),
                PlanError::Within if is_within(name, other) => return within(alloc, name, other),
                _ => {}
            }
        }
    }
    format!(in alloc; "--vary: {error}\n")
}

/// Whether the second key stands within the first.
fn is_within(outer: &str, inner: &str) -> bool {
    match inner.strip_prefix(outer) {
        Some(rest) => rest.starts_with("."),
        None => false,
    }
}

/// That a key is there twice.
fn twice(alloc: Global, name: &str) -> Result<String, AllocError> {
    format!(in alloc; "--vary: the key {name} is there twice; give all its values in one --vary\n")
}

/// That the second key stands within the first.
fn within(alloc: Global, outer: &str, inner: &str) -> Result<String, AllocError> {
    format!(in alloc; "--vary: the key {inner} stands within {outer}; vary one of them\n")
}
