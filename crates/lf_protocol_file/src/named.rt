//! Notes, named expressions, named guards, outcomes, and what a trace shows.

ghost use Rattle.std.specs.Prelude.{◌≡◌, [], IfOk, Ok, Err};
ghost use Rattle.toml.specs.View.{view};
ghost use Rattle.lf_grammar.specs.Places.{context_of};
ghost use Rattle.lf_promises.specs.Promises.{promise_of};
ghost use Rattle.lf_protocol_file.specs.Readings.{Gives, wanted};
ghost use Rattle.lf_protocol_file.specs.Named.{and_note, and_let, and_fact, and_outcome, and_shown, with_note};
ghost use Rattle.lf_protocol_file.specs.Named.{let_in, with_let, fact_in, with_fact, with_outcome};
ghost use Rattle.lf_protocol_file.specs.Named.{variable_named, is_shown, shown_once, with_shown, numbers_to, tracing, with_all_shown};

use crate::draft::{Draft, none_of, number_after, push};
use crate::{Fault, Outcome, name_of, tokens_in};
use lf_grammar::{Place, Token};
use lf_list::Listed;
use lf_promises::{Promise, PromiseError, read_promise};
use lf_rules::{Guard, Leaf, Named, NoteForm, Scope, Variable};
use lf_texts::{is_name, read_guard, read_note, read_value};
use std::alloc::{AllocError, Global};
use toml::Value;

/// The draft with one more form of notes.
#[tactic(auto, unfolding(crate::specs::Named::with_note))]
pub fn with_note(alloc: Global, draft: Draft, value: &Value) -> Result<Draft, Fault>
    ensures { Gives (with_note draft (view value.now)) result }
{
    let tokens = tokens_in(alloc, value)?;
    let note = read_note(alloc, &draft.definition, tokens.as_slice())?;
    let draft = and_note(draft, note)?;
    Ok(draft)
}

/// The draft with one more named expression.
#[tactic(auto, unfolding(crate::specs::Named::with_let))]
pub fn with_let(alloc: Global, draft: Draft, key: &str, value: &Value) -> Result<Draft, Fault>
    ensures { Gives (with_let draft key.now (view value.now)) result }
{
    let named = let_in(alloc, &draft, key, value)?;
    let leaf = Leaf::Let(number_after(draft.definition.lets.len()));
    let draft = draft.with_name(alloc, key, leaf)?;
    let draft = and_let(draft, named)?;
    Ok(draft)
}

/// A named expression, whose name is new.
#[tactic(auto, unfolding(crate::specs::Named::let_in))]
fn let_in(alloc: Global, draft: &Draft, key: &str, value: &Value) -> Result<Named, Fault>
    ensures { Gives (let_in draft.now key.now (view value.now)) result }
{
    draft.check_new(key)?;
    let tokens = tokens_in(alloc, value)?;
    let place = draft.place(&[], Scope::Let);
    let (value, sort) = read_value(alloc, &place, tokens.as_slice())?;
    let name = name_of(alloc, key)?;
    Ok(Named { name, sort, value })
}

/// The draft with one more named guard.
#[tactic(auto, unfolding(crate::specs::Named::with_fact))]
pub fn with_fact(alloc: Global, draft: Draft, key: &str, value: &Value) -> Result<Draft, Fault>
    ensures { Gives (with_fact draft key.now (view value.now)) result }
{
    let guard = fact_in(alloc, &draft, key, value)?;
    let leaf = Leaf::Fact(number_after(draft.definition.facts.len()));
    let draft = draft.with_name(alloc, key, leaf)?;
    let draft = and_fact(draft, guard)?;
    Ok(draft)
}

/// A named guard, whose name is new.
#[tactic(auto, unfolding(crate::specs::Named::fact_in))]
fn fact_in(alloc: Global, draft: &Draft, key: &str, value: &Value) -> Result<Guard, Fault>
    ensures { Gives (fact_in draft.now key.now (view value.now)) result }
{
    draft.check_new(key)?;
    let tokens = tokens_in(alloc, value)?;
    let place = draft.place(&[], Scope::Fact);
    let value = read_guard(alloc, &place, tokens.as_slice())?;
    let name = name_of(alloc, key)?;
    Ok(Guard { name, value })
}

/// The draft with one more promise. Its name may mean something else as well.
#[tactic(auto, unfolding(crate::specs::Named::with_outcome))]
pub fn with_outcome(alloc: Global, draft: Draft, key: &str, value: &Value) -> Result<Draft, Fault>
    ensures { Gives (with_outcome draft key.now (view value.now)) result }
{
    if !is_name(key) {
        return Err(Fault::Unfit);
    }
    let tokens = tokens_in(alloc, value)?;
    let place = draft.place(&[], Scope::Who);
    let promise = promise_in(alloc, &place, tokens.as_slice())?;
    let name = name_of(alloc, key)?;
    let draft = and_outcome(draft, Outcome { name, promise })?;
    Ok(draft)
}

/// The promise that tokens are.
fn promise_in(alloc: Global, place: &Place<'_>, tokens: &[Token]) -> Result<Promise, Fault>
    ensures { Gives (wanted (promise_of (context_of place.now) tokens.now)) result }
{
    match read_promise(alloc, place, tokens) {
        Ok(promise) => Ok(promise),
        Err(PromiseError::Unfit(_)) => Err(Fault::Unfit),
        Err(PromiseError::Memory) => Err(Fault::Memory),
    }
}

/// The draft, whose traces show one more variable: one that there is, and that they don't show so far.
pub fn with_shown(draft: Draft, value: &Value) -> Result<Draft, Fault>
    ensures { Gives (with_shown draft (view value.now)) result }
{
    match value {
        Value::String(name) => {
            let found = variable_named(draft.definition.variables.as_slice(), name.as_str());
            shown_once(draft, found)
        }
        _ => Err(Fault::WrongKind),
    }
}

/// The draft, whose traces show a variable that they don't show so far.
fn shown_once(draft: Draft, variable: Option<u8>) -> Result<Draft, Fault>
    ensures { Gives (shown_once draft variable) result }
{
    match variable {
        Some(variable) => {
            if is_shown(draft.definition.trace.as_slice(), variable) {
                return Err(Fault::Unfit);
            }
            let draft = and_shown(draft, variable)?;
            Ok(draft)
        }
        None => Err(Fault::Unfit),
    }
}

/// The number of the variable with a name.
fn variable_named(variables: &[Variable], name: &str) -> Option<u8>
    ensures { result ≡ variable_named 0 name.now variables.now }
{
    for (i, variable) in variables.iter().enumerate() {
        if variable.name.as_str() == name {
            return Some(number_after(i));
        }
    }
    None
}

/// Whether traces show a variable.
fn is_shown(trace: &[u8], variable: u8) -> bool
    ensures { result ≡ is_shown trace.now variable }
{
    trace.iter().any(|shown| *shown == variable)
}

/// The draft, whose traces show all variables.
pub fn with_all_shown(alloc: Global, draft: Draft) -> Result<Draft, AllocError>
    ensures { IfOk result (λ d. d ≡ with_all_shown draft) }
{
    let trace = numbers_to(alloc, draft.definition.variables.len())?;
    Ok(with_trace(draft, trace))
}

/// The numbers of so many variables, in order.
fn numbers_to(alloc: Global, count: usize) -> Result<Listed<u8>, AllocError>
    ensures { IfOk result (λ numbers. numbers ≡ numbers_to count) }
{
    let mut numbers = none_of(alloc);
    for i in 0..count {
        push(&mut numbers, number_after(i))?;
    }
    Ok(numbers)
}

/// The draft with a form of notes behind the others.
fn and_note(draft: Draft, note: NoteForm) -> Result<Draft, AllocError>
    ensures { IfOk result (λ d. d ≡ and_note note draft) }
{
    let mut draft = draft;
    push(&mut draft.definition.notes, note)?;
    Ok(draft)
}

/// The draft with a named expression behind the others.
fn and_let(draft: Draft, named: Named) -> Result<Draft, AllocError>
    ensures { IfOk result (λ d. d ≡ and_let named draft) }
{
    let mut draft = draft;
    push(&mut draft.definition.lets, named)?;
    Ok(draft)
}

/// The draft with a named guard behind the others.
fn and_fact(draft: Draft, guard: Guard) -> Result<Draft, AllocError>
    ensures { IfOk result (λ d. d ≡ and_fact guard draft) }
{
    let mut draft = draft;
    push(&mut draft.definition.facts, guard)?;
    Ok(draft)
}

/// The draft, whose traces show a variable behind the others.
fn and_shown(draft: Draft, variable: u8) -> Result<Draft, AllocError>
    ensures { IfOk result (λ d. d ≡ and_shown variable draft) }
{
    let mut draft = draft;
    push(&mut draft.definition.trace, variable)?;
    Ok(draft)
}

/// The draft with a promise behind the others.
fn and_outcome(draft: Draft, outcome: Outcome) -> Result<Draft, AllocError>
    ensures { IfOk result (λ d. d ≡ and_outcome outcome draft) }
{
    let mut draft = draft;
    push(&mut draft.outcomes, outcome)?;
    Ok(draft)
}

/// The draft, whose traces show these variables.
fn with_trace(draft: Draft, trace: Listed<u8>) -> Draft
    ensures { result ≡ tracing trace draft }
{
    let mut draft = draft;
    draft.definition.trace = trace;
    draft
}
