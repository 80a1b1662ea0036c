//! Chains of rules.

ghost use Rattle.std.specs.Prelude.{◌≡◌, IfOk};
ghost use Rattle.lf_protocol_file.specs.Chains.{same_event, same_text, goes_on, chain_of, and_chain, with_begun};
ghost use Rattle.lf_protocol_file.specs.Chains.{longer, begins, continued, with_rule, with_last_chain};

use crate::{Begun, Draft, Who, none_of, push};
use lf_grammar::Token;
use lf_list::Listed;
use lf_rules::{Chain, Event, Rule};
use lf_texts::same_tokens;
use std::alloc::{AllocError, Global};

/// Whether a rule on an event, of some nodes, may go on with the chain of the rules above.
pub(crate) fn goes_on(begun: &Option<Begun>, who: &Who, on: Event) -> bool
    ensures { result ≡ goes_on begun.now who.now on }
{
    match begun {
        Some(begun) => same_event(begun.on, on) && same_text(&begun.who.tokens, &who.tokens),
        None => false,
    }
}

/// Whether two events are one.
fn same_event(one: Event, other: Event) -> bool
    ensures { result ≡ same_event one other }
{
    match (one, other) {
        (Event::Start, Event::Start)
        | (Event::Wake, Event::Wake)
        | (Event::Begin, Event::Begin)
        | (Event::End, Event::End) => true,
        (Event::Note(one), Event::Note(other)) => one == other,
        _ => false,
    }
}

/// Whether two texts have the same tokens, or neither is there.
fn same_text(one: &Option<Listed<Token>>, other: &Option<Listed<Token>>) -> bool
    ensures { result ≡ same_text one.now other.now }
{
    match one {
        Some(one) => match other {
            Some(other) => same_tokens(one.as_slice(), other.as_slice()),
            None => false,
        },
        None => other.is_none(),
    }
}

/// The draft, in which a rule goes on with the chain, or begins one.
pub(crate) fn with_rule(
    alloc: Global,
    draft: Draft,
    goes_on: bool,
    who: Who,
    on: Event,
    rule: Rule,
) -> Result<Draft, AllocError>
    ensures { IfOk result (λ d. d ≡ with_rule goes_on who on rule draft) }
{
    let mut draft = draft;
    let begun = draft.begun.take();
    continued(alloc, draft, begun, goes_on, Ruled { who, on, rule })
}

/// A rule, whose it is, and what it is on.
#[derive(Debug, Drop)]
struct Ruled {
    who: Who,
    on: Event,
    rule: Rule,
}

/// The draft, in which a rule goes on with the chain of the rules above, or begins one behind it.
fn continued(
    alloc: Global,
    draft: Draft,
    begun: Option<Begun>,
    goes_on: bool,
    ruled: Ruled,
) -> Result<Draft, AllocError>
    ensures { IfOk result (λ d. d ≡ continued goes_on begun ruled.who ruled.on ruled.rule draft) }
{
    match begun {
        Some(begun) => if goes_on {
            let begun = longer(begun, ruled.rule)?;
            Ok(with_begun(draft, Some(begun)))
        } else {
            let draft = and_chain(draft, begun)?;
            begins(alloc, draft, ruled)
        },
        None => begins(alloc, draft, ruled),
    }
}

/// The draft, in which a rule begins a chain.
fn begins(alloc: Global, draft: Draft, ruled: Ruled) -> Result<Draft, AllocError>
    ensures { IfOk result (λ d. d ≡ begins ruled.who ruled.on ruled.rule draft) }
{
    let Ruled { who, on, rule } = ruled;
    let mut rules = none_of(alloc);
    push(&mut rules, rule)?;
    Ok(with_begun(draft, Some(Begun { who, on, rules })))
}

/// The chain with one more rule.
fn longer(begun: Begun, rule: Rule) -> Result<Begun, AllocError>
    ensures { IfOk result (λ b. b ≡ longer rule begun) }
{
    let mut begun = begun;
    push(&mut begun.rules, rule)?;
    Ok(begun)
}

/// The draft with this chain, which the next rule may go on with.
fn with_begun(draft: Draft, begun: Option<Begun>) -> Draft
    ensures { result ≡ with_begun begun draft }
{
    let mut draft = draft;
    draft.begun = begun;
    draft
}

/// The draft with a chain that is whole.
fn and_chain(draft: Draft, begun: Begun) -> Result<Draft, AllocError>
    ensures { IfOk result (λ d. d ≡ and_chain begun draft) }
{
    let mut draft = draft;
    push(&mut draft.definition.chains, chain_of(begun))?;
    Ok(draft)
}

/// The chain that has begun, as it is.
fn chain_of(begun: Begun) -> Chain
    ensures { result ≡ chain_of begun }
{
    let Begun { who, on, rules } = begun;
    let Who { nodes, .. } = who;
    Chain {
        who: nodes,
        on,
        rules,
    }
}

/// The draft with its last chain.
pub(crate) fn with_last_chain(draft: Draft) -> Result<Draft, AllocError>
    ensures { IfOk result (λ d. d ≡ with_last_chain draft) }
{
    let mut draft = draft;
    match draft.begun.take() {
        Some(begun) => and_chain(draft, begun),
        None => Ok(draft),
    }
}
