//! Which rules make a node's state before the first step.

ghost use Rattle.std.specs.Prelude.{◌≡◌, ◌++◌, IfOk};
ghost use Rattle.std.specs.List.{flat_map};
ghost use Rattle.lf_stakes.specs.Starting.{chain_starts, is_start, starts_of};

use lf_protocols::{Kind, Protocol};
use lf_rules::{Chain, Event};
use std::alloc::{AllocError, Global};

/// Whether each rule of the protocol is one of `start`, which is before step 1, so that no step takes it: the first is rule 1. There are none
/// where the protocol isn't one of rules. The error is that memory has run out.
pub fn rules_of_start(alloc: Global, protocol: &Protocol) -> Result<Vec<bool>, AllocError>
    ensures { IfOk result (λ starting. starting.items ≡ starts_of protocol.now) }
{
    match protocol.kind() {
        Kind::Ruled(ruled) => starts_in(alloc, ruled.definition().chains.as_slice()),
        _ => Ok(Vec::new(alloc)),
    }
}

/// The same of the rules of chains.
fn starts_in(alloc: Global, chains: &[Chain]) -> Result<Vec<bool>, AllocError>
    ensures { IfOk result (λ starting. starting.items ≡ flat_map chain_starts chains.now) }
{
    let mut starting = Vec::new(alloc);
    for chain in chains {
        push_starts(&mut starting, chain)?;
    }
    Ok(starting)
}

/// Adds the same of the rules of a chain.
fn push_starts(starting: &mut Vec<bool>, chain: &Chain) -> Result<(), AllocError>
    ensures { IfOk result (λ _. starting.new.items ≡ starting.old.items ++ chain_starts chain.now) }
{
    let is_start = is_start(chain.on);
    for _rule in chain.rules.as_slice() {
        starting.push(is_start)?;
    }
    Ok(())
}

/// Whether it is the event before step 1.
fn is_start(event: Event) -> bool
    ensures { result ≡ is_start event }
{
    match event {
        Event::Start => true,
        _ => false,
    }
}
