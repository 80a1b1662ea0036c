//! Rules that are no node's in a scenario.

use lf_protocols::{Kind, Protocol};
use lf_rule_machine::{Ruled, fixed_value, sets};
use lf_rules::Chain;
use lf_sim::Machine;
use std::alloc::{AllocError, Global};

/// The rules of a protocol that none of its nodes has, in words. Nothing where each is some node's, or where the protocol is none of rules.
/// The error, also below, is that memory has run out.
pub(crate) fn idle_words(alloc: Global, protocol: &Protocol) -> Result<String, AllocError> {
    let mut numbers = String::new(alloc);
    if let Kind::Ruled(ruled) = protocol.kind() {
        let mut number: usize = 0;
        for chain in ruled.definition().chains.as_slice() {
            let rules = chain.rules.len();
            if !is_of_any(ruled, chain) {
                put_numbers(&mut numbers, number, rules)?;
            }
            number = number.saturating_add(rules);
        }
    }
    if numbers.is_empty() {
        return Ok(numbers);
    }
    format!(in alloc; "no node has these rules, whose `who` is empty in this scenario: {numbers}")
}

/// Whether some node has the rules of a chain.
fn is_of_any(ruled: &Ruled, chain: &Chain) -> bool {
    let nodes = ruled.nodes();
    for node in 0..nodes {
        let given = ruled.constants_at(node);
        if sets::has(fixed_value(nodes, &given, &chain.who), u64::from(node)) {
            return true;
        }
    }
    false
}

/// Puts the numbers of so many rules behind others, with commas between.
fn put_numbers(text: &mut String, before: usize, rules: usize) -> Result<(), AllocError> {
    for place in 0..rules {
        if !text.is_empty() {
            text.push_str(", ")?;
        }
        write!(text, "{}", before.saturating_add(place).saturating_add(1))?;
    }
    Ok(())
}
