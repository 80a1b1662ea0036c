//! What comes of one value, and of two.

ghost use Rattle.std.specs.Prelude.{◌≡◌, ◌+◌, ◌%◌, ◌≤◌, ◌==◌, ◌&&◌, ◌||◌, nat_lt, if◌then◌else◌};
ghost use Rattle.lf_rule_machine.specs.Sets.{truth, is_true, has};
ghost use Rattle.lf_rule_machine.specs.Operators.{unary, binary};

use crate::sets;
use lf_rules::{Binary, Unary};

/// What comes of one value, among so many nodes.
pub(crate) fn unary(nodes: u64, operator: Unary, value: u64) -> u64
    requires { nodes ≤ 4294967295 }
    ensures value { result ≡ unary nodes operator value }
    ensures small { result ≤ 4294967295 }
{
    match operator {
        Unary::Not => truth(value == 0),
        Unary::Count => sets::count(value),
        Unary::Lowest => sets::lowest(nodes, value),
        Unary::Highest => sets::highest(nodes, value),
        Unary::Only => sets::only(nodes, value),
    }
}

/// What comes of two values, among so many nodes.
pub(crate) fn binary(nodes: u64, operator: Binary, one: u64, other: u64) -> u64
    requires { one + other ≤ 18446744073709551615 }
    ensures value { result ≡ binary nodes operator one other }
    ensures small { result ≤ one + other + 255 }
{
    match operator {
        Binary::Add => one + other,
        Binary::Subtract => one.saturating_sub(other),
        Binary::Smaller => one.min(other),
        Binary::Larger => one.max(other),
        Binary::Remainder => remainder(one, other),
        Binary::Equal => truth(one == other),
        Binary::Less => truth(one < other),
        Binary::AtMost => truth(one <= other),
        Binary::And => truth(both_true(one, other)),
        Binary::Or => truth(one_true(one, other)),
        Binary::In => truth(is_in(nodes, one, other)),
        Binary::Union => sets::either(one, other),
        Binary::Without => sets::without(one, other),
        Binary::Between => sets::between(nodes, one, other),
        Binary::Majority => truth(sets::is_majority(one, other)),
    }
}

/// The remainder of a number by another, and 0 by 0.
fn remainder(one: u64, other: u64) -> u64
    ensures value { result ≡ (if other == 0 then 0 else one % other) }
    ensures small { result ≤ one }
{
    if other == 0 { 0 } else { one % other }
}

/// Whether two values are true.
fn both_true(one: u64, other: u64) -> bool
    ensures { result ≡ (is_true one && is_true other) }
{
    one != 0 && other != 0
}

/// Whether one of two values is true.
fn one_true(one: u64, other: u64) -> bool
    ensures { result ≡ (is_true one || is_true other) }
{
    one != 0 || other != 0
}

/// Whether a number is a node that a set has.
fn is_in(nodes: u64, node: u64, set: u64) -> bool
    ensures { result ≡ (nat_lt node nodes && has set node) }
{
    node < nodes && sets::has(set, node)
}

/// A truth value as a number.
pub fn truth(so: bool) -> u64
    ensures value { result ≡ truth so }
    ensures small { result ≤ 1 }
{
    if so { 1 } else { 0 }
}
