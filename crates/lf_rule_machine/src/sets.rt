//! Sets of nodes, as numbers.

ghost use Rattle.std.specs.Prelude.{◌≡◌, ◌≤◌, ◌⊎◌, ℕ};
ghost use Rattle.lf_rule_machine.specs.Sets.{has, nodes_in, either, both, without, below, between, only, count, lowest, highest, is_majority};

/// The bits of the nodes 0 to 7.
const NODES: u64 = 255;

/// Whether a set has a node.
pub fn has(set: u64, node: u64) -> bool
    ensures { result ≡ has set node }
{
    node < 8 && (set >> node) & 1 == 1
}

/// The nodes of a number that may be no set.
pub fn nodes_in(number: u64) -> u64
    ensures value { result ≡ nodes_in number }
    ensures small { result ≤ 255 }
{
    number & NODES
}

/// The nodes of one of two sets.
pub(crate) fn either(one: u64, other: u64) -> u64
    ensures value { result ≡ either one other }
    ensures small { result ≤ 255 }
{
    (one | other) & NODES
}

/// The nodes of both sets.
pub(crate) fn both(one: u64, other: u64) -> u64
    ensures value { result ≡ both one other }
    ensures small { result ≤ 255 }
{
    one & other & NODES
}

/// The nodes of the first set that the second hasn't.
pub(crate) fn without(one: u64, other: u64) -> u64
    ensures value { result ≡ without one other }
    ensures small { result ≤ 255 }
{
    one & !other & NODES
}

/// The nodes below a number.
pub(crate) fn below(end: u64) -> u64
    ensures value { result ≡ below end }
    ensures small { result ≤ 255 }
{
    let count = end.min(8);
    (1 << count) - 1
}

/// Of so many nodes, those from one number to another.
pub(crate) fn between(nodes: u64, first: u64, last: u64) -> u64
    ensures value { result ≡ between nodes first last }
    ensures small { result ≤ 255 }
{
    let end = last.min(8) + 1;
    without(below(end.min(nodes)), below(first))
}

/// Of so many nodes, one alone.
pub(crate) fn only(nodes: u64, node: u64) -> u64
    ensures value { result ≡ only nodes node }
    ensures small { result ≤ 255 }
{
    between(nodes, node, node)
}

/// How many nodes a set has.
pub(crate) fn count(set: u64) -> u64
    ensures value { result ≡ count set }
    ensures small { result ≤ 8 }
{
    let mut found = 0;
    for node in 0..8 {
        if has(set, node) {
            found += 1;
        }
    }
    found
}

/// The lowest node of a set, and how many nodes there are where it has none.
pub(crate) fn lowest(nodes: u64, set: u64) -> u64
    ensures value { result ≡ lowest nodes set }
    ensures small { (result ≤ 7) ⊎ (result ≡ nodes) }
{
    for node in 0..8 {
        if has(set, node) {
            return node;
        }
    }
    nodes
}

/// The highest node of a set, and how many nodes there are where it has none.
pub(crate) fn highest(nodes: u64, set: u64) -> u64
    ensures value { result ≡ highest nodes set }
    ensures small { (result ≤ 7) ⊎ (result ≡ nodes) }
{
    let mut found = nodes;
    for node in 0..8 {
        if has(set, node) {
            found = node;
        }
    }
    found
}

/// Whether more than half of the nodes of a group are in a set.
pub(crate) fn is_majority(set: u64, group: u64) -> bool
    ensures { result ≡ is_majority set group }
{
    count(group) < 2 * count(both(set, group))
}
