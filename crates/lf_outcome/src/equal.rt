//! Whether two formulas are equal.

ghost use Rattle.std.specs.Prelude.{◌≡◌, ◌↔◌, true, IsTrue};

use crate::Formula;

/// Whether two formulas are equal, where `==` of facts is equality.
#[cycle(same)]
pub fn same<F: Eq>(one: &Formula<F>, other: &Formula<F>) -> bool
    requires { (x y : F) → ((F.eq x y ≡ true) ↔ (x ≡ y)) }
    ensures { IsTrue result ↔ (one.now ≡ other.now) }
{
    match (one, other) {
        (Formula::All(ones), Formula::All(others)) => same_parts(
            ones.as_slice(),
            others.as_slice(),
        ),
        (Formula::Any(ones), Formula::Any(others)) => same_parts(
            ones.as_slice(),
            others.as_slice(),
        ),
        (
            Formula::Down { node, step },
            Formula::Down {
                node: other_node,
                step: other_step,
            },
        ) => node == other_node && step == other_step,
        (
            Formula::Shows { node, step, fact },
            Formula::Shows {
                node: other_node,
                step: other_step,
                fact: other_fact,
            },
        ) => node == other_node && step == other_step && fact == other_fact,
        (
            Formula::One { nodes, last, topic },
            Formula::One {
                nodes: other_nodes,
                last: other_last,
                topic: other_topic,
            },
        ) => nodes == other_nodes && last == other_last && topic == other_topic,
        (
            Formula::Over {
                every,
                first,
                last,
                parts,
            },
            Formula::Over {
                every: other_every,
                first: other_first,
                last: other_last,
                parts: other_parts,
            },
        ) => {
            every == other_every
                && first == other_first
                && last == other_last
                && same_parts(parts.as_slice(), other_parts.as_slice())
        }
        _ => false,
    }
}

/// Whether two lists of parts are equal.
#[cycle(same)]
fn same_parts<F: Eq>(ones: &[Formula<F>], others: &[Formula<F>]) -> bool
    requires { (x y : F) → ((F.eq x y ≡ true) ↔ (x ≡ y)) }
    ensures { IsTrue result ↔ (ones.now ≡ others.now) }
{
    if ones.len() != others.len() {
        return false;
    }
    'parts: for (i, part) in ones.iter().enumerate() {
        if !same(part, &others[i]) {
            return false;
        }
    }
    true
}
