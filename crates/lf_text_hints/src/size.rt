//! How large the formula of an outcome is.

use lf_promises::{Many, Promise};

/// How deep an outcome is looked into. No text has a deeper one, since its brackets are limited.
const DEEPEST: u32 = 100;

/// How large a formula is.
#[derive(Clone, Copy, Debug)]
pub(crate) struct Size {
    /// How many atoms it has, or may have at most where sets are named behind `of`.
    pub atoms: u64,
    pub depth: u32,
    /// Whether a set is named behind `of`.
    pub has_sets: bool,
    /// Whether it speaks of all steps.
    pub has_steps: bool,
    /// The highest node that it names, or 0.
    pub highest: u32,
}

impl Size {
    /// The size of nothing.
    fn none() -> Size {
        Size {
            atoms: 0,
            depth: 0,
            has_sets: false,
            has_steps: false,
            highest: 0,
        }
    }

    /// The size of an atom that names a node.
    fn of_node(node: u32) -> Size {
        Size {
            atoms: 1,
            depth: 1,
            highest: node,
            ..Size::none()
        }
    }

    /// The size of both together.
    fn and(self, other: Size) -> Size {
        Size {
            atoms: self.atoms.saturating_add(other.atoms),
            depth: self.depth.max(other.depth),
            has_sets: self.has_sets || other.has_sets,
            has_steps: self.has_steps || other.has_steps,
            highest: self.highest.max(other.highest),
        }
    }
}

/// How large the formula of an outcome is with so many nodes and steps.
pub(crate) fn size_of(promise: &Promise, nodes: u64, steps: u64) -> Size {
    sized(promise, nodes, steps, DEEPEST)
}

/// How large the formula of a promise is that is looked into so deep.
fn sized(promise: &Promise, nodes: u64, steps: u64, room: u32) -> Size {
    if room == 0 {
        return Size::none();
    }
    match promise {
        Promise::All(parts) | Promise::Any(parts) | Promise::Always(parts) | Promise::Ever(parts) =>
            {
                let mut size = Size::none();
                for part in parts.as_slice() {
                    size = size.and(sized(part, nodes, steps, room - 1));
                }
                around(promise, size, steps)
            }
        Promise::Nodes { many, of, .. } => Size {
            atoms: atoms_of(*many, nodes),
            depth: depth_of(*many),
            has_sets: of.is_some(),
            ..Size::none()
        },
        Promise::Down { node } | Promise::At { node, .. } => Size::of_node(*node),
        Promise::One(_) => Size {
            atoms: 1,
            depth: 1,
            ..Size::none()
        },
    }
}

/// The size of what joins parts, or says them of all steps, where the parts have this size together.
fn around(promise: &Promise, parts: Size, steps: u64) -> Size {
    let depth = parts.depth.saturating_add(1);
    match promise {
        Promise::Always(_) | Promise::Ever(_) => Size {
            atoms: parts.atoms.saturating_mul(steps),
            depth,
            has_steps: true,
            ..parts
        },
        _ => Size { depth, ..parts },
    }
}

/// How many atoms it has that so many of some nodes show a fact.
fn atoms_of(many: Many, nodes: u64) -> u64 {
    match many {
        Many::Each | Many::No => nodes.saturating_mul(2),
        Many::Some => nodes,
        Many::AtMostOne => nodes
            .saturating_mul(nodes.saturating_sub(1))
            .saturating_mul(2),
    }
}

/// How deep that is.
fn depth_of(many: Many) -> u32 {
    match many {
        Many::Each | Many::No => 3,
        Many::Some => 2,
        Many::AtMostOne => 4,
    }
}
