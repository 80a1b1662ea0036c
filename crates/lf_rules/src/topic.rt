//! What nodes enter somewhere.

ghost use Rattle.std.specs.Prelude.{◌≡◌, ◌↔◌, IsTrue};

use crate::Expr;
use crate::same::Same;
use lf_list::Listed;

/// Something of which it is asked whether it has one value for each key: where a node's state makes the guard true, the node enters a value for a key.
#[derive(Debug, Drop)]
pub struct Topic {
    pub value: Expr,
    pub key: Expr,
    /// A truth.
    pub guard: Expr,
}

/// Some topics, in order.
pub type Topics = Listed<Topic>;

impl Topic {
    /// Whether two topics are the same.
    pub fn same(&self, other: &Topic) -> bool
        ensures { IsTrue result ↔ (self.now ≡ other.now) }
    {
        self.is_same(other)
    }
}

impl Same for Topic {
    fn is_same(&self, other: &Topic) -> bool {
        self.value.is_same(&other.value)
            && self.key.is_same(&other.key)
            && self.guard.is_same(&other.guard)
    }
}

/// Whether two lists of topics are the same.
pub fn same_topics(one: &Topics, other: &Topics) -> bool
    ensures { IsTrue result ↔ (one.now ≡ other.now) }
{
    one.is_same(other)
}
