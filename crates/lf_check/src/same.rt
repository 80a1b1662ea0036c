//! Equal faults.

ghost use Rattle.std.specs.Prelude.{◌≡◌, ◌↔◌, IsTrue};

use lf_faults::{Fault, FaultSet};

/// Whether two lists of faults are the same, in order.
pub(crate) fn are_same(one: &[Fault], other: &[Fault]) -> bool
    ensures { IsTrue result ↔ (one.now ≡ other.now) }
{
    one == other
}

/// Whether two answers are the same.
pub(crate) fn are_same_answers(one: &Option<FaultSet>, other: &Option<FaultSet>) -> bool
    ensures { IsTrue result ↔ (one.now ≡ other.now) }
{
    match one {
        Some(one) => match other {
            Some(other) => are_same(one.items(), other.items()),
            None => false,
        },
        None => other.is_none(),
    }
}
