//! What is wrong with a tree's text.

ghost use Rattle.std.specs.Prelude.{◌≡◌};
ghost use Rattle.lf_tree.specs.Faults.{fault_number};

use thiserror::Error;

/// Why a tree has no text, or a text no tree.
#[derive(Clone, Copy, Debug, PartialEq, Eq, Error)]
pub enum TreeFault {
    /// The text has, or would have, more than 16,777,216 bytes.
    #[error("the text of the tree is longer than 16777216 bytes")]
    TooLong,
    /// The text is not JSON.
    #[error("the text is not JSON")]
    NoJson,
    /// The text is JSON, and not written as the text of a tree is.
    #[error("the text is not written as that of a tree is")]
    Form,
    /// A number, a fault or a list of them is out of range.
    #[error("a number or a fault of the tree is out of range")]
    OutOfRange,
    /// More than six branches stand one in the other.
    #[error("more than six branches of the tree stand one in the other")]
    TooDeep,
    /// Memory ran out.
    #[error("out of memory")]
    Memory,
}

impl TreeFault {
    /// The number of the fault, 1..=6.
    pub fn number(&self) -> u32
        ensures { result ≡ fault_number self.now }
    {
        match self {
            TreeFault::TooLong => 1,
            TreeFault::NoJson => 2,
            TreeFault::Form => 3,
            TreeFault::OutOfRange => 4,
            TreeFault::TooDeep => 5,
            TreeFault::Memory => 6,
        }
    }
}
