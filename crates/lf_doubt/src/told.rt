//! The replies that tell what was counted.

ghost use Rattle.std.specs.Prelude.{◌≡◌, IfOk, codes, string_bytes};
ghost use Rattle.lf_doubt.specs.Names.{counted_reply};

use std::alloc::{AllocError, Global};

/// The reply that a rule is taken in so many runs.
pub fn taken_reply(alloc: Global, times: usize, runs: usize) -> Result<String, AllocError>
    ensures { IfOk result (λ text. string_bytes text ≡ counted_reply (codes "taken ") times runs) }
{
    format!(in alloc; "taken {times} of {runs}\n")
}

/// The reply that what a part speaks of is so in so many runs.
pub fn holds_reply(alloc: Global, times: usize, runs: usize) -> Result<String, AllocError>
    ensures { IfOk result (λ text. string_bytes text ≡ counted_reply (codes "holds ") times runs) }
{
    format!(in alloc; "holds {times} of {runs}\n")
}
