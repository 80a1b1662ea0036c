//! Who replies to scenarios.

ghost use Rattle.std.specs.Prelude.{◌≡◌, ◌⊎◌, ℕ, List, false, IfErr, IfOk, string_bytes};
ghost use Rattle.lf_sweep.specs.Faults.{is_write};

use crate::fault::SweepFault;
use std::alloc::Global;

/// A reply to the text of a scenario.
#[derive(Debug, PartialEq, Eq, Drop)]
pub struct Replied {
    /// Its lines, each with its line feed.
    pub text: String,
    /// Its status: 0 where no allowed set of faults defeats the outcome, 1 where one does, and else 2.
    pub status: u8,
    /// How many faults the least sets have, where it tells that.
    pub faults: Option<u32>,
}

/// Who replies to scenarios.
pub trait Asker {
    ghost use Rattle.lf_sweep.specs.declared.fault.SweepFault.{SweepFault};

    /// Which replies there are to a text, with their statuses.
    ghost replies: { Self → List ℕ → List ℕ → ℕ → Type 0 };

    /// Why there may be none, besides want of memory.
    ghost refuses: { Self → SweepFault → Type 0 };

    /// The reply to the text of a scenario. The error is why there is none, and never `Write`.
    fn reply(&self, alloc: Global, text: &[u8]) -> Result<Replied, SweepFault>
        ensures reply { IfOk result (λ reply. replies self.now text.now (string_bytes reply.text) reply.status) }
        ensures cause { IfErr result (λ e. (e ≡ SweepFault.Memory) ⊎ refuses self.now e) }
        ensures sink { IfErr result (λ e. is_write e ≡ false) };
}
