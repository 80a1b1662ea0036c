//! Questions by their numbers.

ghost use Rattle.std.specs.Prelude.{◌≡◌, ◌<◌, ◌≤◌, ℕ, List, false, IfErr, IfOk};
ghost use Rattle.lf_sweep.specs.Faults.{HasNoRow, is_write};
ghost use Rattle.lf_sweep.specs.Limits.{most_combinations};
ghost use Rattle.lf_sweep.specs.Rows.{IsLineAt};

use crate::counts::Kind;
use crate::fault::SweepFault;
use std::alloc::Global;

/// The line of a question.
#[derive(Debug, PartialEq, Eq, Drop)]
pub struct Line {
    /// Its bytes, with the line feed.
    pub bytes: Vec<u8>,
    /// What the reply says.
    pub kind: Kind,
    /// How many faults the least sets have, where the reply tells that.
    pub faults: Option<u32>,
}

/// Questions, which are numbered from 0.
pub trait Questions {
    ghost use Rattle.lf_sweep.specs.declared.fault.SweepFault.{SweepFault};
    ghost use Rattle.lf_sweep.specs.Counts.{Told};

    /// How many there are.
    ghost total: { Self → ℕ };

    /// Which replies there are to the question with a number.
    ghost is_reply: { Self → ℕ → Told → Type 0 };

    /// Its line, by a reply.
    ghost line: { Self → ℕ → Told → List ℕ };

    /// Why it may have none, besides want of memory.
    ghost refuses: { Self → ℕ → SweepFault → Type 0 };

    /// How many there are.
    fn count(&self) -> u64
        ensures count { result ≡ total self.now }
        ensures few { result ≤ most_combinations };

    /// The line of the question with this number, by a reply to it. The error is why there is none, and never `Write`.
    fn ask(&self, alloc: Global, number: u64) -> Result<Line, SweepFault>
        requires { number < total self.now }
        ensures line { IfOk result (IsLineAt (is_reply self.now) (line self.now) number) }
        ensures cause { IfErr result (HasNoRow (refuses self.now) number) }
        ensures sink { IfErr result (λ e. is_write e ≡ false) };
}
