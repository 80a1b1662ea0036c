//! Questions that are no combinations, asked in parts by one worker and by several.

ghost use Rattle.std.specs.Prelude.{◌≡◌, ◌+◌, ◌≤◌, [], ◌∷◌};

use crate::texts::agrees;
use lf_streams::ToWrite;
use lf_sweep::{Kind, Line, Marks, Part, Questions, SweepFault, sweep, sweep_shared};
use std::alloc::Global;
use std::thread::Threads;

/// The first digits, as questions: each is answered by itself, and says that a set of faults defeats the outcome.
#[derive(Clone, Copy)]
struct Digits {
    count: u64,
    ghost few: { count ≤ 10 },
}

impl Questions for Digits {
    ghost total = { λ digits. digits.count };

    ghost is_reply = { λ _ number told. told ≡ ((48 + number) ∷ 10 ∷ [], 1) };

    ghost line = { λ _ _ told. told.0 };

    ghost refuses = { λ _ _ _. ⊥ };

    fn count(&self) -> u64 {
        self.count
    }

    fn ask(&self, alloc: Global, number: u64) -> Result<Line, SweepFault> {
        let bytes = Vec::from_slice(alloc, &[b'0' + number as u8, b'\n'])?;
        Ok(Line {
            bytes,
            kind: Kind::Missed,
            faults: Some(9 - number as u32),
        })
    }
}

/// Whether a part of the ten digits is written so, by so many workers, or in one thread for 0, with this number of faults as the fewest.
fn is_written(
    rt: &(impl Threads + Sync),
    alloc: Global,
    part: Part,
    workers: u32,
    wanted: &str,
    fewest: u32,
) -> bool {
    let digits = Digits { count: 10 };
    let mut out = Vec::new(alloc);
    let mut sink = ToWrite::new(&mut out);
    let mut marks = Marks::none();
    let asked = if workers == 0 {
        sweep(alloc, &digits, part, &mut sink, &mut marks)
    } else {
        sweep_shared(rt, alloc, &digits, part, workers, &mut sink, &mut marks)
    };
    let (Ok(counts), Some(defeated)) = (asked, marks.fewest) else {
        return false;
    };
    out.as_slice() == wanted.as_bytes() && counts.status() == 1 && defeated.faults == fewest
}

#[test]
fn questions_of_any_kind_are_asked(rt: HostRuntime) {
    let Some(part) = Part::new(2, 3) else {
        return agrees(&rt, false, "a part");
    };
    for workers in 0..4u32 {
        let is_right = is_written(&rt, rt.alloc(), part, workers, "1\n4\n7\n", 2);
        agrees(&rt, is_right, "digits");
    }
}
