//! The lines of questions, one behind the other.

ghost use Rattle.std.specs.Prelude.{◌≡◌, ◌+◌, ◌≤◌, false, IfErr, IfOk};
ghost use Rattle.lf_sweep.specs.Faults.{HasCause, is_write};
ghost use Rattle.lf_sweep.specs.Limits.{most_combinations};
ghost use Rattle.lf_sweep.specs.Rows.{AreInside, AreLinesAt};

use crate::Part;
use crate::counts::Counts;
use crate::fault::SweepFault;
use crate::marks::Marks;
use crate::questions::Questions;
use std::alloc::Global;

/// Lines of questions, how many replies of each kind they have, and which stand out.
#[derive(Drop)]
pub(crate) struct Lines {
    pub(crate) bytes: Vec<u8>,
    pub(crate) counts: Counts,
    pub(crate) marks: Marks,
}

/// The lines of a part's questions from a place on, of so many.
pub(crate) fn part_lines<Q: Questions>(
    alloc: Global,
    questions: &Q,
    part: Part,
    from: u64,
    some: u64,
) -> Result<Lines, SweepFault>
    requires few { Q.total questions.now ≤ most_combinations }
    requires inside { AreInside (Q.total questions.now) part (from + some) }
    ensures lines { IfOk result (AreLinesAt (Q.total questions.now) (Q.is_reply questions.now) (Q.line questions.now) part from some) }
    ensures cause { IfErr result (HasCause (Q.refuses questions.now) (Q.total questions.now) part) }
    ensures sink { IfErr result (λ e. is_write e ≡ false) }
{
    let mut bytes = Vec::new(alloc);
    let mut counts = Counts::empty();
    let mut marks = Marks::none();
    'places: for i in 0..some {
        let number = part.number(from + i);
        let line = questions.ask(alloc, number)?;
        bytes.extend_from_slice(line.bytes.as_slice())?;
        counts = counts.plus(Counts::of(line.kind));
        marks.take(Marks::at(number, line.kind, line.faults));
    }
    Ok(Lines {
        bytes,
        counts,
        marks,
    })
}
