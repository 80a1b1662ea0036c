//! The combinations of a study, as questions.

ghost use Rattle.std.specs.Prelude.{◌≡◌, ◌<◌, false, IfErr, IfOk};
ghost use Rattle.lf_sweep.specs.Combinations.{combinations};
ghost use Rattle.lf_sweep.specs.Faults.{is_write};
ghost use Rattle.lf_sweep.specs.Rows.{IsLineAt};
ghost use Rattle.lf_sweep.specs.Studies.{HasNoReply, HasNoRow, IsReplyTo, told_line};

use crate::asker::Asker;
use crate::counts::kind_of;
use crate::fault::SweepFault;
use crate::questions::{Line, Questions};
use crate::study::Study;
use crate::{line_of, text_of};
use std::alloc::Global;

/// The combinations of a study, in their order, and who replies to them.
#[derive(Drop)]
pub struct Combinations<'a, A> {
    /// Who replies.
    pub asker: &'a A,
    /// What is asked.
    pub study: Study<'a>,
}

impl<A: Asker> Questions for Combinations<'_, A> {
    ghost total = { λ c. combinations c.study.plan.now.varied.items };

    ghost is_reply = { λ c. IsReplyTo (A.replies c.asker.now) c.study.scenario.now c.study.plan.now.varied.items };

    ghost line = { λ c. told_line c.study.plan.now.varied.items };

    ghost refuses = { λ c. HasNoReply (A.refuses c.asker.now) c.study.scenario.now c.study.plan.now.varied.items };

    fn count(&self) -> u64 {
        self.study.plan.count()
    }

    fn ask(&self, alloc: Global, number: u64) -> Result<Line, SweepFault> {
        row(alloc, self.asker, &self.study, number)
    }
}

/// The line of the combination with this number, from 0.
fn row<A: Asker>(
    alloc: Global,
    asker: &A,
    study: &Study<'_>,
    number: u64,
) -> Result<Line, SweepFault>
    requires { number < combinations study.now.plan.now.varied.items }
    ensures row { IfOk result (IsLineAt (IsReplyTo (A.replies asker.now) study.now.scenario.now study.now.plan.now.varied.items)
        (told_line study.now.plan.now.varied.items) number) }
    ensures cause { IfErr result (HasNoRow (A.refuses asker.now) study.now.scenario.now study.now.plan.now.varied.items number) }
    ensures sink { IfErr result (λ e. is_write e ≡ false) }
{
    let words = study.plan.words(alloc, number)?;
    let text = match text_of(alloc, study.scenario, study.plan.varied(), words.as_slice()) {
        Ok(text) => text,
        Err(error) => return Err(SweepFault::from(error)),
    };
    let reply = asker.reply(alloc, text.as_bytes())?;
    let kind = kind_of(reply.text.as_str(), reply.status);
    let bytes = line_of(alloc, words.as_slice(), reply.text.as_str())?;
    Ok(Line {
        bytes,
        kind,
        faults: reply.faults,
    })
}
