//! A note that arrives late, and its line.

ghost use Rattle.std.specs.Prelude.{◌≡◌, ◌++◌, IfOk, string_bytes};
ghost use Rattle.lf_delays.specs.Delays.{arrive_line, arrive_lines};

use lf_faults::Slot;
use std::alloc::AllocError;

/// When the note of a slot arrives.
#[derive(Clone, Copy, Debug, PartialEq, Eq)]
pub struct Delay {
    /// Who sends it, to whom, and at which step.
    pub slot: Slot,
    /// The step at which it arrives.
    pub at: u32,
}

/// Adds a line for each: `arrive 0>1 @9 13`. The error is that memory has run out, and then the text may have a part of them.
pub fn push_delays(text: &mut String, delays: &[Delay]) -> Result<(), AllocError>
    ensures { IfOk result (λ _. string_bytes text.new ≡ string_bytes text.old ++ arrive_lines delays.now) }
{
    'delays: for delay in delays {
        push_delay(text, delay)?;
    }
    Ok(())
}

/// Adds the line of one.
fn push_delay(text: &mut String, delay: &Delay) -> Result<(), AllocError>
    ensures { IfOk result (λ _. string_bytes text.new ≡ string_bytes text.old ++ arrive_line delay.now) }
{
    let slot = delay.slot;
    writeln!(
        text,
        "arrive {}>{} @{} {}",
        slot.from, slot.to, slot.step, delay.at
    )
}
