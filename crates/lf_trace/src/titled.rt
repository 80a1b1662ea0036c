//! Steps of which something is told.

ghost use Rattle.std.specs.Prelude.{◌≡◌, ◌++◌, IfOk, string_bytes};
ghost use Rattle.lf_trace.specs.Changes.{titled};

use std::alloc::AllocError;

/// Adds lines to a text, under the number of their step, where there are any.
pub(crate) fn push_titled(number: u32, lines: &str, text: &mut String) -> Result<(), AllocError>
    ensures { IfOk result (λ _. string_bytes text.new ≡ string_bytes text.old ++ titled number lines.now) }
{
    if lines.is_empty() {
        return Ok(());
    }
    writeln!(text, "step {number}")?;
    text.push_str(lines)
}
