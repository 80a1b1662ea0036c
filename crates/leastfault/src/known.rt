//! The reading of scenarios where the protocol of a file may be known besides the shipped ones.

ghost use Rattle.std.specs.Prelude.{◌≢◌, MatchResult};
ghost use Rattle.leastfault.specs.Known.{IsRefusedOf, IsTextOf, known_of};

use lf_outcome::Scenario;
use lf_own_scenario::read_with;
use lf_protocol_file::ProtocolFile;
use lf_scenario::{ScenarioError, read};
use std::alloc::Global;

/// The scenario of a text, or why it is none: as `read` where no protocol file is known, and as `read_with` where one is. The refusal
/// `Memory` comes only where memory has run out.
pub fn read_known(
    alloc: Global,
    text: &[u8],
    known: Option<&ProtocolFile>,
) -> Result<Scenario, ScenarioError>
    ensures { MatchResult result (λ s. IsTextOf (known_of known.entry) s text.now)
        (λ e. e ≢ ScenarioError.Memory → IsRefusedOf (known_of known.entry) text.now e) }
{
    match known {
        Some(file) => read_with(alloc, text, file),
        None => read(alloc, text),
    }
}
