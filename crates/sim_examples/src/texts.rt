//! What the texts of examples stand for, and settings.

ghost use Rattle.std.specs.Prelude.{◌≡◌, ◌≤◌, IfSome};

use lf_faults::{FaultSet, FaultSpec, read_fault};
use lf_latency::{Links, Network};
use lf_sim::{Machine, Setting};
use std::process::Abort;

/// What is found at the row is what it says. Each comparison ends here: an assertion is dear to prove.
pub(crate) fn agrees(rt: &impl Abort, truth: bool, row: &str) {
    assert!(rt; truth, "at {row}");
}

/// The set with the fault of a text more.
fn with(set: &FaultSet, text: &str) -> Option<FaultSet> {
    set.insert(read_fault(text)?)
}

/// The set of a list of faults.
pub(crate) fn set(text: &str) -> Option<FaultSet> {
    let mut set = FaultSet::empty();
    if text.is_empty() {
        return Some(set);
    }
    for item in text.split(',') {
        set = with(&set, item)?;
    }
    Some(set)
}

/// Bounds of 14 steps.
fn bounds(nodes: u32, length: u32) -> Option<FaultSpec>
    ensures { IfSome result (λ spec. spec.horizon ≡ 14) }
{
    FaultSpec::new(nodes, 14, 13, nodes, 6)?.with_pauses(nodes, length)
}

/// A machine's setting, of 14 steps. A note takes `least` steps, and up to `spread` more, and a pause `length`.
pub(crate) fn setting<M: Machine + Drop>(
    machine: M,
    least: u32,
    spread: u32,
    length: u32,
) -> Option<Setting<M>>
    requires least_at_least { 1 ≤ least }
    requires least_at_most { least ≤ 16 }
    requires spread { spread ≤ 15 }
    ensures { IfSome result (λ s. s.spec.horizon ≡ 14) }
{
    let nodes = machine.nodes();
    let links = Links::new(nodes, least, spread);
    let network = Network::new([least as u8; 32], links, nodes, 14);
    match bounds(nodes, length) {
        Some(spec) => Setting::new(machine, network, spec),
        None => None,
    }
}
