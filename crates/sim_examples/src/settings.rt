//! Settings of a few steps.

ghost use Rattle.std.specs.Prelude.{◌≤◌};

use lf_faults::FaultSpec;
use lf_latency::{Links, Network};
use lf_sim::{Machine, Setting};

/// A machine's setting, of so many steps, with sets of at most two faults. A note takes `least` steps, and up to `spread` more, and a pause
/// `length`.
pub(crate) fn setting<M: Machine + Drop>(
    machine: M,
    horizon: u32,
    least: u32,
    spread: u32,
    length: u32,
) -> Option<Setting<M>>
    requires horizon_at_least { 1 ≤ horizon }
    requires horizon_at_most { horizon ≤ 48 }
    requires least_at_least { 1 ≤ least }
    requires least_at_most { least ≤ 16 }
    requires spread { spread ≤ 15 }
{
    let nodes = machine.nodes();
    let links = Links::new(nodes, least, spread);
    let network = Network::new([least as u8; 32], links, nodes, horizon);
    let spec = FaultSpec::new(nodes, horizon, horizon - 1, nodes, 2)?.with_pauses(nodes, length)?;
    Setting::new(machine, network, spec)
}
