//! At which nodes a crash or a pause more may be added.

ghost use Rattle.lf_faults.specs.Allowed.{IsAllowed};
ghost use Rattle.lf_cone.specs.Places.{IsRoom};

use crate::required::{crash, pause};
use lf_faults::{FaultSet, FaultSpec, fits};

/// By node, whether a crash of it may be added to a set, and whether a pause may. The step of it doesn't matter.
#[derive(Clone, Copy, Drop)]
pub(crate) struct Room {
    pub(crate) crashes: [bool; 8],
    pub(crate) pauses: [bool; 8],
}

/// What may be added to an allowed set.
pub(crate) fn room_in(spec: &FaultSpec, set: &FaultSet) -> Room
    requires { IsAllowed spec.now set.now }
    ensures { IsRoom spec.now set.now result.crashes result.pauses }
{
    let mut crashes = [false; 8];
    let mut pauses = [false; 8];
    for node in 0..spec.nodes() {
        crashes[node as usize] = fits(spec, set, &crash(node, 1));
        pauses[node as usize] = fits(spec, set, &pause(node, 1));
    }
    Room { crashes, pauses }
}
