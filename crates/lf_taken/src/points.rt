//! Which rules a node takes at a step of a run.

ghost use Rattle.std.specs.Prelude.{◌≡◌, ◌<◌, IfOk};
ghost use Rattle.lf_sim.specs.Settings.{IsRun, set_of, world_of};
ghost use Rattle.lf_taken.specs.Points.{taken_up, taken_after};

use crate::letters::Point;
use crate::turns::Acting;
use lf_protocols::{Kind, Protocol, State};
use lf_sim::{Run, Setting};
use std::alloc::{AllocError, Global};

/// The numbers of the rules that a node takes at the step after `past` of a run of this setting, in the order in which it takes them, once for each time. A
/// step at which it wakes begins with those that it takes on waking. There are none where it isn't up, or where the protocol isn't one of rules.
/// The error is that memory has run out.
pub fn taken(
    alloc: Global,
    setting: &Setting<Protocol>,
    run: &Run<Protocol>,
    node: u32,
    past: u32,
) -> Result<Vec<usize>, AllocError>
    requires run { IsRun (world_of setting.now) run.now }
    requires node { node < (world_of setting.now).rules.nodes }
    requires past { past < (world_of setting.now).horizon }
    ensures { IfOk result (λ taken.
        taken.items ≡ taken_after setting.now.machine (world_of setting.now) (set_of run.now) node past) }
{
    if run.up(node, past + 1) {
        let point = Point {
            setting,
            run,
            node,
            past,
        };
        taken_up(alloc, &point)
    } else {
        Ok(Vec::new(alloc))
    }
}

/// Those of a node that is up.
fn taken_up(alloc: Global, point: &Point) -> Result<Vec<usize>, AllocError>
    requires run { IsRun (world_of point.now.setting.now) point.now.run.now }
    ensures { IfOk result (λ taken.
        taken.items ≡ taken_up point.now.setting.now.machine (world_of point.now.setting.now) (set_of point.now.run.now) point.now.node point.now.past) }
{
    let inbox = point.inbox(alloc)?;
    let wakes = point.wakes();
    let state = point.run.state(point.node, point.past);
    match (point.setting.machine.kind(), state) {
        (Kind::Ruled(ruled), State::Ruled(own)) => {
            let acting = Acting {
                ruled,
                node: point.node,
                t: point.past + 1,
            };
            acting.taken(alloc, wakes, own, inbox.as_slice())
        }
        _ => Ok(Vec::new(alloc)),
    }
}
