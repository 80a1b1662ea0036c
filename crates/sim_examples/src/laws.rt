//! The laws of runs at a small setting, with no premise left.

ghost use Rattle.std.specs.Prelude.{◌≡◌, ℕ, ◌<◌, ◌≤◌, List, ◌∷◌, IfOk};
ghost use Rattle.lf_faults.specs.declared.fault.Parts.{Parts};
ghost use Rattle.lf_faults.specs.Faults.{step_of};
ghost use Rattle.lf_sim.specs.Runs.{World, is_up, view, sent};
ghost use Rattle.lf_sim.specs.Settings.{world_of};

use crate::machines::Ring;
use crate::texts::{agrees, set, setting};
use lf_faults::FaultSet;
use lf_sim::{Machine, Setting, Slot, inboxes_of, run, same_until};
use std::alloc::{AllocError, Global};

/// Whether a node is up at a step, its state after it, and what it sends to another in it: each as the definition of
/// runs says.
fn point<M: Machine>(
    alloc: Global,
    setting: &Setting<M>,
    set: &FaultSet,
    node: u32,
    to: u32,
    step: u32,
) -> Result<(bool, M::State, Option<M::Note>), AllocError>
    requires node { node < (M.rules setting.now.machine).nodes }
    requires step { step ≤ setting.now.spec.horizon }
    ensures up { IfOk result (λ found. found.0 ≡ is_up (world_of setting.now) set.now node step) }
    ensures view { IfOk result (λ found. found.1 ≡ view (world_of setting.now) set.now node step) }
    ensures sent { IfOk result (λ found. found.2 ≡ sent (world_of setting.now) set.now node to step) }
{
    let found = run(alloc, setting, set)?;
    Ok((
        found.up(node, step),
        found.state(node, step),
        found.sent(node, to, step),
    ))
}

/// The law that a fault more changes nothing before its own step.
fn nothing_changes_before<State, Note, Fact>()
    ensures { (w : World State Note Fact) (faults : List Parts) (fault : Parts) (n t : ℕ) → t < step_of fault →
        view w (fault ∷ faults) n t ≡ view w faults n t }
{
    same_until::<State, Note, Fact>();
}

/// Whether to node 1 there comes at step 3 what the others sent at step 2.
fn comes(setting: &Setting<Ring>) -> bool
    requires { setting.now.spec.horizon ≡ 14 }
{
    let slots = [
        Slot { from: 0, sent: 2 },
        Slot { from: 2, sent: 2 },
        Slot { from: 3, sent: 2 },
    ];
    setting.arriving(1, 3) == slots.as_slice()
}

/// Whether in the run node 1 is down at step 4, and node 3 is up at step 2, with its state and what it sends to node 1.
fn has_points(alloc: Global, setting: &Setting<Ring>, set: &FaultSet) -> bool
    requires { setting.now.spec.horizon ≡ 14 }
{
    let crashed = point(alloc, setting, set, 1, 3, 4);
    // At step 2 the note 2, which node 2 sent at step 1, has reached node 3.
    let told = point(alloc, setting, set, 3, 1, 2);
    match (crashed, told) {
        (Ok((is_up, _, _)), Ok((up, state, sent))) => {
            !is_up && up && state == 3 * 5 + 2 + 2 + 3 && sent == Some(2)
        }
        _ => false,
    }
}

/// Whether the laws hold at a ring, where these points are found.
fn ring_has_points(alloc: Global) -> bool {
    let (Some(setting), Some(set)) = (setting(Ring, 1, 0, 2), set("omit 0>1 @1,crash 1 @4")) else {
        return false;
    };
    inboxes_of(&setting);
    comes(&setting) && has_points(alloc, &setting, &set)
}

#[test]
fn laws_have_no_premise_left(rt: HostRuntime) {
    nothing_changes_before::<u32, u32, u32>();
    agrees(&rt, ring_has_points(rt.alloc()), "a ring");
}
