//! What a set of faults does, in tables to look it up.

ghost use Rattle.std.specs.Prelude.{◌≡◌, ◌<◌, ◌≤◌, ◌&&◌, not, length};
ghost use Rattle.lf_faults.specs.Faults.{set_omits, set_crashes, set_pauses, set_wakes};
ghost use Rattle.lf_sim.specs.Effects.{AreLosing, AreCrashes, ArePausing};

use lf_faults::{FaultSet, Parts};

/// The places for links: 8 senders and 8 receivers.
const LINKS: usize = 64;

/// A step after all others.
const NEVER: u32 = 49;

/// What a set of faults does, in tables: a look into them takes no walk over the set.
#[derive(Clone, Copy, Drop)]
pub struct Effects {
    /// The set.
    pub set: FaultSet,
    // By sender and receiver, whether a note between them is ever lost.
    losing: [bool; LINKS],
    // By node, the step from which it has crashed.
    crashes: [u32; 8],
    // By node, whether it is ever paused.
    pausing: [bool; 8],
    ghost losses: { AreLosing set losing },
    ghost ends: { AreCrashes set crashes },
    ghost pauses: { ArePausing set pausing },
}

impl Effects {
    /// What the set does.
    pub fn new(set: &FaultSet) -> Effects
        ensures { result.set ≡ set.now }
    {
        Effects {
            set: *set,
            losing: losing(set),
            crashes: crash_steps(set),
            pausing: pausing(set),
        }
    }

    /// Whether the note that `from` sends to `to` at `step` is lost.
    pub fn omits(&self, from: u32, to: u32, step: u32) -> bool
        requires from { from < 8 }
        requires to { to < 8 }
        ensures { result ≡ set_omits self.now.set from to step }
    {
        if self.losing[(from * 8 + to) as usize] {
            self.set.omits(from, to, step)
        } else {
            false
        }
    }

    /// Whether a node, 0..=7, is up at a step, at most 48, where a pause takes `length` steps, at most 8.
    pub fn leaves_up(&self, node: u32, step: u32, length: u32) -> bool
        requires node { node < 8 }
        requires step { step ≤ 48 }
        requires length { length ≤ 8 }
        ensures { result ≡ (not (set_crashes self.now.set node step) && not (set_pauses length self.now.set node step)) }
    {
        if self.crashes[node as usize] <= step {
            return false;
        }
        if !self.pausing[node as usize] {
            return true;
        }
        !self.set.pauses(node, step, length)
    }

    /// Whether a step is the first after a pause of the node, where a pause takes `length` steps, at most 8.
    pub fn wakes(&self, node: u32, step: u32, length: u32) -> bool
        requires node { node < 8 }
        requires length { length ≤ 8 }
        ensures { result ≡ set_wakes length self.now.set node step }
    {
        if self.pausing[node as usize] {
            self.set.wakes(node, step, length)
        } else {
            false
        }
    }
}

/// By link, whether the set ever loses a note of it.
fn losing(set: &FaultSet) -> [bool; LINKS]
    ensures { AreLosing set.now result }
{
    let mut losing = [false; LINKS];
    for fault in set.items() {
        if let Parts::Omit { from, to, .. } = fault.parts() {
            losing[(from * 8 + to) as usize] = true;
        }
    }
    losing
}

/// By node, the step from which the set crashes it.
fn crash_steps(set: &FaultSet) -> [u32; 8]
    ensures { AreCrashes set.now result }
{
    let mut steps = [NEVER; 8];
    for fault in set.items() {
        if let Parts::Crash { node, step } = fault.parts() {
            let at = node as usize;
            if step < steps[at] {
                steps[at] = step;
            }
        }
    }
    steps
}

/// By node, whether the set ever pauses it.
fn pausing(set: &FaultSet) -> [bool; 8]
    ensures { ArePausing set.now result }
{
    let mut pausing = [false; 8];
    for fault in set.items() {
        if let Parts::Pause { node, .. } = fault.parts() {
            pausing[node as usize] = true;
        }
    }
    pausing
}
