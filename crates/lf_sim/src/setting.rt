//! What a run stands on.

ghost use Rattle.std.specs.Prelude.{◌≡◌, ◌<◌, ◌≤◌, ◌↔◌, IsSome, IfSome};
ghost use Rattle.lf_latency.specs.Arrivals.{arrival_of, choosing, IsArrivals};
ghost use Rattle.std.specs.List.{Contains, AllPairs};
ghost use Rattle.lf_sim.specs.declared.schedule.Slot.{Slot};
ghost use Rattle.lf_sim.specs.Schedules.{IsArriving, IsBefore, IsSchedule, slots_to};

use crate::Machine;
use crate::schedule::{Schedule, Slot, part};
use lf_faults::FaultSpec;
use lf_latency::{Arrivals, Network};

/// A machine on a network, with bounds on its faults.
///
/// The three agree in how many nodes there are, and the network and the bounds in the last step.
#[derive(Drop)]
pub struct Setting<M: Machine> {
    pub machine: M,
    pub network: Network,
    pub spec: FaultSpec,
    pub(crate) schedule: Schedule,
    ghost nodes_agree: { (M.rules machine).nodes ≡ spec.nodes },
    ghost network_agrees: { network.nodes ≡ spec.nodes },
    ghost horizons_agree: { network.horizon ≡ spec.horizon },
    ghost scheduled: { IsSchedule (arrival_of network) network.nodes network.horizon
        schedule.slots schedule.starts },
}

impl<M: Machine> Setting<M> {
    /// The machine on the network. None where they don't agree. It takes no memory.
    pub fn new(machine: M, network: Network, spec: FaultSpec) -> Option<Setting<M>>
    where
        M: Drop,
        ensures some { IsSome result ↔ ((M.rules machine).nodes ≡ spec.nodes) ×
            (network.nodes ≡ spec.nodes) × (network.horizon ≡ spec.horizon) }
        ensures value { IfSome result
            (λ s. (s.machine ≡ machine) × (s.network ≡ network) × (s.spec ≡ spec)) }
    {
        if machine.nodes() == spec.nodes()
            && network.nodes() == spec.nodes()
            && network.horizon() == spec.horizon()
        {
            let schedule = Schedule::new(&network);
            Some(Setting {
                machine,
                network,
                spec,
                schedule,
            })
        } else {
            None
        }
    }

    /// The same setting, but that notes arrive as chosen, whatever the seed says. It takes no memory.
    pub fn choosing(self, arrivals: &Arrivals) -> Setting<M>
    where
        M: Drop,
        requires { IsArrivals self.network arrivals.now }
        ensures machine { result.machine ≡ self.machine }
        ensures network { result.network ≡ choosing self.network arrivals.now }
        ensures spec { result.spec ≡ self.spec }
    {
        let network = self.network.choosing(arrivals);
        let schedule = Schedule::new(&network);
        Setting {
            machine: self.machine,
            network,
            spec: self.spec,
            schedule,
        }
    }

    /// The slots of which a note would reach a node at a step, by sender and then by sending step. `to` is a node, and
    /// `step` a step of the run. No set of faults changes them.
    pub fn arriving(&self, to: u32, step: u32) -> &[Slot]
        requires to { to < self.now.network.nodes }
        requires first { 1 ≤ step }
        requires last { step ≤ self.now.network.horizon }
        ensures value { result.now ≡ slots_to (arrival_of self.now.network) self.now.network.nodes to step }
        ensures members { (slot : Slot) → (Contains result.now slot ↔
            IsArriving (arrival_of self.now.network) self.now.network.nodes to step slot) }
        ensures order { AllPairs IsBefore result.now }
    {
        let _nodes = self.network.nodes();
        let _horizon = self.network.horizon();
        let row = ((step - 1) * 8 + to) as usize;
        let starts = &self.schedule.starts;
        let start = usize::from(starts[row]);
        let end = usize::from(starts[row + 1]);
        part(&self.schedule.slots, start, end)
    }
}
