//! When the notes of a run arrive, slot by slot.

ghost use Rattle.std.specs.Prelude.{◌≡◌, ◌<◌, ◌≤◌, ◌↔◌, IsTrue};
ghost use Rattle.lf_latency.specs.Arrivals.{IsPlace, IsArrivals, place_of, arrival_in, with_arrival, earliest};
ghost use Rattle.lf_latency.specs.Table.{earliest_arrivals, entry_of};

use crate::links::is_pair;
use crate::network::{Network, keeps_limits};

/// The most nodes.
pub(crate) const NODES: u32 = 8;

/// The most steps.
pub(crate) const STEPS: u32 = 48;

/// The places of the table, for each sender, receiver and step.
pub(crate) const PLACES: usize = 3072;

/// When notes arrive: of each slot the step. It takes no memory beside its own 3,072 bytes.
#[derive(Clone, Copy, Debug, PartialEq, Eq)]
pub struct Arrivals {
    // By sender, receiver and step: 48 steps to a receiver, 8 receivers to a sender.
    steps: [u8; PLACES],
}

impl Arrivals {
    /// Each note as early as it can be: after the least delay of its link.
    pub fn earliest(network: &Network) -> Arrivals
        ensures value { result ≡ earliest_arrivals network.now }
        ensures assigned { IsArrivals network.now result }
    {
        keeps_limits(network);
        let mut steps = [0; PLACES];
        for k in 0..PLACES as u32 {
            let from = k / (NODES * STEPS);
            let to = k / STEPS % NODES;
            steps[k as usize] = first_step(network, from, to, k % STEPS + 1);
        }
        Arrivals { steps }
    }

    /// The step at which a note arrives that `from` sends to `to` at `step`: nodes in 0..=7, and a step in 1..=48.
    pub fn arrival(&self, from: u32, to: u32, step: u32) -> u32
        requires { IsPlace from to step }
        ensures value { result ≡ arrival_in self.now from to step }
        ensures small { result < 256 }
    {
        u32::from(self.steps[place(from, to, step)])
    }

    /// Lets the note of a slot arrive at another step, at most 255.
    pub fn put(&mut self, from: u32, to: u32, step: u32, at: u32)
        requires slot { IsPlace from to step }
        requires small { at < 256 }
        ensures { self.new ≡ with_arrival self.old from to step at }
    {
        self.steps[place(from, to, step)] = at as u8;
    }

    /// Whether these are the same steps, at each place.
    pub fn same(&self, other: &Arrivals) -> bool
        ensures { IsTrue result ↔ (self.now ≡ other.now) }
    {
        same_steps(&self.steps, &other.steps)
    }
}

/// The place of a slot.
fn place(from: u32, to: u32, step: u32) -> usize
    requires { IsPlace from to step }
    ensures value { result ≡ place_of from to step }
    ensures within { result < 3072 }
{
    ((from * NODES + to) * STEPS + step - 1) as usize
}

/// Whether two tables are equal.
fn same_steps(one: &[u8; PLACES], other: &[u8; PLACES]) -> bool
    ensures { IsTrue result ↔ (one.now ≡ other.now) }
{
    one == other
}

/// The first step at which the note of a slot arrives, and 0 where nothing is sent.
fn first_step(network: &Network, from: u32, to: u32, step: u32) -> u8
    requires first { 1 ≤ step }
    requires last { step ≤ 48 }
    ensures { result ≡ entry_of network.now (earliest network.now.links) from to step }
{
    if !is_pair(network.nodes(), from, to) || step > network.horizon() {
        return 0;
    }
    (step + network.least(from, to)) as u8
}
