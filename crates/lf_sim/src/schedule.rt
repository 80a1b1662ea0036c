//! Which slots arrive at which step.

ghost use Rattle.std.specs.Prelude.{◌≡◌, ◌+◌, ◌*◌, ◌-◌, ◌<◌, ◌≤◌, ◌≢◌, ◌++◌, length, take, slice_range};
ghost use Rattle.lf_latency.specs.Arrivals.{arrival_of};
ghost use Rattle.lf_sim.specs.Schedules.{IsSchedule, is_row, slots_from, slots_to};

use lf_latency::Network;

/// The places for slots: 8 senders, 8 receivers and 48 steps.
const SLOTS: usize = 3072;

/// The rows: 48 steps and 8 receivers.
const ROWS: u32 = 384;

/// A slot of one receiver: what the node `from`, 0..=7, sends to it at the step `sent`, 1..=48.
#[derive(Clone, Copy, Debug, PartialEq, Eq)]
pub struct Slot {
    pub from: u8,
    pub sent: u8,
}

/// The slots by the step at which they arrive, receiver, sender and sending step.
#[derive(Clone, Copy, Drop)]
pub(crate) struct Schedule {
    pub(crate) slots: [Slot; SLOTS],
    // Where the slots of a step and receiver start, by (step - 1) * 8 + receiver, and the end of the last.
    pub(crate) starts: [u16; 385],
}

impl Schedule {
    /// The schedule of a network.
    pub(crate) fn new(network: &Network) -> Schedule
        ensures { IsSchedule (arrival_of network.now) network.now.nodes network.now.horizon
            result.slots result.starts }
    {
        let nodes = network.nodes();
        let horizon = network.horizon();
        let mut slots = [Slot { from: 0, sent: 0 }; SLOTS];
        let mut starts = [0; 385];
        let mut end = 0;
        for row in 0..ROWS {
            if is_row(nodes, horizon, row) {
                end = put_row(network, nodes, &mut slots, end, row % 8, row / 8 + 1);
            }
            starts[row as usize + 1] = end as u16;
        }
        Schedule { slots, starts }
    }
}

/// Whether a row of the schedule is of a node and a step of the run.
fn is_row(nodes: u32, horizon: u32, row: u32) -> bool
    requires { row < ROWS }
    ensures { result ≡ is_row nodes horizon row }
{
    row % 8 < nodes && row / 8 + 1 <= horizon
}

/// Puts the slots that reach a node at a step, from a place on. Gives the place after the last.
fn put_row(
    network: &Network,
    nodes: u32,
    slots: &mut [Slot],
    start: usize,
    to: u32,
    step: u32,
) -> usize
    requires nodes { nodes ≡ network.now.nodes }
    requires few { nodes ≤ 8 }
    requires to { to < nodes }
    requires first { 1 ≤ step }
    requires step { step ≤ network.now.horizon }
    requires short { step ≤ 48 }
    requires room { start + length (slots_to (arrival_of network.now) nodes to step) ≤ length slots.old }
    ensures end { result ≡ start + length (slots_to (arrival_of network.now) nodes to step) }
    ensures slots { take result slots.new ≡
        take start slots.old ++ slots_to (arrival_of network.now) nodes to step }
{
    let mut end = start;
    for from in 0..nodes {
        if from != to {
            end = put_link(network, slots, end, from, to, step);
        }
    }
    end
}

/// Puts those of one sender.
fn put_link(
    network: &Network,
    slots: &mut [Slot],
    start: usize,
    from: u32,
    to: u32,
    step: u32,
) -> usize
    requires from { from < network.now.nodes }
    requires few { from < 8 }
    requires to { to < network.now.nodes }
    requires apart { from ≢ to }
    requires first { 1 ≤ step }
    requires step { step ≤ network.now.horizon }
    requires short { step ≤ 48 }
    requires room { start + length (slots_from (arrival_of network.now) to step from step) ≤ length slots.old }
    ensures end { result ≡ start + length (slots_from (arrival_of network.now) to step from step) }
    ensures slots { take result slots.new ≡
        take start slots.old ++ slots_from (arrival_of network.now) to step from step }
{
    let mut end = start;
    for sent in 1..step {
        if network.arrival(from, to, sent) == step {
            slots[end] = Slot {
                from: from as u8,
                sent: sent as u8,
            };
            end += 1;
        }
    }
    end
}

/// The slots from one place on, before another.
pub(crate) fn part(slots: &[Slot], start: usize, end: usize) -> &[Slot]
    requires start { start ≤ end }
    requires end { end ≤ length slots.now }
    ensures { result.now ≡ slice_range slots.now start end }
{
    &slots[start..end]
}
