ghost use Rattle.std.specs.Prelude.{◌≡◌, ℕ, ◌+◌, ◌<◌, ◌≤◌, IsTrue, ◌↔◌, None, Some};
ghost use Rattle.lf_latency.specs.Links.{IsLinks, IsPair, least_of, spread_of};
ghost use Rattle.lf_latency.specs.Arrivals.{IsTiming, IsSlot, IsArrivals, arrival_of, seeded, choosing};
ghost use Rattle.lf_latency.specs.Table.{entry_of, table_of};

use crate::arrivals::{Arrivals, NODES, PLACES, STEPS};
use crate::links::{Links, is_pair, link};
use crate::words::word;
use std::marker::Model;

/// What decides when notes arrive.
#[derive(Clone, Copy, Debug, PartialEq, Eq)]
pub struct Timing {
    /// The key of the stream cipher that picks each arrival.
    pub seed: [u8; 32],
    /// The delays of the links.
    pub links: Links,
    /// How many nodes there are, 2 to 8.
    pub nodes: u32,
    /// The last step, 1 to 48.
    pub horizon: u32,
    /// The arrivals, where they are chosen: then the seed plays no part.
    pub chosen: Option<Arrivals>,
}

/// The links of a network, which say when each note arrives.
///
/// Contracts see it as its `Timing`. It keeps the arrivals at all slots, so asking for one is a look.
#[derive(Clone, Copy, Debug, PartialEq, Eq)]
pub struct Network {
    timing: Timing,
    // By the places of slots. 0 where nothing is sent.
    arrivals: [u8; PLACES],
}

impl Model for Network {
    ghost use Rattle.lf_latency.specs.declared.network.Timing.{Timing};

    ghost Value = { Timing };

    ghost use Rattle.lf_latency.specs.Table.{IsTable, table_of};

    ghost view = { λ n. n.timing };

    ghost invariant = { λ n. IsTable n.timing n.arrivals };

    ghost inverse = { λ timing. record { timing = timing; arrivals = table_of timing } };
}

impl Network {
    /// The network of a seed, its links, 2 to 8 nodes and a last step, 1 to 48.
    pub fn new(seed: [u8; 32], links: Links, nodes: u32, horizon: u32) -> Network
        requires nodes_at_least { 2 ≤ nodes }
        requires nodes_at_most { nodes ≤ 8 }
        requires horizon_at_least { 1 ≤ horizon }
        requires horizon_at_most { horizon ≤ 48 }
        requires form { IsLinks nodes links }
        ensures { result ≡ record { seed = seed; links = links; nodes = nodes; horizon = horizon; chosen = None } }
    {
        let timing = Timing {
            seed,
            links,
            nodes,
            horizon,
            chosen: None,
        };
        let arrivals = table(&timing);
        Network { timing, arrivals }
    }

    /// The same network, but that notes arrive as chosen, whatever the seed says.
    pub fn choosing(&self, arrivals: &Arrivals) -> Network
        requires { IsArrivals self.now arrivals.now }
        ensures { result ≡ choosing self.now arrivals.now }
    {
        let timing = Timing {
            seed: self.timing.seed,
            links: self.timing.links,
            nodes: self.timing.nodes,
            horizon: self.timing.horizon,
            chosen: Some(*arrivals),
        };
        let arrivals = table(&timing);
        Network { timing, arrivals }
    }

    /// The step at which a note that `from` sends to `to` at `step` arrives.
    pub fn arrival(&self, from: u32, to: u32, step: u32) -> u32
        requires { IsSlot self.now from to step }
        ensures value { result ≡ arrival_of self.now from to step }
        ensures later { step < result }
        ensures late { step + least_of self.now.links from to ≤ result }
        ensures soon { result ≤ step + least_of self.now.links from to + spread_of self.now.links from to }
        ensures within { result ≤ step + 31 }
        ensures small { result < 80 }
    {
        let arrivals = &self.arrivals;
        u32::from(arrivals[((from * NODES + to) * STEPS + step - 1) as usize])
    }

    /// The fewest steps that a note takes from one node to another.
    pub fn least(&self, from: u32, to: u32) -> u32
        requires { IsPair self.now.nodes from to }
        ensures value { result ≡ least_of self.now.links from to }
        ensures at_least { 1 ≤ result }
        ensures at_most { result ≤ 16 }
    {
        let timing = &self.timing;
        timing.links.least[from as usize][to as usize]
    }

    /// How many steps more a note may take from one node to another.
    pub fn spread(&self, from: u32, to: u32) -> u32
        requires { IsPair self.now.nodes from to }
        ensures value { result ≡ spread_of self.now.links from to }
        ensures at_most { result ≤ 15 }
    {
        let timing = &self.timing;
        timing.links.spread[from as usize][to as usize]
    }

    /// How many nodes there are.
    pub fn nodes(&self) -> u32
        ensures value { result ≡ self.now.nodes }
        ensures at_least { 2 ≤ result }
        ensures at_most { result ≤ 8 }
    {
        self.timing.nodes
    }

    /// The last step.
    pub fn horizon(&self) -> u32
        ensures value { result ≡ self.now.horizon }
        ensures at_least { 1 ≤ result }
        ensures at_most { result ≤ 48 }
    {
        self.timing.horizon
    }

    /// The seed that picks the arrivals.
    pub fn seed(&self) -> [u8; 32]
        ensures { result ≡ self.now.seed }
    {
        self.timing.seed
    }

    /// The delays of the links.
    pub fn links(&self) -> Links
        ensures value { result ≡ self.now.links }
        ensures form { IsLinks self.now.nodes result }
    {
        self.timing.links
    }

    /// Whether two networks are equal: of the same seed, links, nodes, last step and choice of arrivals.
    pub fn same(&self, other: &Network) -> bool
        ensures { IsTrue result ↔ (self.now ≡ other.now) }
    {
        let one = &self.timing;
        let two = &other.timing;
        one.seed == two.seed
            && one.nodes == two.nodes
            && one.horizon == two.horizon
            && one.links.same(&two.links)
            && same_choice(&one.chosen, &two.chosen)
    }
}

/// Whether the same arrivals are chosen, or none by both.
fn same_choice(one: &Option<Arrivals>, other: &Option<Arrivals>) -> bool
    ensures { IsTrue result ↔ (one.now ≡ other.now) }
{
    match (one, other) {
        (None, None) => true,
        (Some(one), Some(other)) => one.same(other),
        _ => false,
    }
}

/// The law that each network is within the limits.
pub fn keeps_limits(network: &Network)
    ensures { IsTiming network.now }
{
    let _timing = &network.timing;
}

/// The law that a note arrives no sooner than the least delay of its link, and so after it is sent.
pub fn arrives_late(network: &Network)
    ensures late { (n m t : ℕ) → IsSlot network.now n m t →
        t + least_of network.now.links n m ≤ arrival_of network.now n m t }
    ensures later { (n m t : ℕ) → IsSlot network.now n m t → t < arrival_of network.now n m t }
    ensures soon { (n m t : ℕ) → IsSlot network.now n m t →
        arrival_of network.now n m t ≤ t + least_of network.now.links n m + spread_of network.now.links n m }
    ensures within { (n m t : ℕ) → IsSlot network.now n m t → arrival_of network.now n m t ≤ t + 31 }
{
    let _timing = &network.timing;
}

/// The arrivals at all slots.
fn table(timing: &Timing) -> [u8; PLACES]
    requires { IsTiming timing.now }
    ensures { result ≡ table_of timing.now }
{
    let mut arrivals = [0; PLACES];
    for k in 0..PLACES as u32 {
        let from = k / (NODES * STEPS);
        let to = k / STEPS % NODES;
        arrivals[k as usize] = entry(timing, from, to, k % STEPS + 1);
    }
    arrivals
}

/// The arrival at a slot, and 0 where nothing is sent.
fn entry(timing: &Timing, from: u32, to: u32, step: u32) -> u8
    requires timing { IsTiming timing.now }
    requires first { 1 ≤ step }
    requires last { step ≤ 48 }
    ensures { result ≡ entry_of timing.now (arrival_of timing.now) from to step }
{
    if !is_pair(timing.nodes, from, to) || step > timing.horizon {
        return 0;
    }
    match &timing.chosen {
        Some(arrivals) => arrivals.arrival(from, to, step) as u8,
        None => picked(timing, from, to, step),
    }
}

/// The arrival that the seed picks at a slot.
fn picked(timing: &Timing, from: u32, to: u32, step: u32) -> u8
    requires timing { IsTiming timing.now }
    requires slot { IsSlot timing.now from to step }
    ensures { result ≡ seeded timing.now from to step }
{
    let stream = link(timing.nodes, from, to);
    let picked = word(&timing.seed, stream, u64::from(step - 1));
    let least = timing.links.least[from as usize][to as usize];
    let spread = timing.links.spread[from as usize][to as usize];
    (step + least + picked % (spread + 1)) as u8
}
