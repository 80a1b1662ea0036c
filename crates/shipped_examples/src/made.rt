//! Made settings: each number in them is a word of a stream, picked within its limits.

ghost use Rattle.std.specs.Prelude.{◌≡◌, ◌≤◌};
ghost use Rattle.lf_latency.specs.Links.{IsLinks};

use lf_faults::{Fault, FaultSet, FaultSpec};
use lf_latency::{Links, Network, is_pair, word};

/// The numbers of one part of a setting.
#[derive(Clone, Copy)]
pub(crate) struct Numbers {
    /// The setting.
    of: u64,
    part: u8,
}

/// A setting but for its machine.
#[derive(Clone, Copy)]
pub(crate) struct Made {
    pub(crate) network: Network,
    pub(crate) spec: FaultSpec,
    pub(crate) set: FaultSet,
}

impl Numbers {
    /// The numbers of a setting.
    pub(crate) fn new(of: u64) -> Numbers {
        Numbers { of, part: 0 }
    }

    /// Those of another part of it.
    pub(crate) fn part(self, part: u8) -> Numbers {
        Numbers { part, of: self.of }
    }

    /// A number from `least` to `most`, by its place.
    pub(crate) fn pick(self, place: u64, least: u32, most: u32) -> u32
        requires order { least ≤ most }
        requires small { most ≤ 48 }
        ensures at_least { least ≤ result }
        ensures at_most { result ≤ most }
    {
        least + word(&[self.part; 32], self.of, place) % (most - least + 1)
    }

    /// Whether a number up to `most` is 0.
    pub(crate) fn is_rare(self, place: u64, most: u32) -> bool
        requires { most ≤ 48 }
    {
        self.pick(place, 0, most) == 0
    }
}

/// The links, but for one that may be another.
fn changed(numbers: Numbers, nodes: u32, links: Links) -> Links
    requires few { nodes ≤ 8 }
    requires links { IsLinks nodes links }
    ensures { IsLinks nodes result }
{
    let from = numbers.pick(0, 0, 8);
    let to = numbers.pick(1, 0, 8);
    if is_pair(nodes, from, to) {
        let least = numbers.pick(2, 1, 4);
        let spread = numbers.pick(3, 0, 5);
        links.with(from, to, least, spread)
    } else {
        links
    }
}

/// Links that mostly take one step, and of which up to two are others.
fn links(numbers: Numbers, nodes: u32) -> Links
    requires many { 2 ≤ nodes }
    requires few { nodes ≤ 8 }
    ensures { IsLinks nodes result }
{
    let least = numbers.pick(0, 0, 4).saturating_sub(2).clamp(1, 16);
    let spread = numbers.pick(1, 0, 8).saturating_sub(4).min(15);
    let links = changed(numbers.part(2), nodes, Links::new(nodes, least, spread));
    changed(numbers.part(3), nodes, links)
}

/// A network of one of some seeds.
fn network(numbers: Numbers, nodes: u32, horizon: u32) -> Network
    requires many { 2 ≤ nodes }
    requires few { nodes ≤ 8 }
    requires first { 1 ≤ horizon }
    requires last { horizon ≤ 48 }
    ensures nodes { result.nodes ≡ nodes }
    ensures horizon { result.horizon ≡ horizon }
{
    let seed = [numbers.pick(2, 0, 48) as u8; 32];
    Network::new(seed, links(numbers, nodes), nodes, horizon)
}

/// A fault, more often of an early step, or none.
fn fault(numbers: Numbers, nodes: u32, horizon: u32) -> Option<Fault>
    requires many { 2 ≤ nodes }
    requires few { nodes ≤ 8 }
    requires first { 1 ≤ horizon }
    requires last { horizon ≤ 48 }
{
    let step = numbers.pick(0, 1, horizon).min(numbers.pick(1, 1, horizon));
    let node = numbers.pick(2, 0, nodes - 1);
    match numbers.pick(3, 0, 7) {
        0 => Fault::crash(node, step),
        1 => Fault::pause(node, step),
        2..5 => Fault::omit(node, numbers.pick(4, 0, nodes - 1), step),
        _ => None,
    }
}

/// The set with a fault more, where it is one.
fn with(set: FaultSet, fault: Option<Fault>) -> FaultSet {
    match fault {
        Some(fault) => set.insert(fault).unwrap_or(set),
        None => set,
    }
}

/// Up to six faults.
fn faults(numbers: Numbers, nodes: u32, horizon: u32) -> FaultSet
    requires many { 2 ≤ nodes }
    requires few { nodes ≤ 8 }
    requires first { 1 ≤ horizon }
    requires last { horizon ≤ 48 }
{
    let mut set = FaultSet::empty();
    for part in 4..10u8 {
        set = with(set, fault(numbers.part(part), nodes, horizon));
    }
    set
}

/// Bounds that allow whatever faults there are.
fn bounds(numbers: Numbers, nodes: u32, horizon: u32) -> Option<FaultSpec>
    requires { 1 ≤ horizon }
{
    let length = numbers.pick(3, 1, 4);
    FaultSpec::new(nodes, horizon, horizon - 1, nodes, 6)?.with_pauses(nodes, length)
}

/// The last step, mostly an early one.
fn horizon(numbers: Numbers) -> u32
    ensures first { 1 ≤ result }
    ensures last { result ≤ 48 }
{
    if numbers.is_rare(4, 9) {
        numbers.pick(5, 1, 48)
    } else {
        numbers.pick(5, 2, 16)
    }
}

/// What is made of the numbers for so many nodes.
pub(crate) fn make(numbers: Numbers, nodes: u32) -> Option<Made>
    requires many { 2 ≤ nodes }
    requires few { nodes ≤ 8 }
{
    let numbers = numbers.part(1);
    let horizon = horizon(numbers);
    let network = network(numbers, nodes, horizon);
    let set = faults(numbers, nodes, horizon);
    let spec = bounds(numbers, nodes, horizon)?;
    Some(Made { network, spec, set })
}
