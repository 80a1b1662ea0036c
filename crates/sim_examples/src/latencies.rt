ghost use Rattle.std.specs.Prelude.{◌≡◌, ◌≤◌};

use crate::rows::{agrees, agrees_at};
use lf_latency::{Links, Network, arrives_late, is_pair, keeps_limits, link, word};
use rand_chacha::ChaCha20Rng;
use rand_core::SeedableRng;
use rand_core::utils::NextWord;

/// The bytes 0 to 31.
const RISING: [u8; 32] = [
    0, 1, 2, 3, 4, 5, 6, 7, 8, 9, 10, 11, 12, 13, 14, 15, 16, 17, 18, 19, 20, 21, 22, 23, 24, 25,
    26, 27, 28, 29, 30, 31,
];

/// Places of the published stream of zeros, and their words.
const ZEROS: [(u64, u32); 6] = [
    (0, 0xade0b876),
    (1, 0x903df1a0),
    (2, 0xe56a5d40),
    (3, 0x28bd8653),
    (15, 0x8665eeb2),
    (16, 0xbee7079f),
];

#[test]
fn the_words_of_zeros_are_the_published_stream(rt: HostRuntime) {
    for (place, expected) in ZEROS {
        agrees_at(&rt, word(&[0; 32], 0, place) == expected, &[place]);
    }
}

#[test]
fn words_in_order_are_those_at_their_places(rt: HostRuntime) {
    let mut rng = ChaCha20Rng::from_seed([0; 32]);
    for place in 0..40 {
        let same = word(&[0; 32], 0, place) == rng.next_word();
        agrees_at(&rt, same, &[place]);
    }
}

/// Streams of rising bytes, places in them, and their words.
const RISING_WORDS: [(u64, u64, u32); 18] = [
    (0, 0, 0x7d2bfd39),
    (0, 15, 0x0c415b48),
    (0, 16, 0x3142b818),
    (0, 47, 0x239dc561),
    (1, 0, 0x02f1a42f),
    (1, 15, 0x09fa046f),
    (1, 16, 0x5ff3579f),
    (1, 47, 0xe87c0962),
    (5, 0, 0x4a19004f),
    (5, 15, 0x0ca890ac),
    (5, 16, 0x0a960823),
    (5, 47, 0xb12902ae),
    (55, 0, 0xa918aa76),
    (55, 15, 0x359ca65d),
    (55, 16, 0xbfb1fed4),
    (55, 47, 0x6db680e6),
    (u64::MAX, u64::MAX, 0xa5d48aac),
    (1 << 32, 1 << 36, 0x6e5a362e),
];

#[test]
fn the_words_of_rising_bytes_are_those_of_another_program(rt: HostRuntime) {
    for (stream, place, expected) in RISING_WORDS {
        let same = word(&RISING, stream, place) == expected;
        agrees_at(&rt, same, &[stream, place]);
    }
}

/// Whether what the first of two nodes sends the other at the steps 1 to 4 arrives at these, with a spread of at most 15.
fn arrive_at(spread: u32, expected: [u32; 4]) -> bool {
    let network = Network::new([0; 32], Links::new(2, 1, spread.min(15)), 2, 4);
    let mut same = true;
    for step in 1..5u32 {
        same = same && network.arrival(0, 1, step) == expected[step as usize - 1];
    }
    same
}

#[test]
fn two_nodes_with_a_spread_of_three_and_of_one(rt: HostRuntime) {
    agrees(&rt, arrive_at(3, [4, 3, 4, 8]), "a spread of three");
    agrees(&rt, arrive_at(1, [2, 3, 4, 6]), "a spread of one");
}

#[test]
fn links_are_numbered_by_sender_and_then_by_receiver(rt: HostRuntime) {
    let numbers = [
        link(3, 0, 1),
        link(3, 0, 2),
        link(3, 1, 0),
        link(3, 1, 2),
        link(3, 2, 0),
        link(3, 2, 1),
    ];
    agrees(&rt, numbers == [0, 1, 2, 3, 4, 5], "three nodes");
}

/// Four nodes, whose links differ.
fn mixed() -> Network
    ensures nodes { result.nodes ≡ 4 }
    ensures horizon { result.horizon ≡ 48 }
{
    let links = Links::new(4, 2, 5)
        .with(0, 3, 16, 15)
        .with(3, 0, 1, 0)
        .with(2, 1, 7, 2);
    Network::new(RISING, links, 4, 48)
}

/// The least delay and the spread of a link of it.
fn delays(from: u32, to: u32) -> (u32, u32) {
    match (from, to) {
        (0, 3) => (16, 15),
        (3, 0) => (1, 0),
        (2, 1) => (7, 2),
        _ => (2, 5),
    }
}

/// When a note of the link of this number, with these delays, arrives by the rule.
fn by_rule(number: u32, step: u32, least: u32, spread: u32) -> u64 {
    let picked = word(
        &RISING,
        u64::from(number),
        u64::from(step.saturating_sub(1)),
    );
    u64::from(step) + u64::from(least) + u64::from(picked) % (u64::from(spread) + 1)
}

/// Whether a link of four nodes, if it is one, has its delays, and its note of a step arrives by the rule.
fn slot_is_the_rule(network: &Network, from: u32, to: u32, step: u32) -> bool
    requires nodes { network.now.nodes ≡ 4 }
    requires horizon { network.now.horizon ≡ 48 }
    requires first { 1 ≤ step }
    requires last { step ≤ 48 }
{
    if !is_pair(4, from, to) {
        return true;
    }
    let (least, spread) = delays(from, to);
    let number = from * 3 + if to < from { to } else { to - 1 };
    network.least(from, to) == least
        && network.spread(from, to) == spread
        && u64::from(network.arrival(from, to, step)) == by_rule(number, step, least, spread)
}

#[test]
fn arrivals_are_the_rule_at_each_slot(rt: HostRuntime) {
    let network = mixed();
    for from in 0..4 {
        for to in 0..4 {
            for step in 1..49 {
                let is_rule = slot_is_the_rule(&network, from, to, step);
                let slot = [u64::from(from), u64::from(to), u64::from(step)];
                agrees_at(&rt, is_rule, &slot);
            }
        }
    }
}

/// Whether a network has the parts of the mixed one.
fn has_parts(network: &Network) -> bool {
    let Links { least, spread } = network.links();
    network.nodes() == 4
        && network.horizon() == 48
        && network.seed() == RISING
        && least[0][3] == 16
        && spread[0][3] == 15
        && least[0][0] == 1
        && spread[7][7] == 0
}

/// Whether a network is the mixed one, and not one with the same links all over.
fn is_told_apart(network: &Network) -> bool {
    let plain = Network::new(RISING, Links::new(4, 2, 5), 4, 48);
    let again = mixed();
    *network == again && network.same(&again) && !network.same(&plain)
}

#[test]
fn a_network_is_what_it_was_made_of(rt: HostRuntime) {
    let network = mixed();
    agrees(&rt, has_parts(&network), "its parts");
    agrees(&rt, is_told_apart(&network), "another network");
    arrives_late(&network);
    keeps_limits(&network);
}
