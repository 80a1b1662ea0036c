//! What the texts of examples stand for.

use lf_faults::FaultSpec;
use lf_latency::{Links, Network};
use lf_outcome::{Outcome, Reach};
use lf_protocols::Protocol;
use lf_sim::{Machine, Setting};
use std::process::Abort;

/// What is found at the row is what it says. Each comparison ends here: an assertion is dear to prove.
pub(crate) fn agrees(rt: &impl Abort, truth: bool, row: &str) {
    assert!(rt; truth, "at {row}");
}

/// The columns before and behind the first `|`.
pub(crate) fn columns(line: &str) -> (&str, &str) {
    line.split_once('|').unwrap_or((line, ""))
}

/// The words before and behind the first blank.
pub(crate) fn words(text: &str) -> (&str, &str) {
    text.split_once(' ').unwrap_or((text, ""))
}

/// The number that a word writes.
pub(crate) fn number(word: &str) -> Option<u32> {
    word.parse::<u32>().ok()
}

/// Puts the numbers that the words of a text write, at most nine, in place of the first of a list, and tells how many they are.
pub(crate) fn numbers(text: &str, list: &mut [u32; 9]) -> Option<usize> {
    let mut count = 0_usize;
    if text.is_empty() {
        return Some(count);
    }
    for word in text.split(' ') {
        *list.get_mut(count)? = number(word)?;
        count = count.saturating_add(1);
    }
    Some(count)
}

/// The reach of these last steps.
pub(crate) fn reach(text: &str) -> Option<Reach> {
    let mut list = [0; 9];
    let count = numbers(text, &mut list)?;
    Reach::new(list.get(..count)?)
}

/// The protocol of a name, a number of nodes, tries or a patience, and where node 1 votes no, `yn`.
pub(crate) fn protocol(text: &str) -> Option<Protocol> {
    let (name, rest) = words(text);
    let (nodes, rest) = words(rest);
    let (limit, letters) = words(rest);
    let nodes = number(nodes)?;
    let limit = number(limit)?;
    let votes = [true, letters != "yn", true, true, true, true, true, true];
    match name {
        "retry" => Protocol::retry(nodes, limit),
        "redundant" => Protocol::redundant(nodes, limit),
        "two_phase" => Protocol::two_phase(nodes, limit, votes),
        "three_phase" => Protocol::three_phase(nodes, limit, votes),
        "primary_backup" => Protocol::primary_backup(nodes, limit),
        _ => None,
    }
}

/// The outcome of a word.
pub(crate) fn outcome(word: &str) -> Option<Outcome> {
    match word {
        "delivered" => Some(Outcome::Delivered),
        "agreement" => Some(Outcome::Agreement),
        "unblocked" => Some(Outcome::Unblocked),
        "one_primary" => Some(Outcome::OnePrimary),
        "durable" => Some(Outcome::Durable),
        _ => None,
    }
}

/// The setting of a protocol and nine numbers: the last step, the last step of an omission, the greatest numbers of crashes
/// and of faults, the greatest number of pauses and their length, and of the network the fewest steps that a note takes, how
/// many more it may take, and the byte of the seed.
pub(crate) fn setting(text: &str, bounds: &str) -> Option<Setting<Protocol>> {
    let protocol = protocol(text)?;
    let mut list = [0; 9];
    if numbers(bounds, &mut list)? != 9 {
        return None;
    }
    let [
        horizon,
        last_omission,
        crashes,
        budget,
        pauses,
        pause_length,
        least,
        spread,
        seed,
    ] = list;
    let nodes = protocol.nodes();
    let bounds = FaultSpec::new(nodes, horizon, last_omission, crashes, budget)?;
    let bounds = bounds.with_pauses(pauses, pause_length)?;
    let links = Links::new(nodes, least.clamp(1, 16), spread.min(15));
    let seed = [seed.min(255) as u8; 32];
    let network = Network::new(seed, links, nodes, bounds.horizon());
    Setting::new(protocol, network, bounds)
}
