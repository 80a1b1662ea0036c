//! What is read of the text of a scenario.

use crate::formula_rows::{is_formula, is_promised};
use crate::row_texts::SCENARIO;
use crate::rows::{number, words};
use lf_latency::Network;
use lf_outcome::Scenario;
use lf_scenario::{ScenarioError, read};
use std::alloc::{AllocError, Global};

/// Whether this is found in the text's scenario, which is the same as itself, or the text is refused like this: by the number of the
/// refusal and its key.
pub(crate) fn is_told(alloc: Global, text: &[u8], what: &str, expected: &str) -> bool {
    match read(alloc, text) {
        Ok(scenario) => {
            is_same(alloc, &scenario, text) && is_found(alloc, &scenario, what, expected)
        }
        Err(refusal) => is_refusal(&refusal, expected),
    }
}

/// Whether the text is of the same scenario.
fn is_same(alloc: Global, scenario: &Scenario, text: &[u8]) -> bool {
    match read(alloc, text) {
        Ok(other) => other.same(scenario) && scenario.same(&other),
        Err(_) => false,
    }
}

/// Whether the refusal has this number and this key.
fn is_refusal(refusal: &ScenarioError, expected: &str) -> bool {
    let (wanted, name) = words(expected);
    let key = match refusal.key() {
        Some(key) => key.name(),
        None => "",
    };
    number(wanted) == Some(refusal.number()) && key == name
}

/// Whether this is found in a scenario, where something is looked at: one of these, or whether it promises an outcome among so many
/// nodes by a step.
fn is_found(alloc: Global, scenario: &Scenario, what: &str, expected: &str) -> bool {
    let network = &scenario.setting().network;
    let (name, rest) = words(what);
    match name {
        "" => expected == "read",
        "same" => is_same(alloc, scenario, SCENARIO.as_bytes()),
        "another" => !is_same(alloc, scenario, SCENARIO.as_bytes()),
        "protocol" => is_text(protocol(alloc, scenario), expected),
        "numbers" => is_text(numbers(alloc, scenario), expected),
        "seed" => is_seed(network, expected),
        "delays" => are_delays(network, expected),
        "arrivals" => match number(rest) {
            Some(to) => are_arrivals(network, to, expected),
            None => false,
        },
        "formula" => is_formula(alloc, scenario.formula(), rest, expected),
        _ => is_promised(alloc, scenario.formula(), what) && expected == "promised",
    }
}

/// Whether the text was made, and is this one.
fn is_text(text: Result<String, AllocError>, expected: &str) -> bool {
    match text {
        Ok(text) => text.as_str() == expected,
        Err(_) => false,
    }
}

/// The scenario's protocol.
fn protocol(alloc: Global, scenario: &Scenario) -> Result<String, AllocError> {
    format!(in alloc; "{:?}", scenario.setting().machine.kind())
}

/// The scenario's protocol, its bounds, and how many sets the search keeps.
fn numbers(alloc: Global, scenario: &Scenario) -> Result<String, AllocError> {
    let setting = scenario.setting();
    let kind = setting.machine.kind();
    let bounds = setting.spec.bounds();
    format!(in alloc; "{kind:?}; {bounds:?}; {}", scenario.max_sets())
}

/// The item before the first `;`, and what is behind it.
fn item(text: &str) -> (&str, &str) {
    text.split_once(';').unwrap_or((text, ""))
}

/// Whether these are the bytes of the seed.
fn is_seed(network: &Network, expected: &str) -> bool {
    let mut rest = expected;
    for byte in network.seed() {
        let (wanted, behind) = item(rest);
        if number(wanted) != Some(byte as u32) {
            return false;
        }
        rest = behind;
    }
    rest.is_empty()
}

/// The numbers before and behind a sign.
fn pair(text: &str, sign: char) -> Option<(u32, u32)> {
    let (first, second) = text.split_once(sign)?;
    Some((number(first)?, number(second)?))
}

/// Whether these are for each link its ends, the fewest steps that a note takes, and how many more it may take.
fn are_delays(network: &Network, expected: &str) -> bool {
    let mut rest = expected;
    for from in 0..network.nodes() {
        for to in 0..network.nodes() {
            if from != to {
                let (link, behind) = item(rest);
                let (ends, delay) = words(link);
                let found = Some((network.least(from, to), network.spread(from, to)));
                if pair(ends, '>') != Some((from, to)) || pair(delay, '+') != found {
                    return false;
                }
                rest = behind;
            }
        }
    }
    rest.is_empty()
}

/// Whether these are, for each step that a note may be sent at from node 0 to another, the steps at which it arrives.
fn are_arrivals(network: &Network, to: u32, expected: &str) -> bool {
    if to == 0 || to >= network.nodes() {
        return false;
    }
    let mut rest = expected;
    for past in 0..network.horizon() {
        let (wanted, behind) = item(rest);
        if number(wanted) != Some(network.arrival(0, to, past + 1)) {
            return false;
        }
        rest = behind;
    }
    rest.is_empty()
}
