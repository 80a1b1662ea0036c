//! What the protocols have, as they and their outcomes tell it themselves.

use crate::hint::{LONGEST_STEP, Words};
use lf_outcome::{Outcome, outcome_named};
use lf_protocols::{Fact, Protocol};

/// All outcomes.
const OUTCOMES: [Outcome; 5] = [
    Outcome::Delivered,
    Outcome::Agreement,
    Outcome::Unblocked,
    Outcome::OnePrimary,
    Outcome::Durable,
];

/// All facts.
const FACTS: [Fact; 16] = [
    Fact::Has,
    Fact::Lacks,
    Fact::Committed,
    Fact::NotCommitted,
    Fact::Aborted,
    Fact::NotAborted,
    Fact::Blocked,
    Fact::Free,
    Fact::Holds,
    Fact::Empty,
    Fact::Done,
    Fact::NotDone,
    Fact::Primary,
    Fact::Backup,
    Fact::Claimed,
    Fact::Unclaimed,
];

/// A protocol of this name. Its outcomes and facts are those of every protocol of the name.
pub(crate) fn protocol_named(name: &str) -> Option<Protocol> {
    match name {
        "retry" => Protocol::retry(2, 1),
        "redundant" => Protocol::redundant(2, 1),
        "two_phase" => Protocol::two_phase(2, 1, [true; 8]),
        "three_phase" => Protocol::three_phase(2, 1, [true; 8]),
        "primary_backup" => Protocol::primary_backup(3, 1),
        _ => None,
    }
}

/// The outcomes of the protocol of this name, in words.
pub(crate) fn outcome_words(name: &str) -> Words {
    let Some(protocol) = protocol_named(name) else {
        return Words::of("the name of an outcome of the protocol");
    };
    let mut words = Words::of("");
    for outcome in OUTCOMES {
        let word = outcome.word();
        if outcome_named(&protocol, word).is_some() {
            let or = if words.as_str().is_empty() {
                ""
            } else {
                " or "
            };
            words = words.and(format_args!("{or}\"{word}\""), LONGEST_STEP);
        }
    }
    words
}

/// The facts of a protocol, in words.
pub(crate) fn fact_words(protocol: &Protocol) -> Words {
    let mut words = Words::of("a fact of the protocol");
    for fact in FACTS {
        let word = fact.word();
        if protocol.fact(word).is_some() {
            words = words.and(format_args!(", \"{word}\""), LONGEST_STEP);
        }
    }
    words
}
