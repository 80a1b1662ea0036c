//! The states that the texts of examples stand for.

use crate::texts::{number, words};
use lf_protocols::{Holding, Nodes, Phase, Progress, Relay, Replica, State};

/// The state of a protocol of this name.
pub(crate) fn state(name: &str, text: &str) -> Option<State> {
    match name {
        "retry" => holding(text),
        "redundant" => relay(text),
        "two_phase" => Some(State::TwoPhase(progress(text)?)),
        "three_phase" => Some(State::ThreePhase(progress(text)?)),
        "primary_backup" => replica(text),
        _ => None,
    }
}

/// `has` or `lacks`.
fn holding(text: &str) -> Option<State> {
    match text {
        "has" => Some(State::Retry(Holding::Has)),
        "lacks" => Some(State::Retry(Holding::Lacks)),
        _ => None,
    }
}

/// `has` with the number of steps at which it has been sent, or `lacks`.
fn relay(text: &str) -> Option<State> {
    let (word, rest) = words(text);
    match (word, number(rest)) {
        ("has", Some(sent)) => Some(State::Redundant(Relay::Has { sent })),
        ("lacks", _) => Some(State::Redundant(Relay::Lacks)),
        _ => None,
    }
}

/// A phase, `@` and a step.
fn progress(text: &str) -> Option<Progress> {
    let (name, since) = text.split_once('@')?;
    match (phase(name.trim()), number(since)) {
        (Some(phase), Some(since)) => Some(Progress { phase, since }),
        _ => None,
    }
}

/// The phase of a name, and of what stands behind it.
fn phase(text: &str) -> Option<Phase> {
    let (name, rest) = words(text);
    match name {
        "idle" => Some(Phase::Idle),
        "prepared" => Some(Phase::Prepared),
        "precommitted" => Some(Phase::Precommitted),
        "committed" => Some(Phase::Committed),
        "aborted" => Some(Phase::Aborted),
        _ => counting(name, rest),
    }
}

/// A phase that counts. Behind `voting` the nodes whose yes is noted, and `refused` where a no is. Behind `precommitting` the nodes
/// whose ack is noted.
fn counting(name: &str, rest: &str) -> Option<Phase> {
    let (numbers, refusal) = words(rest);
    match (name, nodes(numbers), first_of(refusal, "refused", "")) {
        ("voting", Some(agreed), Some(refused)) => Some(Phase::Voting { agreed, refused }),
        ("precommitting", Some(acked), _) => Some(Phase::Precommitting { acked }),
        _ => None,
    }
}

/// The nodes of these numbers.
pub(crate) fn nodes(text: &str) -> Option<Nodes> {
    let mut nodes = Nodes::none();
    if text == "-" {
        return Some(nodes);
    }
    for item in text.split(',') {
        nodes.insert(number(item)?);
    }
    Some(nodes)
}

/// Four words, `@` and a step.
fn replica(text: &str) -> Option<State> {
    let (head, since) = text.split_once('@')?;
    let (holds, rest) = words(head.trim());
    let (done, rest) = words(rest);
    let (primary, claimed) = words(rest);
    match (
        first_of(holds, "holds", "empty"),
        first_of(done, "done", "not_done"),
        first_of(primary, "primary", "backup"),
        first_of(claimed, "claimed", "unclaimed"),
        number(since),
    ) {
        (Some(holds), Some(done), Some(primary), Some(claimed), Some(since)) => {
            Some(State::PrimaryBackup(Replica {
                holds,
                done,
                primary,
                claimed,
                since,
            }))
        }
        _ => None,
    }
}

/// Whether a word is the first of two. None where it is neither.
pub(crate) fn first_of(word: &str, first: &str, second: &str) -> Option<bool> {
    if word == first {
        Some(true)
    } else if word == second {
        Some(false)
    } else {
        None
    }
}
