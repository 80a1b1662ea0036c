//! What is wrong with words that are to say when late notes arrive.

use crate::faults::bar_of_point;
use crate::hint::{Hint, Words, in_quotes, said};
use crate::misspelt::first_number;
use lf_delays::Delay;
use lf_faults::{Slot, read_slot, read_step};
use lf_latency::{Network, is_pair};

/// How delays are joined.
const JOINED: &str = "delays are joined by single commas, no blanks";

/// Why words name no delays of a network's notes: the first word that names none, or one of a slot that a word before it names.
pub(crate) fn delays_hint(network: &Network, words: &str) -> Option<Hint> {
    if words.is_empty() {
        return None;
    }
    for (i, word) in words.split(',').enumerate() {
        if word.is_empty() {
            return Some(said("a comma too many", JOINED));
        }
        if let Some(bar) = bar_of(network, words, i, word) {
            return Some(said(in_quotes(word).as_str(), bar.as_str()));
        }
    }
    None
}

/// What bars the word at a place among words.
fn bar_of(network: &Network, words: &str, place: usize, word: &str) -> Option<Words> {
    let Some(delay) = read_delay(word) else {
        return Some(misspelt_delay(network, word));
    };
    if is_named(words, place, delay.slot) {
        return Some(Words::of("its slot is named twice"));
    }
    bar_of_delay(network, delay)
}

/// The delay that a word spells. None where it spells none.
fn read_delay(word: &str) -> Option<Delay> {
    let (slot, at) = word.rsplit_once(' ')?;
    Some(Delay {
        slot: read_slot(slot.as_bytes())?,
        at: read_step(at.as_bytes())?,
    })
}

/// Whether one of the first `count` words names a delay of this slot.
fn is_named(words: &str, count: usize, slot: Slot) -> bool {
    for word in words.split(',').take(count) {
        if read_delay(word).is_some_and(|delay: Delay| delay.slot == slot) {
            return true;
        }
    }
    false
}

/// What bars a delay, whatever other words name: its first number that is out of range.
fn bar_of_delay(network: &Network, delay: Delay) -> Option<Words> {
    let Slot { from, to, step } = delay.slot;
    if from == to {
        return Some(Words::of("no note goes from a node to itself"));
    }
    bar_of_point(network.nodes(), network.horizon(), from.max(to), step).or(bar_of_arrival(
        network, delay,
    ))
}

/// What bars the step at which a note arrives.
fn bar_of_arrival(network: &Network, delay: Delay) -> Option<Words> {
    let Slot { from, to, step } = delay.slot;
    if !is_pair(network.nodes(), from, to) {
        return None;
    }
    let first = step.saturating_add(network.least(from, to));
    let last = first.saturating_add(network.spread(from, to));
    if first <= delay.at && delay.at <= last {
        None
    } else if first == last {
        Some(Words::of(format_args!("the note arrives at step {first}")))
    } else {
        Some(Words::of(format_args!("the note arrives at one of the steps {first} to {last}")))
    }
}

/// Why a word spells no delay: a blank before or behind it, a number that is out of range, or another spelling.
fn misspelt_delay(network: &Network, word: &str) -> Words {
    if word.trim().len() < word.len() {
        return Words::of(JOINED);
    }
    if word == "-" {
        return Words::of("no delay at all is written as ''");
    }
    let Some(delay) = meant(word) else {
        return Words::of("not a delay; write 0>1 @9 13");
    };
    let spelling = spelling(delay);
    if spelling.as_str() == word {
        bar_of_delay(network, delay).unwrap_or(Words::of("not a delay"))
    } else {
        Words::of(format_args!("not a delay; did you mean {}?", spelling.as_str()))
    }
}

/// The text of a delay, in range or not.
pub(crate) fn spelling(delay: Delay) -> Words {
    let Slot { from, to, step } = delay.slot;
    Words::of(format_args!("{from}>{to} @{step} {}", delay.at))
}

/// The delay that a word may mean, in range or not: that of its numbers, where there are four.
fn meant(word: &str) -> Option<Delay> {
    let (from, rest) = first_number(word)?;
    let (to, rest) = first_number(rest)?;
    let (step, rest) = first_number(rest)?;
    let (at, rest) = first_number(rest)?;
    match first_number(rest) {
        None => Some(Delay {
            slot: Slot { from, to, step },
            at,
        }),
        Some(_) => None,
    }
}
