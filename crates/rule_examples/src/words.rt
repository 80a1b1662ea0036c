//! The words of states, facts and notes.

use crate::states::state;
use crate::texts::{agrees, columns, note, number, protocol, words};
use lf_protocols::{Protocol, State};
use lf_sim::Machine;
use std::process::Abort;

/// Whether a word is one of a list.
pub(crate) fn is_among(word: &str, list: &str) -> bool {
    for other in list.split(' ') {
        if other == word {
            return true;
        }
    }
    false
}

/// Whether the machine has a fact of this word, and the state shows it or not.
fn shows(machine: &Protocol, state: State, word: &str, is_shown: bool) -> bool {
    let _nodes = machine.nodes();
    match machine.fact(word) {
        Some(fact) => fact.word() == word && machine.shows(0, state, fact) == is_shown,
        None => false,
    }
}

/// Whether of the facts of the protocol that the list names the state shows these alone.
fn shows_these(machine: &Protocol, state: State, facts: &str, shown: &str) -> bool {
    for word in facts.split(' ') {
        if !shows(machine, state, word, is_among(word, shown)) {
            return false;
        }
    }
    true
}

/// Whether the state of the row has its text, and shows its facts alone.
fn is_in_words(machine: &str, facts: &str, row: &str) -> bool {
    let (states, _) = words(machine);
    let (before, rest) = columns(row);
    let (text, shown) = columns(rest);
    match (protocol(machine), state(states, before)) {
        (Some(machine), Some(state)) => {
            state.text() == text && shows_these(&machine, state, facts, shown)
        }
        _ => false,
    }
}

/// Whether a machine has as many nodes as its settings say.
fn has_its_nodes(machine: &str) -> bool {
    let (_, settings) = words(machine);
    let (nodes, _) = words(settings);
    match protocol(machine) {
        Some(machine) => number(nodes) == Some(machine.nodes()),
        None => false,
    }
}

/// For each line of the table a state, its text, and which of the protocol's facts it shows.
fn are_words(rt: &impl Abort, machine: &str, facts: &str, table: &str) {
    agrees(rt, has_its_nodes(machine), machine);
    for row in table.lines() {
        agrees(rt, is_in_words(machine, facts, row), row);
    }
}

/// Whether a word is no fact of a protocol.
fn is_no_fact(machine: &str, word: &str) -> bool {
    match protocol(machine) {
        Some(machine) => machine.fact(word).is_none(),
        None => false,
    }
}

/// None of the words, which `|` parts, is a fact of the protocol.
fn are_no_facts(rt: &impl Abort, machine: &str, list: &str) {
    for word in list.split('|') {
        agrees(rt, is_no_fact(machine, word), word);
    }
}

#[test]
fn words_of_deliveries(rt: HostRuntime) {
    let held = "has|has|has\nlacks|lacks|lacks";
    are_words(&rt, "retry 2 1", "has lacks", held);
    let relayed = "has 0|has|has\nhas 1|has|has\nlacks|lacks|lacks";
    are_words(&rt, "redundant 2 1", "has lacks", relayed);
    are_no_facts(&rt, "retry 2 1", "|Has|hass|committed");
    are_no_facts(&rt, "redundant 2 1", "|Has|hass|committed");
}

/// The facts of a commit.
const FACTS_OF_COMMITS: &str = "committed not_committed aborted not_aborted blocked free";

/// The phases.
const PHASES: &str = concat!(
    "idle @0|idle|not_committed not_aborted free\n",
    "voting - @0|voting|not_committed not_aborted free\n",
    "prepared @0|prepared|not_committed not_aborted blocked\n",
    "precommitting - @0|precommitting|not_committed not_aborted free\n",
    "precommitted @0|precommitted|not_committed not_aborted free\n",
    "committed @0|committed|committed not_aborted free\n",
    "aborted @0|aborted|not_committed aborted free\n",
);

#[test]
fn words_of_commits(rt: HostRuntime) {
    are_words(&rt, "two_phase 2 1", FACTS_OF_COMMITS, PHASES);
    are_words(&rt, "three_phase 2 1", FACTS_OF_COMMITS, PHASES);
    let others = "|has|holds|prepared|Committed|not committed";
    are_no_facts(&rt, "two_phase 2 1", others);
    are_no_facts(&rt, "three_phase 2 1", others);
}

/// The facts of a primary and a backup.
const FACTS_OF_REPLICAS: &str = "holds empty done not_done primary backup claimed unclaimed";

/// What a replica may know.
const REPLICAS: &str = concat!(
    "empty not_done backup unclaimed @0|empty not_done backup unclaimed|empty not_done backup unclaimed\n",
    "holds not_done backup unclaimed @0|holds not_done backup unclaimed|holds not_done backup unclaimed\n",
    "empty done backup unclaimed @0|empty done backup unclaimed|empty done backup unclaimed\n",
    "empty not_done primary unclaimed @0|empty not_done primary unclaimed|empty not_done primary unclaimed\n",
    "empty not_done backup claimed @0|empty not_done backup claimed|empty not_done backup claimed\n",
    "holds done primary claimed @9|holds done primary claimed|holds done primary claimed\n",
    "empty done primary claimed @9|empty done primary claimed|empty done primary claimed\n",
    "holds not_done primary claimed @9|holds not_done primary claimed|holds not_done primary claimed\n",
);

#[test]
fn words_of_replicas(rt: HostRuntime) {
    are_words(&rt, "primary_backup 3 1", FACTS_OF_REPLICAS, REPLICAS);
    are_no_facts(&rt, "primary_backup 3 1", "has|free|hold|not_holds");
}

/// Every note's word.
const NOTES: &str = "data prepare yes no precommit ack commit abort write repl done beat claim";

/// Whether the note of a word has that word.
fn is_word_of_its_note(word: &str) -> bool {
    match note(word) {
        Some(note) => note.word() == word,
        None => false,
    }
}

#[test]
fn words_of_notes(rt: HostRuntime) {
    for word in NOTES.split(' ') {
        agrees(&rt, is_word_of_its_note(word), word);
    }
}
