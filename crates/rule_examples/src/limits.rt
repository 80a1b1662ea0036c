//! The limits of the protocols' settings.

use crate::states::first_of;
use crate::texts::{agrees, columns, kind, protocol_of};
use lf_protocols::Kind;
use std::process::Abort;

/// What a kind of protocol has: a number for which it is, how many nodes, its tries or its patience, and its votes.
fn settings_of(kind: &Kind) -> (u32, u32, u32, [bool; 8]) {
    match kind {
        Kind::Retry { nodes, tries } => (0, *nodes, *tries, [true; 8]),
        Kind::Redundant { nodes, tries } => (1, *nodes, *tries, [true; 8]),
        Kind::TwoPhase {
            nodes,
            patience,
            votes,
        } => (2, *nodes, *patience, *votes),
        Kind::ThreePhase {
            nodes,
            patience,
            votes,
        } => (3, *nodes, *patience, *votes),
        Kind::PrimaryBackup { nodes, patience } => (4, *nodes, *patience, [true; 8]),
        Kind::Ruled(_) => (5, 0, 0, [true; 8]),
    }
}

/// Whether two kinds of shipped protocols are the same, with the same settings.
fn is_same(one: &Kind, other: &Kind) -> bool {
    settings_of(one) == settings_of(other)
}

/// Whether there is a protocol of this name with the settings of the row, and it is of their kind, or none, as the row says.
fn is_limit(name: &str, row: &str) -> bool {
    let (settings, is) = columns(row);
    let Some(kind) = kind(name, settings) else {
        return false;
    };
    match (protocol_of(&kind), first_of(is, "yes", "no")) {
        (Some(protocol), Some(true)) => is_same(protocol.kind(), &kind),
        (None, Some(false)) => true,
        _ => false,
    }
}

/// For each line of the table settings, and whether there is a protocol of this name with them.
fn are_limits(rt: &impl Abort, name: &str, table: &str) {
    for row in table.lines() {
        agrees(rt, is_limit(name, row), row);
    }
}

/// Numbers of nodes and of tries.
const DELIVERIES: &str =
    "1 1|no\n2 0|no\n2 1|yes\n2 48|yes\n2 49|no\n8 1|yes\n8 48|yes\n9 1|no\n0 0|no\n";

#[test]
fn limits_of_deliveries(rt: HostRuntime) {
    are_limits(&rt, "retry", DELIVERIES);
    are_limits(&rt, "redundant", DELIVERIES);
}

/// Numbers of nodes, patience and votes.
const COMMITS: &str = concat!(
    "1 1|no\n2 0|no\n2 1|yes\n8 48|yes\n8 49|no\n9 1|no\n",
    "2 1 yn|yes\n8 1 yyyyyyyn|yes\n7 1 yyyyyyyn|no\n8 1 nyyyyyyy|no\n",
);

#[test]
fn limits_of_commits(rt: HostRuntime) {
    are_limits(&rt, "two_phase", COMMITS);
    are_limits(&rt, "three_phase", COMMITS);
}

/// Numbers of nodes, and patience.
const REPLICAS: &str = "2 1|no\n3 0|no\n3 1|yes\n8 48|yes\n8 49|no\n9 1|no\n";

#[test]
fn limits_of_replicas(rt: HostRuntime) {
    are_limits(&rt, "primary_backup", REPLICAS);
}
