//! Which neighbouring nodes are seen to be alike, and answers where they exchange their names.

use crate::delay_texts::{agrees, asked, is_told};
use lf_outcome::Scenario;
use lf_residual::Outline;
use lf_symmetry::{Alike, answer_every_delay};
use lf_windows::Cluster;
use std::alloc::{AllocError, Global};

/// The nodes of a scenario that are alike to the next one.
fn alike_of(alloc: Global, scenario: &Scenario) -> Result<String, AllocError> {
    let outline = Outline::of(alloc, scenario.formula())?;
    let cluster = Cluster::of(scenario.setting(), &outline);
    let pairs = Alike::of(&cluster).pairs;
    let mut text = String::new(alloc);
    for i in 0..8 {
        if pairs[i] {
            write!(text, "{i}")?;
        }
    }
    Ok(text)
}

/// Whether those of the scenario of a row are as the row says.
fn are_told(alloc: Global, row: &str) -> bool {
    match asked(alloc, row) {
        Some((scenario, wanted)) => match alike_of(alloc, &scenario) {
            Ok(text) => text.as_str() == wanted,
            Err(_) => false,
        },
        None => false,
    }
}

/// The nodes past the client are alike, where there are two of them, unless what is promised tells them from each other; so are those that relay
/// or commit, but for node 0, where they vote alike.
const PAIRS: &str = concat!(
    "nodes = 6;horizon = 4;last_omission = 1;crashes = 2;budget = 2;protocol = \"primary_backup\";patience = 2;outcome = \"durable\"|34\n",
    "nodes = 5;horizon = 4;last_omission = 1;crashes = 2;budget = 2;protocol = \"primary_backup\";patience = 2;outcome = \"one_primary\"|3\n",
    "nodes = 4;horizon = 4;last_omission = 1;crashes = 2;budget = 2;protocol = \"primary_backup\";patience = 2;outcome = \"durable\"|\n",
    "nodes = 5;horizon = 4;last_omission = 1;crashes = 2;budget = 2;protocol = \"primary_backup\";patience = 2;",
    "outcome = [\"shows\", 3, 4, \"unclaimed\"]|\n",
    "nodes = 5;horizon = 4;last_omission = 1;crashes = 2;budget = 2;protocol = \"primary_backup\";patience = 2;",
    "outcome = [\"any\", [\"shows\", 3, 4, \"unclaimed\"], [\"shows\", 4, 4, \"unclaimed\"]]|3\n",
    "nodes = 4;horizon = 4;last_omission = 1;crashes = 2;budget = 2;protocol = \"retry\";tries = 2;outcome = \"delivered\"|12\n",
    "nodes = 4;horizon = 4;last_omission = 1;crashes = 2;budget = 2;protocol = \"three_phase\";patience = 2;votes = [true, true, false];",
    "outcome = \"agreement\"|1\n",
);

#[test]
fn alike_nodes_are_seen(rt: HostRuntime) {
    for row in PAIRS.lines() {
        agrees(&rt, are_told(rt.alloc(), row), row);
    }
}

/// Whether the scenario of a row is answered as the row says.
fn is_answered(alloc: Global, row: &str) -> bool {
    match asked(alloc, row) {
        Some((scenario, wanted)) => {
            let budget = scenario.setting().spec.budget();
            is_told(
                alloc,
                answer_every_delay(alloc, &scenario).ok(),
                budget,
                wanted,
            )
        }
        None => false,
    }
}

/// No faults lose a write, or have two nodes hear of a claim that was never made; a lost beat has both hear of one, and so do a late one and a
/// crash of node 0.
const BYSTANDERS: &str = concat!(
    "nodes = 5;horizon = 4;last_omission = 1;crashes = 1;budget = 1;protocol = \"primary_backup\";patience = 1;outcome = \"durable\"|none 1\n",
    "nodes = 5;horizon = 4;last_omission = 1;crashes = 1;budget = 1;protocol = \"primary_backup\";spread = 1;patience = 2;",
    "outcome = [\"any\", [\"shows\", 3, 4, \"unclaimed\"], [\"shows\", 4, 4, \"unclaimed\"], [\"shows\", 1, 4, \"primary\"], [\"down\", 1, 4]]|none 1\n",
    "nodes = 5;horizon = 4;last_omission = 3;crashes = 0;budget = 2;protocol = \"primary_backup\";patience = 2;",
    "outcome = [\"any\", [\"shows\", 3, 4, \"unclaimed\"], [\"shows\", 4, 4, \"unclaimed\"]]|least 1;omit 0>1 @1\n",
    "nodes = 5;horizon = 4;last_omission = 1;crashes = 0;budget = 1;protocol = \"primary_backup\";spread = 1;patience = 2;",
    "outcome = [\"any\", [\"shows\", 3, 4, \"unclaimed\"], [\"shows\", 4, 4, \"unclaimed\"]]|least 0\n",
    "nodes = 5;horizon = 4;last_omission = 0;crashes = 1;budget = 1;protocol = \"primary_backup\";spread = 1;patience = 3;",
    "outcome = [\"any\", [\"shows\", 3, 4, \"unclaimed\"], [\"shows\", 4, 4, \"unclaimed\"]]|least 1;crash 0 @1\n",
);

#[test]
fn nodes_past_the_client_exchange_their_names(rt: HostRuntime) {
    for row in BYSTANDERS.lines() {
        agrees(&rt, is_answered(rt.alloc(), row), row);
    }
}
