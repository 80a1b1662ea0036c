//! Two-phase commit: node 0 asks the others to vote, and commits where all agree in time.

use crate::beside::{agrees, are_alike};
use crate::build::{List, chain, definition, forms, more, only, rules};
use crate::commit::{
    ABORT, ABORTED, COMMIT, COMMITTED, SINCE, all_agree, comes_to, constants, deciding, facts,
    following, given, is_open, polling, telling, variables, votes, voting, waking,
};
use crate::made::{Numbers, make};
use lf_protocols::Protocol;
use lf_rules::{Chain, Event, Rules};
use std::alloc::{AllocError, Global};
use std::sync::Arc;

/// Node 0 commits where all agree.
fn committing(alloc: Global) -> Result<Chain, AllocError> {
    let agreed = telling(alloc, all_agree(alloc), comes_to(alloc, COMMITTED), COMMIT);
    chain(only(alloc, 0), Event::End, deciding(alloc, agreed))
}

fn chains(alloc: Global) -> List<Chain> {
    let polled = more(polling(alloc), committing(alloc));
    let voted = more(polled, voting(alloc));
    let committed = more(voted, following(alloc, COMMIT, is_open(alloc), COMMITTED));
    let aborted = more(committed, following(alloc, ABORT, is_open(alloc), ABORTED));
    more(aborted, waking(alloc, SINCE))
}

fn two_phase(alloc: Global) -> Option<Arc<Rules>> {
    let variables = variables(alloc, "idle voting prepared committed aborted");
    let notes = forms(alloc, "PREPARE YES NO COMMIT ABORT");
    let made = definition(
        alloc,
        variables,
        notes,
        constants(alloc),
        facts(alloc),
        chains(alloc),
    );
    rules(alloc, made)
}

/// Whether the two do the same in the setting of these numbers.
fn is_alike(alloc: Global, rules: &Arc<Rules>, numbers: Numbers) -> bool {
    let nodes = numbers.pick(0, 2, 8);
    let patience = numbers.pick(1, 1, 6);
    let votes = votes(numbers, nodes);
    let built = Protocol::two_phase(nodes, patience, votes);
    let given = given(alloc, nodes, patience, votes);
    are_alike(alloc, rules, given, built, make(numbers, nodes))
}

#[test]
fn two_phase_is_its_rules(rt: HostRuntime) {
    let alloc = rt.alloc();
    let rules = two_phase(alloc);
    match &rules {
        Some(rules) => {
            for of in 0..300 {
                agrees(&rt, is_alike(alloc, rules, Numbers::new(of)), of);
            }
        }
        None => agrees(&rt, false, 1000),
    }
}
