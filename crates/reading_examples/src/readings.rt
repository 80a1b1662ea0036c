//! Texts that are read, and what is read of them.

use crate::row_texts::{are_told, push_changed};
use crate::rows::agrees;
use crate::told::is_told;
use lf_scenario::scenarios_are_one;
use std::alloc::AllocError;

/// Scenarios, and what is read of them.
const READ: &str = concat!(
    // A note takes one step where nothing is said.
    "more||numbers|Retry { nodes: 3, tries: 1 }; Bounds { nodes: 3, horizon: 4, last_omission: 3, crashes: 0, ",
    "budget: 2, pauses: 0, pause_length: 1 }; 100000\n",
    "more||delays|0>1 1+0;0>2 1+0;1>0 1+0;1>2 1+0;2>0 1+0;2>1 1+0;\n",
    "more||arrivals 2|2;3;4;5;\n",
    "more||delivered 3 4|promised\n",
    // Optional keys. Links have their own delays or the usual ones.
    "optional||numbers|Redundant { nodes: 3, tries: 1 }; Bounds { nodes: 3, horizon: 4, last_omission: 3, crashes: 0, ",
    "budget: 2, pauses: 2, pause_length: 8 }; 10\n",
    "optional||delays|0>1 2+3;0>2 4+3;1>0 2+3;1>2 2+3;2>0 2+0;2>1 2+3;\n",
    "optional||seed|0;1;2;3;4;5;6;7;8;9;10;11;12;13;14;15;16;17;18;19;20;21;22;23;24;25;26;27;28;29;30;31;\n",
    // A table of a link at the end.
    "more|[[links]];from = 0;to = 2;least = 4;|delays|0>1 1+0;0>2 4+0;1>0 1+0;1>2 1+0;2>0 1+0;2>1 1+0;\n",
    "more|[[links]];from = 0;to = 2;least = 4;|arrivals 2|5;6;7;8;\n",
    // Numbers are those of TOML.
    "numbers||numbers|Retry { nodes: 2, tries: 10 }; Bounds { nodes: 2, horizon: 3, last_omission: 1, crashes: 0, ",
    "budget: 1, pauses: 0, pause_length: 1 }; 100000\n",
    // Late notes of a seed of zeros.
    "late||arrivals 1|4;3;4;\n",
    "late||delivered 2 3|promised\n",
    "late||seed|0;0;0;0;0;0;0;0;0;0;0;0;0;0;0;0;0;0;0;0;0;0;0;0;0;0;0;0;0;0;0;0;\n",
);

#[test]
fn scenarios_are_read(rt: HostRuntime) {
    are_told(&rt, rt.alloc(), READ);
}

/// Lines of scenarios whose protocols wait: the protocol and the outcome that are read of them.
const PATIENT: &str = concat!(
    "patient|nodes = 3;protocol = \"two_phase\";outcome = \"agreement\";patience = 5;votes = [true, false]|protocol|TwoPhase { nodes: 3, ",
    "patience: 5, votes: [true, true, false, true, true, true, true, true] }\n",
    "patient|nodes = 3;protocol = \"two_phase\";outcome = \"agreement\";patience = 5;votes = [true, false]|agreement 3 4|promised\n",
    "patient|nodes = 8;protocol = \"two_phase\";outcome = \"unblocked\";patience = 48|protocol|TwoPhase { nodes: 8, patience: 48, votes: [true, ",
    "true, true, true, true, true, true, true] }\n",
    "patient|nodes = 8;protocol = \"two_phase\";outcome = \"unblocked\";patience = 48|unblocked 8 4|promised\n",
    "patient|nodes = 3;protocol = \"three_phase\";outcome = \"unblocked\";votes = [true, false];patience = 1|protocol|ThreePhase { nodes: 3, ",
    "patience: 1, votes: [true, true, false, true, true, true, true, true] }\n",
    "patient|nodes = 3;protocol = \"three_phase\";outcome = \"unblocked\";votes = [true, false];patience = 1|unblocked 3 4|promised\n",
    "patient|nodes = 2;protocol = \"three_phase\";outcome = \"agreement\";patience = 1;votes = [false]|protocol|ThreePhase { nodes: 2, ",
    "patience: 1, votes: [true, false, true, true, true, true, true, true] }\n",
    "patient|nodes = 2;protocol = \"three_phase\";outcome = \"agreement\";patience = 1;votes = [false]|agreement 2 4|promised\n",
    "patient|nodes = 3;protocol = \"primary_backup\";outcome = \"one_primary\";patience = 2|protocol|PrimaryBackup { nodes: 3, patience: 2 }\n",
    "patient|nodes = 3;protocol = \"primary_backup\";outcome = \"one_primary\";patience = 2|one_primary 3 4|promised\n",
    "patient|nodes = 4;protocol = \"primary_backup\";outcome = \"durable\";patience = 2|protocol|PrimaryBackup { nodes: 4, patience: 2 }\n",
    "patient|nodes = 4;protocol = \"primary_backup\";outcome = \"durable\";patience = 2|durable 4 4|promised\n",
);

#[test]
fn votes_and_patience_are_read(rt: HostRuntime) {
    are_told(&rt, rt.alloc(), PATIENT);
}

/// Another text of the scenario, and changes of it that make it another one.
const SAME: &str = concat!(
    "budget|budget = 0b10 # two;spread = 0;max_sets = 100000|same|\n",
    "nodes|nodes = 4|another|\n",
    "horizon|horizon = 5|another|\n",
    "last_omission|last_omission = 2|another|\n",
    "crashes|crashes = 1|another|\n",
    "budget|budget = 1|another|\n",
    "protocol|protocol = \"redundant\"|another|\n",
    "tries|tries = 2|another|\n",
    "more|max_sets = 99999|another|\n",
    "more|pauses = 1|another|\n",
    "more|pause_length = 2|another|\n",
    "more|least = 2|another|\n",
    "more|spread = 1|another|\n",
    "more|links = [{from = 2, to = 1, spread = 1}]|another|\n",
    "more|seed = \"0000000000000000000000000000000000000000000000000000000000000001\"|another|\n",
);

#[test]
fn scenarios_are_the_same_whatever_their_texts_and_each_value_makes_another(rt: HostRuntime) {
    scenarios_are_one();
    are_told(&rt, rt.alloc(), SAME);
}

/// Adds the scenario among eight nodes, with a table for each link.
fn push_all_links(text: &mut String) -> Result<(), AllocError> {
    push_changed(text, "nodes", "nodes = 8")?;
    for from in 0..8_u32 {
        for to in 0..8_u32 {
            if from != to {
                let least = from + to;
                write!(
                    text,
                    "[[links]]\nfrom = {from}\nto = {to}\nleast = {least}\n"
                )?;
            }
        }
    }
    Ok(())
}

/// The delays of its links.
const ALL_DELAYS: &str = concat!(
    "0>1 1+0;0>2 2+0;0>3 3+0;0>4 4+0;0>5 5+0;0>6 6+0;0>7 7+0;",
    "1>0 1+0;1>2 3+0;1>3 4+0;1>4 5+0;1>5 6+0;1>6 7+0;1>7 8+0;",
    "2>0 2+0;2>1 3+0;2>3 5+0;2>4 6+0;2>5 7+0;2>6 8+0;2>7 9+0;",
    "3>0 3+0;3>1 4+0;3>2 5+0;3>4 7+0;3>5 8+0;3>6 9+0;3>7 10+0;",
    "4>0 4+0;4>1 5+0;4>2 6+0;4>3 7+0;4>5 9+0;4>6 10+0;4>7 11+0;",
    "5>0 5+0;5>1 6+0;5>2 7+0;5>3 8+0;5>4 9+0;5>6 11+0;5>7 12+0;",
    "6>0 6+0;6>1 7+0;6>2 8+0;6>3 9+0;6>4 10+0;6>5 11+0;6>7 13+0;",
    "7>0 7+0;7>1 8+0;7>2 9+0;7>3 10+0;7>4 11+0;7>5 12+0;7>6 13+0;",
);

#[test]
fn all_links_are_read_at_once_and_a_link_behind_them_is_refused(rt: HostRuntime) {
    let mut text = String::new(rt.alloc());
    let are_read = push_all_links(&mut text).is_ok()
        && is_told(rt.alloc(), text.as_bytes(), "delays", ALL_DELAYS)
        && text.push_str("[[links]]\nfrom = 7\nto = 6\n").is_ok()
        && is_told(rt.alloc(), text.as_bytes(), "", "8 links");
    agrees(&rt, are_read, "all links");
}
