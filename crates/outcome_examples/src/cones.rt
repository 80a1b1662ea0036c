//! Cones, sharp reaches, closed reaches and required edges of small scenarios, worked by hand.

ghost use Rattle.lf_sim.specs.Settings.{IsRun, world_of};

use crate::texts::{agrees, columns, number, reach, setting, words};
use lf_cone::{cone, edges, is_closed, put_edges, sharp};
use lf_faults::{Fault, read_fault};
use lf_outcome::{Point, Reach};
use lf_protocols::Protocol;
use lf_sim::{Run, Setting, run};
use lf_trace::read_faults;
use std::alloc::Global;

/// The cone and the sharp reach of one point, where its node is up.
pub(crate) fn reaches_of(
    setting: &Setting<Protocol>,
    run: &Run<Protocol>,
    node: u32,
    step: u32,
) -> Option<(Reach, Reach)>
    requires { IsRun (world_of setting.now) run.now }
{
    if !run.up(node, step) {
        return None;
    }
    let points = [Point { node, step }];
    Some((cone(setting, run, &points), sharp(setting, run, &points)))
}

/// Whether the point of the text has the reaches that the text says.
fn has_reaches(setting: &Setting<Protocol>, run: &Run<Protocol>, text: &str) -> bool
    requires { IsRun (world_of setting.now) run.now }
{
    let (point, rest) = columns(text);
    let (wide, narrow) = columns(rest);
    let (node, step) = words(point);
    match (number(node), number(step), reach(wide), reach(narrow)) {
        (Some(node), Some(step), Some(wide), Some(narrow)) => {
            reaches_of(setting, run, node, step) == Some((wide, narrow))
        }
        _ => false,
    }
}

/// Whether the reach has these edges where those are excluded.
pub(crate) fn has_edges(
    alloc: Global,
    setting: &Setting<Protocol>,
    run: &Run<Protocol>,
    reach: &Reach,
    excluded: &[Fault],
    wanted: &[Fault],
) -> bool
    requires { IsRun (world_of setting.now) run.now }
{
    match edges(alloc, setting, run, reach, excluded) {
        Ok(found) => found.as_slice() == wanted,
        Err(_) => false,
    }
}

/// Whether the text names these faults, each with a comma behind it.
fn are_named(faults: &[Fault], text: &str) -> bool {
    let mut rest = text;
    for fault in faults {
        let (item, behind) = rest.split_once(',').unwrap_or((rest, ""));
        if read_fault(item) != Some(*fault) {
            return false;
        }
        rest = behind;
    }
    rest.is_empty()
}

/// Whether the reach of the text has the edges that the text says. They are put in place of what a list held, and a list of their own
/// is the same.
fn are_put(
    alloc: Global,
    setting: &Setting<Protocol>,
    run: &Run<Protocol>,
    text: &str,
    held: &mut Vec<Fault>,
) -> bool
    requires { IsRun (world_of setting.now) run.now }
{
    let (steps, rest) = columns(text);
    let (excluded, expected) = columns(rest);
    let (Some(reach), Some(excluded)) = (reach(steps), read_faults(excluded)) else {
        return false;
    };
    let excluded = excluded.items();
    put_edges(setting, run, &reach, excluded, held).is_ok()
        && has_edges(alloc, setting, run, &reach, excluded, held.as_slice())
        && are_named(held.as_slice(), expected)
}

/// Whether the reach of the text is closed or open, as the text says.
fn is_closed_as(setting: &Setting<Protocol>, run: &Run<Protocol>, text: &str) -> bool
    requires { IsRun (world_of setting.now) run.now }
{
    let (steps, closed) = columns(text);
    match reach(steps) {
        Some(reach) => is_closed(setting, run, &reach) == (closed == "closed"),
        None => false,
    }
}

/// Protocols, the numbers of their settings, sets of faults, and what is looked for in their runs: `point`, its cone and its sharp reach;
/// `reach`, whether it is closed; `edges`, those of a reach, where some are excluded.
const RUNS: &str = concat!(
    // Where each node is heard in one step, silence is heard too.
    "primary_backup 3 3|6 2 0 2 0 1 1 0 0||point|2 6|5 5 6|5 5 6\n",
    // A node that is far is heard late.
    "retry 2 1|5 1 1 2 0 2 4 0 0||point|1 5|1 5|1 5\n",
    // A note that comes late is in the cone alone.
    "retry 2 2|3 0 1 1 0 1 1 3 0||point|1 2|1 2|0 2\n",
    // Closed reaches and others.
    "primary_backup 3 3|6 2 0 2 0 1 1 0 0||reach|5 5 6|closed\n",
    "primary_backup 3 3|6 2 0 2 0 1 1 0 0||reach|0 0 6|open\n",
    "primary_backup 3 3|6 2 0 2 0 1 1 0 0||reach|4 3 6|open\n",
    // Fewer nodes, and steps past the last.
    "primary_backup 3 3|6 2 0 2 0 1 1 0 0||reach|5 5|open\n",
    "primary_backup 3 3|6 2 0 2 0 1 1 0 0||reach|7 7 7|open\n",
    "retry 2 1|5 1 1 2 0 2 4 0 0||reach|1 5|closed\n",
    "retry 2 1|5 1 1 2 0 2 4 0 0||reach|0 5|open\n",
    // Edges.
    "primary_backup 3 3|6 2 0 2 0 1 1 0 0||edges|5 5 6||omit 0>1 @1,omit 2>0 @1,omit 0>1 @2,\n",
    // Crashes of live steps are tried, and one that is excluded is not.
    "retry 2 1|3 1 1 2 0 2 1 0 0||edges|3 3||",
    "omit 0>1 @1,crash 0 @1,crash 1 @1,crash 0 @2,crash 1 @2,crash 0 @3,crash 1 @3,\n",
    "retry 2 1|3 1 1 2 0 2 1 0 0||edges|3 3|crash 0 @2|",
    "omit 0>1 @1,crash 0 @1,crash 1 @1,crash 1 @2,crash 0 @3,crash 1 @3,\n",
    // No second crash is allowed.
    "retry 2 1|3 1 1 2 0 2 1 0 0|crash 0 @2|edges|3 3||omit 0>1 @1,\n",
    // Crashes inside a pause are tried.
    "retry 2 1|3 0 1 2 1 2 1 0 0|pause 0 @1|edges|3 3||",
    "crash 0 @1,crash 1 @1,crash 0 @2,crash 1 @2,crash 0 @3,crash 1 @3,\n",
    // The note that comes late isn't in the reach.
    "retry 2 2|3 0 1 1 0 1 1 3 0||edges|0 2||crash 1 @1,crash 1 @2,\n",
);

/// Whether in the run of a row is found what the row says. The list is to hold edges.
fn row_is_found(alloc: Global, row: &str, held: &mut Vec<Fault>) -> bool {
    let (protocol, rest) = columns(row);
    let (numbers, rest) = columns(rest);
    let (faults, rest) = columns(rest);
    let (what, text) = columns(rest);
    let (Some(setting), Some(faults)) = (setting(protocol, numbers), read_faults(faults)) else {
        return false;
    };
    match run(alloc, &setting, &faults) {
        Ok(run) => match what {
            "point" => has_reaches(&setting, &run, text),
            "reach" => is_closed_as(&setting, &run, text),
            "edges" => are_put(alloc, &setting, &run, text, held),
            _ => false,
        },
        Err(_) => false,
    }
}

#[test]
fn reaches_and_edges_by_hand(rt: HostRuntime) {
    let mut held = Vec::new(rt.alloc());
    for row in RUNS.lines() {
        agrees(&rt, row_is_found(rt.alloc(), row, &mut held), row);
    }
}
