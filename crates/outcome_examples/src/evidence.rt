//! Formulas in runs without faults: whether they are true, how large they are, on which points they rest, and whether they are true
//! within a reach.

ghost use Rattle.lf_sim.specs.Settings.{IsRun, world_of};

use crate::formulas::formula;
use crate::texts::{agrees, columns, number, reach, setting, words};
use lf_faults::FaultSet;
use lf_outcome::{Formula, Point, Reach, atoms, depth, evidence, holds, holds_within};
use lf_protocols::{Fact, Protocol};
use lf_sim::{Run, Setting, run};
use std::alloc::Global;

/// Formulas, each with the protocol, the numbers of the setting, and what is looked for: `is`, whether it is true, how deep it is, and how
/// many atoms it has; `rests`, the points on which it rests, or `none` where it is false; `within`, a reach, and whether it is true within it.
const FORMULAS: &str = concat!(
    // No parts, and atoms, some of which speak of no point of the run.
    "retry 2 1|3 0 0 1 0 1 1 0 0|is|all 0|true|1|0\n",
    "retry 2 1|3 0 0 1 0 1 1 0 0|is|any 0|false|1|0\n",
    "retry 2 1|3 0 0 1 0 1 1 0 0|is|down 0 1|false|1|1\n",
    "retry 2 1|3 0 0 1 0 1 1 0 0|is|shows 0 1 has|true|1|1\n",
    "retry 2 1|3 0 0 1 0 1 1 0 0|is|down 0 3|false|1|1\n",
    "retry 2 1|3 0 0 1 0 1 1 0 0|is|shows 0 3 has|true|1|1\n",
    "retry 2 1|3 0 0 1 0 1 1 0 0|is|down 0 0|true|1|1\n",
    "retry 2 1|3 0 0 1 0 1 1 0 0|is|shows 0 0 has|false|1|1\n",
    "retry 2 1|3 0 0 1 0 1 1 0 0|is|down 0 4|true|1|1\n",
    "retry 2 1|3 0 0 1 0 1 1 0 0|is|shows 0 4 has|false|1|1\n",
    "retry 2 1|3 0 0 1 0 1 1 0 0|is|down 2 1|true|1|1\n",
    "retry 2 1|3 0 0 1 0 1 1 0 0|is|shows 2 1 has|false|1|1\n",
    "retry 2 1|3 0 0 1 0 1 1 0 0|is|down 4294967295 4294967295|true|1|1\n",
    "retry 2 1|3 0 0 1 0 1 1 0 0|is|shows 4294967295 4294967295 has|false|1|1\n",
    // The first part that is true.
    "retry 3 1|4 3 0 2 0 1 1 0 0|rests|shows 1 2 lacks,shows 1 2 has,any 2,shows 0 1 has,all 2|1 2,0 1,\n",
    // The first of two true parts, and a point named twice.
    "retry 3 1|4 3 0 2 0 1 1 0 0|rests|shows 2 3 has,shows 1 2 has,any 2,shows 2 3 has,all 2|2 3,2 3,\n",
    // Nothing is needed.
    "retry 3 1|4 3 0 2 0 1 1 0 0|rests|all 0,shows 0 1 has,any 2|\n",
    // A node that is not up has no point.
    "retry 3 1|4 3 0 2 0 1 1 0 0|rests|down 0 5,shows 0 4 has,all 2|0 4,\n",
    // A false formula.
    "retry 3 1|4 3 0 2 0 1 1 0 0|rests|shows 0 1 has,shows 1 1 has,all 2|none\n",
    // A fact past the reach counts as not shown.
    "retry 3 1|4 3 0 2 0 1 1 0 0|within|shows 1 3 has|0 3 0|true\n",
    "retry 3 1|4 3 0 2 0 1 1 0 0|within|down 1 5|0 3 0|true\n",
    "retry 3 1|4 3 0 2 0 1 1 0 0|within|shows 1 3 has|4 2 4|false\n",
    "retry 3 1|4 3 0 2 0 1 1 0 0|within|down 1 5|4 2 4|true\n",
    "retry 3 1|4 3 0 2 0 1 1 0 0|within|shows 1 3 has|0 4 0|true\n",
    "retry 3 1|4 3 0 2 0 1 1 0 0|within|down 1 5|0 4 0|true\n",
);

/// Whether the points are those of a text: each a node and a step, with a comma behind it.
fn are_points(points: &[Point], text: &str) -> bool {
    let mut rest = text;
    for point in points {
        let (item, behind) = rest.split_once(',').unwrap_or((rest, ""));
        let (node, step) = words(item);
        if number(node) != Some(point.node) || number(step) != Some(point.step) {
            return false;
        }
        rest = behind;
    }
    rest.is_empty()
}

/// The least reach of three nodes that covers the points.
fn covering(points: &[Point]) -> Option<Reach> {
    let mut steps = [0; 3];
    for point in points {
        if let Some(last) = steps.get_mut(point.node as usize) {
            *last = (*last).max(point.step);
        }
    }
    Reach::new(&steps)
}

/// Whether the formula rests on these points, and the least reach that covers them suffices; or it is false, and rests on `none`.
fn rests_on(
    alloc: Global,
    setting: &Setting<Protocol>,
    run: &Run<Protocol>,
    formula: &Formula<Fact>,
    points: &str,
) -> bool
    requires { IsRun (world_of setting.now) run.now }
{
    let reaches = holds(setting, formula, run);
    let (are_same, reach) = match evidence(alloc, setting, formula, run) {
        Ok(Some(found)) => (
            are_points(found.as_slice(), points),
            covering(found.as_slice()),
        ),
        Ok(None) => return points == "none" && !reaches,
        Err(_) => return false,
    };
    match reach {
        Some(reach) => are_same && reaches && holds_within(setting, formula, run, &reach),
        None => false,
    }
}

/// Whether the truth is the one of the word.
fn is_word(truth: bool, word: &str) -> bool {
    word == if truth { "true" } else { "false" }
}

/// Whether the formula is true within the reach or not, as the text says.
fn is_within(
    setting: &Setting<Protocol>,
    run: &Run<Protocol>,
    formula: &Formula<Fact>,
    text: &str,
) -> bool
    requires { IsRun (world_of setting.now) run.now }
{
    let (steps, truth) = columns(text);
    match reach(steps) {
        Some(reach) => is_word(holds_within(setting, formula, run, &reach), truth),
        None => false,
    }
}

/// Whether the formula is true or not, and is so deep and has so many atoms, as the text says.
fn is_judged(
    setting: &Setting<Protocol>,
    run: &Run<Protocol>,
    formula: &Formula<Fact>,
    text: &str,
) -> bool
    requires { IsRun (world_of setting.now) run.now }
{
    let (truth, rest) = columns(text);
    let (deep, many) = columns(rest);
    is_word(holds(setting, formula, run), truth)
        && number(deep) == Some(depth(formula))
        && number(many) == Some(atoms(formula))
}

/// Whether of the formula is found in the run without faults what the text says.
fn is_found(
    alloc: Global,
    setting: &Setting<Protocol>,
    formula: &Formula<Fact>,
    what: &str,
    text: &str,
) -> bool {
    match run(alloc, setting, &FaultSet::empty()) {
        Ok(run) => match what {
            "is" => is_judged(setting, &run, formula, text),
            "rests" => rests_on(alloc, setting, &run, formula, text),
            "within" => is_within(setting, &run, formula, text),
            _ => false,
        },
        Err(_) => false,
    }
}

/// Whether of the formula of a row is found what the row says.
fn row_is_found(alloc: Global, row: &str) -> bool {
    let (protocol, rest) = columns(row);
    let (numbers, rest) = columns(rest);
    let (what, rest) = columns(rest);
    let (text, expected) = columns(rest);
    let Some(setting) = setting(protocol, numbers) else {
        return false;
    };
    match formula(alloc, text) {
        Some(formula) => is_found(alloc, &setting, &formula, what, expected),
        None => false,
    }
}

#[test]
fn formulas_have_their_truth_sizes_and_evidence(rt: HostRuntime) {
    for row in FORMULAS.lines() {
        agrees(&rt, row_is_found(rt.alloc(), row), row);
    }
}
