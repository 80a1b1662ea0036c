//! What each fault of a set is needed for.

ghost use Rattle.std.specs.Prelude.{◌≡◌, ◌++◌, ◌<◌, ◌≤◌, IfOk, codes, length, string_bytes};
ghost use Rattle.lf_sim.specs.Settings.{IsRun, set_of, world_of};
ghost use Rattle.lf_trace.specs.Lines.{line};
ghost use Rattle.lf_trace.specs.Traces.{end_word};
ghost use Rattle.lf_why.specs.Sets.{difference, failing_step, head, name_at, reason, reasons, stop_difference, stops, stops_at, without};

use crate::without::without;
use lf_faults::{Fault, FaultSet, Parts, fault_text};
use lf_outcome::{Formula, first_failing};
use lf_sim::{Run, Setting, run};
use lf_trace::{Worded, elsewhere, end_word, first_difference};
use std::alloc::{AllocError, Global};

/// What each fault is needed for that a run of this setting has: for each, in their order, `without FAULT: reaches` or `without FAULT: misses`, by the run of
/// the set without it, and where the two runs differ, as `run --beside` tells it: `step T`, lines `-` of the run without the fault, and lines `+`.
///
/// Of an omission that is the first point at which the nodes differ. Of a crash or a pause it is the first step at which a node that is up differs, or a note
/// that is heard, and the last later one after which a node does, both of the steps up to the one by which the run is seen to miss; where there is
/// none, it is told as an omission. There are no such lines where no node's words ever differ.
///
/// The error is that memory has run out.
pub fn why_set<M: Worded>(
    alloc: Global,
    setting: &Setting<M>,
    formula: &Formula<M::Fact>,
    played: &Run<M>,
) -> Result<String, AllocError>
    requires { IsRun (world_of setting.now) played.now }
    ensures { IfOk result (λ text. string_bytes text
        ≡ reasons (M.words setting.now.machine) (world_of setting.now) formula.now (set_of played.now)) }
{
    let set = played.set();
    let mut text = String::new(alloc);
    'faults: for place in 0..set.len() {
        push_reason(alloc, setting, formula, played, place, &mut text)?;
    }
    Ok(text)
}

/// Adds what the fault at a place is needed for.
fn push_reason<M: Worded>(
    alloc: Global,
    setting: &Setting<M>,
    formula: &Formula<M::Fact>,
    played: &Run<M>,
    place: usize,
    text: &mut String,
) -> Result<(), AllocError>
    requires run { IsRun (world_of setting.now) played.now }
    requires place { place < length (set_of played.now) }
    ensures { IfOk result (λ _. string_bytes text.new ≡ string_bytes text.old
        ++ reason (M.words setting.now.machine) (world_of setting.now) formula.now (set_of played.now) place) }
{
    let set = played.set();
    let other = run(alloc, setting, &without(&set, place))?;
    push_head(alloc, &set, place, end_word(setting, formula, &other), text)?;
    let told = difference(alloc, setting, formula, played, place, &other)?;
    text.push_str(told.as_str())?;
    Ok(())
}

/// How a run differs from the one without the fault at a place.
fn difference<M: Worded>(
    alloc: Global,
    setting: &Setting<M>,
    formula: &Formula<M::Fact>,
    played: &Run<M>,
    place: usize,
    other: &Run<M>,
) -> Result<String, AllocError>
    requires run { IsRun (world_of setting.now) played.now }
    requires other { IsRun (world_of setting.now) other.now }
    requires fewer { set_of other.now ≡ without (set_of played.now) place }
    ensures { IfOk result (λ text. string_bytes text
        ≡ difference (M.words setting.now.machine) (world_of setting.now) formula.now (set_of played.now) place) }
{
    if stops_at(&played.set(), place) {
        stop_difference(alloc, setting, formula, played, other)
    } else {
        first_difference(alloc, setting, played, other)
    }
}

/// Whether there is a fault at a place that stops a node.
fn stops_at(set: &FaultSet, place: usize) -> bool
    ensures { result ≡ stops_at set.now place }
{
    match set.items().get(place) {
        Some(fault) => stops(fault),
        None => false,
    }
}

/// Whether a fault stops a node.
fn stops(fault: &Fault) -> bool
    ensures { result ≡ stops fault.now }
{
    match fault.parts() {
        Parts::Omit { .. } => false,
        Parts::Crash { .. } | Parts::Pause { .. } => true,
    }
}

/// Where a run differs from the one without a fault that stops a node.
fn stop_difference<M: Worded>(
    alloc: Global,
    setting: &Setting<M>,
    formula: &Formula<M::Fact>,
    played: &Run<M>,
    other: &Run<M>,
) -> Result<String, AllocError>
    requires run { IsRun (world_of setting.now) played.now }
    requires other { IsRun (world_of setting.now) other.now }
    ensures { IfOk result (λ text. string_bytes text
        ≡ stop_difference (M.words setting.now.machine) (world_of setting.now) formula.now (set_of played.now) (set_of other.now)) }
{
    let limit = failing_step(setting, formula, played);
    let told = elsewhere(alloc, setting, played, other, limit)?;
    if told.as_str().is_empty() {
        first_difference(alloc, setting, played, other)
    } else {
        Ok(told)
    }
}

/// The first step by which a run is seen to miss, or else the last step.
fn failing_step<M: Worded>(setting: &Setting<M>, formula: &Formula<M::Fact>, played: &Run<M>) -> u32
    requires { IsRun (world_of setting.now) played.now }
    ensures value { result ≡ failing_step (world_of setting.now) (set_of played.now) formula.now }
    ensures within { result ≤ (world_of setting.now).horizon }
{
    first_failing(setting, formula, played).unwrap_or(played.horizon())
}

/// Adds the line of the fault at a place: without it the run comes to this word.
fn push_head(
    alloc: Global,
    set: &FaultSet,
    place: usize,
    word: &str,
    text: &mut String,
) -> Result<(), AllocError>
    ensures { IfOk result (λ _. string_bytes text.new ≡ string_bytes text.old ++ head set.now place word.now) }
{
    text.push_str("without ")?;
    push_name(alloc, set, place, text)?;
    writeln!(text, ": {word}")
}

/// Adds the text of the fault at a place.
fn push_name(
    alloc: Global,
    set: &FaultSet,
    place: usize,
    text: &mut String,
) -> Result<(), AllocError>
    ensures { IfOk result (λ _. string_bytes text.new ≡ string_bytes text.old ++ name_at set.now place) }
{
    match set.items().get(place) {
        Some(fault) => text.push_str(fault_text(alloc, fault)?.as_str()),
        None => Ok(()),
    }
}
