//! What looks like a slip in a scenario of a protocol file.

ghost use Rattle.lf_sim.specs.Settings.{IsRun, world_of};

use crate::clamped::clamped_words;
use crate::idle::idle_words;
use crate::replaced::replaced_words;
use lf_faults::FaultSet;
use lf_outcome::{Formula, Scenario, holds};
use lf_protocols::{Fact, Protocol};
use lf_sim::{Run, Setting, run};
use std::alloc::{AllocError, Global};

/// Which rules no node of the scenario has, and where, in the run without faults, a value first went past its range
/// or a cell was first set that isn't there, and where a note was first lost at its sender, since another one of its name took its place or the packet had no
/// room for it, and by which rules, each on a line of its own, without the last line feed. Nothing where there is none of this, or where the protocol is none
/// of rules. The error, also below, is that memory has run out.
pub fn run_notes(alloc: Global, scenario: &Scenario) -> Result<String, AllocError> {
    let setting = scenario.setting();
    let played = run(alloc, setting, &FaultSet::empty())?;
    let mut text = idle_words(alloc, &setting.machine)?;
    if let Some((step, node)) = first_shown(setting, &played, "clamped") {
        end_line(&mut text)?;
        let words = clamped_words(alloc, setting, &played, node, step)?;
        write!(
            &mut text,
            "without faults, at step {step} node {node} has set {words} (`clamped`)"
        )?;
    }
    if let Some((step, node)) = first_shown(setting, &played, "replaced") {
        let words = replaced_words(alloc, setting, &played, node, step)?;
        end_line(&mut text)?;
        write!(
            &mut text,
            "without faults, at step {step} node {node} has sent {words} (`replaced`)"
        )?;
    }
    Ok(text)
}

/// Ends a line, where there is one.
fn end_line(text: &mut String) -> Result<(), AllocError> {
    if text.is_empty() {
        Ok(())
    } else {
        text.push('\n')
    }
}

/// The first step, and its first node, at which a node shows the fact of this name.
fn first_shown(
    setting: &Setting<Protocol>,
    played: &Run<Protocol>,
    name: &str,
) -> Option<(u32, u32)>
    requires { IsRun (world_of setting.now) played.now }
{
    let fact = setting.machine.fact(name)?;
    for step in 0..=played.horizon() {
        if let Some(node) = shown_at(setting, played, fact, step) {
            return Some((step, node));
        }
    }
    None
}

/// The first node that shows the fact at a step.
fn shown_at(
    setting: &Setting<Protocol>,
    played: &Run<Protocol>,
    fact: Fact,
    step: u32,
) -> Option<u32>
    requires { IsRun (world_of setting.now) played.now }
{
    for node in 0..played.nodes() {
        if holds(setting, &Formula::Shows { node, step, fact }, played) {
            return Some(node);
        }
    }
    None
}
