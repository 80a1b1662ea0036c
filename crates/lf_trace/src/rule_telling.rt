//! The lines of a trace with rules.

ghost use Rattle.std.specs.Prelude.{◌≡◌, ◌++◌, ◌<◌, IfOk, string_bytes};
ghost use Rattle.lf_sim.specs.Settings.{IsRun, set_of, world_of};
ghost use Rattle.lf_trace.specs.RuleTraces.{more_numbers, numbers_line, rule_line, rule_lines, ruled_step, rule_trace};

use crate::{end_word, push_step};
use lf_outcome::Formula;
use lf_protocols::{Fact, Protocol};
use lf_sim::{Run, Setting};
use lf_taken::taken;
use std::alloc::{AllocError, Global};

/// A run of a setting.
#[derive(Clone, Copy)]
struct Telling<'a> {
    setting: &'a Setting<Protocol>,
    run: &'a Run<Protocol>,
}

/// The trace of a run of this setting, with the rules that nodes took: behind the lines of each step a line `N rules K, K, ..` for each node that took any
/// rule at that step. Its numbers, from 1, are those of the rules, in the order in which it took them, once for each time. A step at which a node wakes
/// begins with what it took on waking. What it took at the start isn't told.
///
/// All else is as in `trace`, and where the protocol isn't one of rules there is no more. The error is that memory has run out.
pub fn trace_with_rules(
    alloc: Global,
    setting: &Setting<Protocol>,
    formula: &Formula<Fact>,
    run: &Run<Protocol>,
) -> Result<String, AllocError>
    requires run { IsRun (world_of setting.now) run.now }
    ensures { IfOk result (λ text.
        string_bytes text ≡ rule_trace setting.now.machine (world_of setting.now) (set_of run.now) formula.now) }
{
    let telling = Telling { setting, run };
    let mut text = String::new(alloc);
    'steps: for past in 0..run.horizon() {
        telling.push_step(alloc, past, &mut text)?;
    }
    writeln!(text, "{}", end_word(setting, formula, run))?;
    Ok(text)
}

impl Telling<'_> {
    /// Adds the lines of the step after `past`, with those of the rules.
    fn push_step(&self, alloc: Global, past: u32, text: &mut String) -> Result<(), AllocError>
        requires run { IsRun (world_of self.now.setting.now) self.now.run.now }
        requires past { past < (world_of self.now.setting.now).horizon }
        ensures { IfOk result (λ _. string_bytes text.new ≡ string_bytes text.old
            ++ ruled_step self.now.setting.now.machine (world_of self.now.setting.now) (set_of self.now.run.now) past) }
    {
        push_step(self.setting, self.run, past + 1, text)?;
        self.push_rules(alloc, past, text)
    }

    /// Adds the lines of the rules that nodes took at the step.
    fn push_rules(&self, alloc: Global, past: u32, text: &mut String) -> Result<(), AllocError>
        requires run { IsRun (world_of self.now.setting.now) self.now.run.now }
        requires past { past < (world_of self.now.setting.now).horizon }
        ensures { IfOk result (λ _. string_bytes text.new ≡ string_bytes text.old
            ++ rule_lines self.now.setting.now.machine (world_of self.now.setting.now) (set_of self.now.run.now) past) }
    {
        'nodes: for node in 0..self.run.nodes() {
            self.push_rules_of(alloc, past, node, text)?;
        }
        Ok(())
    }

    /// Adds the line of the rules that a node took, if it took any.
    fn push_rules_of(
        &self,
        alloc: Global,
        past: u32,
        node: u32,
        text: &mut String,
    ) -> Result<(), AllocError>
        requires run { IsRun (world_of self.now.setting.now) self.now.run.now }
        requires past { past < (world_of self.now.setting.now).horizon }
        requires node { node < (world_of self.now.setting.now).rules.nodes }
        ensures { IfOk result (λ _. string_bytes text.new ≡ string_bytes text.old
            ++ rule_line self.now.setting.now.machine (world_of self.now.setting.now) (set_of self.now.run.now) past node) }
    {
        let numbers = taken(alloc, self.setting, self.run, node, past)?;
        push_numbers(node, numbers.as_slice(), text)
    }
}

/// Adds the line of these rules, if there are any.
fn push_numbers(node: u32, numbers: &[usize], text: &mut String) -> Result<(), AllocError>
    ensures { IfOk result (λ _. string_bytes text.new ≡ string_bytes text.old ++ numbers_line node numbers.now) }
{
    match numbers {
        [] => Ok(()),
        [first, more @ ..] => {
            write!(text, "{node} rules {first}")?;
            push_more(more, text)?;
            text.push('\n')
        }
    }
}

/// Adds `, K` for each number.
fn push_more(numbers: &[usize], text: &mut String) -> Result<(), AllocError>
    ensures { IfOk result (λ _. string_bytes text.new ≡ string_bytes text.old ++ more_numbers numbers.now) }
{
    for number in numbers {
        write!(text, ", {number}")?;
    }
    Ok(())
}
