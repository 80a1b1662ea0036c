//! The replies to runs that tell which rules nodes took.

ghost use Rattle.std.specs.Prelude.{◌≡◌, Some, true, string_bytes, IfOk};
ghost use Rattle.lf_sim.specs.Settings.{world_of};
ghost use Rattle.lf_trace.specs.RuleTraces.{rule_trace};
ghost use Rattle.leastfault.specs.Answers.{reaches_in};
ghost use Rattle.leastfault.specs.Replies.{IsRunReply, told_trace};
ghost use Rattle.leastfault.specs.Reports.{run_status};
ghost use Rattle.leastfault.specs.Shown.{RepliesRun};

use crate::answering::{allowed_set, no_set, refused, run_status, traced as traced_alone};
use crate::reply::Reply;
use crate::said::Said;
use lf_faults::FaultSet;
use lf_outcome::{Scenario, holds};
use lf_own_scenario::read_with;
use lf_protocol_file::ProtocolFile;
use lf_sim::run;
use lf_trace::trace_with_rules;
use std::alloc::{AllocError, Global};

/// The reply of a run, with the rules that nodes took, to the text of a scenario of a protocol file and the words that name a set of faults.
pub(crate) fn rules_reply(
    alloc: Global,
    file: &ProtocolFile,
    text: &[u8],
    faults: &str,
) -> Result<Reply<u8>, AllocError>
    ensures { IfOk result (λ reply. IsRunReply (Some file.now) true faults.now text.now (string_bytes reply.text) reply.value) }
{
    match read_with(alloc, text, file) {
        Ok(scenario) => match allowed_set(&scenario, faults) {
            Some(set) => traced(alloc, &scenario, &set),
            None => no_set(alloc),
        },
        Err(error) => refused(alloc, error),
    }
}

/// The reply of a run to a scenario and the words that name a set of faults, with the rules that nodes took where they are to be told.
pub(crate) fn run_of(
    alloc: Global,
    rules: bool,
    scenario: &Scenario,
    faults: &str,
) -> Result<Reply<u8>, AllocError>
    ensures { IfOk result (λ reply. RepliesRun rules faults.now scenario.now (string_bytes reply.text) reply.value) }
{
    match allowed_set(scenario, faults) {
        None => no_set(alloc),
        Some(set) => run_of_set(alloc, rules, scenario, &set),
    }
}

/// The same for a set of faults.
fn run_of_set(
    alloc: Global,
    rules: bool,
    scenario: &Scenario,
    set: &FaultSet,
) -> Result<Reply<u8>, AllocError>
    ensures { IfOk result (λ reply. (string_bytes reply.text ≡ told_trace rules scenario.now set.now)
        × (reply.value ≡ run_status (reaches_in scenario.now set.now))) }
{
    if rules {
        traced(alloc, scenario, set)
    } else {
        traced_alone(alloc, scenario, set)
    }
}

/// The reply that tells the run of a set of faults, with the rules that nodes took.
fn traced(alloc: Global, scenario: &Scenario, set: &FaultSet) -> Result<Reply<u8>, AllocError>
    ensures { IfOk result (λ reply.
        (string_bytes reply.text ≡ rule_trace scenario.now.setting.machine (world_of scenario.now.setting) set.now scenario.now.formula)
        × (reply.value ≡ run_status (reaches_in scenario.now set.now))) }
{
    let setting = scenario.setting();
    let formula = scenario.formula();
    let played = run(alloc, setting, set)?;
    Ok(Reply {
        text: trace_with_rules(alloc, setting, formula, &played)?,
        value: run_status(holds(setting, formula, &played)),
        said: Said::Run,
    })
}
