//! The lines of replies.

ghost use Rattle.std.specs.Prelude.{◌≡◌, ◌++◌, IfOk, codes, string_bytes};
ghost use Rattle.std.specs.Fmt.{decimal};
ghost use Rattle.lf_faults.specs.Texts.{spelling};
ghost use Rattle.lf_trace.specs.Lines.{line};
ghost use Rattle.leastfault.specs.Reports.{all_report, dotted, fault_lines, full_line, judgement, more_text, path_text, refusal, report};
ghost use Rattle.leastfault.specs.Reports.{set_lines, set_text, tree_refusal};

use lf_check::Verdict;
use lf_faults::{Fault, FaultSet, fault_text};
use lf_scenario::ScenarioError;
use lf_tree::TreeFault;
use std::alloc::{AllocError, Global};

/// The report of an answer: `least K` and the K faults in their order, or `none B` with the budget B, each on a line of
/// its own.
pub fn report(alloc: Global, budget: u32, answer: &Option<FaultSet>) -> Result<String, AllocError>
    ensures { IfOk result (λ text. string_bytes text ≡ report budget answer.now) }
{
    match answer {
        None => format!(in alloc; "none {budget}\n"),
        Some(set) => {
            let mut text = format!(in alloc; "least {}\n", set.len())?;
            push_faults(alloc, set, &mut text)?;
            Ok(text)
        }
    }
}

/// The report of all least sets: `all K M`, with the number K of faults that each has and the number M of sets, and the sets in their
/// order, each on a line of its own; or `none B` with the budget B, where there is none. The faults of a set stand in their order with
/// one comma between any two, and `-` is the empty set.
pub fn all_report(alloc: Global, budget: u32, sets: &[FaultSet]) -> Result<String, AllocError>
    ensures { IfOk result (λ text. string_bytes text ≡ all_report budget sets.now) }
{
    match sets.first() {
        None => format!(in alloc; "none {budget}\n"),
        Some(least) => {
            let mut text = format!(in alloc; "all {} {}\n", least.len(), sets.len())?;
            push_sets(alloc, sets, &mut text)?;
            Ok(text)
        }
    }
}

/// Adds sets of faults, each on a line of its own.
fn push_sets(alloc: Global, sets: &[FaultSet], text: &mut String) -> Result<(), AllocError>
    ensures { IfOk result (λ _. string_bytes text.new ≡ string_bytes text.old ++ set_lines sets.now) }
{
    'sets: for set in sets {
        push_set(alloc, set.items(), text)?;
        text.push('\n')?;
    }
    Ok(())
}

/// Adds a set: its faults with a comma between any two, or `-` for the empty set.
fn push_set(alloc: Global, faults: &[Fault], text: &mut String) -> Result<(), AllocError>
    ensures { IfOk result (λ _. string_bytes text.new ≡ string_bytes text.old ++ set_text faults.now) }
{
    match faults.split_first() {
        None => text.push('-'),
        Some((first, rest)) => {
            push_fault(alloc, first, text)?;
            push_more(alloc, rest, text)
        }
    }
}

/// Adds faults, each after a comma.
fn push_more(alloc: Global, faults: &[Fault], text: &mut String) -> Result<(), AllocError>
    ensures { IfOk result (λ _. string_bytes text.new ≡ string_bytes text.old ++ more_text faults.now) }
{
    'faults: for fault in faults {
        text.push(',')?;
        push_fault(alloc, fault, text)?;
    }
    Ok(())
}

/// Adds the text of a fault.
fn push_fault(alloc: Global, fault: &Fault, text: &mut String) -> Result<(), AllocError>
    ensures { IfOk result (λ _. string_bytes text.new ≡ string_bytes text.old ++ spelling fault.now) }
{
    text.push_str(fault_text(alloc, fault)?.as_str())
}

/// The line of a level that is too full: `full LEVEL COUNT`, with the number of faults of its sets and the number of these.
pub(crate) fn full_line(alloc: Global, level: u32, count: u64) -> Result<String, AllocError>
    ensures { IfOk result (λ text. string_bytes text ≡ full_line level count) }
{
    format!(in alloc; "full {level} {count}\n")
}

/// Adds the faults of a set, each on a line of its own.
fn push_faults(alloc: Global, set: &FaultSet, text: &mut String) -> Result<(), AllocError>
    ensures { IfOk result (λ _. string_bytes text.new ≡ string_bytes text.old ++ fault_lines set.now) }
{
    'faults: for fault in set.items() {
        push_fault(alloc, fault, text)?;
        text.push('\n')?;
    }
    Ok(())
}

/// The line of a refused scenario: `refused NUMBER KEY`, or `refused NUMBER` where no key is named.
pub fn refusal(alloc: Global, error: ScenarioError) -> Result<String, AllocError>
    ensures { IfOk result (λ text. string_bytes text ≡ refusal error) }
{
    match error.key() {
        Some(key) => format!(in alloc; "refused {} {}\n", error.number(), key.name()),
        None => format!(in alloc; "refused {}\n", error.number()),
    }
}

/// The line of a certificate's text that is refused: `refused tree NUMBER`.
pub(crate) fn tree_refusal(alloc: Global, fault: TreeFault) -> Result<String, AllocError>
    ensures { IfOk result (λ text. string_bytes text ≡ tree_refusal fault) }
{
    tree_line(alloc, fault.number())
}

/// The line of a refusal with this number.
fn tree_line(alloc: Global, number: u32) -> Result<String, AllocError>
    ensures { IfOk result (λ text. string_bytes text ≡ line (codes "refused tree " ++ decimal number)) }
{
    format!(in alloc; "refused tree {number}\n")
}

/// The line of a verdict: `yes`, or `no REASON PATH` with the reason's number and the way from the root to the place that is
/// wrong.
pub(crate) fn judgement(alloc: Global, verdict: &Verdict) -> Result<String, AllocError>
    ensures { IfOk result (λ text. string_bytes text ≡ judgement verdict.now) }
{
    match verdict {
        Verdict::Yes => String::from_str(alloc, "yes\n"),
        Verdict::No { reason, path } => {
            let mut text = format!(in alloc; "no {} ", reason.number())?;
            push_path_line(path.as_slice(), &mut text)?;
            Ok(text)
        }
    }
}

/// Adds a way from the root, and ends the line.
fn push_path_line(path: &[usize], text: &mut String) -> Result<(), AllocError>
    ensures { IfOk result (λ _. string_bytes text.new ≡ string_bytes text.old ++ line (path_text path.now)) }
{
    push_path(path, text)?;
    text.push('\n')
}

/// Adds a way from the root: the places of kids, from 0, with a dot between any two, or `-` for the root itself.
fn push_path(path: &[usize], text: &mut String) -> Result<(), AllocError>
    ensures { IfOk result (λ _. string_bytes text.new ≡ string_bytes text.old ++ path_text path.now) }
{
    match path.split_first() {
        None => text.push('-'),
        Some((first, rest)) => {
            write!(text, "{first}")?;
            push_dotted(rest, text)
        }
    }
}

/// Adds the places, each after a dot.
fn push_dotted(path: &[usize], text: &mut String) -> Result<(), AllocError>
    ensures { IfOk result (λ _. string_bytes text.new ≡ string_bytes text.old ++ dotted path.now) }
{
    'places: for place in path {
        write!(text, ".{place}")?;
    }
    Ok(())
}
