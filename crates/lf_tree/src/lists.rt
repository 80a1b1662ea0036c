//! The lists and numbers of a tree's text.

ghost use Rattle.std.specs.Prelude.{◌≡◌, ◌≢◌, ◌≤◌, length, if◌then◌else◌, Some, None, Ok, Err, IfOk, IfErr};
ghost use Rattle.std.specs.List.{list_all};
ghost use Rattle.lf_faults.specs.Faults.{is_before};
ghost use Rattle.serde_json.specs.Events.{items_len};
ghost use Rattle.serde_json.specs.View.{view, items_view};
ghost use Rattle.lf_tree.specs.Reading.{fault_named, fault_in, whole_in, step_in, faults_in, edges_in, steps_in, reach_in, answer_in, format_in};
ghost use Rattle.lf_tree.specs.Trees.{is_ascending};

use crate::{Edges, TreeFault};
use lf_faults::{Fault, FaultSet, read_fault};
use lf_list::Listed;
use lf_outcome::Reach;
use serde_json::Value;
use std::alloc::Global;

/// The last step of a run.
const LAST_STEP: u64 = 48;

/// The most nodes of a run.
const MOST_NODES: usize = 8;

/// The most faults of an answer.
const MOST_FAULTS: usize = 6;

/// The fault that a text spells.
fn fault_named(text: &str) -> Option<Fault>
    ensures { result ≡ fault_named text.now }
{
    read_fault(text)
}

/// The fault of a text.
fn fault_in(value: &Value) -> Result<Fault, TreeFault>
    ensures { result ≡ fault_in (view value.now) }
{
    match value {
        Value::String(text) => fault_named(text.as_str()).ok_or(TreeFault::OutOfRange),
        _ => Err(TreeFault::Form),
    }
}

/// An unsigned whole number.
fn whole_in(value: &Value) -> Result<u64, TreeFault>
    ensures { result ≡ whole_in (view value.now) }
{
    value.as_u64().ok_or(TreeFault::Form)
}

/// A step, or 0.
fn step_in(value: &Value) -> Result<u32, TreeFault>
    ensures value { result ≡ step_in (view value.now) }
    ensures within { IfOk result (λ n. n ≤ 48) }
{
    let step = whole_in(value)?;
    if step <= LAST_STEP {
        Ok(step as u32)
    } else {
        Err(TreeFault::OutOfRange)
    }
}

/// The faults of a list's items.
fn faults_in(alloc: Global, items: &[Value]) -> Result<Vec<Fault>, TreeFault>
    ensures ok { IfOk result (λ fs. faults_in (items_view items.now) ≡ Ok fs.items) }
    ensures err { IfErr result (λ e. e ≢ TreeFault.Memory → faults_in (items_view items.now) ≡ Err e) }
    ensures count { IfOk result (λ fs. length fs.items ≡ length items.now) }
{
    let mut faults = Vec::with_capacity(alloc, items.len()).map_err(|_| TreeFault::Memory)?;
    'items: for item in items {
        let fault = fault_in(item)?;
        faults.push(fault).map_err(|_| TreeFault::Memory)?;
    }
    Ok(faults)
}

/// The edges of a branch.
pub(crate) fn edges_in(alloc: Global, value: &Value) -> Result<Edges, TreeFault>
    ensures ok { IfOk result (λ fs. edges_in (view value.now) ≡ Ok fs) }
    ensures err { IfErr result (λ e. e ≢ TreeFault.Memory → edges_in (view value.now) ≡ Err e) }
{
    match value {
        Value::Array(items) => Ok(Listed::from_vec(faults_in(alloc, items.as_slice())?)),
        _ => Err(TreeFault::Form),
    }
}

/// How many items a list has.
fn len_of(items: &[Value]) -> usize
    ensures value { result ≡ items_len (items_view items.now) }
    ensures same { result ≡ length items.now }
{
    items.len()
}

/// The reach of a list's items.
fn reach_of(items: &[Value]) -> Result<Reach, TreeFault>
    requires { (2 ≤ length items.now) × (length items.now ≤ 8) }
    ensures { result ≡ steps_in (items_view items.now) }
{
    let mut steps = [0; MOST_NODES];
    'items: for (i, item) in items.iter().enumerate() {
        let step = step_in(item)?;
        steps[i] = step;
    }
    Reach::new(&steps[..items.len()]).ok_or(TreeFault::OutOfRange)
}

/// The reach of a branch.
pub(crate) fn reach_in(value: &Value) -> Result<Reach, TreeFault>
    ensures { result ≡ reach_in (view value.now) }
{
    let Value::Array(items) = value else {
        return Err(TreeFault::Form);
    };
    let count = len_of(items.as_slice());
    if 2 <= count && count <= MOST_NODES {
        reach_of(items.as_slice())
    } else {
        Err(TreeFault::Form)
    }
}

/// Whether each fault of the set comes before the fault.
fn all_before(set: &FaultSet, fault: &Fault) -> bool
    ensures { result ≡ list_all (λ f. is_before f fault.now) set.now }
{
    set.items().iter().all(|earlier| earlier.is_before(fault))
}

/// The set of some faults, where they ascend.
fn ascending(faults: &[Fault]) -> Option<FaultSet>
    requires { length faults.now ≤ 6 }
    ensures { result ≡ (if is_ascending faults.now then Some faults.now else None) }
{
    let mut set = FaultSet::empty();
    'faults: for fault in faults {
        if !all_before(&set, fault) {
            return None;
        }
        set = set.insert(*fault)?;
    }
    Some(set)
}

/// The answer of a tree.
pub(crate) fn answer_in(alloc: Global, value: &Value) -> Result<Option<FaultSet>, TreeFault>
    ensures ok { IfOk result (λ set. answer_in (view value.now) ≡ Ok set) }
    ensures err { IfErr result (λ e. e ≢ TreeFault.Memory → answer_in (view value.now) ≡ Err e) }
{
    match value {
        Value::Null => Ok(None),
        Value::Array(items) if len_of(items.as_slice()) <= MOST_FAULTS => {
            let faults = faults_in(alloc, items.as_slice())?;
            let set = ascending(faults.as_slice()).ok_or(TreeFault::Form)?;
            Ok(Some(set))
        }
        _ => Err(TreeFault::Form),
    }
}

/// The format of a tree.
pub(crate) fn format_in(value: &Value) -> Result<u64, TreeFault>
    ensures { result ≡ format_in (view value.now) }
{
    let format = whole_in(value)?;
    if format == 1 || format == 2 {
        Ok(format)
    } else {
        Err(TreeFault::OutOfRange)
    }
}
