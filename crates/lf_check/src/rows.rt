//! The checker that judges the nodes of a tree in several threads.

ghost use Rattle.std.specs.Prelude.{◌≡◌, ℕ, ◌+◌, ◌*◌, ◌<◌, ◌≤◌, length, vec_len, slice_get, IfOk, IfSome, Some};
ghost use Rattle.std.specs.List.{AllZip, range_with_len};
ghost use Rattle.lf_check.specs.Rows.{ArePlaces, IsFoundInAll, IsFoundInPart};
ghost use Rattle.lf_check.specs.Verdicts.{IsVerdict};
ghost use Rattle.lf_sim.specs.Settings.{world_of};

use crate::Verdict;
use crate::failing::FirstFailing;
use crate::found::Found;
use crate::judging::{is_allowed, last_depth};
use crate::listing::{places_of, put_way};
use crate::part::{PART, found_from, lower};
use crate::places::Places;
use crate::same::are_same_answers;
use crate::site::Judged;
use crate::tally::Tally;
use lf_certificate::{Reason, settings_are_bounded};
use lf_outcome::Formula;
use lf_protocols::{Fact, Protocol};
use lf_sim::Setting;
use lf_tree::Tree;
use lf_watch::Watch;
use rayon::prelude::*;
use std::alloc::{AllocError, Global};
use std::thread::Threads;

/// The same as `judge`, where the nodes of the tree are judged in as many threads as there are processors.
pub(crate) fn judge_rows<W: Watch>(
    rt: &(impl Threads + Sync),
    alloc: Global,
    setting: &Setting<Protocol>,
    formula: &Formula<Fact>,
    tree: &Tree,
    watch: &W,
) -> Result<Verdict, AllocError>
    ensures { IfOk result (IsVerdict (world_of setting.now) setting.now.spec formula.now tree.now) }
{
    if !is_allowed(&setting.spec, &tree.answer) {
        return Ok(Verdict::No {
            reason: Reason::AnswerNotAllowed,
            path: Vec::new(alloc),
        });
    }
    let judged = Judged {
        setting,
        formula,
        last: last_depth(&setting.spec, &tree.answer),
    };
    settings_are_bounded(setting);
    let places = places_of(alloc, tree)?;
    let mut path = Vec::new(alloc);
    match found_in(rt, alloc, &judged, &places, watch)? {
        Found::Fails { at, reason } => {
            put_way(&places, at, &mut path)?;
            Ok(Verdict::No { reason, path })
        }
        Found::Passes { first } => {
            if are_same_answers(&first, &tree.answer) {
                return Ok(Verdict::Yes);
            }
            let reason = Reason::AnswerNotFirst;
            Ok(Verdict::No { reason, path })
        }
    }
}

/// What is found in all nodes, part by part: the first part in which one fails has the first that fails. The part in which
/// the root stands is judged before any other.
fn found_in<W: Watch>(
    rt: &(impl Threads + Sync),
    alloc: Global,
    judged: &Judged<'_, Protocol>,
    places: &Places<'_>,
    watch: &W,
) -> Result<Found, AllocError>
    requires { ArePlaces places.now }
    ensures { IfOk result (IsFoundInAll (world_of judged.now.setting.now) judged.now.setting.now.spec judged.now.formula.now
        judged.now.last places.now.tree.now places.now.sets.items) }
{
    let mut first = match found_in_part(alloc, judged, places, 0)? {
        Found::Fails { at, reason } => return Ok(Found::Fails { at, reason }),
        Found::Passes { first } => first,
    };
    let more = places.rows.len() / PART;
    let found = found_by_part(rt, alloc, judged, places, more, watch)?;
    for i in 0..more {
        let one = in_part(found.as_slice(), i)?;
        match settled(alloc, judged, places, i + 1, one)? {
            Found::Fails { at, reason } => return Ok(Found::Fails { at, reason }),
            Found::Passes { first: other } => first = lower(first, other),
        }
    }
    Ok(Found::Passes { first })
}

/// What the threads have found in a part after the first one.
fn in_part(
    found: &[Result<Option<Found>, AllocError>],
    i: usize,
) -> Result<Option<Found>, AllocError>
    requires { i < length found.now }
    ensures { slice_get found.now i ≡ Some result }
{
    found[i]
}

/// What is found in a part, where the threads have found it, or have passed the part by.
fn settled(
    alloc: Global,
    judged: &Judged<'_, Protocol>,
    places: &Places<'_>,
    part: usize,
    found: Option<Found>,
) -> Result<Found, AllocError>
    requires places { ArePlaces places.now }
    requires part { part * 256 ≤ vec_len places.now.rows }
    requires found { IfSome found (IsFoundInPart (world_of judged.now.setting.now) judged.now.setting.now.spec
        judged.now.formula.now judged.now.last places.now.tree.now places.now.sets.items part) }
    ensures { IfOk result (IsFoundInPart (world_of judged.now.setting.now) judged.now.setting.now.spec judged.now.formula.now
        judged.now.last places.now.tree.now places.now.sets.items part) }
{
    match found {
        Some(found) => Ok(found),
        None => found_in_part(alloc, judged, places, part),
    }
}

/// What is found in one part.
fn found_in_part(
    alloc: Global,
    judged: &Judged<'_, Protocol>,
    places: &Places<'_>,
    part: usize,
) -> Result<Found, AllocError>
    requires places { ArePlaces places.now }
    requires part { part * 256 ≤ vec_len places.now.rows }
    ensures { IfOk result (IsFoundInPart (world_of judged.now.setting.now) judged.now.setting.now.spec judged.now.formula.now
        judged.now.last places.now.tree.now places.now.sets.items part) }
{
    found_from(alloc, judged, places, part * PART)
}

/// The same, or None where a part before it is known in which something fails.
fn found_unless(
    alloc: Global,
    judged: &Judged<'_, Protocol>,
    places: &Places<'_>,
    part: usize,
    failing: &FirstFailing,
) -> Result<Option<Found>, AllocError>
    requires places { ArePlaces places.now }
    requires part { part * 256 ≤ vec_len places.now.rows }
    ensures { IfOk result (λ found. IfSome found (IsFoundInPart (world_of judged.now.setting.now) judged.now.setting.now.spec
        judged.now.formula.now judged.now.last places.now.tree.now places.now.sets.items part)) }
{
    if failing.is_before(part) {
        return Ok(None);
    }
    let found = found_in_part(alloc, judged, places, part)?;
    if matches!(found, Found::Fails { .. }) {
        failing.note(part);
    }
    Ok(Some(found))
}

/// What is found in each of so many parts after the first one, in order. None where something fails in a part before.
fn found_by_part<W: Watch>(
    rt: &(impl Threads + Sync),
    alloc: Global,
    judged: &Judged<'_, Protocol>,
    places: &Places<'_>,
    more: usize,
    watch: &W,
) -> Result<Vec<Result<Option<Found>, AllocError>>, AllocError>
    requires places { ArePlaces places.now }
    requires parts { (i : ℕ) → i < more → (i + 1) * 256 ≤ vec_len places.now.rows }
    ensures { IfOk result (λ found. AllZip (λ i one. IfOk one (λ found. IfSome found (IsFoundInPart
        (world_of judged.now.setting.now) judged.now.setting.now.spec judged.now.formula.now judged.now.last
        places.now.tree.now places.now.sets.items (i + 1)))) (range_with_len 0 more) found.items) }
{
    let tally = Tally::new(watch, places.rows.len());
    tally.add(PART);
    let failing = FirstFailing::new();
    let tally = &tally;
    let failing = &failing;
    in_each(
        rt,
        alloc,
        more,
        |i: usize| -> Result<Option<Found>, AllocError>
            requires { ArePlaces places.now × ((i + 1) * 256 ≤ vec_len places.now.rows) }
            ensures { IfOk result (λ found. IfSome found (IsFoundInPart (world_of judged.entry.now.setting.now)
                judged.entry.now.setting.now.spec judged.entry.now.formula.now judged.entry.now.last
                places.entry.now.tree.now places.entry.now.sets.items (i + 1))) }
        {
            let found = found_unless(alloc, judged, places, i + 1, failing);
            tally.add(PART);
            found
        },
    )
}

/// What threads find in so many parts, in order.
fn in_each<T: Drop + Send, F: Fn(usize) -> T + Copy + Send + Sync>(
    rt: &(impl Threads + Sync),
    alloc: Global,
    parts: usize,
    find: F,
) -> Result<Vec<T>, AllocError>
    requires { (i : ℕ) → i < parts → F.pre find i }
    ensures { IfOk result (λ found. AllZip (λ i one. F.post find i one) (range_with_len 0 parts) found.items) }
{
    (0..parts)
        .into_par_iter()
        .with_min_len(1)
        .map(find)
        .collect(rt, alloc)
}
