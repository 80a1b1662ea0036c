//! The replies of searches by several workers, before they are written.

ghost use Rattle.std.specs.Prelude.{◌≡◌, ℕ, IfOk};
ghost use Rattle.std.specs.Arc.{arc_value};
ghost use Rattle.lf_pool.specs.Solved.{AreFoundIn, IsFoundIn, IsFullBook};
ghost use Rattle.leastfault.specs.declared.answering.Wanted.TheVariants as wanted;
ghost use Rattle.leastfault.specs.Known.{known_of};
ghost use Rattle.leastfault.specs.Searches.{IsEndFor, IsEndIn, IsFoundFor, fault_of};

use crate::answering::{Wanted, full, refused, search_status};
use crate::fault::BytesFault;
use crate::known::read_known;
use crate::laws::limits_are_kept;
use crate::reply::{Reply, Searched, without_tree};
use crate::said::Said;
use crate::telling::Told;
use crate::{all_report, report};
use lf_book::Book;
use lf_faults::FaultSet;
use lf_outcome::Scenario;
use lf_pool::{PoolError, Solved, SolvedAll};
use lf_protocol_file::ProtocolFile;
use lf_tree::Tree;
use lf_watch::Watch;
use std::alloc::{AllocError, Global};
use std::rt::Clock;
use std::sync::{Arc, Wait};
use std::thread::Threads;

/// The reply of a search by so many workers to a scenario's text. The error is `Memory` or `Pool`.
pub(crate) fn shared_reply<R: Threads + Wait + Clock + Sync, V: Watch>(
    rt: &R,
    alloc: Global,
    known: Option<&ProtocolFile>,
    wanted: Wanted,
    workers: u32,
    text: &[u8],
    watch: &V,
) -> Result<Reply<Searched>, BytesFault>
    ensures { IsEndIn (known_of known.entry) wanted workers text.now result }
{
    match read_known(alloc, text, known) {
        Ok(scenario) => searched(rt, alloc, wanted, workers, scenario, watch),
        Err(error) => {
            let refusal = refused(alloc, error)?;
            Ok(without_tree(refusal.text, refusal.value, refusal.said))
        }
    }
}

/// The reply of a search by so many workers for a scenario.
fn searched<R: Threads + Wait + Clock + Sync, V: Watch>(
    rt: &R,
    alloc: Global,
    wanted: Wanted,
    workers: u32,
    scenario: Scenario,
    watch: &V,
) -> Result<Reply<Searched>, BytesFault>
    ensures { IsEndFor wanted workers scenario result }
{
    let Ok(scenario) = Arc::new(alloc, scenario) else {
        return Err(BytesFault::Memory);
    };
    match wanted {
        Wanted::Answer => answered(rt, alloc, &scenario, workers, watch),
        Wanted::AllLeast => listed(rt, alloc, &scenario, workers, watch),
    }
}

/// What a search by so many workers comes to that is to report the answer.
fn answered<R: Threads + Wait + Clock + Sync, V: Watch>(
    rt: &R,
    alloc: Global,
    scenario: &Arc<Scenario>,
    workers: u32,
    watch: &V,
) -> Result<Reply<Searched>, BytesFault>
    ensures { IsEndFor wanted.Answer workers (arc_value scenario.now) result }
{
    let shared = Arc::try_clone(scenario)?;
    match lf_pool::solve(rt, alloc, shared, workers, &Told::new(watch)) {
        Ok(Solved::Answer { set, tree, runs: _ }) => Ok(answer_found(alloc, scenario, &set, tree)?),
        Ok(Solved::Full(book)) => Ok(full_found(alloc, scenario, &book)?),
        Err(error) => Err(fault_of(&error)),
    }
}

/// What a search by so many workers comes to that is to report all least sets.
fn listed<R: Threads + Wait + Clock + Sync, V: Watch>(
    rt: &R,
    alloc: Global,
    scenario: &Arc<Scenario>,
    workers: u32,
    watch: &V,
) -> Result<Reply<Searched>, BytesFault>
    ensures { IsEndFor wanted.AllLeast workers (arc_value scenario.now) result }
{
    let shared = Arc::try_clone(scenario)?;
    match lf_pool::solve_all(rt, alloc, shared, workers, &Told::new(watch)) {
        Ok(
            SolvedAll::All {
                sets,
                tree,
                runs: _,
            },
        ) => Ok(all_found(alloc, scenario, sets, tree)?),
        Ok(SolvedAll::Full(book)) => Ok(full_found(alloc, scenario, &book)?),
        Err(error) => Err(fault_of(&error)),
    }
}

/// What a search comes to that found an answer, with its tree.
fn answer_found(
    alloc: Global,
    scenario: &Scenario,
    set: &Option<FaultSet>,
    tree: Tree,
) -> Result<Reply<Searched>, AllocError>
    requires { (runs : ℕ) × IsFoundIn scenario.now set.now tree runs }
    ensures { IfOk result (IsFoundFor wanted.Answer scenario.now) }
{
    let text = report(alloc, scenario.setting().spec.budget(), set)?;
    Ok(Reply {
        text,
        value: Searched {
            status: search_status(set),
            tree: Some(tree),
        },
        said: Said::Answer(*set),
    })
}

/// What a search comes to that found all least sets, with its tree.
fn all_found(
    alloc: Global,
    scenario: &Scenario,
    sets: Vec<FaultSet>,
    tree: Tree,
) -> Result<Reply<Searched>, AllocError>
    requires { (runs : ℕ) × AreFoundIn scenario.now sets.items tree runs }
    ensures { IfOk result (IsFoundFor wanted.AllLeast scenario.now) }
{
    let text = all_report(alloc, scenario.setting().spec.budget(), sets.as_slice())?;
    Ok(Reply {
        text,
        value: Searched {
            status: search_status(&tree.answer),
            tree: Some(tree),
        },
        said: Said::AllLeast(sets),
    })
}

/// What a search comes to whose book can't be deepened.
fn full_found(
    alloc: Global,
    scenario: &Scenario,
    book: &Book,
) -> Result<Reply<Searched>, AllocError>
    requires { (count : ℕ) × IsFullBook scenario.now count book.now }
    ensures answer { IfOk result (IsFoundFor wanted.Answer scenario.now) }
    ensures all { IfOk result (IsFoundFor wanted.AllLeast scenario.now) }
{
    limits_are_kept(&scenario.setting().spec);
    let told = full(
        alloc,
        book.level() + 1,
        book.counts().waiting,
        scenario.max_sets(),
    )?;
    Ok(without_tree(told.text, told.value, told.said))
}

/// Why a search by several workers gives no reply: want of memory, or a cause with its number.
fn fault_of(error: &PoolError) -> BytesFault
    ensures { result ≡ fault_of error.now }
{
    match error {
        PoolError::Memory => BytesFault::Memory,
        other => BytesFault::Pool(other.number()),
    }
}
