//! The turns of one worker, by hand.

ghost use Rattle.std.specs.Prelude.{◌≡◌, ◌+◌, Some};
ghost use Rattle.std.specs.Arc.{arc_value};

use crate::texts::{agrees, asked, is_text};
use lf_outcome::Scenario;
use lf_pool::{Gate, NoGate, Searched, Share, SharedBook, Turn};
use std::alloc::{AllocError, Global};
use std::marker::Brand;
use std::rt::Clock;
use std::sync::ledger::Blank;
use std::sync::{Arc, Wait};

/// Adds what ten turns of a worker did, or those until the search had ended or was full, and how many sets it filed, by its share.
fn push_turns<L: Searched, R: Wait + Clock>(
    text: &mut String,
    rt: &R,
    shared: &SharedBook<L>,
    share: &mut Share<L>,
) -> Result<(), AllocError> {
    for _ in 0..10 {
        let turn = shared.work_one(rt, share, &NoGate)?;
        write!(text, "{turn:?} {}; ", share.filed())?;
        if matches!(turn, Turn::Finished | Turn::Full { .. }) {
            break;
        }
    }
    Ok(())
}

/// The turns of the only worker, and how many sets were filed, by all shares.
fn turns<L: Searched, R: Wait + Clock>(
    rt: &R,
    alloc: Global,
    blank: Blank,
    scenario: Arc<Scenario>,
) -> Option<String>
    requires name { blank.name ≡ L.name }
    requires parts { blank.parts ≡ L.parts }
    requires enough { blank.parts ≡ 2 }
    requires scenario { L.scenario ≡ Some (arc_value scenario) }
{
    let Ok((shared, mut shares)) = SharedBook::<L>::begin(alloc, blank, scenario, 1) else {
        return None;
    };
    let mut text = String::new(alloc);
    let (own, _last) = shares.as_mut_slice().split_at_mut(1);
    let mut is_told = true;
    for share in own.iter_mut() {
        is_told = is_told && push_turns(&mut text, rt, &shared, share).is_ok();
    }
    let (book, sum) = shared.gather(shares);
    if is_told && write!(text, "{sum} {}", book.answered()).is_ok() {
        Some(text)
    } else {
        None
    }
}

/// A scenario, and what the turns of its only worker do, each with how many sets it has filed then.
const TURNS: &str = concat!(
    "retry|3 4 3 0 2|tries = 1;outcome = \"delivered\"|",
    "Filed 1; Deepened(Down) 1; Filed 2; Filed 3; Deepened(Answer) 3; Finished 3; 3 3\n",
    "retry|3 4 3 0 3|tries = 3;outcome = \"delivered\";max_sets = 5|Filed 1; Full { count: 6 } 1; 1 1\n",
    "retry|2 1 0 0 0|tries = 1;outcome = \"delivered\"|Filed 1; Deepened(Answer) 1; Finished 1; 1 1\n",
);

/// Whether the turns of a row's only worker do what it says.
fn row_turns<R: Wait + Clock>(rt: &R, alloc: Global, row: &str) -> bool {
    match asked(alloc, row) {
        Some((scenario, wanted)) => {
            is_text(
                turns::<Brand, R>(rt, alloc, Blank::new(2), scenario),
                wanted,
            )
        }
        None => false,
    }
}

#[test]
fn turns_of_one_worker(rt: HostRuntime) {
    for row in TURNS.lines() {
        agrees(&rt, row_turns(&rt, rt.alloc(), row), row);
    }
}
