//! A worker's part of what is filed.

ghost use Rattle.std.specs.Prelude.{◌≡◌, [], IfSome};
ghost use Rattle.std.specs.List.{All};
ghost use Rattle.lf_pool.specs.Holds.{IsLeftIn};
ghost use Rattle.lf_pool.specs.Searches.{left-prop};

use crate::handful::HANDFUL;
use crate::hands::Hands;
use crate::searched::Searched;
use lf_work::{Scratch, Spent};
use std::alloc::Global;
use std::sync::ledger;

/// A worker's part of the total of filed sets, and the memory that it keeps from job to job and from handful to handful. It is exactly one
/// part of its ledger.
#[derive(Drop)]
pub struct Share<L: Searched> {
    pub(crate) filed: u64,
    pub(crate) part: ledger::Share<L>,
    pub(crate) scratch: Scratch,
    /// None where memory for them had run out, and while its worker has them in hand: then it takes sets one by one.
    pub(crate) hands: Option<Hands>,
    /// What jobs of the search left whose findings it filed, of two handfuls at most.
    pub(crate) spent: Vec<Spent>,
    /// Room that nobody uses, 128 bytes: so what one worker writes doesn't lie in a line of memory with what the next one does, which would have to
    /// wait for it.
    apart: [u64; 16],
    ghost one_part: { part.parts ≡ 1 },
    ghost same: { part.amount ≡ filed },
    ghost left: { All (IsLeftIn L.scenario) spent.items } by { left-prop L.scenario spent.items },
}

impl<L: Searched> Share<L> {
    /// A share of nothing filed yet.
    pub(crate) fn new(alloc: Global, part: ledger::Share<L>) -> Share<L>
        requires one_part { part.parts ≡ 1 }
        requires none { part.amount ≡ 0 }
        ensures { result.filed ≡ 0 }
    {
        Share {
            filed: 0,
            part,
            scratch: Scratch::new(alloc),
            hands: Hands::new(alloc).ok(),
            spent: room(alloc),
            apart: [0; 16],
        }
    }

    /// Keeps what a job of the search left, if there is room for it.
    pub(crate) fn keep(&mut self, left: Option<Spent>)
        requires { IfSome left (IsLeftIn L.scenario) }
        ensures filed { self.new.filed ≡ self.old.filed }
        ensures part { self.new.part ≡ self.old.part }
        ensures scratch { self.new.scratch ≡ self.old.scratch }
    {
        let Some(left) = left else {
            return;
        };
        if self.spent.len() < self.spent.capacity() {
            self.spent.push_reserved(left);
        }
    }

    /// How many sets its worker has filed.
    pub fn filed(&self) -> u64
        ensures { result ≡ self.now.filed }
    {
        self.filed
    }
}

/// A list with room for what the jobs of two handfuls leave, or without where memory has run out.
fn room(alloc: Global) -> Vec<Spent>
    ensures { result.items ≡ [] }
{
    match Vec::with_capacity(alloc, 2 * HANDFUL) {
        Ok(spent) => spent,
        Err(_) => Vec::new(alloc),
    }
}
