//! What is to be worked.

ghost use Rattle.std.specs.Prelude.{◌≡◌};
ghost use Rattle.std.specs.Arc.{arc_value};

use crate::spent::Spent;
use lf_faults::{Fault, FaultSet};
use lf_outcome::Scenario;
use std::alloc::AllocError;
use std::sync::Arc;

/// A set of faults that is to be worked.
#[derive(Drop)]
pub struct Job {
    pub(crate) scenario: Arc<Scenario>,
    pub(crate) set: FaultSet,
    pub(crate) excluded: Vec<Fault>,
    pub(crate) path: Vec<usize>,
    pub(crate) ticket: u64,
}

impl Job {
    ghost use Rattle.std.specs.Prelude.{IfOk, IfSome};
    ghost use Rattle.lf_work.specs.Jobs.{IsSameJob, IsSpentOf};

    /// The job of a set of a scenario, which stands at a path of a search's tree and is claimed by a ticket there. No set beneath it
    /// is to hold what is excluded.
    pub fn new(
        scenario: Arc<Scenario>,
        set: FaultSet,
        excluded: Vec<Fault>,
        path: Vec<usize>,
        ticket: u64,
    ) -> Job
        ensures scenario { arc_value result.scenario ≡ arc_value scenario }
        ensures set { result.set ≡ set }
        ensures excluded { result.excluded.items ≡ excluded.items }
        ensures path { result.path.items ≡ path.items }
        ensures ticket { result.ticket ≡ ticket }
    {
        Job {
            scenario,
            set,
            excluded,
            path,
            ticket,
        }
    }

    /// The scenario that is searched.
    pub fn scenario(&self) -> &Scenario
        ensures { result.now ≡ arc_value self.now.scenario }
    {
        &self.scenario
    }

    /// The set that is to be worked.
    pub fn set(&self) -> FaultSet
        ensures { result ≡ self.now.set }
    {
        self.set
    }

    /// The faults that no set beneath it is to hold, in the order in which the search excluded them.
    pub fn excluded(&self) -> &[Fault]
        ensures { result.now ≡ self.now.excluded.items }
    {
        self.excluded.as_slice()
    }

    /// The places of the kids that lead to the set from the root of the search's tree.
    pub fn path(&self) -> &[usize]
        ensures { result.now ≡ self.now.path.items }
    {
        self.path.as_slice()
    }

    /// The ticket by which the set is claimed.
    pub fn ticket(&self) -> u64
        ensures { result ≡ self.now.ticket }
    {
        self.ticket
    }

    /// What it leaves, once it is done.
    pub fn spend(self) -> Spent
        ensures { IsSpentOf (arc_value self.scenario) result }
    {
        let Job {
            scenario,
            excluded,
            path,
            ..
        } = self;
        Spent {
            scenario,
            excluded,
            path,
        }
    }

    /// The same job once more, made of what another one of its scenario left, if there is such.
    pub(crate) fn again(&self, spent: Option<Spent>) -> Result<Job, AllocError>
        requires { IfSome spent (IsSpentOf (arc_value self.now.scenario)) }
        ensures { IfOk result (IsSameJob self.now) }
    {
        let Spent {
            scenario,
            mut excluded,
            mut path,
        } = match spent {
            Some(spent) => spent,
            None => Spent::new(*self.excluded.allocator(), &self.scenario)?,
        };
        excluded.clear();
        excluded.extend_from_slice(self.excluded.as_slice())?;
        path.clear();
        path.extend_from_slice(self.path.as_slice())?;
        Ok(Job {
            scenario,
            set: self.set,
            excluded,
            path,
            ticket: self.ticket,
        })
    }
}
