//! What a job leaves.

ghost use Rattle.std.specs.Prelude.{◌≡◌, IfOk};
ghost use Rattle.std.specs.Arc.{arc_value};

use lf_faults::Fault;
use lf_outcome::Scenario;
use std::alloc::{AllocError, Global};
use std::sync::Arc;

/// What a job that is done leaves, of which another one is made: so most jobs of a search take no memory, and needn't be counted among those
/// that share the scenario.
#[derive(Drop)]
pub struct Spent {
    /// The scenario that was searched.
    pub scenario: Arc<Scenario>,
    /// Memory for what is excluded. What it holds says nothing.
    pub excluded: Vec<Fault>,
    /// Memory for a path. What it holds says nothing.
    pub path: Vec<usize>,
}

impl Spent {
    /// What a first job of the scenario is made of: lists without memory. The error is that the scenario can't be shared once more.
    pub fn new(alloc: Global, scenario: &Arc<Scenario>) -> Result<Spent, AllocError>
        ensures { IfOk result (λ spent. arc_value spent.scenario ≡ arc_value scenario.now) }
    {
        Ok(Spent {
            scenario: Arc::try_clone(scenario)?,
            excluded: Vec::new(alloc),
            path: Vec::new(alloc),
        })
    }
}
