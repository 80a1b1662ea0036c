//! Standard input.

use lf_outcome::Scenario;
use lf_scenario::{LONGEST, ScenarioError, read};
use lf_streams::{FromRead, ReadFault, read_up_to};
use std::alloc::{AllocError, Global};
use std::sync::Arc;

/// The scenario of standard input. None where there is none.
pub(crate) fn scenario(rt: &HostRuntime) -> Result<Option<Arc<Scenario>>, AllocError> {
    let mut source = FromRead::new(rt.stdin());
    match read_up_to(rt.alloc(), &mut source, LONGEST) {
        Ok(text) => scenario_of(rt.alloc(), text.as_slice()),
        Err(ReadFault::Failed) => Ok(None),
        Err(ReadFault::Memory) => Err(AllocError),
    }
}

/// The scenario of a text. None where the text is refused.
fn scenario_of(alloc: Global, text: &[u8]) -> Result<Option<Arc<Scenario>>, AllocError> {
    match read(alloc, text) {
        Ok(scenario) => Ok(Some(Arc::new(alloc, scenario)?)),
        Err(ScenarioError::Memory) => Err(AllocError),
        Err(_) => Ok(None),
    }
}
