//! What is asked in a sweep.

use crate::Plan;

/// What is asked in a sweep.
#[derive(Clone, Copy)]
pub struct Study<'a> {
    /// The text of the scenario.
    pub scenario: &'a [u8],
    /// What varies.
    pub plan: &'a Plan,
}
