//! A worker's lists.

ghost use Rattle.std.specs.Prelude.{◌≡◌, ◌+◌, ◌≤◌, [], vec_capacity};
ghost use Rattle.lf_pool.specs.declared.handful.TheConstants.{HANDFUL};

use crate::handful::HANDFUL;
use crate::locked::{Claim, Found};
use std::alloc::{AllocError, Global};

/// A worker's lists: a handful of jobs that it works, the next handful, and what it found of two. They are made once, and are empty where it takes
/// sets one by one.
#[derive(Drop)]
pub(crate) struct Hands {
    pub(crate) jobs: Vec<Claim>,
    pub(crate) next: Vec<Claim>,
    pub(crate) findings: Vec<Found>,
    ghost empty: { (jobs.items ≡ []) × (next.items ≡ []) × (findings.items ≡ []) },
    ghost room: { (HANDFUL ≤ vec_capacity jobs) × (HANDFUL ≤ vec_capacity next) × (HANDFUL + HANDFUL ≤ vec_capacity findings) },
}

impl Hands {
    /// Empty lists. The error is that memory has run out.
    pub(crate) fn new(alloc: Global) -> Result<Hands, AllocError> {
        let jobs = Vec::with_capacity(alloc, HANDFUL)?;
        let next = Vec::with_capacity(alloc, HANDFUL)?;
        let findings = Vec::with_capacity(alloc, 2 * HANDFUL)?;
        Ok(Hands {
            jobs,
            next,
            findings,
        })
    }
}
