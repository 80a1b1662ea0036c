//! What a tree is judged for, and where a node of it stands.

use lf_faults::Fault;
use lf_outcome::Formula;
use lf_sim::{Machine, Run, Setting};

/// What a tree is judged for.
#[derive(Drop)]
pub(crate) struct Judged<'a, M: Machine> {
    pub(crate) setting: &'a Setting<M>,
    pub(crate) formula: &'a Formula<M::Fact>,
    /// How many branches stand above the last sets.
    pub(crate) last: u32,
}

/// Where a node stands.
#[derive(Drop)]
pub(crate) struct Site<'a, M: Machine> {
    /// The run of the node's set.
    pub(crate) run: &'a Run<M>,
    /// How many branches stand above the node.
    pub(crate) depth: u32,
    /// The faults that no set beneath the node is to hold.
    pub(crate) excluded: &'a [Fault],
}
