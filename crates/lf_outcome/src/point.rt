//! Points of a run.

/// A node, 0..=7, with a step, 1..=48.
#[derive(Clone, Copy, Debug, PartialEq, Eq)]
pub struct Point {
    pub node: u32,
    pub step: u32,
}
