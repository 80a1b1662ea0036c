//! What was done, by step and node.

ghost use Rattle.std.specs.Prelude.{◌≡◌, ◌+◌, ◌*◌, ◌<◌, ◌≤◌, length, slice_get, vec_capacity};
ghost use Rattle.lf_sim.specs.declared.grid.TheConstants.{CELLS, LETTERS};
ghost use Rattle.lf_sim.specs.Turns.{turns_of, room_of, turn_seen};

use crate::sends::Seen;
use crate::{Letter, Turns};

/// The cells of the largest run, 8 nodes before step 1 and after each of 48 steps, and one in which a point is worked again.
pub(crate) const CELLS: usize = 393;

/// The letters of the largest inbox: 8 senders and 48 steps.
pub(crate) const LETTERS: usize = 384;

/// A cell for each node at each step, the start first, with the memory for the largest run: 8 nodes and 48 steps.
#[derive(Drop)]
pub(crate) struct Grid<S, N> {
    pub(crate) nodes: u32,
    pub(crate) horizon: u32,
    pub(crate) pause_length: u32,
    pub(crate) cells: Turns<S, N>,
    // Memory for one inbox at a time.
    pub(crate) inbox: Vec<Letter<N>>,
    ghost few: { nodes ≤ 8 },
    ghost short: { horizon ≤ 48 },
    ghost brief: { pause_length ≤ 8 },
    ghost whole: { length (turns_of cells) ≡ (horizon + 1) * nodes },
    ghost cells_fit: { CELLS ≤ room_of cells },
    ghost letters_fit: { LETTERS ≤ vec_capacity inbox },
}

impl<S: Copy, N: Copy> Grid<S, N> {
    /// What a node did at a step.
    pub(crate) fn cell(&self, node: u32, step: u32) -> Seen<'_, S, N>
        requires node { node < self.now.nodes }
        requires step { step ≤ self.now.horizon }
        ensures { slice_get (turns_of self.now.cells) (step * self.now.nodes + node) ≡ Some (turn_seen result) }
    {
        cell_at(&self.cells, self.nodes, node, step)
    }
}

/// The cell of a node at a step.
pub(crate) fn cell_at<S: Copy, N: Copy>(
    cells: &Turns<S, N>,
    nodes: u32,
    node: u32,
    step: u32,
) -> Seen<'_, S, N>
    requires few { nodes ≤ 8 }
    requires node { node < nodes }
    requires step { step ≤ 48 }
    requires long { step * nodes + node < length (turns_of cells.now) }
    ensures { slice_get (turns_of cells.now) (step * nodes + node) ≡ Some (turn_seen result) }
{
    let row = step * nodes;
    cells.seen((row + node) as usize)
}
