//! What a run leaves.

ghost use Rattle.std.specs.Prelude.{◌≡◌, ℕ, ◌<◌, ◌≤◌, IsTrue};
ghost use Rattle.lf_sim.specs.Runs.{takes_step};

use crate::grid::Grid;
use crate::{Machine, Stepped};
use lf_faults::FaultSet;

/// What every node did under a set of faults. `run` makes it.
#[derive(Drop)]
pub struct Run<M: Machine> {
    pub(crate) set: FaultSet,
    pub(crate) grid: Grid<M::State, M::Note>,
}

impl<M: Machine> Run<M> {
    ghost use Rattle.lf_sim.specs.Runs.{World, view, sent, is_up};
    ghost use Rattle.std.specs.Prelude.{Some};
    ghost use Rattle.lf_sim.specs.Settings.{IsRun, HasSize, nodes_of, horizon_of, set_of, cell_of, up_of, state_of, sent_of};

    /// The set of faults.
    pub fn set(&self) -> FaultSet
        ensures { result ≡ set_of self.now }
    {
        self.set
    }

    /// Names another set of faults as that of the run. What the nodes did stays as it is: where it isn't yet what they do under
    /// that set, `play_again` makes it so, point by point.
    pub fn rename(&mut self, set: &FaultSet)
        ensures set { set_of self.new ≡ set.now }
        ensures size { (w : World M.State M.Note M.Fact) → HasSize w self.old → HasSize w self.new }
        ensures cells { (n t : ℕ) → cell_of self.new n t ≡ cell_of self.old n t }
    {
        self.set = *set;
    }

    /// How many nodes there are, at most 8.
    pub fn nodes(&self) -> u32
        ensures value { result ≡ nodes_of self.now }
        ensures few { result ≤ 8 }
    {
        self.grid.nodes
    }

    /// The last step, at most 48.
    pub fn horizon(&self) -> u32
        ensures value { result ≡ horizon_of self.now }
        ensures short { result ≤ 48 }
    {
        self.grid.horizon
    }

    /// Whether a node is up at a step: false where it isn't a node or the step isn't one of the run, where it has
    /// crashed, and where it is paused.
    pub fn up(&self, node: u32, step: u32) -> bool
        ensures value { result ≡ up_of self.now node step }
        ensures meaning { (w : World M.State M.Note M.Fact) → IsRun w self.now →
            result ≡ is_up w (set_of self.now) node step }
        ensures node { IsTrue result → node < nodes_of self.now }
        ensures step { IsTrue result → step ≤ horizon_of self.now }
    {
        let grid = &self.grid;
        takes_step(
            &self.set,
            grid.nodes,
            grid.horizon,
            grid.pause_length,
            node,
            step,
        )
    }

    /// The state of a node after a step, or before the first.
    pub fn state(&self, node: u32, step: u32) -> M::State
        requires node { node < nodes_of self.now }
        requires step { step ≤ horizon_of self.now }
        ensures value { Some result ≡ state_of self.now node step }
        ensures meaning { (w : World M.State M.Note M.Fact) → IsRun w self.now →
            result ≡ view w (set_of self.now) node step }
    {
        self.grid.cell(node, step).kept.state
    }

    /// The same state, to look at where it stands.
    pub(crate) fn state_at(&self, node: u32, step: u32) -> &M::State
        requires node { node < nodes_of self.now }
        requires step { step ≤ horizon_of self.now }
        ensures { Some result.now ≡ state_of self.now node step }
    {
        &self.grid.cell(node, step).kept.state
    }

    /// What a node did at a step: its state after it, and what it sent in it. At step 0 that is its start.
    pub fn turn(&self, node: u32, step: u32) -> Stepped<M::State, M::Note>
        requires node { node < nodes_of self.now }
        requires step { step ≤ horizon_of self.now }
        ensures { cell_of self.now node step ≡ Some result }
    {
        self.grid.cell(node, step).turn()
    }

    /// What a node sent to another at a step, lost or not. None where it wasn't up.
    pub fn sent(&self, from: u32, to: u32, step: u32) -> Option<M::Note>
        requires from { from < nodes_of self.now }
        requires step { step ≤ horizon_of self.now }
        ensures value { Some result ≡ sent_of self.now from to step }
        ensures meaning { (w : World M.State M.Note M.Fact) → IsRun w self.now →
            result ≡ sent w (set_of self.now) from to step }
    {
        self.grid.cell(from, step).note(to)
    }
}

/// Whether a node is up at a step.
fn takes_step(
    set: &FaultSet,
    nodes: u32,
    horizon: u32,
    pause_length: u32,
    node: u32,
    step: u32,
) -> bool
    requires { pause_length ≤ 8 }
    ensures value { result ≡ takes_step nodes horizon pause_length set.now node step }
    ensures node { IsTrue result → node < nodes }
    ensures step { IsTrue result → step ≤ horizon }
{
    node < nodes
        && 1 <= step
        && step <= horizon
        && !set.crashes(node, step)
        && !set.pauses(node, step, pause_length)
}
