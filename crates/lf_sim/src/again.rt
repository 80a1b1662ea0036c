//! A point of a run, worked again.

ghost use Rattle.std.specs.Prelude.{◌≡◌, ◌≢◌, ℕ, ◌+◌, ◌-◌, ◌<◌, ◌≤◌, length, Some, slice_index_or};
ghost use Rattle.lf_sim.specs.declared.out.Stepped.{Stepped};
ghost use Rattle.lf_sim.specs.Differences.{IsTold};
ghost use Rattle.lf_sim.specs.Runs.{did};
ghost use Rattle.lf_sim.specs.Settings.{HasSize, IsRunBefore, cell_of, set_of, world_of};
ghost use Rattle.lf_sim.specs.Turns.{turns_of, room_of};

use crate::runs::put_turn;
use crate::{Difference, Effects, Machine, Run, Setting, Turns};

/// Works again what a node does at a step, in a run that up to that step is as the set of faults has it. Tells where that may differ
/// from what stood there.
///
/// All else stays as it is. It takes no memory.
pub fn play_again<M: Machine>(
    setting: &Setting<M>,
    effects: &Effects,
    run: &mut Run<M>,
    node: u32,
    step: u32,
) -> Difference
    requires size { HasSize (world_of setting.now) run.old }
    requires node { node < (world_of setting.now).rules.nodes }
    requires first { 1 ≤ step }
    requires last { step ≤ (world_of setting.now).horizon }
    requires before { IsRunBefore (world_of setting.now) effects.now.set run.old step }
    ensures size { HasSize (world_of setting.now) run.new }
    ensures set { set_of run.new ≡ set_of run.old }
    ensures told { (stood : Stepped M.State M.Note) → cell_of run.old node step ≡ Some stood →
        IsTold result stood (did (world_of setting.now) effects.now.set node step) }
    ensures there { cell_of run.new node step ≡ Some (did (world_of setting.now) effects.now.set node step) }
    ensures others { (n t : ℕ) → n < (world_of setting.now).rules.nodes → t ≤ (world_of setting.now).horizon →
        (n ≡ node → t ≡ step → ⊥) → cell_of run.new n t ≡ cell_of run.old n t }
{
    let grid = &mut run.grid;
    put_turn(
        setting,
        effects,
        grid.nodes,
        &mut grid.cells,
        &mut grid.inbox,
        step - 1,
        node,
    );
    let place = (step * grid.nodes + node) as usize;
    put_last(&setting.machine, &mut grid.cells, place)
}

/// Puts the last turn in the place of another one, and tells where they may differ. A turn that is known to be the same isn't moved.
fn put_last<M: Machine>(
    machine: &M,
    cells: &mut Turns<M::State, M::Note>,
    place: usize,
) -> Difference
    requires { place + 1 < length (turns_of cells.old) }
    ensures told { (d : Stepped M.State M.Note) →
        IsTold result (slice_index_or (turns_of cells.old) place d) (slice_index_or (turns_of cells.old) (length (turns_of cells.old) - 1) d) }
    ensures len { length (turns_of cells.new) + 1 ≡ length (turns_of cells.old) }
    ensures capacity { room_of cells.new ≡ room_of cells.old }
    ensures there { (d : Stepped M.State M.Note) →
        slice_index_or (turns_of cells.new) place d ≡ slice_index_or (turns_of cells.old) (length (turns_of cells.old) - 1) d }
    ensures others { (k : ℕ) (d : Stepped M.State M.Note) → k ≢ place → k + 1 < length (turns_of cells.old) →
        slice_index_or (turns_of cells.new) k d ≡ slice_index_or (turns_of cells.old) k d }
{
    let last = cells.len() - 1;
    let difference = Difference::between(machine, &cells.seen(place), &cells.seen(last));
    if difference.is_none() {
        cells.drop_last();
    } else {
        cells.put_last(place);
    }
    difference
}
