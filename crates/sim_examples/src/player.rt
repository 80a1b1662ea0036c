//! A run of one setting that is made that of one set of faults after another.

ghost use Rattle.std.specs.Prelude.{◌≡◌, IfOk};
ghost use Rattle.lf_sim.specs.Settings.{IsRun, set_of, world_of};

use lf_faults::FaultSet;
use lf_sim::{Machine, Run, Setting, rerun, run};
use std::alloc::{AllocError, Global};

/// Runs of one setting, one set of faults after another. It has the run of the set that it played last.
#[derive(Drop)]
pub(crate) struct Player<'a, M: Machine> {
    pub(crate) setting: &'a Setting<M>,
    run: Run<M>,
    ghost plays: { IsRun (world_of setting.now) run },
}

impl<'a, M: Machine> Player<'a, M> {
    /// A player that has played a set of faults. It takes all the memory that it needs, and the error is that there is none.
    pub(crate) fn new(
        alloc: Global,
        setting: &'a Setting<M>,
        set: &FaultSet,
    ) -> Result<Player<'a, M>, AllocError>
        ensures setting { IfOk result (λ player. player.setting.now ≡ setting.now) }
        ensures set { IfOk result (λ player. set_of player.run ≡ set.now) }
    {
        let run = run(alloc, setting, set)?;
        Ok(Player { setting, run })
    }

    /// Plays another set: its run is then that of the set. It takes no memory.
    pub(crate) fn play(&mut self, set: &FaultSet)
        ensures setting { self.new.setting.now ≡ self.old.setting.now }
        ensures run { IsRun (world_of self.new.setting.now) self.new.run }
        ensures set { set_of self.new.run ≡ set.now }
    {
        rerun(self.setting, &mut self.run, set);
    }

    /// The run of the set that was played last.
    pub(crate) fn run(&self) -> &Run<M>
        ensures value { result.now ≡ self.now.run }
        ensures run { IsRun (world_of self.now.setting.now) result.now }
    {
        &self.run
    }
}
