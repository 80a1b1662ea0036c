//! The change of a run into that of another set of faults.

ghost use Rattle.std.specs.Prelude.{◌≡◌, ◌≢◌, ◌⊎◌, ℕ, ◌+◌, ◌<◌, ◌≤◌, true, false};
ghost use Rattle.lf_faults.specs.Faults.{IsFault};
ghost use Rattle.lf_latency.specs.Arrivals.{arrival_of};
ghost use Rattle.lf_sim.specs.Changes.{AreMarked, AreSameBut, Covers, Ignores, IsMarked, IsOnItsWay};
ghost use Rattle.lf_sim.specs.Differences.{differs};
ghost use Rattle.lf_sim.specs.Marks.{is_marked};
ghost use Rattle.lf_sim.specs.Settings.{HasSize, IsRun, set_of, world_of};

use crate::marks::Marks;
use crate::{Difference, Effects, Machine, Run, Setting, play_again};
use lf_faults::{FaultSet, Parts};

/// Makes the run of a set of faults that of another set: it works the points again in which the sets differ, and those to which that
/// brings other states or notes. It takes no memory. Tells which points these are: at all others a node is up as before, and has the same view.
pub fn rerun<M: Machine>(setting: &Setting<M>, run: &mut Run<M>, set: &FaultSet) -> Marks
    requires { IsRun (world_of setting.now) run.old }
    ensures run { IsRun (world_of setting.now) run.new }
    ensures set { set_of run.new ≡ set.now }
    ensures same { AreSameBut (world_of setting.now) (set_of run.old) set.now result.points }
{
    let from = run.set();
    let to = Effects::new(set);
    let change = Change {
        setting,
        from: &from,
        to: &to,
    };
    let mut marks = change.touched(run);
    run.rename(set);
    change.carry(run, &mut marks);
    marks
}

/// The change of the run of one set of faults into that of another.
#[derive(Drop)]
pub(crate) struct Change<'a, M: Machine> {
    pub(crate) setting: &'a Setting<M>,
    pub(crate) from: &'a FaultSet,
    pub(crate) to: &'a Effects,
}

impl<M: Machine> Change<'_, M> {
    /// The points in which a fault of one of the sets alone has a say. `run` is that of the first set.
    pub(crate) fn touched(&self, run: &Run<M>) -> Marks
        requires { HasSize (world_of self.now.setting.now) run.now }
        ensures from { AreMarked (world_of self.now.setting.now) self.now.to.now.set run.now self.now.from.now self.now.to.now.set result.points }
        ensures to { AreMarked (world_of self.now.setting.now) self.now.to.now.set run.now self.now.to.now.set self.now.from.now result.points }
    {
        let mut marks = Marks::none();
        self.mark_missing(&mut marks, run, self.from, &self.to.set);
        self.mark_missing(&mut marks, run, &self.to.set, self.from);
        marks
    }

    /// Marks the points in which a fault of a set has a say that another set lacks.
    fn mark_missing(&self, marks: &mut Marks, run: &Run<M>, set: &FaultSet, other: &FaultSet)
        requires { HasSize (world_of self.now.setting.now) run.now }
        ensures marked { AreMarked (world_of self.now.setting.now) self.now.to.now.set run.now set.now other.now marks.new.points }
        ensures kept { (n t : ℕ) → is_marked marks.old.points n t ≡ true → is_marked marks.new.points n t ≡ true }
    {
        for fault in set.items() {
            if !other.contains(fault) {
                self.mark_fault(marks, run, fault.parts());
            }
        }
    }

    /// Marks the points in which a fault has a say.
    fn mark_fault(&self, marks: &mut Marks, run: &Run<M>, fault: Parts)
        requires size { HasSize (world_of self.now.setting.now) run.now }
        requires fault { IsFault fault }
        ensures marked { IsMarked (world_of self.now.setting.now) self.now.to.now.set run.now fault marks.new.points }
        ensures kept { (n t : ℕ) → is_marked marks.old.points n t ≡ true → is_marked marks.new.points n t ≡ true }
    {
        let horizon = self.setting.spec.horizon();
        match fault {
            Parts::Omit { from, to, step } => self.mark_arrival(marks, run, from, to, step),
            Parts::Crash { node, step } => mark_span(marks, node, step, horizon),
            Parts::Pause { node, step } => {
                let first_after = step + self.setting.spec.pause_length();
                mark_span(marks, node, step, first_after.min(horizon));
            }
        }
    }

    /// Marks the point at which a note arrives, if it does so in the run and the receiver heeds it. `step` is 1 or later.
    fn mark_arrival(&self, marks: &mut Marks, run: &Run<M>, from: u32, to: u32, step: u32)
        requires size { HasSize (world_of self.now.setting.now) run.now }
        requires apart { from ≢ to }
        requires first { 1 ≤ step }
        ensures marked { let w = world_of self.now.setting.now in
            from < w.rules.nodes → to < w.rules.nodes → step ≤ w.horizon → w.arrival from to step ≤ w.horizon →
            is_marked marks.new.points to (w.arrival from to step) ≡ false →
            Ignores w self.now.to.now.set to (w.arrival from to step) run.now }
        ensures kept { (n t : ℕ) → is_marked marks.old.points n t ≡ true → is_marked marks.new.points n t ≡ true }
    {
        let nodes = self.setting.spec.nodes();
        let horizon = self.setting.spec.horizon();
        if from < nodes && to < nodes && step <= horizon {
            let arrival = self.setting.network.arrival(from, to, step);
            if arrival <= horizon {
                self.mark_heeded(marks, run, to, arrival);
            }
        }
    }

    /// Marks a point where letters may change what the node does.
    fn mark_heeded(&self, marks: &mut Marks, run: &Run<M>, node: u32, step: u32)
        requires size { HasSize (world_of self.now.setting.now) run.now }
        requires node { node < (world_of self.now.setting.now).rules.nodes }
        requires first { 1 ≤ step }
        requires last { step ≤ (world_of self.now.setting.now).horizon }
        ensures marked { is_marked marks.new.points node step ≡ false →
            Ignores (world_of self.now.setting.now) self.now.to.now.set node step run.now }
        ensures kept { (n t : ℕ) → is_marked marks.old.points n t ≡ true → is_marked marks.new.points n t ≡ true }
    {
        if self.heeds(run, node, step) {
            marks.mark(node, step);
        }
    }

    /// Whether letters may change what a node does at a step. They don't where the machine says that it ignores them.
    fn heeds(&self, run: &Run<M>, node: u32, step: u32) -> bool
        requires size { HasSize (world_of self.now.setting.now) run.now }
        requires node { node < (world_of self.now.setting.now).rules.nodes }
        requires first { 1 ≤ step }
        requires last { step ≤ (world_of self.now.setting.now).horizon }
        ensures { result ≡ false → Ignores (world_of self.now.setting.now) self.now.to.now.set node step run.now }
    {
        if self.to.wakes(node, step, self.setting.spec.pause_length()) {
            return true;
        }
        let machine = &self.setting.machine;
        !machine.ignores_letters(node, step, run.state_at(node, step - 1))
    }

    /// Makes the run that of the second set, where it is that of the first and `marks` are the points in which the sets differ.
    pub(crate) fn carry(&self, run: &mut Run<M>, marks: &mut Marks)
        requires way { IsOnItsWay (world_of self.now.setting.now) self.now.from.now self.now.to.now.set run.old 1 0 }
        requires marks { Covers (world_of self.now.setting.now) self.now.from.now self.now.to.now.set run.old marks.old.points }
        ensures way { IsOnItsWay (world_of self.now.setting.now) self.now.from.now self.now.to.now.set run.new
            ((world_of self.now.setting.now).horizon + 1) 0 }
        ensures marks { Covers (world_of self.now.setting.now) self.now.from.now self.now.to.now.set run.new marks.new.points }
    {
        for step in 1..self.setting.spec.horizon() + 1 {
            if marks.has_any(step) {
                self.carry_step(run, marks, step);
            }
        }
    }

    /// The same for one step, where the steps before are done.
    fn carry_step(&self, run: &mut Run<M>, marks: &mut Marks, step: u32)
        requires first { 1 ≤ step }
        requires last { step ≤ (world_of self.now.setting.now).horizon }
        requires way { IsOnItsWay (world_of self.now.setting.now) self.now.from.now self.now.to.now.set run.old step 0 }
        requires marks { Covers (world_of self.now.setting.now) self.now.from.now self.now.to.now.set run.old marks.old.points }
        ensures way { IsOnItsWay (world_of self.now.setting.now) self.now.from.now self.now.to.now.set run.new (step + 1) 0 }
        ensures marks { Covers (world_of self.now.setting.now) self.now.from.now self.now.to.now.set run.new marks.new.points }
    {
        for node in 0..self.setting.spec.nodes() {
            if marks.has(node, step) {
                self.carry_point(run, marks, node, step);
            }
        }
    }

    /// The same for one point, where the points before are done.
    fn carry_point(&self, run: &mut Run<M>, marks: &mut Marks, node: u32, step: u32)
        requires node { node < (world_of self.now.setting.now).rules.nodes }
        requires first { 1 ≤ step }
        requires last { step ≤ (world_of self.now.setting.now).horizon }
        requires way { IsOnItsWay (world_of self.now.setting.now) self.now.from.now self.now.to.now.set run.old step node }
        requires marks { Covers (world_of self.now.setting.now) self.now.from.now self.now.to.now.set run.old marks.old.points }
        ensures way { IsOnItsWay (world_of self.now.setting.now) self.now.from.now self.now.to.now.set run.new step (node + 1) }
        ensures marks { Covers (world_of self.now.setting.now) self.now.from.now self.now.to.now.set run.new marks.new.points }
    {
        let told = play_again(self.setting, self.to, run, node, step);
        if told.state {
            marks.mark(node, step + 1);
        }
        self.mark_notes(marks, run, &told, node, step);
    }

    /// Marks where those notes of a node arrive that may differ.
    fn mark_notes(&self, marks: &mut Marks, run: &Run<M>, told: &Difference, node: u32, step: u32)
        requires size { HasSize (world_of self.now.setting.now) run.now }
        requires node { node < (world_of self.now.setting.now).rules.nodes }
        requires first { 1 ≤ step }
        requires last { step ≤ (world_of self.now.setting.now).horizon }
        ensures same { let w = world_of self.now.setting.now in (m : ℕ) → m < w.rules.nodes → node ≢ m →
            w.arrival node m step ≤ w.horizon → is_marked marks.new.points m (w.arrival node m step) ≡ false →
            Ignores w self.now.to.now.set m (w.arrival node m step) run.now ⊎ (differs told.now m ≡ false) }
        ensures kept { (n t : ℕ) → is_marked marks.old.points n t ≡ true → is_marked marks.new.points n t ≡ true }
    {
        let _nodes = self.setting.spec.nodes();
        self.mark_note(marks, run, told.to0, node, 0, step);
        self.mark_note(marks, run, told.to1, node, 1, step);
        self.mark_note(marks, run, told.to2, node, 2, step);
        self.mark_note(marks, run, told.to3, node, 3, step);
        self.mark_note(marks, run, told.to4, node, 4, step);
        self.mark_note(marks, run, told.to5, node, 5, step);
        self.mark_note(marks, run, told.to6, node, 6, step);
        self.mark_note(marks, run, told.to7, node, 7, step);
    }

    /// Marks where a note arrives that may differ.
    fn mark_note(
        &self,
        marks: &mut Marks,
        run: &Run<M>,
        differs: bool,
        from: u32,
        to: u32,
        step: u32,
    )
        requires size { HasSize (world_of self.now.setting.now) run.now }
        requires first { 1 ≤ step }
        ensures same { let w = world_of self.now.setting.now in from < w.rules.nodes → to < w.rules.nodes → from ≢ to →
            step ≤ w.horizon → w.arrival from to step ≤ w.horizon → is_marked marks.new.points to (w.arrival from to step) ≡ false →
            Ignores w self.now.to.now.set to (w.arrival from to step) run.now ⊎ (differs ≡ false) }
        ensures kept { (n t : ℕ) → is_marked marks.old.points n t ≡ true → is_marked marks.new.points n t ≡ true }
    {
        if from != to && differs {
            self.mark_arrival(marks, run, from, to, step);
        }
    }
}

/// Marks a node's points from one step to another, both among them.
fn mark_span(marks: &mut Marks, node: u32, first: u32, last: u32)
    requires node { node < 8 }
    requires last { last < 50 }
    ensures marked { (t : ℕ) → first ≤ t → t ≤ last → is_marked marks.new.points node t ≡ true }
    ensures kept { (n t : ℕ) → is_marked marks.old.points n t ≡ true → is_marked marks.new.points n t ≡ true }
{
    for step in first..last + 1 {
        marks.mark(node, step);
    }
}
