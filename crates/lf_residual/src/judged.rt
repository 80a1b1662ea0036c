//! The truth of each part of a formula, kept from one run to the next.

ghost use Rattle.std.specs.Prelude.{◌≡◌, ℕ, true, List, ◌++◌, IfOk, OnOk, IfSome, Some, None, if◌then◌else◌};
ghost use Rattle.std.specs.List.{flat_map, list_all};
ghost use Rattle.lf_outcome.specs.Unfolding.{is_plain};
ghost use Rattle.std.specs.Option.{is_some, option_map};
ghost use Rattle.lf_faults.specs.declared.fault.Parts.{Parts};
ghost use Rattle.lf_outcome.specs.Evidence.{AreUp, ArePoints, Covers, evidence_of};
ghost use Rattle.lf_outcome.specs.Truth.{reaches, reaches_within};
ghost use Rattle.lf_protocols.specs.declared.note.Note.{Note};
ghost use Rattle.lf_protocols.specs.declared.state.State.{State};
ghost use Rattle.lf_sim.specs.Runs.{World};
ghost use Rattle.lf_sim.specs.Settings.{IsRun, set_of, world_of};
ghost use Rattle.lf_residual.specs.Judging.{IsJudged, IsJudgedBut, truths_of};

use crate::Part;
use crate::judging::{Change, judge_again};
use crate::outline::put_parts;
use crate::resting::{Ground, put_points};
use lf_outcome::{Formula, Point, holds, unfold};
use lf_protocols::{Fact, Protocol};
use lf_sim::{Marks, Run, Setting};
use std::alloc::{AllocError, Global};

/// The parts of a formula, and the truth of each in a run: unfolded, each part of an Over at each of its steps is a part.
///
/// Where the run is made that of another set of faults, those parts alone are judged again that speak of points which changed.
#[derive(Drop)]
pub struct Judged {
    /// The formula without Over.
    formula: Formula<Fact>,
    /// The parts, in preorder.
    parts: Vec<Part>,
    /// The truth of each part, in preorder.
    truths: Vec<bool>,
}

impl Judged {
    /// The parts of a formula, judged in a run of this setting. The error is that memory has run out.
    pub fn of(
        alloc: Global,
        setting: &Setting<Protocol>,
        formula: &Formula<Fact>,
        run: &Run<Protocol>,
    ) -> Result<Judged, AllocError>
        requires { IsRun (world_of setting.now) run.now }
        ensures { IfOk result (IsJudged (world_of setting.now) (set_of run.now) formula.now) }
    {
        let formula = unfold(alloc, formula)?;
        let mut parts = Vec::new(alloc);
        put_parts(&formula, &mut parts)?;
        let mut truths = Vec::with_capacity(alloc, parts.len())?;
        put_truths(setting, &formula, run, &mut truths)?;
        Ok(Judged {
            formula,
            parts,
            truths,
        })
    }

    /// Judges the formula in another run, where the points at which that may differ from the one before are marked. It takes no memory.
    pub fn judge_again(
        &mut self,
        setting: &Setting<Protocol>,
        formula: &Formula<Fact>,
        run: &Run<Protocol>,
        changed: &Marks,
    )
        requires run { IsRun (world_of setting.now) run.now }
        requires judged { IsJudgedBut (world_of setting.now) changed.now.points (set_of run.now) formula.now self.old }
        ensures { IsJudged (world_of setting.now) (set_of run.now) formula.now self.new }
    {
        let change = Change {
            setting,
            run,
            changed,
            parts: self.parts.as_slice(),
        };
        judge_again(&change, &self.formula, 0, self.truths.as_mut_slice());
    }

    /// Whether the run reaches the outcome, where the formula was judged in it.
    pub fn holds(&self) -> bool
        ensures { (w : World State Note Fact) (faults : List Parts) (formula : Formula Fact) → IsJudged w faults formula self.now →
            result ≡ reaches w faults formula }
    {
        match self.truths.first() {
            Some(truth) => *truth,
            None => false,
        }
    }

    /// The points on which that rests, in the order of the formula: of All those of all parts, of Any those of its first true part, and of One
    /// all of its points at which nodes are up. None where the formula is false. The error is that memory has run out.
    pub fn evidence(
        &self,
        alloc: Global,
        setting: &Setting<Protocol>,
        formula: &Formula<Fact>,
        run: &Run<Protocol>,
    ) -> Result<Option<Vec<Point>>, AllocError>
        requires run { IsRun (world_of setting.now) run.now }
        requires judged { IsJudged (world_of setting.now) (set_of run.now) formula.now self.now }
        ensures value { IfOk result (λ found. option_map (λ points. points.items) found ≡
            evidence_of (world_of setting.now) (set_of run.now) formula.now) }
        ensures truth { IfOk result (λ found. is_some found ≡ reaches (world_of setting.now) (set_of run.now) formula.now) }
        ensures points { IfOk result (λ found. IfSome found (λ points. ArePoints (world_of setting.now) points.items)) }
        ensures up { IfOk result (λ found. IfSome found (λ points. AreUp (world_of setting.now) (set_of run.now) points.items)) }
        ensures suffices { IfOk result (λ found. IfSome found (λ points. (reach : List ℕ) → Covers reach points.items →
            reaches_within (world_of setting.now) (set_of run.now) reach formula.now ≡ true)) }
    {
        let mut points = Vec::new(alloc);
        if self.fill_evidence(setting, formula, run, &mut points)? {
            Ok(Some(points))
        } else {
            Ok(None)
        }
    }

    /// The same, put into a list in place of what it held: whether the run reaches the outcome, and where it does, the list has those points. It takes
    /// memory only where the list hasn't enough.
    pub fn fill_evidence(
        &self,
        setting: &Setting<Protocol>,
        formula: &Formula<Fact>,
        run: &Run<Protocol>,
        points: &mut Vec<Point>,
    ) -> Result<bool, AllocError>
        requires run { IsRun (world_of setting.now) run.now }
        requires judged { IsJudged (world_of setting.now) (set_of run.now) formula.now self.now }
        ensures value { IfOk result (λ found. (if found then Some points.new.items else None) ≡
            evidence_of (world_of setting.now) (set_of run.now) formula.now) }
        ensures truth { IfOk result (λ found. found ≡ reaches (world_of setting.now) (set_of run.now) formula.now) }
        ensures points { IfOk result (λ found. found ≡ true → ArePoints (world_of setting.now) points.new.items) }
        ensures up { IfOk result (λ found. found ≡ true → AreUp (world_of setting.now) (set_of run.now) points.new.items) }
        ensures suffices { IfOk result (λ found. found ≡ true → (reach : List ℕ) → Covers reach points.new.items →
            reaches_within (world_of setting.now) (set_of run.now) reach formula.now ≡ true) }
    {
        points.clear();
        if !self.holds() {
            return Ok(false);
        }
        let ground = Ground {
            setting,
            run,
            parts: self.parts.as_slice(),
            truths: self.truths.as_slice(),
        };
        put_points(&ground, &self.formula, 0, points)?;
        Ok(true)
    }
}

/// Puts the truth of each part of a formula without Over at the end. The error is that memory has run out.
#[cycle(put_truths)]
fn put_truths(
    setting: &Setting<Protocol>,
    formula: &Formula<Fact>,
    run: &Run<Protocol>,
    truths: &mut Vec<bool>,
) -> Result<(), AllocError>
    requires run { IsRun (world_of setting.now) run.now }
    requires plain { is_plain formula.now ≡ true }
    ensures { OnOk result (truths.new.items ≡ truths.old.items ++ truths_of (world_of setting.now) (set_of run.now) formula.now) }
{
    truths.push(holds(setting, formula, run))?;
    match formula {
        Formula::All(parts) => put_each(setting, parts.as_slice(), run, truths),
        Formula::Any(parts) => put_each(setting, parts.as_slice(), run, truths),
        Formula::Down { .. } => Ok(()),
        Formula::Shows { .. } => Ok(()),
        Formula::One { .. } => Ok(()),
        Formula::Over { .. } => Ok(()),
    }
}

/// The same for each of some formulas.
#[cycle(put_truths)]
fn put_each(
    setting: &Setting<Protocol>,
    parts: &[Formula<Fact>],
    run: &Run<Protocol>,
    truths: &mut Vec<bool>,
) -> Result<(), AllocError>
    requires run { IsRun (world_of setting.now) run.now }
    requires plain { list_all is_plain parts.now ≡ true }
    ensures { OnOk result (truths.new.items ≡ truths.old.items ++ flat_map (truths_of (world_of setting.now) (set_of run.now)) parts.now) }
{
    'parts: for part in parts {
        put_truths(setting, part, run, truths)?;
    }
    Ok(())
}
