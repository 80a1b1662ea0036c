//! What the definition of runs says of each point, for every world and every list of faults.
//!
//! A point is a node with a step. Of each, the laws say whether the node is up there, its view (its state after the
//! step), the notes that it sends in it, and its inbox.

ghost use Rattle.std.specs.Prelude.{◌≡◌, ℕ, ◌+◌, ◌<◌, ◌≤◌, true, false, ◌↔◌, List};
ghost use Rattle.std.specs.List.{Contains, AllPairs};
ghost use Rattle.lf_faults.specs.declared.fault.Parts.{Parts};
ghost use Rattle.lf_sim.specs.declared.letter.Letter.{Letter};
ghost use Rattle.lf_sim.specs.Runs.{World, is_up, view, sent, inbox};
ghost use Rattle.lf_sim.specs.Settings.{world_of};
ghost use Rattle.lf_sim.specs.Points.{IsRunning, EndsPause, StepsFrom, ArrivesLater, Reaches, ComesBefore, SameUntil};

use crate::{Machine, Setting};
use lf_latency::arrives_late;

/// The views, notes and inboxes of each point, from those of the points before it.
pub fn by_points<State, Note, Fact>()
    // Before step 1 each node is as it starts, and has sent nothing.
    ensures start { (w : World State Note Fact) (faults : List Parts) (n : ℕ) →
        view w faults n 0 ≡ w.rules.start n }
    ensures unsent { (w : World State Note Fact) (faults : List Parts) (n m : ℕ) →
        sent w faults n m 0 ≡ None }

    // A node is up at the points that no crash and no pause of it takes out.
    ensures up { (w : World State Note Fact) (faults : List Parts) (n t : ℕ) →
        (is_up w faults n t ≡ true) ↔ IsRunning w faults n t }

    // A node that is up does what its step gives of its last view and its inbox. Where a pause of it has just ended,
    // it wakes first.
    ensures steps { (w : World State Note Fact) (faults : List Parts) (n t : ℕ) →
        is_up w faults n (t + 1) ≡ true → ¬ EndsPause w faults n (t + 1) →
        StepsFrom w faults n (t + 1) (view w faults n t) }
    ensures wakes { (w : World State Note Fact) (faults : List Parts) (n t : ℕ) →
        is_up w faults n (t + 1) ≡ true → EndsPause w faults n (t + 1) →
        StepsFrom w faults n (t + 1) (w.rules.wake n (t + 1) (view w faults n t)) }

    // One that isn't up keeps its view, and sends nothing.
    ensures keeps { (w : World State Note Fact) (faults : List Parts) (n t : ℕ) →
        is_up w faults n (t + 1) ≡ false → view w faults n (t + 1) ≡ view w faults n t }
    ensures silent { (w : World State Note Fact) (faults : List Parts) (n m t : ℕ) →
        is_up w faults n t ≡ false → sent w faults n m t ≡ None }

    // An inbox holds the notes that reach it, once each, by sender and then by sending step.
    ensures members { (w : World State Note Fact) (faults : List Parts) → ArrivesLater w →
        (m u : ℕ) (letter : Letter Note) → m < w.rules.nodes →
        (Contains (inbox w faults m u) letter ↔ Reaches w faults m u letter) }
    ensures order { (w : World State Note Fact) (faults : List Parts) (m u : ℕ) →
        AllPairs ComesBefore (inbox w faults m u) }
{}

/// A fault changes nothing before its own step: two lists with the same faults up to a step `b` make the same run up
/// to `b`.
pub fn same_until<State, Note, Fact>()
    ensures up { (w : World State Note Fact) (faults others : List Parts) (b : ℕ) →
        SameUntil b faults others → (n t : ℕ) → t ≤ b → is_up w faults n t ≡ is_up w others n t }
    ensures views { (w : World State Note Fact) (faults others : List Parts) (b : ℕ) →
        SameUntil b faults others → (n t : ℕ) → t ≤ b → view w faults n t ≡ view w others n t }
    ensures notes { (w : World State Note Fact) (faults others : List Parts) (b : ℕ) →
        SameUntil b faults others → (n m t : ℕ) → t ≤ b → sent w faults n m t ≡ sent w others n m t }
    ensures inboxes { (w : World State Note Fact) (faults others : List Parts) (b : ℕ) →
        SameUntil b faults others → (m u : ℕ) → u ≤ b → inbox w faults m u ≡ inbox w others m u }
{}

/// What one node sends to another in a setting arrives at a later step. So `by_points` says of each setting what its
/// inboxes hold.
pub fn arrivals_are_later<M: Machine>(setting: &Setting<M>)
    ensures { ArrivesLater (world_of setting.now) }
{
    arrives_late(&setting.network);
}

/// The inboxes of a setting's nodes hold the notes that reach them, under every list of faults.
pub fn inboxes_of<M: Machine>(setting: &Setting<M>)
    ensures { (faults : List Parts) (m u : ℕ) (letter : Letter M.Note) → m < (world_of setting.now).rules.nodes →
        (Contains (inbox (world_of setting.now) faults m u) letter ↔ Reaches (world_of setting.now) faults m u letter) }
{
    arrivals_are_later(setting);
    by_points::<M::State, M::Note, M::Fact>();
}
