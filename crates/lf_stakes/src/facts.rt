//! What the counts say of runs, and which list the single sets are: laws, contracts of calls that compute nothing.

ghost use Rattle.std.specs.Prelude.{◌≡◌, ◌<◌, ◌≤◌, ◌+◌, ◌↔◌, ℕ, List, true, Some, slice_get, length};
ghost use Rattle.lf_faults.specs.declared.fault.Parts.{Parts};
ghost use Rattle.lf_faults.specs.declared.spec.Bounds.{Bounds};
ghost use Rattle.lf_faults.specs.Allowed.{IsAllowed};
ghost use Rattle.lf_sim.specs.Runs.{World};
ghost use Rattle.lf_protocols.specs.declared.fact.Fact.{Fact};
ghost use Rattle.lf_protocols.specs.declared.note.Note.{Note};
ghost use Rattle.lf_protocols.specs.declared.state.State.{State};
ghost use Rattle.lf_protocols.specs.declared.protocol.Kind.{Kind};
ghost use Rattle.lf_stakes.specs.Entered.{IsEntered, is_entered_in};
ghost use Rattle.lf_stakes.specs.Singles.{AreSingles};
ghost use Rattle.lf_stakes.specs.Stakes.{IsTaken, counts_of, is_taken_in, rules_of};

use lf_faults::orders_are_total;

/// A run counts for a rule where some node takes it at some step of the run, and nowhere else.
pub fn a_count_is_of_runs()
    ensures { (k : Kind) (w : World State Note Fact) (faults : List Parts) (rule : ℕ) →
        (is_taken_in k w faults rule ≡ true) ↔ IsTaken k w faults rule }
{}

/// Where the count of a rule over the single sets is 0, no node takes it at any step of the run of an allowed set with at most one fault.
pub fn a_rule_that_is_never_taken()
    ensures { (k : Kind) (w : World State Note Fact) (b : Bounds) (sets : List (List Parts)) (i : ℕ) →
        AreSingles b sets → slice_get (counts_of k w sets) i ≡ Some 0 →
        (faults : List Parts) → IsAllowed b faults → length faults ≤ 1 → ¬ IsTaken k w faults (i + 1) }
{}

/// Where it isn't 0, some node takes the rule at some step of such a run.
pub fn a_rule_that_is_taken()
    ensures { (k : Kind) (w : World State Note Fact) (b : Bounds) (sets : List (List Parts)) (i count : ℕ) →
        AreSingles b sets → slice_get (counts_of k w sets) i ≡ Some count → 0 < count →
        (faults : List Parts) × IsAllowed b faults × (length faults ≤ 1) × IsTaken k w faults (i + 1) }
{}

/// Each rule that some node takes at some step of a run has a number from 1 to how many rules there are: none is left out of the counts.
pub fn each_rule_that_is_taken_is_counted()
    ensures { (k : Kind) (w : World State Note Fact) (faults : List Parts) (rule : ℕ) →
        IsTaken k w faults rule → (1 ≤ rule) × (rule ≤ rules_of k) }
{}

/// A run counts for a topic where some node, up at some step of the run, enters something under it by its state after that step, and nowhere else.
pub fn an_entry_is_of_a_run()
    ensures { (w : World State Note Fact) (faults : List Parts) (topic : ℕ) →
        (is_entered_in w faults topic ≡ true) ↔ IsEntered w faults topic }
{}

/// There is one list of the single sets of bounds.
pub fn single_sets_are_one()
    ensures { (b : Bounds) (xs ys : List (List Parts)) → AreSingles b xs → AreSingles b ys → xs ≡ ys }
{
    orders_are_total();
}
