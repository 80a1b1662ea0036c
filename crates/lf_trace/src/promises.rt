//! What the definitions of this crate promise: a call that computes nothing, whose contract is the law.

ghost use Rattle.std.specs.Prelude.{◌≡◌, ◌≢◌, ◌+◌, ◌<◌, ℕ, [], List};
ghost use Rattle.lf_trace.specs.Beside.{node_pair};
ghost use Rattle.lf_trace.specs.Changes.{titled};
ghost use Rattle.lf_trace.specs.First.{first_difference};
ghost use Rattle.lf_faults.specs.declared.fault.Parts.{Parts};
ghost use Rattle.lf_sim.specs.Runs.{World};
ghost use Rattle.lf_trace.specs.Traces.{node_line};
ghost use Rattle.lf_trace.specs.Words.{Words};

/// The first difference is that of the first step, and then of the first node, of which two traces have different lines. It is empty where they have
/// the same lines of all nodes.
pub fn differences_are_first<State, Note, Fact>()
    ensures first { (words : Words State Note) (w : World State Note Fact) (other faults : List Parts) (past n : ℕ) → past < w.horizon → n < w.rules.nodes →
        node_line words w other (past + 1) n ≢ node_line words w faults (past + 1) n →
        ((m : ℕ) → m < n → node_line words w other (past + 1) m ≡ node_line words w faults (past + 1) m) →
        ((u m : ℕ) → u < past → m < w.rules.nodes → node_line words w other (u + 1) m ≡ node_line words w faults (u + 1) m) →
        first_difference words w other faults ≡ titled (past + 1) (node_pair words w other faults (past + 1) n) }
    ensures none { (words : Words State Note) (w : World State Note Fact) (other faults : List Parts) →
        ((u m : ℕ) → u < w.horizon → m < w.rules.nodes → node_line words w other (u + 1) m ≡ node_line words w faults (u + 1) m) →
        first_difference words w other faults ≡ [] }
{}
