//! What promises say of nodes and steps: laws, each the contract of a call that computes nothing.

ghost use Rattle.std.specs.Prelude.{◌≡◌, ◌↔◌, ◌≤◌, ℕ, true, false, not, List, All, Option};
ghost use Rattle.std.specs.List.{Any};
ghost use Rattle.lf_faults.specs.declared.fault.Parts.{Parts};
ghost use Rattle.lf_rules.specs.Terms.{Term};
ghost use Rattle.lf_rules.specs.declared.topic.Topic.{Topic};
ghost use Rattle.lf_rules.specs.declared.definition.Definition.{Definition};
ghost use Rattle.lf_rule_machine.specs.declared.state.State.{State as RuleState};
ghost use Rattle.lf_rule_machine.specs.declared.fact.Fact.{Fact as Told};
ghost use Rattle.lf_rule_machine.specs.Machines.{shows_of};
ghost use Rattle.lf_protocols.specs.declared.fact.Fact.{Fact};
ghost use Rattle.lf_sim.specs.Runs.{World, is_up, view};
ghost use Rattle.lf_outcome.specs.Entries.{NoTwoDiffer};
ghost use Rattle.lf_promises.specs.Fronts.{opposite};
ghost use Rattle.lf_promises.specs.declared.promise.Promise.{Promise};
ghost use Rattle.lf_promises.specs.declared.promise.Promise.TheVariants as promises;
ghost use Rattle.lf_promises.specs.declared.promise.Many.TheVariants as manys;
ghost use Rattle.lf_own_scenario.specs.declared.scene.Scene.{Scene};
ghost use Rattle.lf_own_scenario.specs.Quantities.{ruled};
ghost use Rattle.lf_own_scenario.specs.Topics.{from, numbered};
ghost use Rattle.lf_own_scenario.specs.Keeping.{IsKept, IsMeant, UpShows, UpLacks};

/// When a promise with parts is kept, for every world whose states show these facts and every list of faults. Its topics are numbered on from part to part.
pub fn parts_are_kept<State, Note>()
    // every part is kept
    ensures all { (w : World State Note Fact) (faults : List Parts) (s : Scene) (parts : List Promise) (first t : ℕ) →
        IsKept w faults s t (from first (promises.All parts)) ↔ All (IsKept w faults s t) (numbered first parts) }
    // some part is kept
    ensures any { (w : World State Note Fact) (faults : List Parts) (s : Scene) (parts : List Promise) (first t : ℕ) →
        IsKept w faults s t (from first (promises.Any parts)) ↔ Any (IsKept w faults s t) (numbered first parts) }
    // every part is kept at each step, from the first to the last
    ensures always { (w : World State Note Fact) (faults : List Parts) (s : Scene) (parts : List Promise) (first t : ℕ) →
        IsKept w faults s t (from first (promises.Always parts)) ↔ ((u : ℕ) → 1 ≤ u → u ≤ s.horizon → All (IsKept w faults s u) (numbered first parts)) }
    // some part is kept at one of them
    ensures ever { (w : World State Note Fact) (faults : List Parts) (s : Scene) (parts : List Promise) (first t : ℕ) →
        IsKept w faults s t (from first (promises.Ever parts)) ↔ ((u : ℕ) × (1 ≤ u) × (u ≤ s.horizon) × Any (IsKept w faults s u) (numbered first parts)) }
{}

/// When a promise about nodes is kept.
pub fn nodes_keep<State, Note>()
    // each node of the set that is up shows the fact
    ensures each { (w : World State Note Fact) (faults : List Parts) (s : Scene) (fact : Told) (of : Option Term) (first t : ℕ) →
        IsKept w faults s t (from first (promises.Nodes manys.Each fact of))
        ↔ ((n : ℕ) → IsMeant s of n → is_up w faults n t ≡ true → w.rules.shows n (view w faults n t) (ruled fact) ≡ true) }
    // each node of the set that is up shows the fact's opposite
    ensures no { (w : World State Note Fact) (faults : List Parts) (s : Scene) (fact : Told) (of : Option Term) (first t : ℕ) →
        IsKept w faults s t (from first (promises.Nodes manys.No fact of))
        ↔ ((n : ℕ) → IsMeant s of n → is_up w faults n t ≡ true → w.rules.shows n (view w faults n t) (ruled (opposite fact)) ≡ true) }
    // a node of the set is up and shows the fact
    ensures some { (w : World State Note Fact) (faults : List Parts) (s : Scene) (fact : Told) (of : Option Term) (first t : ℕ) →
        IsKept w faults s t (from first (promises.Nodes manys.Some fact of))
        ↔ ((n : ℕ) × IsMeant s of n × UpShows w faults n t fact) }
    // of two nodes of the set that are up and don't show the fact's opposite, one is the other
    ensures at_most_one { (w : World State Note Fact) (faults : List Parts) (s : Scene) (fact : Told) (of : Option Term) (first t : ℕ) →
        IsKept w faults s t (from first (promises.Nodes manys.AtMostOne fact of))
        ↔ ((n m : ℕ) → IsMeant s of n → IsMeant s of m → UpLacks w faults n t (opposite fact) → UpLacks w faults m t (opposite fact) → n ≡ m) }
    // the node isn't up
    ensures down { (w : World State Note Fact) (faults : List Parts) (s : Scene) (n first t : ℕ) →
        IsKept w faults s t (from first (promises.Down n)) ↔ (is_up w faults n t ≡ false) }
    // the node is up and shows the fact
    ensures shows { (w : World State Note Fact) (faults : List Parts) (s : Scene) (n : ℕ) (fact : Told) (first t : ℕ) →
        IsKept w faults s t (from first (promises.At n fact)) ↔ UpShows w faults n t fact }
    // no two of the nodes enter different values for one key, under the number of its topic and at steps to the last
    ensures one { (w : World State Note Fact) (faults : List Parts) (s : Scene) (topic : Topic) (first t : ℕ) →
        IsKept w faults s t (from first (promises.One topic)) ↔ NoTwoDiffer w faults s.nodes s.horizon first }
{}

/// A state of a protocol of rules shows a fact's opposite where it doesn't show the fact.
pub fn opposites_are_opposite()
    ensures { (d : Definition) (nodes : ℕ) (given : List (List ℕ)) (n : ℕ) (state : RuleState) (fact : Told) →
        shows_of d nodes given n state (opposite fact) ≡ not (shows_of d nodes given n state fact) }
{}
