//! What is asked of rules and of bounds: laws, contracts of calls that compute nothing.

ghost use Rattle.std.specs.Prelude.{◌≡◌, ◌<◌, ◌≤◌, ℕ, false};
ghost use Rattle.std.specs.List.{Contains};
ghost use Rattle.lf_faults.specs.declared.spec.Bounds.{Bounds};
ghost use Rattle.lf_faults.specs.Allowed.{IsInLimits};
ghost use Rattle.lf_mutations.specs.declared.mutation.Mutation.{Mutation};
ghost use Rattle.lf_mutations.specs.declared.mutation.Mutation.TheVariants as those;
ghost use Rattle.lf_doubt.specs.declared.ground.Ground.{Ground};
ghost use Rattle.lf_doubt.specs.declared.ground.Stake.{Stake};
ghost use Rattle.lf_doubt.specs.declared.question.Question.TheVariants as asks;
ghost use Rattle.lf_doubt.specs.declared.change.Change.{Change};
ghost use Rattle.lf_doubt.specs.Bounds.{IsLarger, bounds_asked};
ghost use Rattle.lf_doubt.specs.Questions.{is_starting, questions_of, times_in};

/// Each change of a rule is asked, and no other. Of a rule that may never be taken, and isn't one of the start, it is asked in how many runs it is.
pub fn rules_are_asked()
    ensures each { (g : Ground) (m : Mutation) → Contains g.mutations.now m → Contains (questions_of g) (asks.Rule m) }
    ensures only { (g : Ground) (m : Mutation) → Contains (questions_of g) (asks.Rule m) → Contains g.mutations.now m }
    ensures taken { (g : Ground) (rule : ℕ) → Contains g.mutations.now (those.Never rule) → is_starting g.starting.now rule ≡ false →
        Contains (questions_of g) (asks.Taken rule (times_in g.taken.now rule) g.runs) }
{}

/// What was counted of each part of the promise is told.
pub fn parts_are_told()
    ensures { (g : Ground) (stake : Stake) → Contains g.stakes.now stake → Contains (questions_of g) (asks.Part stake) }
{}

/// A change of a bound makes it larger, and keeps the limits of scenarios.
pub fn bounds_grow()
    ensures { (b : Bounds) (change : Change) → IsInLimits b → Contains (bounds_asked b) (asks.With change) → IsLarger b change }
{}
