//! That no question is left out: a law, the contract of a call that computes nothing.

ghost use Rattle.std.specs.Prelude.{ℕ, Bool, true, List, Some, IsSome};
ghost use Rattle.std.specs.List.{Contains};
ghost use Rattle.lf_doubt.specs.declared.question.Question.{Question};
ghost use Rattle.lf_doubt.specs.declared.question.Question.TheVariants as asks;
ghost use Rattle.lf_mutations.specs.declared.mutation.Mutation.{Mutation};
ghost use Rattle.lf_mutations.specs.declared.mutation.Mutation.TheVariants as those;
ghost use Rattle.lf_mutations.specs.Mutations.{mutated};
ghost use Rattle.lf_outcome.specs.declared.scenario.Scenario.{Scenario};
ghost use Rattle.lf_protocol_file.specs.declared.declared.Declared.{Declared};
ghost use Rattle.leastfault_doubt.specs.Doubts.{AreQuestions};

/// With `deep`, each change of a rule of the file that can be made is asked, and no other. Without it, of each rule that there is it is asked what comes
/// of it where it never is taken, and where it always is.
pub fn each_rule_is_asked()
    ensures deep { (file : Declared) (text : List ℕ) (s : Scenario) (questions : List Question) (m : Mutation) →
        AreQuestions (Some file) text s true questions → IsSome (mutated file.definition m) → Contains questions (asks.Rule m) }
    ensures only { (file : Declared) (text : List ℕ) (s : Scenario) (deep : Bool) (questions : List Question) (m : Mutation) →
        AreQuestions (Some file) text s deep questions → Contains questions (asks.Rule m) → IsSome (mutated file.definition m) }
    ensures never { (file : Declared) (text : List ℕ) (s : Scenario) (deep : Bool) (questions : List Question) (rule : ℕ) →
        AreQuestions (Some file) text s deep questions → IsSome (mutated file.definition (those.Never rule)) →
        Contains questions (asks.Rule (those.Never rule)) }
    ensures always { (file : Declared) (text : List ℕ) (s : Scenario) (deep : Bool) (questions : List Question) (rule : ℕ) →
        AreQuestions (Some file) text s deep questions → IsSome (mutated file.definition (those.Always rule)) →
        Contains questions (asks.Rule (those.Always rule)) }
{}
