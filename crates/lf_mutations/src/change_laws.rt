//! What changes are: laws, each the contract of a call that computes nothing.

ghost use Rattle.std.specs.Prelude.{◌≡◌, ◌↔◌, ℕ, ◌+◌, ◌<◌, Bool, true, List, length, take, IsSome, Some, slice_get};
ghost use Rattle.std.specs.List.{Contains};
ghost use Rattle.lf_rules.specs.declared.definition.Definition.{Definition};
ghost use Rattle.lf_rules.specs.declared.rule.Chain.{Chain};
ghost use Rattle.lf_rules.specs.Forms.{rules_in, is_well_formed};
ghost use Rattle.lf_mutations.specs.declared.mutation.Mutation.{Mutation};
ghost use Rattle.lf_mutations.specs.Mutations.{mutated, mutations, rules_of};
ghost use Rattle.lf_mutations.specs.Changes.{IsMutant, IsThere};

/// Rules are numbered chain by chain: a rule has those of the chains before its own before it, and those before it in its own.
pub fn rules_are_numbered()
    ensures { (chains : List Chain) (i j : ℕ) (chain : Chain) → slice_get chains i ≡ Some chain → j < length chain.rules →
        slice_get (rules_of chains) (rules_in (take i chains) + j) ≡ slice_get chain.rules j }
{}

/// A change of what is well formed is well formed.
pub fn mutations_are_well_formed()
    ensures { (d e : Definition) (m : Mutation) → is_well_formed d ≡ true → mutated d m ≡ Some e → is_well_formed e ≡ true }
{}

/// A change can be made where there is what it changes, and there alone. It makes one rule another, and leaves all else as it is.
pub fn one_rule_changes()
    ensures there { (d : Definition) (m : Mutation) → (IsSome (mutated d m) ↔ IsThere d m) }
    ensures change { (d e : Definition) (m : Mutation) → mutated d m ≡ Some e → IsMutant d m e }
{}

/// All changes are those that can be made, each once; without `deep` some of them.
pub fn mutations_are_all()
    ensures made { (d : Definition) (deep : Bool) (m : Mutation) → Contains (mutations d deep) m → IsSome (mutated d m) }
    ensures all { (d : Definition) (m : Mutation) → IsSome (mutated d m) → Contains (mutations d true) m }
    ensures once { (d : Definition) (deep : Bool) (i j : ℕ) (m : Mutation) →
        slice_get (mutations d deep) i ≡ Some m → slice_get (mutations d deep) j ≡ Some m → i ≡ j }
{}
