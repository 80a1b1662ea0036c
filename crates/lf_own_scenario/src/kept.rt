//! What the outcome of a scenario of a protocol file means: a law, the contract of a call that computes nothing.

ghost use Rattle.std.specs.Prelude.{◌≡◌, ℕ, List, Some};
ghost use Rattle.toml.specs.Data.{Members, string, get_member};
ghost use Rattle.lf_scenario.specs.declared.key.Key.TheVariants as keys;
ghost use Rattle.lf_outcome.specs.declared.scenario.Scenario.{Scenario};
ghost use Rattle.lf_scenario.specs.Keys.{key_name};
ghost use Rattle.lf_protocol_file.specs.declared.declared.Declared.{Declared};
ghost use Rattle.lf_own_scenario.specs.Kept.{IsPromised};
ghost use Rattle.lf_own_scenario.specs.Scenarios.{IsAskedWith};

/// The formula of a scenario whose outcome is a text is true in the run of a set of faults exactly where the promise that the text is is kept in it, as
/// `is_kept` says of nodes, steps and facts. Each view of its runs is a state of rules, and has the facts that the protocol's definition says of it.
pub fn outcomes_are_kept()
    ensures { (file : Declared) (members : Members) (words : List ℕ) (s : Scenario) → get_member (key_name keys.Outcome) members ≡ Some (string words) →
        IsAskedWith file members s → IsPromised file members words s }
{}
