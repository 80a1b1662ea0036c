//! What the definition of a scenario of a protocol file promises, for every file and every text: calls that compute nothing, whose contracts are the laws.

ghost use Rattle.std.specs.Prelude.{◌≡◌, ℕ, List};
ghost use Rattle.lf_scenario.specs.declared.error.ScenarioError.{ScenarioError};
ghost use Rattle.lf_outcome.specs.declared.scenario.Scenario.{Scenario};
ghost use Rattle.lf_outcome.specs.Sameness.{AreSame};
ghost use Rattle.lf_protocol_file.specs.declared.declared.Declared.{Declared};
ghost use Rattle.lf_own_scenario.specs.Scenarios.{IsRefusedWith, IsTextWith};

/// Where a protocol file is known, a text has at most one refusal, and none where it is the text of a scenario.
pub fn refusals_are_one()
    ensures one { (file : Declared) (text : List ℕ) (e f : ScenarioError) → IsRefusedWith file text e → IsRefusedWith file text f → e ≡ f }
    ensures none { (file : Declared) (text : List ℕ) (e : ScenarioError) (s : Scenario) → IsRefusedWith file text e → ¬ (IsTextWith file s text) }
{}

/// Where a protocol file is known, two scenarios of one text are the same, links included.
pub fn scenarios_are_one()
    ensures { (file : Declared) (text : List ℕ) (s t : Scenario) → IsTextWith file s text → IsTextWith file t text → AreSame s t }
{}
