//! What the definitions of this crate promise, for every text: calls that compute nothing, whose contracts are the laws.

ghost use Rattle.std.specs.Prelude.{◌≡◌, ℕ, List};
ghost use Rattle.lf_scenario.specs.declared.error.ScenarioError.{ScenarioError};
ghost use Rattle.lf_outcome.specs.declared.scenario.Scenario.{Scenario};
ghost use Rattle.lf_outcome.specs.Sameness.{AreSame};
ghost use Rattle.lf_scenario.specs.Scenarios.{IsRefused, IsText};

/// A text has at most one refusal, and none where it is the text of a scenario.
pub fn refusals_are_one()
    ensures one { (text : List ℕ) (e f : ScenarioError) → IsRefused text e → IsRefused text f → e ≡ f }
    ensures none { (text : List ℕ) (e : ScenarioError) (s : Scenario) → IsRefused text e → ¬ (IsText s text) }
{}

/// Two scenarios of one text are the same, links included.
pub fn scenarios_are_one()
    ensures { (text : List ℕ) (s t : Scenario) → IsText s text → IsText t text → AreSame s t }
{}
