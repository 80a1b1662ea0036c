//! What promises and constants are in a scenario: laws, each the contract of a call that computes nothing.

ghost use Rattle.std.specs.Prelude.{◌≡◌, ◌≤◌, ℕ, true, List, Ok};
ghost use Rattle.toml.specs.Data.{Members};
ghost use Rattle.lf_faults.specs.Allowed.{IsInLimits};
ghost use Rattle.lf_faults.specs.declared.spec.Bounds.{Bounds};
ghost use Rattle.lf_rules.specs.Forms.{is_well_formed};
ghost use Rattle.lf_rules.specs.declared.definition.Given.{Given};
ghost use Rattle.lf_rule_machine.specs.Instances.{Instance};
ghost use Rattle.lf_rule_machine.specs.Machines.{is_machine};
ghost use Rattle.lf_protocols.specs.declared.fact.Fact.{Fact};
ghost use Rattle.lf_protocols.specs.declared.protocol.Kind.TheVariants as kinds;
ghost use Rattle.lf_outcome.specs.declared.formula.Formula.{Formula};
ghost use Rattle.lf_promises.specs.declared.promise.Promise.{Promise};
ghost use Rattle.lf_promises.specs.Facts.{names_facts};
ghost use Rattle.lf_own_scenario.specs.declared.scene.Scene.{Scene};
ghost use Rattle.lf_own_scenario.specs.Topics.{topics_in};
ghost use Rattle.lf_outcome.specs.Unfolding.{unfolded as said_by};
ghost use Rattle.lf_own_scenario.specs.Spans.{unfolded};
ghost use Rattle.lf_own_scenario.specs.Unfolding.{formula_at};
ghost use Rattle.lf_protocol_file.specs.declared.declared.Declared.{Declared};
ghost use Rattle.lf_outcome.specs.Formulas.{IsFormulaOf};
ghost use Rattle.lf_own_scenario.specs.Constants.{given_in};

/// What the formula of a promise says, without spans of steps, is the promise unfolded step by step at the last step, with its topics numbered from 0.
pub fn formulas_are_unfolded()
    ensures { (s : Scene) (promise : Promise) (formula : Formula Fact) → unfolded s promise ≡ Ok formula →
        said_by formula ≡ formula_at s 0 promise s.horizon }
{}

/// The formula of a promise that names facts of its protocol alone is a formula of the scenario, for every protocol of rules and all bounds.
pub fn promises_are_formulas()
    ensures { (m : Instance) (b : Bounds) (s : Scene) (promise : Promise) (formula : Formula Fact) →
        IsInLimits b → s.nodes ≡ b.nodes → s.horizon ≡ b.horizon → m.topics ≡ topics_in promise → names_facts m.definition promise ≡ true →
        unfolded s promise ≡ Ok formula → IsFormulaOf (kinds.Ruled m) b formula }
{}

/// What a scenario says of the constants of a protocol file fits them: among 2 to 8 nodes the protocol is a machine.
pub fn constants_fit()
    ensures { (file : Declared) (nodes : ℕ) (members : Members) (given : List Given) → is_well_formed file.definition ≡ true → 2 ≤ nodes → nodes ≤ 8 →
        given_in file nodes members ≡ Ok given → is_machine file.definition nodes given ≡ true }
{}
