//! Scenarios.

ghost use Rattle.std.specs.Prelude.{◌≡◌, ◌≤◌, ◌↔◌, IsTrue};
ghost use Rattle.lf_latency.specs.Arrivals.{choosing, IsArrivals};
ghost use Rattle.lf_outcome.specs.Formulas.{IsFormulaOf};
ghost use Rattle.lf_outcome.specs.Limits.{most_sets};

use crate::equal::same;
use crate::formula::Formula;
use lf_latency::Arrivals;
use lf_protocols::{Fact, Protocol};
use lf_sim::Setting;

/// What runs, on which network, with how many faults, and what it promises.
#[derive(Drop)]
pub struct Scenario {
    setting: Setting<Protocol>,
    formula: Formula<Fact>,
    max_sets: u32,
    ghost formula_fits: { IsFormulaOf setting.machine setting.spec formula },
    ghost some_sets: { (1 ≤ max_sets) × (max_sets ≤ most_sets) },
}

impl Scenario {
    ghost use Rattle.lf_outcome.specs.Sameness.{AreSame};

    /// The scenario of these parts. It takes no memory.
    pub fn new(setting: Setting<Protocol>, formula: Formula<Fact>, max_sets: u32) -> Scenario
        requires formula { IsFormulaOf setting.machine setting.spec formula }
        requires sets { (1 ≤ max_sets) × (max_sets ≤ most_sets) }
        ensures setting { result.setting ≡ setting }
        ensures formula { result.formula ≡ formula }
        ensures sets { result.max_sets ≡ max_sets }
    {
        Scenario {
            setting,
            formula,
            max_sets,
        }
    }

    /// The protocol on its network, with bounds on its faults.
    pub fn setting(&self) -> &Setting<Protocol>
        ensures { result.now ≡ self.now.setting }
    {
        &self.setting
    }

    /// What the protocol promises: unfolded, it is at points of the run, by facts of the protocol, at most `DEEPEST` deep, with at most `MOST_ATOMS` atoms.
    pub fn formula(&self) -> &Formula<Fact>
        ensures value { result.now ≡ self.now.formula }
        ensures fits { IsFormulaOf self.now.setting.machine self.now.setting.spec self.now.formula }
    {
        &self.formula
    }

    /// The most sets of faults of one size that the search keeps, 1..=`MOST_SETS`.
    pub fn max_sets(&self) -> u32
        ensures value { result ≡ self.now.max_sets }
        ensures some { (1 ≤ result) × (result ≤ most_sets) }
    {
        self.max_sets
    }

    /// The same scenario, but that notes arrive as chosen, whatever the seed says. It takes no memory.
    pub fn choosing(self, arrivals: &Arrivals) -> Scenario
        requires { IsArrivals self.setting.network arrivals.now }
        ensures machine { result.setting.machine ≡ self.setting.machine }
        ensures network { result.setting.network ≡ choosing self.setting.network arrivals.now }
        ensures spec { result.setting.spec ≡ self.setting.spec }
        ensures formula { result.formula ≡ self.formula }
        ensures max_sets { result.max_sets ≡ self.max_sets }
    {
        Scenario {
            setting: self.setting.choosing(arrivals),
            formula: self.formula,
            max_sets: self.max_sets,
        }
    }

    /// Whether two scenarios are equal by value: in their settings, their formulas and `max_sets`.
    pub fn same(&self, other: &Scenario) -> bool
        ensures { IsTrue result ↔ AreSame self.now other.now }
    {
        self.setting.machine.same(&other.setting.machine)
            && self.setting.network.same(&other.setting.network)
            && self.setting.spec == other.setting.spec
            && same_formula(&self.formula, &other.formula)
            && self.max_sets == other.max_sets
    }
}

/// Whether two formulas are equal by value.
fn same_formula(one: &Formula<Fact>, other: &Formula<Fact>) -> bool
    ensures { IsTrue result ↔ (one.now ≡ other.now) }
{
    same(one, other)
}
