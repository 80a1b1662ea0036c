//! Which scenario is searched.

use std::marker::Brand;
use std::sync::ledger::Ledger;

/// Which scenario the workers search that count in a ledger. Each search picks its own, so what lies under a lock and what a worker keeps are known
/// to be of one scenario, and nothing needs to be compared for it.
pub trait Searched: Ledger {
    ghost use Rattle.std.specs.Prelude.{Option};
    ghost use Rattle.lf_outcome.specs.declared.scenario.Scenario.{Scenario};

    ghost scenario: { Option Scenario };
}

impl Searched for Brand {
    ghost use Rattle.std.specs.Prelude.{None};

    ghost scenario = { None };
}
