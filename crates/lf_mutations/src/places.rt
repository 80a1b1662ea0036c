//! Where a rule stands.

ghost use Rattle.std.specs.Prelude.{◌≤◌, IfSome, IfNone};
ghost use Rattle.lf_rules.specs.Forms.{rules_in};
ghost use Rattle.lf_mutations.specs.Places.{IsPlace};

use lf_rules::Chain;

/// Where a rule stands.
#[derive(Clone, Copy)]
pub(crate) struct Place {
    /// Its chain, from 0 on.
    pub chain: usize,
    /// Which one of its chain it is, from 0 on.
    pub rule: usize,
}

/// Where the rule stands that has so many rules before it. None where there are no more than these.
pub(crate) fn place_after(chains: &[Chain], before: usize) -> Option<Place>
    ensures found { IfSome result (λ place. IsPlace chains.now before place) }
    ensures none { IfNone result (rules_in chains.now ≤ before) }
{
    let mut rule = before;
    for (i, chain) in chains.iter().enumerate() {
        if rule < chain.rules.len() {
            return Some(Place { chain: i, rule });
        }
        rule -= chain.rules.len();
    }
    None
}
