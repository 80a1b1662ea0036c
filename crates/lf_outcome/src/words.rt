//! The words of the outcomes, and which outcomes each protocol has.

ghost use Rattle.std.specs.Prelude.{◌≡◌, ◌≢◌, IfSome, IfNone, All, Contains, find};
ghost use Rattle.std.specs.Str.{bytes_eq};
ghost use Rattle.lf_outcome.specs.Outcomes.{outcome_word, outcomes_of, outcome_named};

use crate::Outcome;
use lf_protocols::{Kind, Protocol};

impl Outcome {
    /// The outcome's word: its name in lower case, with `_` between two words.
    pub fn word(&self) -> &'static str
        ensures { result.now ≡ outcome_word self.now }
    {
        match self {
            Outcome::Delivered => "delivered",
            Outcome::Agreement => "agreement",
            Outcome::Unblocked => "unblocked",
            Outcome::OnePrimary => "one_primary",
            Outcome::Durable => "durable",
        }
    }
}

/// The outcome of this protocol that has the word. None where it has none.
pub fn outcome_named(protocol: &Protocol, word: &str) -> Option<Outcome>
    ensures value { result ≡ outcome_named protocol.now word.now }
    ensures some { IfSome result (λ outcome. Contains (outcomes_of protocol.now) outcome × (outcome_word outcome ≡ word.now)) }
    ensures none { IfNone result (All (λ outcome. outcome_word outcome ≢ word.now) (outcomes_of protocol.now)) }
{
    first_named(outcomes(protocol.kind()), word)
}

/// The outcomes of a protocol.
fn outcomes(kind: &Kind) -> &'static [Outcome]
    ensures { result.now ≡ outcomes_of kind.now }
{
    match kind {
        Kind::Retry { .. } | Kind::Redundant { .. } => &[Outcome::Delivered],
        Kind::TwoPhase { .. } | Kind::ThreePhase { .. } => &[
            Outcome::Agreement,
            Outcome::Unblocked,
        ],
        Kind::PrimaryBackup { .. } => &[Outcome::OnePrimary, Outcome::Durable],
        Kind::Ruled(_) => &[],
    }
}

/// The first of the outcomes that has the word.
fn first_named(outcomes: &[Outcome], word: &str) -> Option<Outcome>
    ensures { result ≡ find (λ outcome. bytes_eq word.now (outcome_word outcome)) outcomes.now }
{
    outcomes
        .iter()
        .copied()
        .find(|outcome| word == outcome.word())
}
