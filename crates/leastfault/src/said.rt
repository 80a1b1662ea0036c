//! What a reply says, as a value.

use lf_check::Verdict;
use lf_delays::Delay;
use lf_faults::FaultSet;
use lf_outcome::Scenario;
use lf_protocol_file::{ProtocolError, ProtocolFile};
use lf_scenario::ScenarioError;
use lf_tree::{Tree, TreeFault};

/// What the lines of a reply were made of, for whoever explains them. What is promised of a reply is promised of its lines.
#[derive(Drop)]
pub enum Said {
    /// A run, which its lines tell alone.
    Run,
    /// The answer: the first of the least sets, and none where no allowed set defeats the outcome.
    Answer(Option<FaultSet>),
    /// All least sets.
    AllLeast(Vec<FaultSet>),
    /// The answer over every delay, where a set defeats the outcome, and the notes that come late in its run.
    Late {
        set: FaultSet,
        delays: Vec<Delay>,
    },
    /// A level of the search has so many sets, and the scenario lets it keep `most`.
    Full {
        level: u32,
        count: u64,
        most: u32,
    },
    /// What is judged of a certificate for a scenario.
    Judged {
        verdict: Verdict,
        scenario: Scenario,
        tree: Tree,
    },
    /// A text is this protocol file.
    File(ProtocolFile),
    /// The protocol file is refused.
    NoFile(ProtocolError),
    /// The scenario is refused.
    NoScenario(ScenarioError),
    /// The certificate is refused, or that of an answer would be too long.
    NoTree(TreeFault),
    /// The words name no allowed set of faults.
    NoFaults,
    /// The words name no delays of the scenario.
    NoDelays,
}
