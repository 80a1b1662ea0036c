//! What a sweep is asked.

use lf_sweep::{Part, Plan};

/// How a combination is answered.
#[derive(Clone, Copy, Debug, PartialEq, Eq)]
pub enum By {
    /// As `answer` does.
    Answer,
    /// As `search` does.
    Search,
}

/// What `sweep` asks for. A file stands here as it was written.
#[derive(Debug, Drop)]
pub struct SweepAsked {
    /// The file of the scenario; `-` is standard input.
    pub file: String,
    /// What varies.
    pub plan: Plan,
    /// How each combination is to be answered.
    pub by: By,
    /// How many workers are to ask, 1..=32.
    pub workers: u32,
    /// Which of the combinations are asked of.
    pub part: Part,
    /// Whether each line is to be a JSON object.
    pub json: bool,
    /// Whether the replies aren't to be counted on standard error.
    pub quiet: bool,
    /// The file of the protocol that the scenario may name besides the shipped ones, if there is one. It is a file of that name, also
    /// where that is `-`.
    pub protocol: Option<String>,
}
