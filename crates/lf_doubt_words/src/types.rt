//! What is asked of doubts.

use lf_sweep::Part;

/// What `doubt` asks for. A file stands here as it was written.
#[derive(Debug, Drop)]
pub struct DoubtAsked {
    /// The file of the scenario; `-` is standard input.
    pub file: String,
    /// The file of the protocol that the scenario may name besides the shipped ones, if there is one. It is a file of that name, also
    /// where that is `-`.
    pub protocol: Option<String>,
    /// Whether each assignment and each send of a rule is to be left out, too.
    pub deep: bool,
    /// The most seconds for each question, 1..=86400. None is without end.
    pub seconds: Option<u32>,
    /// How many workers are to ask, 1..=32.
    pub workers: u32,
    /// Which of the questions are asked.
    pub part: Part,
    /// Whether each line is to be a JSON object.
    pub json: bool,
    /// Whether nothing is to be said on standard error where all is well.
    pub quiet: bool,
}
