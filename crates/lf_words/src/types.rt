//! What a command line asks for.

ghost use Rattle.std.specs.Prelude.{◌≡◌};
ghost use Rattle.std.specs.Option.{option_map};
ghost use Rattle.lf_words.specs.Words.{file_of, has_name, lacks_protocol, overwrites, protocol_file, shares_input};

/// What is to be told of a run.
#[derive(Debug, PartialEq, Eq, Drop)]
pub enum Shown {
    /// Its trace.
    Whole,
    /// Its trace, and under each step which rules of the protocol file each node took.
    Rules,
    /// Of its trace what changes from step to step.
    Changes,
    /// Its trace as a JSON document.
    Json,
    /// The lines in which its trace differs from that of the run under these faults, as they were written.
    Beside(String),
}

/// What a command line asks for. A file stands here as it was written; `-` is standard input, but for a certificate that is to be
/// written and for the protocol of a scenario, which are files of that name.
#[derive(Debug, PartialEq, Eq, Drop)]
pub enum Asked {
    /// To search for the fewest faults that make a scenario miss its outcome.
    Search {
        /// The file of the scenario.
        file: String,
        /// The file into which the certificate of the answer is to be written, if one is named.
        tree: Option<String>,
        /// Whether all sets with as few faults are to be told, and not the first alone.
        all: bool,
        /// How many workers are to search, 1..=32.
        workers: u32,
        /// Whether nothing is to be told on the way.
        quiet: bool,
        /// The file of the protocol that the scenario may name besides the shipped ones, if there is one.
        protocol: Option<String>,
    },
    /// To run a scenario once, under faults that are given.
    Run {
        /// The file of the scenario.
        file: String,
        /// The faults, as they were written.
        faults: String,
        /// What is to be told of the run.
        shown: Shown,
        /// The arrivals of the notes that are late, as they were written, if they are given: every other note arrives after its least
        /// delay. Without them each note takes what the scenario draws for it.
        delays: Option<String>,
        /// The file of the protocol that the scenario may name besides the shipped ones, if there is one.
        protocol: Option<String>,
    },
    /// To draw the run of a scenario under faults that are given.
    Draw {
        /// The file of the scenario.
        file: String,
        /// The faults, as they were written.
        faults: String,
        /// The arrivals of the notes that are late, as of a run.
        delays: Option<String>,
        /// The file of the protocol that the scenario may name besides the shipped ones, if there is one.
        protocol: Option<String>,
    },
    /// To judge a certificate of a scenario's answer.
    Check {
        /// The file of the scenario.
        file: String,
        /// The file of the certificate.
        tree: String,
        /// Whether nothing is to be told on the way.
        quiet: bool,
        /// The file of the protocol that the scenario may name besides the shipped ones, if there is one.
        protocol: Option<String>,
    },
    /// To tell the answer to a scenario alone, with no bound on how much a level keeps.
    Answer {
        /// The file of the scenario.
        file: String,
        /// Whether nothing is to be told on the way.
        quiet: bool,
        /// Whether it is to be the answer over every delay: each note takes whatever its link may take.
        every_delay: bool,
        /// The file of the protocol that the scenario may name besides the shipped ones, if there is one.
        protocol: Option<String>,
    },
    /// To tell why the answer to a scenario is one.
    Why {
        /// The file of the scenario.
        file: String,
        /// Whether nothing is to be told on the way.
        quiet: bool,
        /// The file of the protocol that the scenario may name besides the shipped ones, if there is one.
        protocol: Option<String>,
    },
    /// To tell whether a file is a protocol file.
    Protocol {
        /// The file of the protocol.
        file: String,
    },
}

impl Asked {
    /// The file of the scenario, or of the protocol where that is all that is asked about.
    pub fn file(&self) -> &str
        ensures { result.now ≡ file_of self.now }
    {
        match self {
            Asked::Search { file, .. }
            | Asked::Run { file, .. }
            | Asked::Draw { file, .. }
            | Asked::Check { file, .. }
            | Asked::Answer { file, .. }
            | Asked::Why { file, .. }
            | Asked::Protocol { file } => file.as_str(),
        }
    }

    /// The file of the protocol that the scenario may name besides the shipped ones, where one is given.
    pub fn protocol_file(&self) -> Option<&str>
        ensures { option_map (λ name. name.now) result ≡ protocol_file self.now }
    {
        match self {
            Asked::Search { protocol, .. }
            | Asked::Run { protocol, .. }
            | Asked::Draw { protocol, .. }
            | Asked::Check { protocol, .. }
            | Asked::Answer { protocol, .. }
            | Asked::Why { protocol, .. } => protocol.as_deref(),
            Asked::Protocol { .. } => None,
        }
    }

    /// Whether rules are to be told, and there is no protocol file that has some.
    pub(crate) fn lacks_protocol(&self) -> bool
        ensures { result ≡ lacks_protocol self.now }
    {
        match self {
            Asked::Run {
                shown: Shown::Rules,
                protocol,
                ..
            } => protocol.is_none(),
            Asked::Search { .. }
            | Asked::Run { .. }
            | Asked::Draw { .. }
            | Asked::Check { .. }
            | Asked::Answer { .. }
            | Asked::Why { .. }
            | Asked::Protocol { .. } => false,
        }
    }

    /// Whether two texts are to be read from standard input.
    pub(crate) fn shares_input(&self) -> bool
        ensures { result ≡ shares_input self.now }
    {
        match self {
            Asked::Check { file, tree, .. } => file.as_str() == "-" && tree.as_str() == "-",
            Asked::Search { .. }
            | Asked::Run { .. }
            | Asked::Draw { .. }
            | Asked::Answer { .. }
            | Asked::Why { .. }
            | Asked::Protocol { .. } => false,
        }
    }

    /// Whether the certificate is to be written into the file of the scenario or of the protocol, as far as their names show it.
    pub(crate) fn overwrites(&self) -> bool
        ensures { result ≡ overwrites self.now }
    {
        match self {
            Asked::Search {
                file,
                tree: Some(tree),
                protocol,
                ..
            } => {
                (file.as_str() != "-" && file.as_str() == tree.as_str())
                    || has_name(protocol, tree.as_str())
            }
            Asked::Search { .. }
            | Asked::Run { .. }
            | Asked::Draw { .. }
            | Asked::Check { .. }
            | Asked::Answer { .. }
            | Asked::Why { .. }
            | Asked::Protocol { .. } => false,
        }
    }

    /// The file that a certificate would be written over, and what it has, for a person.
    pub(crate) fn overwritten(&self) -> (&str, &str) {
        match self {
            Asked::Search {
                tree: Some(tree),
                protocol,
                ..
            } if has_name(protocol, tree.as_str()) => (tree.as_str(), "protocol file"),
            _ => (self.file(), "scenario"),
        }
    }
}

/// Whether a file is there, and has this name.
fn has_name(file: &Option<String>, name: &str) -> bool
    ensures { result ≡ has_name name.now (option_map (λ f. f.bytes.items) file.now) }
{
    match file {
        Some(file) => file.as_str() == name,
        None => false,
    }
}
