//! What nodes send to each other.

ghost use Rattle.std.specs.Prelude.{◌≡◌};
ghost use Rattle.lf_protocols.specs.Words.{note_word};

use lf_sim::Alike;

/// A note of one of the protocols.
#[derive(Clone, Copy, Debug, PartialEq, Eq, PartialOrd, Ord)]
pub enum Note {
    /// The data that a delivery is about.
    Payload,
    /// Of a commit: node 0 asks for a vote.
    Prepare,
    /// Of a commit: the sender votes for it.
    Yes,
    /// Of a commit: the sender votes against it.
    No,
    /// Of a commit in three phases: all have voted for it.
    Precommit,
    /// The answer to `Precommit`, and to `Repl`.
    Ack,
    /// Of a commit: it is done.
    Commit,
    /// Of a commit: it is given up.
    Abort,
    /// Of a replica: the client asks for a write.
    Write,
    /// Of a replica: the write, for the backup.
    Repl,
    /// Of a replica: the write is done.
    Done,
    /// Of a replica: the primary is up.
    Beat,
    /// Of a replica: the sender is the primary from now on.
    Claim,
    /// What a node of a protocol of rules sends another one in one step: one note or more.
    Ruled(lf_rule_machine::Packet),
}

impl Alike for Note {
    fn is_alike(&self, other: &Note) -> bool {
        self == other
    }
}

impl Note {
    /// The note's word in a trace: `data`, and else its name in lower case.
    pub fn word(&self) -> &'static str
        ensures { result.now ≡ note_word self.now }
    {
        match self {
            Note::Payload => "data",
            Note::Prepare => "prepare",
            Note::Yes => "yes",
            Note::No => "no",
            Note::Precommit => "precommit",
            Note::Ack => "ack",
            Note::Commit => "commit",
            Note::Abort => "abort",
            Note::Write => "write",
            Note::Repl => "repl",
            Note::Done => "done",
            Note::Beat => "beat",
            Note::Claim => "claim",
            Note::Ruled(_) => "",
        }
    }
}
