//! The words of what a protocol shows.

ghost use Rattle.std.specs.Prelude.{◌≡◌, ◌≢◌, ◌++◌, IfSome, IfNone, IfOk, All, Contains, find, option_map, string_bytes};
ghost use Rattle.std.specs.Str.{bytes_eq};
ghost use Rattle.lf_naming.specs.Facts as naming;
ghost use Rattle.lf_protocols.specs.declared.fact.Fact.TheVariants as Fact;
ghost use Rattle.lf_protocols.specs.Words.{fact_word, facts_of, fact_name, fact_named, note_text, standing_text};

use crate::{Fact, Kind, Note, Protocol, State};
use lf_naming as naming;
use lf_rule_machine::Ruled;
use lf_sim::Machine;
use std::alloc::AllocError;

impl Protocol {
    /// The fact of this protocol that has the word. None where it has none.
    pub fn fact(&self, word: &str) -> Option<Fact>
        ensures value { result ≡ fact_named self.now word.now }
        ensures some { IfSome result (λ fact. Contains (facts_of self.now) fact × (fact_name self.now fact ≡ word.now)) }
        ensures none { IfNone result (All (λ fact. fact_name self.now fact ≢ word.now) (facts_of self.now)) }
    {
        fact_of(self.kind(), word)
    }

    /// Appends the text of a state in a trace. The error is that memory has run out, and then the text may have a part of it.
    pub fn push_state(&self, state: &State, text: &mut String) -> Result<(), AllocError>
        ensures { IfOk result (λ _. string_bytes text.new ≡ string_bytes text.old ++ standing_text self.now state.now) }
    {
        match (self.kind(), state) {
            (Kind::Ruled(ruled), State::Ruled(own)) => {
                naming::push_state(ruled.definition(), ruled.nodes(), own, text)
            }
            (_, own) => text.push_str(own.text()),
        }
    }

    /// Appends the text of a note in a trace: of a protocol of rules that of its packet. The error is that memory has run out, and then the text may have a
    /// part of it.
    pub fn push_note(&self, note: &Note, text: &mut String) -> Result<(), AllocError>
        ensures { IfOk result (λ _. string_bytes text.new ≡ string_bytes text.old ++ note_text self.now note.now) }
    {
        match (self.kind(), note) {
            (Kind::Ruled(ruled), Note::Ruled(own)) => {
                naming::push_packet(ruled.definition(), own, text)
            }
            (_, own) => text.push_str(own.word()),
        }
    }

    /// Appends the name of a fact. The error is that memory has run out, and then the text may have a part of it.
    pub fn push_fact(&self, fact: Fact, text: &mut String) -> Result<(), AllocError>
        ensures { IfOk result (λ _. string_bytes text.new ≡ string_bytes text.old ++ fact_name self.now fact) }
    {
        match (self.kind(), fact) {
            (Kind::Ruled(ruled), Fact::Ruled(own)) => {
                naming::push_fact(ruled.definition(), own, text)
            }
            (_, own) => text.push_str(own.word()),
        }
    }
}

/// The fact of a kind of protocol that has the word.
fn fact_of(kind: &Kind, word: &str) -> Option<Fact>
    ensures { result ≡ fact_named kind.now word.now }
{
    match kind {
        Kind::Retry { .. } | Kind::Redundant { .. } => named(&DELIVERY, word),
        Kind::TwoPhase { .. } | Kind::ThreePhase { .. } => named(&COMMIT, word),
        Kind::PrimaryBackup { .. } => named(&REPLICA, word),
        Kind::Ruled(ruled) => ruled_fact(ruled, word),
    }
}

/// The fact of a protocol of rules that has the word.
fn ruled_fact(ruled: &Ruled, word: &str) -> Option<Fact>
    ensures { result ≡ option_map Fact.Ruled (naming.fact_named ruled.now.definition word.now) }
{
    match naming::fact_named(ruled.definition(), word) {
        Some(fact) => Some(Fact::Ruled(fact)),
        None => None,
    }
}

/// The facts of a delivery.
const DELIVERY: [Fact; 2] = [Fact::Has, Fact::Lacks];

/// The facts of a commit.
const COMMIT: [Fact; 6] = [
    Fact::Committed,
    Fact::NotCommitted,
    Fact::Aborted,
    Fact::NotAborted,
    Fact::Blocked,
    Fact::Free,
];

/// The facts of a replica.
const REPLICA: [Fact; 8] = [
    Fact::Holds,
    Fact::Empty,
    Fact::Done,
    Fact::NotDone,
    Fact::Primary,
    Fact::Backup,
    Fact::Claimed,
    Fact::Unclaimed,
];

/// The first of the facts that has the word.
fn named(facts: &[Fact], word: &str) -> Option<Fact>
    ensures { result ≡ find (λ fact. bytes_eq word.now (fact_word fact)) facts.now }
{
    facts.iter().copied().find(|fact| word == fact.word())
}
