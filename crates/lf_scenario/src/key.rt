//! The keys of a scenario.

ghost use Rattle.std.specs.Prelude.{◌≡◌};
ghost use Rattle.lf_scenario.specs.Keys.{key_name, is_key_name, is_name_of_one};

/// A key of a scenario. They are read in this order.
#[derive(Clone, Copy, Debug, PartialEq, Eq)]
pub enum Key {
    /// How many nodes there are.
    Nodes,
    /// The last step.
    Horizon,
    /// The last step at which a note may be omitted.
    LastOmission,
    /// The most crashes in a set of faults.
    Crashes,
    /// The most faults in a set.
    Budget,
    /// The most pauses in a set of faults.
    Pauses,
    /// How many steps a pause takes.
    PauseLength,
    /// The most sets of faults of one size that the search keeps.
    MaxSets,
    /// The key of the stream cipher that picks the delays of notes.
    Seed,
    /// The fewest steps that a note takes.
    Least,
    /// How many steps more it may take.
    Spread,
    /// Which protocol runs.
    Protocol,
    /// How often the protocol sends its data.
    Tries,
    /// How many steps the protocol waits.
    Patience,
    /// What each participant of the protocol votes.
    Votes,
    /// The values of the protocol's constants, where the protocol is one of rules.
    Given,
    /// What the protocol promises.
    Outcome,
    /// The links that have delays of their own.
    Links,
}

impl Key {
    /// The key as it is written.
    pub fn name(&self) -> &'static str
        ensures { result.now ≡ key_name self.now }
    {
        match self {
            Key::Nodes => "nodes",
            Key::Horizon => "horizon",
            Key::LastOmission => "last_omission",
            Key::Crashes => "crashes",
            Key::Budget => "budget",
            Key::Pauses => "pauses",
            Key::PauseLength => "pause_length",
            Key::MaxSets => "max_sets",
            Key::Seed => "seed",
            Key::Least => "least",
            Key::Spread => "spread",
            Key::Protocol => "protocol",
            Key::Tries => "tries",
            Key::Patience => "patience",
            Key::Votes => "votes",
            Key::Given => "given",
            Key::Outcome => "outcome",
            Key::Links => "links",
        }
    }

    /// What the key takes, in words.
    pub(crate) fn takes(&self) -> &'static str {
        match self {
            Key::Nodes => "a whole number from 2 to 8",
            Key::Horizon => "a whole number from 1 to 48",
            Key::LastOmission => "a whole number from 0 to one less than `horizon`",
            Key::Crashes | Key::Pauses => "a whole number from 0 to `nodes`",
            Key::Budget => "a whole number from 0 to 6",
            Key::PauseLength => "a whole number from 1 to 8",
            Key::MaxSets => "a whole number from 1 to 1000000",
            Key::Seed => "a text of 64 hexadecimal digits",
            Key::Least => "a whole number from 1 to 16",
            Key::Spread => "a whole number from 0 to 15",
            Key::Protocol => {
                "a text: \"retry\", \"redundant\", \"two_phase\", \"three_phase\", or with at least three nodes \"primary_backup\""
            }
            Key::Tries | Key::Patience => "a whole number from 1 to 48",
            Key::Votes => "a list of truth values, one for each of the nodes from 1 on",
            Key::Given => {
                concat!(
                    "a table of constants that the protocol has, each a number from 0 to 255, a truth value or a text that is a set of nodes, ",
                    "or a list of one of these for each node, and no 0 by which the protocol divides",
                )
            }
            Key::Outcome => {
                concat!(
                    "a text: \"delivered\" for retry and redundant, \"agreement\" or \"unblocked\" for two_phase and three_phase, ",
                    "\"one_primary\" or \"durable\" for primary_backup, or a formula as a list",
                )
            }
            Key::Links => {
                concat!(
                    "a list of tables, each with two different nodes `from` and `to`, a pair that no earlier table has, ",
                    "and with `least` from 1 to 16 and `spread` from 0 to 15 where they are its own",
                )
            }
        }
    }
}

/// Whether a text is one of the seventeen keys of a scenario of a shipped protocol.
#[tactic(auto, unfolding(crate::specs::Keys::is_key_name))]
pub fn is_key(name: &str) -> bool
    ensures { result ≡ is_key_name name.now }
{
    names_one(
        name,
        &[
            Key::Nodes,
            Key::Horizon,
            Key::LastOmission,
            Key::Crashes,
            Key::Budget,
            Key::Pauses,
            Key::PauseLength,
            Key::MaxSets,
            Key::Seed,
            Key::Least,
            Key::Spread,
            Key::Protocol,
            Key::Tries,
            Key::Patience,
            Key::Votes,
            Key::Outcome,
            Key::Links,
        ],
    )
}

/// Whether a text is one of these keys.
#[tactic(auto, unfolding(crate::specs::Keys::is_name_of_one))]
fn names_one(name: &str, keys: &[Key]) -> bool
    ensures { result ≡ is_name_of_one keys.now name.now }
{
    keys.iter().any(|key| name == key.name())
}
