//! What a place is for.

use crate::place::Place;

/// What a place is for.
#[derive(Clone, Copy, Debug, PartialEq, Eq)]
pub enum Spot {
    /// The protocol's name.
    Name,
    /// A whole section.
    Section,
    /// A constant.
    Given,
    /// A variable of the state.
    State,
    /// A form of notes.
    Note,
    /// A let.
    Let,
    /// A fact.
    Fact,
    /// A whole rule.
    Rule,
    /// Whose rule it is.
    Who,
    /// What it is on.
    On,
    /// When it is taken.
    When,
    /// What it sets.
    Set,
    /// What it sends.
    Send,
    /// An outcome.
    Outcome,
    /// A variable that a trace shows.
    Shown,
}

impl Spot {
    /// What a place is for.
    pub fn of(place: &Place<'_>) -> Spot {
        match place.entry {
            Some(_) => match place.section {
                "given" => Spot::Given,
                "state" => Spot::State,
                "notes" => Spot::Note,
                "lets" => Spot::Let,
                "facts" => Spot::Fact,
                "outcomes" => Spot::Outcome,
                "trace" => Spot::Shown,
                _ => in_rule(place.part.unwrap_or("")),
            },
            None if place.section == "name" => Spot::Name,
            None => Spot::Section,
        }
    }

    /// Whether it is a part of a rule in which the step, fields and facts may be named.
    pub fn is_in_rule(self) -> bool {
        matches!(self, Spot::When | Spot::Set | Spot::Send)
    }

    /// Whether a node's state may be named there.
    pub fn knows_state(self) -> bool {
        matches!(self, Spot::Let | Spot::Fact) || self.is_in_rule()
    }
}

/// What a part of a rule is for, or the whole rule where it is no part.
fn in_rule(part: &str) -> Spot {
    match part {
        "who" => Spot::Who,
        "on" => Spot::On,
        "when" => Spot::When,
        "set" => Spot::Set,
        "send" => Spot::Send,
        _ => Spot::Rule,
    }
}
