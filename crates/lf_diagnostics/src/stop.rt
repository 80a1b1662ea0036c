//! Where reading stops.

use crate::hint::Words;

/// Which names may be meant by a word.
#[derive(Clone, Copy, Debug, PartialEq, Eq)]
pub enum Near {
    /// None.
    Nothing,
    /// What is a value where the text stands.
    Values,
    /// What is said of values in brackets.
    Calls,
    /// What joins two values.
    Operators,
    /// What an outcome says of nodes.
    Facts,
    /// What a part of an outcome begins with.
    Units,
    Notes,
    /// Notes, and what else a rule may be on.
    Events,
    Variables,
    /// Kinds of values.
    Kinds,
    /// This word alone.
    Word(&'static str),
}

/// Where the reading of a text stops, and why.
#[derive(Drop)]
pub struct Stop {
    /// The number of the first piece that is at fault, from 0.
    pub from: usize,
    /// The number of the first piece behind those that are.
    pub to: usize,
    /// What is wrong there, and what may stand there.
    pub words: Words,
    /// What may be meant there.
    pub near: Near,
    /// Whether memory has run out, and nothing is to be told.
    pub is_full: bool,
}

impl Stop {
    /// A stop at one piece.
    pub fn at(at: usize, words: Words) -> Stop {
        Stop::over(at, behind(at), words)
    }

    /// A stop at pieces from one on to another, which isn't among them.
    pub fn over(from: usize, to: usize, words: Words) -> Stop {
        Stop {
            from,
            to,
            words,
            near: Near::Nothing,
            is_full: false,
        }
    }

    /// No stop: memory has run out.
    pub fn full() -> Stop {
        Stop {
            is_full: true,
            ..Stop::at(0, Words::of(""))
        }
    }

    /// The same stop, where some names may be meant.
    pub fn near(self, near: Near) -> Stop {
        Stop { near, ..self }
    }
}

/// The number of the piece behind one.
pub fn behind(at: usize) -> usize {
    at.saturating_add(1)
}
