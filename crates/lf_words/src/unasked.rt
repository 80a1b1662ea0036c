//! Why a command line asks for nothing.

ghost use Rattle.std.specs.Prelude.{◌≡◌};
ghost use Rattle.lf_words.specs.Statuses.{exit_status, goes_to_error};
ghost use Rattle.lf_words.specs.Texts.{text_of};
ghost use Rattle.lf_words.specs.Words.{IsOverwriting};

use std::alloc::{AllocError, Global};
use std::error::Error;
use std::fmt;

/// Why a command line asks for nothing that can be done. It is displayed as its text without the last line feed.
#[derive(Debug, Drop)]
pub enum Unasked {
    /// Help or the version was asked for: what to tell.
    Told(String),
    /// The words are wrong: what to tell.
    Wrong(String),
    /// What `--workers` names is no number in 1..=32: what to tell.
    Workers(String),
    /// The certificate would overwrite the scenario or the protocol: what to tell.
    Overwrites(String),
    /// Both texts of a check were to come from standard input.
    SharedInput,
    /// Memory ran out.
    Memory,
}

impl Unasked {
    /// The refusal of a certificate that is to be written into this file, which has what is read: the scenario, or the protocol. `Memory`
    /// where memory ran out.
    pub fn overwriting(alloc: Global, file: &str, what: &str) -> Unasked
        ensures { IsOverwriting result }
    {
        match format!(in alloc; "--tree = {file}: it would overwrite the {what}\n") {
            Ok(text) => Unasked::Overwrites(text),
            Err(_) => Unasked::Memory,
        }
    }

    /// The status to exit with: 0 where help or the version was asked for, 3 for want of memory, and else 2.
    pub fn status(&self) -> u8
        ensures { result ≡ exit_status self.now }
    {
        match self {
            Unasked::Told(_) => 0,
            Unasked::Wrong(_)
            | Unasked::Workers(_)
            | Unasked::Overwrites(_)
            | Unasked::SharedInput => 2,
            Unasked::Memory => 3,
        }
    }

    /// What to tell the user, with its last line feed. Empty for want of memory.
    pub fn text(&self) -> &str
        ensures { result.now ≡ text_of self.now }
    {
        match self {
            Unasked::Told(text)
            | Unasked::Wrong(text)
            | Unasked::Workers(text)
            | Unasked::Overwrites(text) => text.as_str(),
            Unasked::SharedInput => {
                "refused usage\nFILE and TREE are both -: only one of them can be standard input\n"
            }
            Unasked::Memory => "",
        }
    }

    /// Whether the text goes to standard error. Help and the version go to standard output.
    pub fn is_error(&self) -> bool
        ensures { result ≡ goes_to_error self.now }
    {
        !matches!(self, Unasked::Told(_))
    }
}

impl fmt::Display for Unasked {
    fn fmt<W: fmt::Write>(&self, f: &mut fmt::Formatter<W>) -> fmt::Result {
        match self {
            Unasked::Memory => f.write_str("out of memory"),
            _ => f.write_str(self.text().trim_end()),
        }
    }
}

impl Error for Unasked {}

impl From<AllocError> for Unasked {
    ghost use Rattle.lf_words.specs.declared.unasked.Unasked.TheVariants.{Memory};

    ghost from_gives = { λ _ u. u ≡ Memory };

    fn from(_error: AllocError) -> Unasked {
        Unasked::Memory
    }
}
