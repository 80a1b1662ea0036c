//! Where something stands in a protocol file.

ghost use Rattle.std.specs.Prelude.{◌≡◌, ◌&&◌, nat_le, length, IfOk, Some};
ghost use Rattle.std.specs.List.{list_all};
ghost use Rattle.lf_protocol_file.specs.Refusals.{shown, shown_text, is_plain, is_plain_byte};
ghost use Rattle.lf_protocol_file.specs.Spellings.{place_text};

use crate::section::{Listing, Naming, Part, Section};
use lf_rules::Name;
use std::alloc::{AllocError, Global};
use std::fmt;

/// A key, as a place shows it.
#[derive(Debug, Drop)]
pub enum Shown {
    /// The key itself: 1 to 24 letters, digits, `_` and `-`.
    Plain(Name),
    /// Any other key, shown as `?`.
    Other,
}

/// A place in a protocol file. Printed, it is keys and numbers of items, from 1, with points between.
#[derive(Debug, Drop)]
pub enum Path {
    /// A key that protocol files don't have.
    Key(Shown),
    /// A section.
    Section(Section),
    /// An entry of a section.
    Entry(Naming, Shown),
    /// An item of a section, by its number.
    Item(Listing, usize),
    /// A part of the rule with a number.
    Part(usize, Part),
    /// A key that rules don't have, in the rule with a number.
    PartKey(usize, Shown),
}

impl Shown {
    /// How a key is shown.
    #[tactic(auto, unfolding(crate::specs::Refusals::shown))]
    pub fn of(alloc: Global, key: &str) -> Result<Shown, AllocError>
        ensures { IfOk result (λ s. s ≡ shown key.now) }
    {
        if is_plain(key) {
            let text = String::from_str(alloc, key)?;
            Ok(Shown::Plain(Name::new(text)))
        } else {
            Ok(Shown::Other)
        }
    }

    /// The text that is shown.
    pub fn text(&self) -> &str
        ensures { result.now ≡ shown_text self.now }
    {
        match self {
            Shown::Plain(name) => name.as_str(),
            Shown::Other => "?",
        }
    }
}

impl fmt::Display for Path {
    ghost output = { λ path. Some (place_text path) };

    fn fmt<W: fmt::Write>(&self, f: &mut fmt::Formatter<W>) -> fmt::Result {
        match self {
            Path::Key(key) => f.write_str(key.text()),
            Path::Section(section) => f.write_str(section.name()),
            Path::Entry(naming, key) => write!(f, "{}.{}", naming.name(), key.text()),
            Path::Item(listing, number) => write!(f, "{}.{number}", listing.name()),
            Path::Part(rule, part) => write!(f, "rules.{rule}.{}", part.name()),
            Path::PartKey(rule, key) => write!(f, "rules.{rule}.{}", key.text()),
        }
    }
}

/// Whether a key is shown as it is.
fn is_plain(key: &str) -> bool
    ensures { result ≡ is_plain key.now }
{
    let bytes = key.as_bytes();
    1 <= bytes.len() && is_plain_to(bytes)
}

/// Whether there are at most 24 bytes, all letters, digits, `_` and `-`.
fn is_plain_to(bytes: &[u8]) -> bool
    ensures { result ≡ (nat_le (length bytes.now) 24 && list_all is_plain_byte bytes.now) }
{
    bytes.len() <= 24 && are_plain(bytes)
}

/// Whether all bytes are letters, digits, `_` and `-`.
fn are_plain(bytes: &[u8]) -> bool
    ensures { result ≡ list_all is_plain_byte bytes.now }
{
    bytes.iter().all(|byte| is_plain_byte(*byte))
}

/// Whether a byte is a letter, a digit, `_` or `-`.
fn is_plain_byte(byte: u8) -> bool
    ensures { result ≡ is_plain_byte byte }
{
    byte.is_ascii_alphanumeric() || byte == b'_' || byte == b'-'
}
