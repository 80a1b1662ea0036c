//! What hints of protocol files are made of: places in a file and what may stand there, names, the pieces of a text and where its reading stops, and the line
//! that is shown with a fault marked.
//!
//! What reads expressions, rules and outcomes up to a fault stands above, in `lf_text_hints`. Hints are for people: no contract fixes their words.
#![tactic(auto)]

mod allowed;
mod found;
mod hint;
mod keys;
mod known;
mod limits;
mod lines;
mod named;
mod near;
mod parts;
mod pieces;
mod place;
mod reader;
mod slips;
mod spot;
mod stop;
mod stops;
mod title;

pub use allowed::{NAME, NOTE_NAME, kind_hint, missing_hint, wanted};
pub use found::{Found, found_at, items_at, rule_at, table_at, text_at, text_in, text_of};
pub use hint::{Hint, LONGEST_PART, Quote, Words, in_quotes, is_of_word, said, said_of};
pub use keys::unknown_hint;
pub use known::{fields_in, head_of, inside_of, names_of, put_fields};
pub use limits::{limit_hint, limit_told};
pub use lines::{Told, with_line};
pub use named::{Class, Known, first_named};
pub use near::near_name;
pub use pieces::{Piece, Text, read_text};
pub use place::{Place, place_of};
pub use reader::{Part, Reader, Taken, is_number};
pub use slips::{instead_of, meant_by};
pub use spot::Spot;
pub use stop::{Near, Stop, behind};
pub use stops::{COMPARISONS, OPERATORS, no_divisor};
pub use title::{place_under, titled};
