//! Which files the words of a command line name.

ghost use Rattle.std.specs.Prelude.{◌≡◌, Some};
ghost use Rattle.std.specs.Option.{option_map};
ghost use Rattle.lf_streams.specs.Files.{name_of};
ghost use Rattle.lf_words.specs.Words.{written_to};
ghost use Rattle.leastfault.specs.Commands.{tree_file};
ghost use Rattle.leastfault.specs.Places.{place_of, protocol_place, tree_place};

use lf_streams::Place;
use lf_words::Asked;

/// The file of the certificate that is to be judged, where one is; `-` is standard input.
pub fn tree_file(asked: &Asked) -> Option<&str>
    ensures { option_map (λ name. name.now) result ≡ tree_file asked.now }
{
    match asked {
        Asked::Check { tree, .. } => Some(tree.as_str()),
        Asked::Search { .. }
        | Asked::Run { .. }
        | Asked::Draw { .. }
        | Asked::Answer { .. }
        | Asked::Why { .. }
        | Asked::Protocol { .. } => None,
    }
}

/// The file into which the certificate of the answer is to be written, where one is named. `-` is a file of that name.
pub fn certificate_file(asked: &Asked) -> Option<&str>
    ensures { option_map (λ name. name.now) result ≡ written_to asked.now }
{
    match asked {
        Asked::Search {
            tree: Some(tree),
            ..
        } => Some(tree.as_str()),
        Asked::Search { .. }
        | Asked::Run { .. }
        | Asked::Draw { .. }
        | Asked::Check { .. }
        | Asked::Answer { .. }
        | Asked::Why { .. }
        | Asked::Protocol { .. } => None,
    }
}

/// What is read where a word names it: standard input where it is `-`, and else the file of that name.
pub fn place_of(word: &str) -> Place<'_>
    ensures { name_of result ≡ place_of word.now }
{
    if word == "-" {
        Place::Standard
    } else {
        Place::File(word)
    }
}

/// The file of the protocol, where one is named.
pub(crate) fn protocol_place(asked: &Asked) -> Option<Place<'_>>
    ensures { option_map name_of result ≡ protocol_place asked.now }
{
    match asked.protocol_file() {
        Some(file) => Some(Place::File(file)),
        None => None,
    }
}

/// What the certificate is read from that is to be judged, where one is.
pub(crate) fn tree_place(asked: &Asked) -> Option<Place<'_>>
    ensures { option_map name_of result ≡ tree_place asked.now }
{
    match tree_file(asked) {
        Some(file) => Some(place_of(file)),
        None => None,
    }
}
