//! The texts that a command line names, read.

ghost use Rattle.std.specs.Prelude.{◌≡◌, [], ◌∷◌, false};
ghost use Rattle.std.specs.Option.{option_map};
ghost use Rattle.lf_streams.specs.Files.{name_of};
ghost use Rattle.leastfault.specs.Engines.{IsFront};
ghost use Rattle.leastfault.specs.Places.{AreFronts, IsFrontAt, WereRead, read_of, reads_of};

use crate::fault::BytesFault;
use crate::places::{place_of, protocol_place, tree_place};
use lf_scenario::LONGEST;
use lf_streams::{Files, Place, ReadFault};
use lf_tree::LONGEST_TREE;
use lf_words::Asked;
use std::alloc::Global;

/// The texts that a command is about, as they were read: of one that is longer than it may be the first bytes, one more than that.
#[derive(Debug, Drop)]
pub struct CommandTexts {
    /// That of the protocol's file, where one is named.
    pub protocol: Option<Vec<u8>>,
    /// That of the scenario, or of the protocol's file where that is all that is asked about.
    pub scenario: Vec<u8>,
    /// That of the certificate, where one is to be judged.
    pub tree: Option<Vec<u8>>,
}

/// The text of a place, or as much of it as tells that it is longer than `limit`.
fn read_place<F: Files>(
    alloc: Global,
    files: &mut F,
    place: Place<'_>,
    limit: usize,
) -> Result<Vec<u8>, BytesFault>
    requires { (F.desk files.old).read_failed ≡ false }
    ensures { WereRead (λ text. IsFront limit ((F.desk files.old).holds (name_of place.entry)) text.items) ((name_of place.entry, limit) ∷ [])
        (F.desk files.old) (F.desk files.new) result }
{
    match files.read(alloc, place, limit) {
        Ok(text) => Ok(text),
        Err(ReadFault::Failed) => Err(BytesFault::Read),
        Err(ReadFault::Memory) => Err(BytesFault::Memory),
    }
}

/// The same where there is a place to read; nothing is read where there is none.
fn read_where<F: Files>(
    alloc: Global,
    files: &mut F,
    place: Option<Place<'_>>,
    limit: usize,
) -> Result<Option<Vec<u8>>, BytesFault>
    requires { (F.desk files.old).read_failed ≡ false }
    ensures { WereRead (λ text. IsFrontAt (F.desk files.old).holds (option_map name_of place.entry) limit (option_map (λ bytes. bytes.items) text))
        (read_of (option_map name_of place.entry) limit) (F.desk files.old) (F.desk files.new) result }
{
    match place {
        Some(place) => Ok(Some(read_place(alloc, files, place, limit)?)),
        None => Ok(None),
    }
}

/// What the files hold that the words name: that of the protocol, that of the scenario, and that of the certificate that is to be judged.
pub(crate) fn read_command<F: Files>(
    alloc: Global,
    asked: &Asked,
    files: &mut F,
) -> Result<CommandTexts, BytesFault>
    requires { (F.desk files.old).read_failed ≡ false }
    ensures { WereRead (AreFronts asked.now (F.desk files.old).holds) (reads_of asked.now) (F.desk files.old) (F.desk files.new) result }
{
    let protocol = read_where(alloc, files, protocol_place(asked), LONGEST)?;
    let scenario = read_place(alloc, files, place_of(asked.file()), LONGEST)?;
    let tree = read_where(alloc, files, tree_place(asked), LONGEST_TREE)?;
    Ok(CommandTexts {
        protocol,
        scenario,
        tree,
    })
}
