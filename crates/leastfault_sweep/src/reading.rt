//! The texts that the words of `sweep` name, read.

ghost use Rattle.std.specs.Prelude.{◌≡◌, [], ◌∷◌, false};
ghost use Rattle.std.specs.Option.{option_map};
ghost use Rattle.lf_scenario.specs.Limits.{longest};
ghost use Rattle.lf_streams.specs.Files.{name_of};
ghost use Rattle.leastfault.specs.Engines.{IsFront};
ghost use Rattle.leastfault.specs.Places.{IsFrontAt, WereRead, read_of};
ghost use Rattle.leastfault_sweep.specs.Executed.{AreFronts, protocol_place, reads_of};

use leastfault::{BytesFault, Files, LONGEST, Place, place_of};
use lf_streams::ReadFault;
use lf_sweep_words::SweepAsked;
use std::alloc::Global;

/// The texts of a sweep, as they were read: of one that is longer than it may be the first bytes, one more than that.
#[derive(Debug, Drop)]
pub struct SweepTexts {
    /// That of the protocol's file, where one is named.
    pub protocol: Option<Vec<u8>>,
    /// That of the scenario.
    pub scenario: Vec<u8>,
}

/// What the files hold that the words name: that of the protocol, and that of the scenario.
pub(crate) fn read_sweep<F: Files>(
    alloc: Global,
    asked: &SweepAsked,
    files: &mut F,
) -> Result<SweepTexts, BytesFault>
    requires { (F.desk files.old).read_failed ≡ false }
    ensures { WereRead (AreFronts asked.now (F.desk files.old).holds) (reads_of asked.now) (F.desk files.old) (F.desk files.new) result }
{
    let protocol = read_where(alloc, protocol_place(asked), files)?;
    let scenario = read_place(alloc, place_of(asked.file.as_str()), files)?;
    Ok(SweepTexts { protocol, scenario })
}

/// The file of the protocol, where one is named. It is a file also where its name is `-`.
fn protocol_place(asked: &SweepAsked) -> Option<Place<'_>>
    ensures { option_map name_of result ≡ protocol_place asked.now }
{
    match &asked.protocol {
        Some(file) => Some(Place::File(file.as_str())),
        None => None,
    }
}

/// The text of a place, where there is one to read; nothing is read where there is none.
fn read_where<F: Files>(
    alloc: Global,
    place: Option<Place<'_>>,
    files: &mut F,
) -> Result<Option<Vec<u8>>, BytesFault>
    requires { (F.desk files.old).read_failed ≡ false }
    ensures { WereRead (λ text. IsFrontAt (F.desk files.old).holds (option_map name_of place.entry) longest (option_map (λ bytes. bytes.items) text))
        (read_of (option_map name_of place.entry) longest) (F.desk files.old) (F.desk files.new) result }
{
    match place {
        Some(place) => Ok(Some(read_place(alloc, place, files)?)),
        None => Ok(None),
    }
}

/// The text of a place, or as much of it as tells that it is longer than a text may be.
fn read_place<F: Files>(
    alloc: Global,
    place: Place<'_>,
    files: &mut F,
) -> Result<Vec<u8>, BytesFault>
    requires { (F.desk files.old).read_failed ≡ false }
    ensures { WereRead (λ text. IsFront longest ((F.desk files.old).holds (name_of place.entry)) text.items) ((name_of place.entry, longest) ∷ [])
        (F.desk files.old) (F.desk files.new) result }
{
    match files.read(alloc, place, LONGEST) {
        Ok(text) => Ok(text),
        Err(ReadFault::Failed) => Err(BytesFault::Read),
        Err(ReadFault::Memory) => Err(BytesFault::Memory),
    }
}
