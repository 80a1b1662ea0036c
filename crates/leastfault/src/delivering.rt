//! The writing of what a command comes to.

ghost use Rattle.std.specs.Prelude.{◌≡◌, [], ◌∷◌, None, Some, false, string_bytes};
ghost use Rattle.std.specs.Option.{option_map};
ghost use Rattle.lf_streams.specs.Files.{name_of};
ghost use Rattle.leastfault.specs.Places.{WasDelivered, filed_of, writes_of};

use crate::fault::BytesFault;
use crate::places::certificate_file;
use crate::reply::{Certified, Reply};
use lf_streams::{Files, Place};
use lf_words::Asked;

/// Writes the certificate into the file that is named for it, where there is one, and then the reply to standard output. `Write` where a
/// write fails: then nothing more is written.
pub(crate) fn deliver<F: Files>(
    asked: &Asked,
    files: &mut F,
    reply: &Reply<Certified>,
) -> Result<(), BytesFault>
    requires { (F.desk files.old).write_failed ≡ false }
    ensures { WasDelivered (writes_of asked.now (string_bytes reply.now.text) reply.now.value) (F.desk files.old) (F.desk files.new) result }
{
    file_certificate(files, certificate_file(asked), &reply.value.certificate)?;
    put(files, Place::Standard, reply.text.as_bytes())
}

/// Writes a certificate into a file, where there are both.
fn file_certificate<F: Files>(
    files: &mut F,
    file: Option<&str>,
    certificate: &Option<Vec<u8>>,
) -> Result<(), BytesFault>
    requires { (F.desk files.old).write_failed ≡ false }
    ensures { WasDelivered (filed_of (option_map (λ name. name.now) file.entry) (option_map (λ bytes. bytes.items) certificate.now))
        (F.desk files.old) (F.desk files.new) result }
{
    match (file, certificate) {
        (Some(file), Some(bytes)) => put(files, Place::File(file), bytes.as_slice()),
        _ => Ok(()),
    }
}

/// Writes bytes to a place.
fn put<F: Files>(files: &mut F, place: Place<'_>, bytes: &[u8]) -> Result<(), BytesFault>
    requires { (F.desk files.old).write_failed ≡ false }
    ensures { WasDelivered ((name_of place.entry, bytes.now) ∷ []) (F.desk files.old) (F.desk files.new) result }
{
    match files.write(place, bytes) {
        Ok(()) => Ok(()),
        Err(_) => Err(BytesFault::Write),
    }
}
