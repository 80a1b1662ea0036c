//! A source read whole, up to a limit.

ghost use Rattle.std.specs.Prelude.{◌≡◌, ℕ, ◌+◌, ◌≤◌, false, length, take, drop, Some, IfSome, IfOk};
ghost use Rattle.lf_streams.specs.Faults.{tells_failure};

use crate::{ReadFault, Source};
use std::alloc::Global;

/// How many bytes a read asks for at most.
const CHUNK: usize = 4096;

/// The bytes of a source up to its end, or the first `limit + 1` of them: so a text that is longer than `limit` is told
/// by its length. The source must not have failed.
///
/// `Failed` where the source fails, `Memory` where memory runs out. At most `limit + 1` bytes of the source are taken,
/// also where it answers an error.
pub fn read_up_to<S: Source>(
    alloc: Global,
    source: &mut S,
    limit: usize,
) -> Result<Vec<u8>, ReadFault>
    requires { S.has_failed source.old ≡ false }
    ensures bytes { IfOk result (λ bytes. IfSome (S.left source.old) (λ held.
        (bytes.items ≡ take (limit + 1) held) × (S.left source.new ≡ Some (drop (length bytes.items) held)))) }
    ensures few { IfOk result (λ bytes. length bytes.items ≤ limit + 1) }
    ensures failed { S.has_failed source.new ≡ tells_failure result }
    ensures taken { IfSome (S.left source.old) (λ held.
        (n : ℕ) × (n ≤ limit + 1) × (S.left source.new ≡ Some (drop n held))) }
{
    let mut bytes = Vec::new(alloc);
    let mut chunk = [0; CHUNK];
    'chunks: while bytes.len() <= limit {
        let wanted = (limit - bytes.len()).min(CHUNK - 1) + 1;
        let taken = source.read(&mut chunk[..wanted])?;
        if taken == 0 {
            break;
        }
        bytes.extend_from_slice(&chunk[..taken])?;
    }
    Ok(bytes)
}
