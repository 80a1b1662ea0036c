//! How many sets a worker takes in one hold of the lock.

ghost use Rattle.std.specs.Prelude.{◌≤◌};
ghost use Rattle.lf_pool.specs.declared.handful.TheConstants.{HANDFUL};

/// The most sets that a worker takes in one hold of the lock.
pub(crate) const HANDFUL: usize = 64;

/// How many sets are open for each that a worker takes in one hold. So there are some for each worker, and the last sets of a level are
/// taken one by one.
const OPEN_FOR_EACH: u64 = 64;

/// How many sets a worker takes in one hold where so many are open. None where few are: those are taken one by one.
pub(crate) fn handful(ready: u64) -> usize
    ensures { result ≤ HANDFUL }
{
    let count = ready / OPEN_FOR_EACH;
    if count < 2 {
        0
    } else if count < HANDFUL as u64 {
        count as usize
    } else {
        HANDFUL
    }
}
