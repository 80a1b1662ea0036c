//! A set without one of its faults.

ghost use Rattle.std.specs.Prelude.{◌≡◌, ◌<◌, length};
ghost use Rattle.lf_why.specs.Sets.{without};

use lf_faults::FaultSet;

/// The set without the fault at a place.
pub(crate) fn without(set: &FaultSet, place: usize) -> FaultSet
    requires { place < length set.now }
    ensures { result ≡ without set.now place }
{
    let items = set.items();
    let mut rest = set.prefix(place);
    'later: for later in place + 1..items.len() {
        rest = match rest.insert(items[later]) {
            Some(more) => more,
            None => unreachable!(),
        };
    }
    rest
}
