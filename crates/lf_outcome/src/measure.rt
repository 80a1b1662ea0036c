//! How large a formula is.

ghost use Rattle.std.specs.Prelude.{◌≡◌, ◌*◌, ◌+◌, ◌-◌, map, max, min, sum};
ghost use Rattle.std.specs.List.{fold};
ghost use Rattle.lf_outcome.specs.Measures.{depth_of, atoms_of};
ghost use Rattle.lf_outcome.specs.Unfolding.{unfolded};

use crate::Formula;

/// The depth of a formula: 1 for an atom, and for All and Any one more than their deepest part, or 1 without parts, and for Over as many as for All or Any of
/// its parts at each of its steps. Past 2^32 - 1 it is that.
#[cycle(depth)]
pub fn depth<F>(formula: &Formula<F>) -> u32
    ensures { result ≡ min (depth_of (unfolded formula.now)) 4294967295 }
{
    match formula {
        Formula::All(parts) | Formula::Any(parts) => deepest(parts.as_slice()).saturating_add(1),
        Formula::Over {
            first,
            last,
            parts,
            ..
        } => {
            if *first <= *last {
                deepest(parts.as_slice()).saturating_add(1)
            } else {
                1
            }
        }
        Formula::Down { .. } | Formula::Shows { .. } | Formula::One { .. } => 1,
    }
}

/// The depth of the deepest of the parts: 0 where there is none.
#[cycle(depth)]
fn deepest<F>(parts: &[Formula<F>]) -> u32
    ensures { result ≡ min (fold max 0 (map (λ part. depth_of (unfolded part)) parts.now)) 4294967295 }
{
    let mut deepest = 0;
    'parts: for part in parts {
        deepest = deepest.max(depth(part));
    }
    deepest
}

/// How many atoms a formula has: Down, Shows and One are atoms, and Over has those of its parts at each of its steps. Past 2^32 - 1 it is that.
#[cycle(atoms)]
pub fn atoms<F>(formula: &Formula<F>) -> u32
    ensures { result ≡ min (atoms_of (unfolded formula.now)) 4294967295 }
{
    match formula {
        Formula::All(parts) | Formula::Any(parts) => all_atoms(parts.as_slice()),
        Formula::Over {
            first,
            last,
            parts,
            ..
        } => times(all_atoms(parts.as_slice()), *first, *last),
        Formula::Down { .. } | Formula::Shows { .. } | Formula::One { .. } => 1,
    }
}

/// How many atoms the parts have together.
#[cycle(atoms)]
fn all_atoms<F>(parts: &[Formula<F>]) -> u32
    ensures { result ≡ min (sum (map (λ part. atoms_of (unfolded part)) parts.now)) 4294967295 }
{
    let mut count: u32 = 0;
    'parts: for part in parts {
        count = count.saturating_add(atoms(part));
    }
    count
}

/// So many at each of the steps.
fn times(count: u32, first: u32, last: u32) -> u32
    ensures { result ≡ min ((last + 1 - first) * count) 4294967295 }
{
    if last < first {
        return 0;
    }
    (last - first).saturating_add(1).saturating_mul(count)
}
