//! What may not vary together.

ghost use Rattle.std.specs.Prelude.{◌≡◌};
ghost use Rattle.std.specs.List.{list_any};
ghost use Rattle.lf_sweep.specs.declared.varied.Varied.{Varied};
ghost use Rattle.lf_sweep.specs.Apart.{are_same, clash, is_under, is_within, some_clash};

use crate::members::GIVEN;
use crate::varied::{Place, Varied};

/// Whether two of those that vary are one, or else whether one of two stands within the other.
pub(crate) fn some_clash(varied: &[Varied], nested: bool) -> bool
    ensures { result ≡ some_clash nested varied.now }
{
    let mut rest = varied;
    'each: while let Some((one, others)) = rest.split_first() {
        if clashes(one, others, nested) {
            return true;
        }
        rest = others;
    }
    false
}

/// Whether one clashes so with one of others.
fn clashes(one: &Varied, others: &[Varied], nested: bool) -> bool
    ensures { result ≡ list_any (λ (w : Varied). clash nested one.now.place w.place) others.now }
{
    others
        .iter()
        .any(|other| clash(&one.place, &other.place, nested))
}

/// Whether two are one, or else whether one of them stands within the other.
fn clash(one: &Place, other: &Place, nested: bool) -> bool
    ensures { result ≡ clash nested one.now other.now }
{
    if nested {
        is_within(one, other) || is_within(other, one)
    } else {
        are_same(one, other)
    }
}

/// Whether two keys or two constants have one name.
fn are_same(one: &Place, other: &Place) -> bool
    ensures { result ≡ are_same one.now other.now }
{
    match (one, other) {
        (Place::Key(a), Place::Key(b)) => a.as_str() == b.as_str(),
        (Place::Constant(a), Place::Constant(b)) => a.as_str() == b.as_str(),
        _ => false,
    }
}

/// Whether the second stands within the first.
fn is_within(outer: &Place, inner: &Place) -> bool
    ensures { result ≡ is_within outer.now inner.now }
{
    match (outer, inner) {
        (Place::Key(a), Place::Key(b)) => is_under(a.as_bytes(), b.as_bytes()),
        (Place::Key(a), Place::Constant(_)) => a.as_str() == GIVEN,
        (Place::Constant(_), Place::Key(_)) => false,
        (Place::Constant(a), Place::Constant(b)) => is_under(a.as_bytes(), b.as_bytes()),
    }
}

/// Whether the second name is the first, a point and more.
#[tactic(auto, unfolding(crate::specs::Apart::is_under))]
fn is_under(outer: &[u8], inner: &[u8]) -> bool
    ensures { result ≡ is_under outer.now inner.now }
{
    outer.len() < inner.len() && &inner[..outer.len()] == outer && inner[outer.len()] == b'.'
}
