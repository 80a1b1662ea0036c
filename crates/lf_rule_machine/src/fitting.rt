//! How values are stored.

ghost use Rattle.std.specs.Prelude.{◌≡◌, ◌||◌, nat_lt, slice_set};
ghost use Rattle.lf_rules.specs.Kinds.{most_of};
ghost use Rattle.lf_rule_machine.specs.Events.{fitted, remembered, set_fitted};

use crate::State;
use lf_rules::Kind;

/// Puts a number in a list in place of the one that was there. Nothing changes past the list's end.
pub(crate) fn put_item(items: &mut [u8], i: usize, value: u8)
    ensures { items.new ≡ slice_set items.old i value }
{
    if i < items.len() {
        items[i] = value;
    }
}

/// A value as it is stored: one past the greatest of its kind becomes that one.
pub(crate) fn fitted(kind: Kind, value: u64) -> u8
    ensures { result ≡ fitted kind value }
{
    value.min(u64::from(kind.most())) as u8
}

/// Remembers of a value that is stored whether it went past the greatest of its kind.
pub(crate) fn remember(kind: Kind, value: u64, state: &mut State)
    ensures { state.new ≡ remembered kind value state.old }
{
    state.clamped = is_clamped(state.clamped, kind, value);
}

/// Gives a cell a value, as it is stored, and remembers whether it went past the greatest of its kind.
pub(crate) fn set_fitted(state: &mut State, kind: Kind, cell: usize, value: u64)
    ensures { state.new ≡ set_fitted state.old kind cell value }
{
    remember(kind, value, state);
    put_item(&mut state.values, cell, fitted(kind, value));
}

/// Whether a value went past the greatest of its kind, now or before.
fn is_clamped(before: bool, kind: Kind, value: u64) -> bool
    ensures { result ≡ (before || nat_lt (most_of kind) value) }
{
    before || u64::from(kind.most()) < value
}
