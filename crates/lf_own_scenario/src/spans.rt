//! Whether promises are of one step, and so can be said over a span of steps.

ghost use Rattle.std.specs.Prelude.{◌≡◌};
ghost use Rattle.std.specs.List.{list_all};
ghost use Rattle.lf_own_scenario.specs.Spans.{is_span, is_steady};

use lf_promises::Promise;

/// Whether what is said of parts at each step up to the last can be said over the span of the steps.
pub(crate) fn is_span(horizon: u32, parts: &[Promise]) -> bool
    ensures { result ≡ is_span horizon (list_all is_steady parts.now) }
{
    all_steady(parts)
}

/// Whether a promise has no `Always` and no `Ever` in it: it speaks of the step at which it is said.
#[cycle(steadiness)]
fn is_steady(promise: &Promise) -> bool
    ensures { result ≡ is_steady promise.now }
{
    match promise {
        Promise::All(parts) | Promise::Any(parts) => all_steady(parts.as_slice()),
        Promise::Always(_) | Promise::Ever(_) => false,
        Promise::Nodes { .. } | Promise::Down { .. } | Promise::At { .. } | Promise::One(_) => true,
    }
}

/// Whether no part has.
#[cycle(steadiness)]
fn all_steady(parts: &[Promise]) -> bool
    ensures { result ≡ list_all is_steady parts.now }
{
    'parts: for part in parts {
        if !is_steady(part) {
            return false;
        }
    }
    true
}
