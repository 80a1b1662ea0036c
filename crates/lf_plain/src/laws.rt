//! What a type says of its values, as a call that computes nothing.

ghost use Rattle.lf_faults.specs.Allowed.{IsInLimits};

use lf_faults::FaultSpec;

/// Bounds keep their limits. Their type says so, and a call of this tells it to the prover.
pub(crate) fn limits_are_kept(spec: &FaultSpec)
    ensures { IsInLimits spec.now }
{
    let _nodes = spec.nodes();
}
