//! What the definitions of this crate promise: a call that computes nothing, whose contract is the law.

ghost use Rattle.std.specs.Prelude.{List};
ghost use Rattle.clap.specs.Words.{Text};
ghost use Rattle.lf_sweep_words.specs.Same.{IsSameAsked};
ghost use Rattle.lf_sweep_words.specs.Words.{Asks};
ghost use Rattle.lf_sweep_words.specs.declared.types.SweepAsked.{SweepAsked};

/// Words ask for one sweep at most: what they ask for has one file, one list of what varies with its values, one number of workers, and so on.
pub fn sweeps_asked_are_one()
    ensures { (words : List Text) (a b : SweepAsked) → Asks words a → Asks words b → IsSameAsked a b }
{}
