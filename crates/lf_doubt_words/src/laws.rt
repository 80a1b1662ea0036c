//! What the definitions of this crate promise: a call that computes nothing, whose contract is the law.

ghost use Rattle.std.specs.Prelude.{List};
ghost use Rattle.clap.specs.Words.{Text};
ghost use Rattle.lf_doubt_words.specs.Same.{IsSameAsked};
ghost use Rattle.lf_doubt_words.specs.Words.{Asks};
ghost use Rattle.lf_doubt_words.specs.declared.types.DoubtAsked.{DoubtAsked};

/// Words ask for one thing at most: what they ask for has one file, one number of workers, one part, and so on.
pub fn doubts_asked_are_one()
    ensures { (words : List Text) (a b : DoubtAsked) → Asks words a → Asks words b → IsSameAsked a b }
{}
