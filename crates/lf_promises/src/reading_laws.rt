//! What the grammar of promises promises of all tokens: a law, the contract of a call that computes nothing.

ghost use Rattle.std.specs.Prelude.{◌≡◌, ◌<◌, ℕ, Bool, List};
ghost use Rattle.lf_grammar.specs.declared.token.Token.{Token};
ghost use Rattle.lf_grammar.specs.Places.{Context};
ghost use Rattle.lf_promises.specs.Promises.{Next, read, steps};

/// Each number of steps that is enough reads the same, whatever is to be read, wherever it stands, and whatever the tokens are.
pub fn enough_steps_read_the_same()
    ensures { (at : Context) (m n : ℕ) (timed : Bool) (next : Next) (tokens : List Token) → steps next tokens < m → steps next tokens < n →
        read at m timed next tokens ≡ read at n timed next tokens }
{}
