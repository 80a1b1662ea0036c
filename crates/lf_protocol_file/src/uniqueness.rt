//! What the definition of a file promises, for every text: calls that compute nothing, whose contracts are the laws.

ghost use Rattle.std.specs.Prelude.{◌≡◌, ℕ, List};
ghost use Rattle.lf_protocol_file.specs.declared.error.ProtocolError.{ProtocolError};
ghost use Rattle.lf_protocol_file.specs.declared.declared.Declared.{Declared};
ghost use Rattle.lf_protocol_file.specs.Files.{IsRefused, IsText};

/// A text has at most one refusal, and none where it is the text of a file.
pub fn refusals_are_one()
    ensures one { (text : List ℕ) (e f : ProtocolError) → IsRefused text e → IsRefused text f → e ≡ f }
    ensures none { (text : List ℕ) (e : ProtocolError) (file : Declared) → IsRefused text e → ¬ (IsText file text) }
{}

/// A text is the text of one file at most.
pub fn files_are_one()
    ensures { (text : List ℕ) (one other : Declared) → IsText one text → IsText other text → one ≡ other }
{}
