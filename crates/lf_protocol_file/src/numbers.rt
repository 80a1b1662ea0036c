//! What the numbers of rules are: a law, the contract of a call that computes nothing.

ghost use Rattle.std.specs.Prelude.{◌≡◌, Ok};
ghost use Rattle.toml.specs.Data.{Members};
ghost use Rattle.lf_protocol_file.specs.declared.declared.Declared.{Declared};
ghost use Rattle.lf_protocol_file.specs.Files.{file_in};
ghost use Rattle.lf_protocol_file.specs.Numbers.{AreNumbered};

/// The numbers of rules are their places in the file: the rule with number K, which is what is told of a run, is what the K-th item of `rules` says, on the
/// event and of the nodes that it says, and there are as many rules as items.
pub fn numbers_are_places()
    ensures { (members : Members) (file : Declared) → file_in members ≡ Ok file → AreNumbered members file }
{}
