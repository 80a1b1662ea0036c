//! What the definition of a file promises of what a file says: a call that computes nothing, whose contract is the law.

ghost use Rattle.std.specs.Prelude.{◌≡◌, true, Ok};
ghost use Rattle.toml.specs.Data.{Members};
ghost use Rattle.lf_protocol_file.specs.declared.declared.Declared.{Declared};
ghost use Rattle.lf_protocol_file.specs.Written.{is_whole};
ghost use Rattle.lf_protocol_file.specs.Files.{file_in};

/// What a file says is whole: its protocol is well formed, and its outcomes are about facts of the protocol.
pub fn files_are_whole()
    ensures { (members : Members) (file : Declared) → file_in members ≡ Ok file → is_whole file ≡ true }
{}
