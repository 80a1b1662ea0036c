//! The given texts with one thing changed.

ghost use Rattle.std.specs.Prelude.{◌≡◌, ◌≢◌, ◌⊎◌, true, IfErr, IfOk, MatchOption, string_bytes};
ghost use Rattle.lf_protocol_file.specs.Files.{IsText};
ghost use Rattle.lf_protocol_file.specs.Written.{is_whole};
ghost use Rattle.lf_changes.specs.Changed.{HasNoChange, HasNoRule, IsChangedText, IsMutant, IsRefusedFile};

use lf_doubt::Change;
use lf_mutations::{Mutation, mutated};
use lf_protocol_file::{Declared, ProtocolError, ProtocolFile, read_declared, read_protocol};
use lf_sweep::{Place, SweepFault, text_with};
use std::alloc::{AllocError, Global};

/// The scenario with another value at one key.
pub fn changed_text(alloc: Global, scenario: &[u8], change: Change) -> Result<String, SweepFault>
    ensures text { IfOk result (λ text. IsChangedText scenario.now change (string_bytes text)) }
    ensures cause { IfErr result (HasNoChange scenario.now change) }
{
    let place = Place::Key(String::from_str(alloc, change.key().name())?);
    let value = change.value(alloc)?;
    match text_with(alloc, scenario, &place, value) {
        Ok(text) => Ok(text),
        Err(error) => Err(SweepFault::from(error)),
    }
}

/// The protocol of a file with one thing of one rule changed. None where it has no such thing.
pub fn mutant(
    alloc: Global,
    protocol: &[u8],
    mutation: Mutation,
) -> Result<Option<ProtocolFile>, SweepFault>
    ensures made { IfOk result (λ made. MatchOption made (HasNoRule protocol.now mutation) (IsMutant protocol.now mutation)) }
    ensures cause { IfErr result (IsRefusedFile protocol.now) }
{
    let declared = match read_declared(alloc, protocol) {
        Ok(declared) => declared,
        Err(error) => return Err(fault_of(&error)),
    };
    let Declared {
        name,
        definition,
        names,
        outcomes,
    } = declared;
    let Some(definition) = mutated(definition, mutation) else {
        return Ok(None);
    };
    let changed = Declared {
        name,
        definition,
        names,
        outcomes,
    };
    Ok(Some(whole_file(alloc, changed)?))
}

/// The file that says this, which was whole before one rule changed.
fn whole_file(alloc: Global, declared: Declared) -> Result<ProtocolFile, AllocError>
    requires { is_whole declared ≡ true }
    ensures { IfOk result (λ file. file ≡ declared) }
{
    match ProtocolFile::new(alloc, declared)? {
        Some(file) => Ok(file),
        None => unreachable!(),
    }
}

/// What the refusal of a protocol file is to a sweep.
fn fault_of(error: &ProtocolError) -> SweepFault
    ensures { ((error.now ≡ ProtocolError.Memory) × (result ≡ SweepFault.Memory))
        ⊎ ((error.now ≢ ProtocolError.Memory) × (result ≡ SweepFault.Protocol)) }
{
    if matches!(error, ProtocolError::Memory) {
        SweepFault::Memory
    } else {
        SweepFault::Protocol
    }
}

/// The protocol file that a text is.
pub fn known(alloc: Global, text: &[u8]) -> Result<ProtocolFile, SweepFault>
    ensures file { IfOk result (λ file. IsText file text.now) }
    ensures cause { IfErr result (IsRefusedFile text.now) }
{
    match read_protocol(alloc, text) {
        Ok(file) => Ok(file),
        Err(error) => Err(fault_of(&error)),
    }
}
