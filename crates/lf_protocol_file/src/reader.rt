//! The reader of protocol files.

ghost use Rattle.std.specs.Prelude.{◌≡◌, ◌≢◌, ◌<◌, ◌≤◌, true, length, MatchResult, IsErrAnd, IfOk, Ok, Err};
ghost use Rattle.toml.specs.Data.{Members};
ghost use Rattle.toml.specs.View.{table_view};
ghost use Rattle.lf_protocol_file.specs.Refusals.{shown};
ghost use Rattle.lf_protocol_file.specs.Readings.{Reads};
ghost use Rattle.lf_protocol_file.specs.Files.{longest, known_sections, name_in, declared_in, shown_by, with_trace, declared_by, file_in};
ghost use Rattle.lf_protocol_file.specs.Written.{is_whole};
ghost use Rattle.lf_protocol_file.specs.Files.{IsDocument, IsRefused, IsText};

use crate::chains::with_last_chain;
use crate::sections::{with_listing, with_naming};
use crate::{
    Declared, Draft, LONGEST, Listing, Naming, Path, ProtocolError, ProtocolFile, Section, Shown,
    at, is_section, name_of, with_all_shown, with_variables,
};
use lf_rules::Name;
use lf_texts::is_name;
use std::alloc::{AllocError, Global};
use toml::{Table, Value};

/// The protocol that a text is a file of, or why it is none.
///
/// A text that is longer than `LONGEST` bytes is refused first, and then one that is no TOML document. What a table says is `file_in`. The refusal `Memory`
/// comes only where memory has run out.
pub fn read_protocol(alloc: Global, text: &[u8]) -> Result<ProtocolFile, ProtocolError>
    ensures too_long { longest < length text.now → result ≡ Err ProtocolError.TooLong }
    ensures no_document { length text.now ≤ longest → ((ms : Members) → IsDocument text.now ms → ⊥) →
        IsErrAnd result (λ e. e ≢ ProtocolError.Memory → e ≡ ProtocolError.NoDocument) }
    ensures document { length text.now ≤ longest → (ms : Members) → IsDocument text.now ms → Reads (file_in ms) result }
    ensures reading { MatchResult result (λ file. IsText file text.now) (λ e. e ≢ ProtocolError.Memory → IsRefused text.now e) }
{
    match read_declared(alloc, text) {
        Ok(declared) => file_of(alloc, declared),
        Err(error) => Err(error),
    }
}

/// What the text of a protocol file says, where it is one, as a value that may be changed: the same as what `read_protocol` gives, and as it refuses.
pub fn read_declared(alloc: Global, text: &[u8]) -> Result<Declared, ProtocolError>
    ensures too_long { longest < length text.now → result ≡ Err ProtocolError.TooLong }
    ensures no_document { length text.now ≤ longest → ((ms : Members) → IsDocument text.now ms → ⊥) →
        IsErrAnd result (λ e. e ≢ ProtocolError.Memory → e ≡ ProtocolError.NoDocument) }
    ensures document { length text.now ≤ longest → (ms : Members) → IsDocument text.now ms → Reads (file_in ms) result }
    ensures reading { MatchResult result (λ declared. IsText declared text.now) (λ e. e ≢ ProtocolError.Memory → IsRefused text.now e) }
    ensures whole { IfOk result (λ declared. is_whole declared ≡ true) }
{
    if text.len() > LONGEST {
        return Err(ProtocolError::TooLong);
    }
    match toml::table_from_slice(alloc, text) {
        Ok(table) => read_table(alloc, &table),
        Err(e) if e.is_memory() => Err(ProtocolError::Memory),
        Err(_) => Err(ProtocolError::NoDocument),
    }
}

/// The file that says this, which is whole.
fn file_of(alloc: Global, declared: Declared) -> Result<ProtocolFile, ProtocolError>
    requires whole { is_whole declared ≡ true }
    ensures { MatchResult result (λ file. file ≡ declared) (λ e. e ≡ ProtocolError.Memory) }
{
    match ProtocolFile::new(alloc, declared) {
        Ok(Some(file)) => Ok(file),
        Ok(None) => unreachable!(),
        Err(_) => Err(ProtocolError::Memory),
    }
}

/// What a table says.
#[tactic(auto, unfolding(crate::specs::Files::file_in))]
fn read_table(alloc: Global, table: &Table) -> Result<Declared, ProtocolError>
    ensures value { Reads (file_in (table_view table.now)) result }
    ensures whole { IfOk result (λ declared. is_whole declared ≡ true) }
{
    known_sections(alloc, table)?;
    let name = name_in(alloc, table)?;
    let declared = declared_in(alloc, table)?;
    let ruled = with_listing(alloc, declared, table, Listing::Rules)?;
    let chained = with_last_chain(ruled)?;
    let promised = with_naming(alloc, chained, table, Naming::Outcomes)?;
    let traced = with_trace(alloc, promised, table)?;
    Ok(declared_by(name, traced))
}

/// Refuses a file with a key that files don't have.
#[tactic(auto, unfolding(crate::specs::Files::known_sections))]
fn known_sections(alloc: Global, table: &Table) -> Result<(), ProtocolError>
    ensures { Reads (known_sections (table_view table.now)) result }
{
    'members: for (key, _value) in table.iter() {
        if !is_section(key.as_str()) {
            return Err(unknown_section(alloc, key.as_str()));
        }
    }
    Ok(())
}

/// The refusal of a key that files don't have.
fn unknown_section(alloc: Global, key: &str) -> ProtocolError
    ensures { result ≢ ProtocolError.Memory → result ≡ ProtocolError.Unknown (Path.Key (shown key.now)) }
{
    match Shown::of(alloc, key) {
        Ok(shown) => ProtocolError::Unknown(Path::Key(shown)),
        Err(_) => ProtocolError::Memory,
    }
}

/// The protocol's name.
#[tactic(auto, unfolding(crate::specs::Files::name_in))]
fn name_in(alloc: Global, table: &Table) -> Result<Name, ProtocolError>
    ensures { Reads (name_in (table_view table.now)) result }
{
    match at(table, "name") {
        Some(Value::String(name)) => {
            if !is_name(name.as_str()) {
                return Err(ProtocolError::Unfit(Path::Section(Section::Name)));
            }
            let name = name_of(alloc, name.as_str())?;
            Ok(name)
        }
        Some(_) => Err(ProtocolError::WrongKind(Path::Section(Section::Name))),
        None => Err(ProtocolError::Missing(Path::Section(Section::Name))),
    }
}

/// What a file declares: constants, variables, notes, named expressions and named guards.
#[tactic(auto, unfolding(crate::specs::Files::declared_in))]
fn declared_in(alloc: Global, table: &Table) -> Result<Draft, ProtocolError>
    ensures { Reads (declared_in (table_view table.now)) result }
{
    let draft = Draft::new(alloc);
    let draft = with_naming(alloc, draft, table, Naming::Given)?;
    let draft = with_naming(alloc, draft, table, Naming::State)?;
    let draft = with_variables(alloc, draft)?;
    let draft = with_listing(alloc, draft, table, Listing::Notes)?;
    let draft = with_naming(alloc, draft, table, Naming::Lets)?;
    with_naming(alloc, draft, table, Naming::Facts)
}

/// The draft, whose traces show the variables that are asked for, or all.
#[tactic(auto, unfolding(crate::specs::Files::with_trace))]
fn with_trace(alloc: Global, draft: Draft, table: &Table) -> Result<Draft, ProtocolError>
    ensures { Reads (with_trace draft (table_view table.now)) result }
{
    let draft = with_listing(alloc, draft, table, Listing::Trace)?;
    let draft = shown_by(alloc, draft)?;
    Ok(draft)
}

/// The draft, whose traces show all variables where they show none so far.
fn shown_by(alloc: Global, draft: Draft) -> Result<Draft, AllocError>
    ensures { IfOk result (λ d. d ≡ shown_by draft.definition.trace draft) }
{
    match draft.definition.trace.as_slice() {
        [] => with_all_shown(alloc, draft),
        _ => Ok(draft),
    }
}

/// What a draft declares.
fn declared_by(name: Name, draft: Draft) -> Declared
    ensures { result ≡ declared_by name draft }
{
    let Draft {
        definition,
        names,
        outcomes,
        ..
    } = draft;
    Declared {
        name,
        definition,
        names,
        outcomes,
    }
}
