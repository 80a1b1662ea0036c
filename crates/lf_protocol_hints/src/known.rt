//! The names of a protocol file that is read, and what each stands for.

use lf_diagnostics::{Class, Known};
use lf_grammar::Place as Reading;
use lf_protocol_file::ProtocolFile;
use lf_rules::{Cells, Kind, Scope, Within};
use std::alloc::{AllocError, Global};

/// The names of a file that outcomes may use. The error is that memory has run out.
pub(crate) fn known_in(alloc: Global, file: &ProtocolFile) -> Result<Vec<Known<'_>>, AllocError> {
    let definition = file.definition();
    let mut names = Vec::new(alloc);
    for constant in definition.given.as_slice() {
        names.push(Known::new(constant.name.as_str(), Class::Constant, ""))?;
    }
    for variable in definition.variables.as_slice() {
        let class = match (variable.cells, variable.kind) {
            (Cells::One, Kind::Flag) => Class::Flag,
            (Cells::One, _) => Class::Variable,
            _ => Class::Table,
        };
        let name = variable.name.as_str();
        names.push(Known::new(name, class, ""))?;
        for word in variable.words.as_slice() {
            names.push(Known::new(word.as_str(), Class::Word, name))?;
        }
    }
    for form in definition.notes.as_slice() {
        names.push(Known::new(form.name.as_str(), Class::Note, ""))?;
    }
    for named in definition.lets.as_slice() {
        names.push(Known::new(named.name.as_str(), Class::Let, ""))?;
    }
    for fact in definition.facts.as_slice() {
        names.push(Known::new(fact.name.as_str(), Class::Fact, ""))?;
    }
    Ok(names)
}

/// Where a text of a scenario stands among the rules of a file.
pub(crate) fn reading_in(file: &ProtocolFile, scope: Scope) -> Reading<'_> {
    Reading {
        definition: file.definition(),
        names: file.names(),
        fields: &[],
        scope,
        within: Within::Nothing,
    }
}
