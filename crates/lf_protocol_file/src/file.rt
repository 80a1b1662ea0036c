//! Protocol files whose protocol is well formed.

ghost use Rattle.std.specs.Prelude.{◌≡◌, ◌↔◌, true, IsSome, IsTrue, IfSome, IfOk};
ghost use Rattle.std.specs.Arc.{arc_value};
ghost use Rattle.lf_rules.specs.Forms.{is_well_formed};
ghost use Rattle.lf_protocol_file.specs.Written.{are_named, is_whole};

use crate::declared::{Declared, Outcome};
use lf_grammar::Meaning;
use lf_list::Listed;
use lf_promises::names_facts;
use lf_rules::{Definition, Name, Rules};
use std::alloc::{AllocError, Global};
use std::marker::Model;
use std::sync::Arc;

/// A protocol file: its protocol is well formed, and its outcomes are about facts of the protocol.
#[derive(Debug, Drop)]
pub struct ProtocolFile {
    name: Name,
    rules: Arc<Rules>,
    names: Listed<Meaning>,
    outcomes: Listed<Outcome>,
}

impl Model for ProtocolFile {
    ghost use Rattle.std.specs.Prelude.{◌≡◌, true};
    ghost use Rattle.std.specs.Arc.{arc_value};
    ghost use Rattle.lf_protocol_file.specs.declared.declared.Declared.{Declared};
    ghost use Rattle.lf_protocol_file.specs.Written.{is_whole};
    ghost use Rattle.lf_protocol_file.specs.contracts.declared.Declared.{the_row};

    ghost Value = { Declared };

    ghost coded = { the_row.coded };

    ghost view = { λ file. record { name = file.name; definition = arc_value file.rules; names = file.names; outcomes = file.outcomes } };

    ghost invariant = { λ file. is_whole (record { name = file.name; definition = arc_value file.rules; names = file.names; outcomes = file.outcomes })
        ≡ true };
}

impl ProtocolFile {
    /// The file that says this. None where its protocol isn't well formed, or an outcome is about a fact that the protocol hasn't. The error is that memory has
    /// run out.
    pub fn new(alloc: Global, declared: Declared) -> Result<Option<ProtocolFile>, AllocError>
        ensures some { IfOk result (λ made. IsSome made ↔ IsTrue (is_whole declared)) }
        ensures value { IfOk result (λ made. IfSome made (λ file. file ≡ declared)) }
    {
        let Declared {
            name,
            definition,
            names,
            outcomes,
        } = declared;
        if !are_named(&definition, outcomes.as_slice()) {
            return Ok(None);
        }
        let Some(rules) = Rules::new(definition) else {
            return Ok(None);
        };
        match Arc::new(alloc, rules) {
            Ok(rules) => Ok(Some(ProtocolFile {
                name,
                rules,
                names,
                outcomes,
            })),
            Err(_) => Err(AllocError),
        }
    }

    /// What a scenario calls the protocol.
    pub fn name(&self) -> &str
        ensures { result.now ≡ self.now.name }
    {
        self.name.as_str()
    }

    /// The rules, shared. The error is that memory has run out.
    pub fn rules(&self) -> Result<Arc<Rules>, AllocError>
        ensures { IfOk result (λ rules. arc_value rules ≡ self.now.definition) }
    {
        Arc::clone(&self.rules)
    }

    /// What the protocol is made of.
    pub fn definition(&self) -> &Definition
        ensures value { result.now ≡ self.now.definition }
        ensures well_formed { is_well_formed result.now ≡ true }
    {
        self.rules.definition()
    }

    /// What names stand for in its texts.
    pub fn names(&self) -> &[Meaning]
        ensures { result.now ≡ self.now.names }
    {
        self.names.as_slice()
    }

    /// What the protocol promises, by name.
    pub fn outcomes(&self) -> &[Outcome]
        ensures value { result.now ≡ self.now.outcomes }
        ensures named { are_named self.now.definition result.now ≡ true }
    {
        self.outcomes.as_slice()
    }
}

/// Whether each outcome is about facts that a protocol has.
fn are_named(definition: &Definition, outcomes: &[Outcome]) -> bool
    ensures { result ≡ are_named definition.now outcomes.now }
{
    outcomes
        .iter()
        .all(|outcome| names_facts(definition, &outcome.promise))
}
