//! Protocols that are well formed.

ghost use Rattle.std.specs.Prelude.{◌≡◌, ◌↔◌, true, IsSome, IsTrue, IfSome};
ghost use Rattle.lf_rules.specs.Forms.{is_well_formed};

use crate::definition::Definition;
use std::marker::Model;

/// A protocol that is well formed.
#[derive(Debug, Drop)]
pub struct Rules {
    definition: Definition,
}

impl Model for Rules {
    ghost use Rattle.std.specs.Prelude.{◌≡◌, true};
    ghost use Rattle.lf_rules.specs.declared.definition.Definition.{Definition};
    ghost use Rattle.lf_rules.specs.contracts.definition.Definition.{the_row};

    ghost Value = { Definition };

    ghost coded = { the_row.coded };

    ghost use Rattle.lf_rules.specs.Forms.{is_well_formed};

    ghost view = { λ rules. rules.definition };

    ghost invariant = { λ rules. is_well_formed rules.definition ≡ true };
}

impl Rules {
    /// The protocol of a definition. None where it isn't well formed.
    pub fn new(definition: Definition) -> Option<Rules>
        ensures some { IsSome result ↔ IsTrue (is_well_formed definition) }
        ensures value { IfSome result (λ rules. rules ≡ definition) }
    {
        if definition.is_well_formed() {
            Some(Rules { definition })
        } else {
            None
        }
    }

    /// What it is made of.
    pub fn definition(&self) -> &Definition
        ensures value { result.now ≡ self.now }
        ensures well_formed { is_well_formed result.now ≡ true }
    {
        &self.definition
    }
}
