//! What names stand for where an expression stands.

ghost use Rattle.std.specs.Prelude.{◌≡◌, MatchOption, Some, None, slice_get};
ghost use Rattle.lf_grammar.specs.Places.{fixed, field_from, declared_in, leaf_of, context_of, body_at, row_of, table_of, table_by};
ghost use Rattle.lf_rules.specs.Tables.{others_of};

use lf_rules::{Cells, Definition, Leaf, Name, Row, Scope, Table, Within};

/// What a name of a protocol stands for.
#[derive(Debug, Drop)]
pub struct Meaning {
    pub name: Name,
    pub leaf: Leaf,
}

/// Where an expression stands: in which protocol, as far as it is read, and what may be named there.
#[derive(Drop)]
pub struct Place<'a> {
    pub definition: &'a Definition,
    /// The names so far: of constants, variables, their words, named expressions and guards.
    pub names: &'a [Meaning],
    /// The names that the fields of the note have in this rule. A field that has none is `_` there.
    pub fields: &'a [Name],
    pub scope: Scope,
    /// What `it` is there, and whether bodies may stand there.
    pub within: Within,
}

impl<'a> Place<'a> {
    /// Where a body stands that stands here. None where none may stand: in another one, and where the state isn't named.
    pub(crate) fn body(&self) -> Option<Place<'a>>
        ensures { MatchOption result (body_at (context_of self.now) ≡ None) (λ inner. body_at (context_of self.now) ≡ Some (context_of inner)) }
    {
        match (self.scope, self.within) {
            (Scope::Given | Scope::Who, _) | (_, Within::Body) => None,
            _ => Some(Place {
                definition: self.definition,
                names: self.names,
                fields: self.fields,
                scope: self.scope,
                within: Within::Body,
            }),
        }
    }
}

impl Place<'_> {
    /// What a word stands for. None where it stands for nothing.
    pub fn leaf(&self, word: &str) -> Option<Leaf>
        ensures { result ≡ leaf_of self.now.fields.now self.now.names.now word.now }
    {
        fixed(word).or(self.field(word)).or(self.declared(word))
    }

    /// What has the items that a name with brackets behind it stands for.
    pub fn row(&self, leaf: Leaf) -> Option<Row>
        ensures { result ≡ row_of self.now.definition.now leaf }
    {
        match leaf {
            Leaf::Variable(i) => self.table(i),
            Leaf::Given(i) => Some(Row::Given(i)),
            _ => None,
        }
    }

    /// The cells of a variable, where it is a table.
    fn table(&self, i: u8) -> Option<Row>
        ensures { result ≡ table_of self.now.definition.now i (slice_get self.now.definition.now.variables i) }
    {
        match self.definition.variables.as_slice().get(usize::from(i)) {
            Some(variable) => table_by(i, self.definition.others_of(i), variable.cells),
            None => None,
        }
    }

    /// The field with a name.
    fn field(&self, word: &str) -> Option<Leaf>
        ensures { result ≡ field_from 0 word.now self.now.fields.now }
    {
        for (i, name) in self.fields.iter().enumerate() {
            if name.as_str() == word && word != "_" {
                return if i < 256 {
                    Some(Leaf::Field(i as u8))
                } else {
                    None
                };
            }
        }
        None
    }

    /// What has a name in the protocol.
    fn declared(&self, word: &str) -> Option<Leaf>
        ensures { result ≡ declared_in word.now self.now.names.now }
    {
        for meaning in self.names {
            if meaning.name.as_str() == word {
                return Some(meaning.leaf);
            }
        }
        None
    }
}

/// What a word of the language stands for.
fn fixed(word: &str) -> Option<Leaf>
    ensures { result ≡ fixed word.now }
{
    match word {
        "t" => Some(Leaf::Step),
        "me" => Some(Leaf::Me),
        "sender" => Some(Leaf::Sender),
        "nodes" => Some(Leaf::Nodes),
        "all" => Some(Leaf::All),
        "true" => Some(Leaf::Truth(true)),
        "false" => Some(Leaf::Truth(false)),
        "clamped" => Some(Leaf::Clamped),
        "replaced" => Some(Leaf::Replaced),
        "it" => Some(Leaf::It),
        _ => None,
    }
}

/// The table with these cells, of which the second has this number.
fn table_by(of: u8, others: usize, cells: Cells) -> Option<Row>
    ensures { result ≡ table_by of others cells }
{
    match cells {
        Cells::One => None,
        _ => {
            if others < 256 {
                let others = others as u8;
                Some(Row::Table(Table { of, others, cells }))
            } else {
                None
            }
        }
    }
}
