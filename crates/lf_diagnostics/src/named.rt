//! Names, and what each stands for.

use crate::hint::Words;

/// What a name stands for.
#[derive(Clone, Copy, Debug, PartialEq, Eq)]
pub enum Class {
    Constant,
    Variable,
    /// A variable that is a flag.
    Flag,
    /// A variable that is a table.
    Table,
    /// A word of a variable.
    Word,
    Let,
    Fact,
    Note,
    /// The sender, or a field of the note that a rule is on.
    Field,
}

/// A name of a file.
#[derive(Clone, Copy, Debug)]
pub struct Known<'a> {
    pub name: &'a str,
    pub class: Class,
    /// Of a word, the name of its variable; of a note, its text.
    pub of: &'a str,
}

impl<'a> Known<'a> {
    /// A name of a class.
    pub fn new(name: &'a str, class: Class, of: &'a str) -> Known<'a> {
        Known { name, class, of }
    }

    /// What it is, in words.
    pub fn words(&self) -> Words {
        match self.class {
            Class::Word => Words::of(format_args!("a word of `{}`", self.of)),
            _ => Words::of(self.class.words()),
        }
    }
}

impl Class {
    /// What it is, in words.
    pub fn words(self) -> &'static str {
        match self {
            Class::Constant => "a constant",
            Class::Variable | Class::Flag => "a variable",
            Class::Table => "a table",
            Class::Word => "a word of a variable",
            Class::Let => "a let",
            Class::Fact => "a fact",
            Class::Note => "a note",
            Class::Field => "a field of the note",
        }
    }

    /// Whether names of the class are variables.
    pub fn is_variable(self) -> bool {
        matches!(self, Class::Variable | Class::Flag | Class::Table)
    }

    /// Whether names of the class are facts, but for words of tables.
    pub fn is_fact(self) -> bool {
        matches!(self, Class::Fact | Class::Word | Class::Flag)
    }
}

/// The first of the names with this text.
pub fn first_named<'a>(names: &[Known<'a>], name: &str) -> Option<Known<'a>> {
    for known in names {
        if known.name == name {
            return Some(*known);
        }
    }
    None
}
