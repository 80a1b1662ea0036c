//! A protocol, as far as it is read.

ghost use Rattle.std.specs.Prelude.{◌≡◌, ◌++◌, ◌∷◌, [], IfOk, MatchResult, Ok};
ghost use Rattle.lf_grammar.specs.Places.{context_of};
ghost use Rattle.lf_protocol_file.specs.Drafts.{nothing, place_in, is_declared, check_new, with_name, number_after};

use crate::variables::Sketch;
use crate::{Fault, Outcome, name_of};
use lf_grammar::{Meaning, Place, Token};
use lf_list::Listed;
use lf_rules::{Definition, Event, Expr, Leaf, Name, Rule, Scope, Within};
use lf_texts::{is_name, is_reserved};
use std::alloc::{AllocError, Global};

/// Whose rules there are: the set of nodes, and the tokens that say it. None say that it is every node.
#[derive(Debug, Drop)]
pub struct Who {
    pub nodes: Expr,
    pub tokens: Option<Listed<Token>>,
}

/// A chain that the next rule may go on with.
#[derive(Debug, Drop)]
pub struct Begun {
    pub who: Who,
    pub on: Event,
    pub rules: Listed<Rule>,
}

/// A protocol, as far as it is read.
#[derive(Debug, Drop)]
pub struct Draft {
    pub definition: Definition,
    /// What names mean so far.
    pub names: Listed<Meaning>,
    /// The variables, until the kinds of all are known.
    pub sketches: Listed<Sketch>,
    /// The chain that the rules above are of.
    pub begun: Option<Begun>,
    pub outcomes: Listed<Outcome>,
}

/// A list without items.
pub fn none_of<T>(alloc: Global) -> Listed<T>
    ensures { result ≡ [] }
{
    Listed::from_vec(Vec::new(alloc))
}

/// Adds an item to a list.
pub fn push<T: Drop>(list: &mut Listed<T>, item: T) -> Result<(), AllocError>
    ensures { IfOk result (λ _. list.new ≡ list.old ++ item ∷ []) }
{
    match list.items.push(item) {
        Ok(()) => Ok(()),
        Err(_) => Err(AllocError),
    }
}

impl Draft {
    /// Nothing, so far.
    pub fn new(alloc: Global) -> Draft
        ensures { result ≡ nothing }
    {
        let definition = Definition {
            variables: none_of(alloc),
            notes: none_of(alloc),
            given: none_of(alloc),
            lets: none_of(alloc),
            facts: none_of(alloc),
            chains: none_of(alloc),
            trace: none_of(alloc),
        };
        Draft {
            definition,
            names: none_of(alloc),
            sketches: none_of(alloc),
            begun: None,
            outcomes: none_of(alloc),
        }
    }

    /// Where an expression stands in the protocol, with the names of a note's fields there. `it` is nothing there.
    pub fn place<'a>(&'a self, fields: &'a [Name], scope: Scope) -> Place<'a>
        ensures { context_of result ≡ place_in self.now fields.now scope }
    {
        Place {
            definition: &self.definition,
            names: self.names.as_slice(),
            fields,
            scope,
            within: Within::Nothing,
        }
    }

    /// Refuses a name that is none, is a word of the language, or means something already.
    #[tactic(auto, unfolding(crate::specs::Drafts::check_new))]
    pub(crate) fn check_new(&self, name: &str) -> Result<(), Fault>
        ensures { result ≡ check_new self.now name.now }
    {
        if is_name(name) && !is_reserved(name) && !is_declared(self.names.as_slice(), name) {
            Ok(())
        } else {
            Err(Fault::Unfit)
        }
    }

    /// The draft, in which a name means something more.
    pub(crate) fn with_name(self, alloc: Global, name: &str, leaf: Leaf) -> Result<Draft, Fault>
        ensures { MatchResult result (λ d. d ≡ with_name name.now leaf self) (λ e. e ≡ Fault.Memory) }
    {
        let name = name_of(alloc, name)?;
        let mut draft = self;
        push(&mut draft.names, Meaning { name, leaf })?;
        Ok(draft)
    }
}

/// Whether a name means something.
fn is_declared(names: &[Meaning], name: &str) -> bool
    ensures { result ≡ is_declared names.now name.now }
{
    names.iter().any(|meaning| meaning.name.as_str() == name)
}

/// The number of what comes after so many. Numbers past 255 stay 255; no limit is so high.
pub(crate) fn number_after(count: usize) -> u8
    ensures { result ≡ number_after count }
{
    if count < 256 { count as u8 } else { u8::MAX }
}
