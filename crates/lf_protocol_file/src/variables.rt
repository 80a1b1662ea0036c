//! The variables of a node's state.

ghost use Rattle.std.specs.Prelude.{◌≡◌, [], IfOk, MatchResult, Ok, Err};
ghost use Rattle.toml.specs.View.{view};
ghost use Rattle.lf_protocol_file.specs.Readings.{Gives, Reads};
ghost use Rattle.lf_protocol_file.specs.Variables.{held_in, with_words, with_words_of, with_held, with_text, with_sketch, own_kind, kind_like};
ghost use Rattle.lf_protocol_file.specs.Variables.{kind_of, words_of, variable_of, variable_at, variables_behind, settled, limited, with_variables};

use crate::draft::{Draft, none_of, number_after, push};
use crate::{Fault, Naming, Path, ProtocolError, Section, name_of, tokens_in};
use lf_list::Listed;
use lf_rules::{Cells, Kind, Leaf, Name, Scope, Variable};
use lf_texts::{VariableText, read_variable};
use std::alloc::{AllocError, Global};
use toml::Value;

/// A variable as its text says.
#[derive(Debug, Drop)]
pub struct Sketch {
    pub name: Name,
    pub cells: Cells,
    /// What each of its cells holds.
    pub held: VariableText,
}

/// The draft with one more variable. Its words mean something from then on.
#[tactic(auto, unfolding(crate::specs::Variables::with_sketch))]
pub fn with_sketch(alloc: Global, draft: Draft, key: &str, value: &Value) -> Result<Draft, Fault>
    ensures { Gives (with_sketch draft key.now (view value.now)) result }
{
    draft.check_new(key)?;
    let number = number_after(draft.sketches.len());
    let draft = draft.with_name(alloc, key, Leaf::Variable(number))?;
    with_text(alloc, draft, number, key, value)
}

/// The draft with the text of a variable that has a number.
#[tactic(auto, unfolding(crate::specs::Variables::with_text))]
fn with_text(
    alloc: Global,
    draft: Draft,
    number: u8,
    key: &str,
    value: &Value,
) -> Result<Draft, Fault>
    ensures { Gives (with_text number draft key.now (view value.now)) result }
{
    let (cells, held) = held_in(alloc, &draft, value)?;
    let name = name_of(alloc, key)?;
    let draft = with_words_of(alloc, draft, number, &held)?;
    let draft = with_held(draft, Sketch { name, cells, held })?;
    Ok(draft)
}

/// The draft with a variable behind the others.
fn with_held(draft: Draft, sketch: Sketch) -> Result<Draft, AllocError>
    ensures { IfOk result (λ d. d ≡ with_held sketch draft) }
{
    let mut draft = draft;
    push(&mut draft.sketches, sketch)?;
    Ok(draft)
}

/// What the text of a variable says: how many cells it has, and what each of them holds.
#[tactic(auto, unfolding(crate::specs::Variables::held_in))]
fn held_in(alloc: Global, draft: &Draft, value: &Value) -> Result<(Cells, VariableText), Fault>
    ensures { Gives (held_in draft.now (view value.now)) result }
{
    let tokens = tokens_in(alloc, value)?;
    let place = draft.place(&[], Scope::Given);
    let held = read_variable(alloc, &place, tokens.as_slice())?;
    Ok(held)
}

/// The draft, in which the words of a variable mean something.
fn with_words_of(alloc: Global, draft: Draft, of: u8, held: &VariableText) -> Result<Draft, Fault>
    ensures { MatchResult result (λ d. d ≡ with_words_of of held.now draft) (λ e. e ≡ Fault.Memory) }
{
    match held {
        VariableText::Words(words) => with_words(alloc, draft, of, words.as_slice()),
        _ => Ok(draft),
    }
}

/// The draft, in which words mean something.
fn with_words(alloc: Global, draft: Draft, of: u8, words: &[Name]) -> Result<Draft, Fault>
    ensures { MatchResult result (λ d. d ≡ with_words of 0 words.now draft) (λ e. e ≡ Fault.Memory) }
{
    let mut draft = draft;
    for (i, word) in words.iter().enumerate() {
        let leaf = Leaf::Word {
            of,
            word: number_after(i),
        };
        draft = draft.with_name(alloc, word.as_str(), leaf)?;
    }
    Ok(draft)
}

/// The most cells of a state.
const MOST_CELLS: usize = 64;

/// The draft with its variables, now that all are there. They have at most 64 cells in all.
#[tactic(auto, unfolding(crate::specs::Variables::with_variables))]
pub fn with_variables(alloc: Global, draft: Draft) -> Result<Draft, ProtocolError>
    ensures { Reads (with_variables draft) result }
{
    let variables = variables_of(alloc, draft.sketches.as_slice())?;
    limited(settled(alloc, draft, variables))
}

/// The draft, whose variables have at most 64 cells in all.
fn limited(draft: Draft) -> Result<Draft, ProtocolError>
    ensures { Reads (limited draft) result }
{
    if draft.definition.cells_in() <= MOST_CELLS {
        Ok(draft)
    } else {
        Err(ProtocolError::PastLimit(Path::Section(Section::Naming(Naming::State))))
    }
}

/// The draft with these variables in place of the sketches.
fn settled(alloc: Global, draft: Draft, variables: Listed<Variable>) -> Draft
    ensures { result ≡ settled variables draft }
{
    let mut draft = draft;
    draft.definition.variables = variables;
    draft.sketches = none_of(alloc);
    draft
}

/// All variables, in order.
fn variables_of(alloc: Global, sketches: &[Sketch]) -> Result<Listed<Variable>, ProtocolError>
    ensures { Reads (variables_behind sketches.now [] 0 sketches.now) result }
{
    let mut variables = none_of(alloc);
    for (i, sketch) in sketches.iter().enumerate() {
        let variable = variable_at(alloc, sketches, i, sketch)?;
        push(&mut variables, variable)?;
    }
    Ok(variables)
}

/// A variable, by its number.
fn variable_at(
    alloc: Global,
    sketches: &[Sketch],
    i: usize,
    sketch: &Sketch,
) -> Result<Variable, ProtocolError>
    ensures { Reads (variable_at sketches.now i sketch.now) result }
{
    match kind_of(sketches, i, &sketch.held) {
        Ok(kind) => {
            let variable = variable_of(alloc, sketch, kind)?;
            Ok(variable)
        }
        Err(fault) => Err(fault.at_entry(alloc, Naming::State, sketch.name.as_str())),
    }
}

/// What kind a variable is of, by its number.
fn kind_of(sketches: &[Sketch], i: usize, held: &VariableText) -> Result<Kind, Fault>
    ensures { result ≡ kind_of sketches.now i held.now }
{
    match held {
        VariableText::Like(name) => kind_like(sketches, name.as_str()),
        _ => own_kind(i, held),
    }
}

/// The kind of the variable with a name, whose own text says it.
fn kind_like(sketches: &[Sketch], name: &str) -> Result<Kind, Fault>
    ensures { result ≡ kind_like 0 name.now sketches.now }
{
    for (i, sketch) in sketches.iter().enumerate() {
        if sketch.name.as_str() == name {
            return own_kind(i, &sketch.held);
        }
    }
    Err(Fault::Unfit)
}

/// The kind that the own text of a variable says, which has a number.
fn own_kind(i: usize, held: &VariableText) -> Result<Kind, Fault>
    ensures { result ≡ own_kind i held.now }
{
    match held {
        VariableText::Kind(kind) => Ok(*kind),
        VariableText::Words(words) => Ok(Kind::Word {
            of: number_after(i),
            words: number_after(words.len()),
        }),
        VariableText::Like(_) => Err(Fault::Unfit),
    }
}

/// The variable that is sketched, with its kind.
fn variable_of(alloc: Global, sketch: &Sketch, kind: Kind) -> Result<Variable, AllocError>
    ensures { IfOk result (λ v. v ≡ variable_of sketch.now kind) }
{
    let name = name_of(alloc, sketch.name.as_str())?;
    let words = words_of(alloc, &sketch.held)?;
    Ok(Variable {
        name,
        kind,
        cells: sketch.cells,
        words,
    })
}

/// The words of a variable.
fn words_of(alloc: Global, held: &VariableText) -> Result<Listed<Name>, AllocError>
    ensures { IfOk result (λ words. words ≡ words_of held.now) }
{
    match held {
        VariableText::Words(words) => copied(alloc, words.as_slice()),
        _ => Ok(none_of(alloc)),
    }
}

/// The same names, with texts of their own.
fn copied(alloc: Global, names: &[Name]) -> Result<Listed<Name>, AllocError>
    ensures { IfOk result (λ copies. copies ≡ names.now) }
{
    let mut copies = none_of(alloc);
    for name in names {
        let copy = name_of(alloc, name.as_str())?;
        push(&mut copies, copy)?;
    }
    Ok(copies)
}
