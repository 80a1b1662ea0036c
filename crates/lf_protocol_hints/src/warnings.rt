//! What looks like a slip in a protocol file.

use crate::nobody::why_nobody;
use crate::places::warn_of_places;
use crate::used::{is_word_given, notes_used, used_by};
use crate::uses::{Uses, has_bit};
use lf_protocol_file::Outcome;
use lf_rules::{Cells, Definition, Event, Leaf, Name, Rule, Target, Tree, Unary, Variable};
use std::alloc::AllocError;

/// Puts the warnings behind a text, each on a line of its own. The error, also below, is that memory has run out.
pub(crate) fn put_warnings(
    text: &mut String,
    definition: &Definition,
    outcomes: &[Outcome],
) -> Result<(), AllocError> {
    let uses = used_by(definition, outcomes);
    warn_of_notes(text, definition)?;
    warn_of_names(text, definition, uses)?;
    warn_of_variables(text, definition, uses)?;
    warn_of_places(text, definition)?;
    warn_of_rules(text, definition)
}

/// Of notes that nobody sends, or that no rule is on.
fn warn_of_notes(text: &mut String, definition: &Definition) -> Result<(), AllocError> {
    let (sent, heard) = notes_used(definition);
    for (i, form) in definition.notes.as_slice().iter().enumerate() {
        let name = form.name.as_str();
        if !has_bit(sent, i) {
            write!(text, "\nwarning: nobody sends {name}")?;
        }
        if !has_bit(heard, i) {
            write!(text, "\nwarning: no rule is on {name}")?;
        }
    }
    Ok(())
}

/// Of constants, lets and facts that nothing uses.
fn warn_of_names(text: &mut String, definition: &Definition, uses: Uses) -> Result<(), AllocError> {
    for (i, constant) in definition.given.as_slice().iter().enumerate() {
        warn_of_unused(text, "constant", &constant.name, uses.constants, i)?;
    }
    for (i, named) in definition.lets.as_slice().iter().enumerate() {
        warn_of_unused(text, "let", &named.name, uses.lets, i)?;
    }
    for (i, guard) in definition.facts.as_slice().iter().enumerate() {
        warn_of_unused(text, "fact", &guard.name, uses.facts, i)?;
    }
    Ok(())
}

/// Of a name with a number that isn't used.
fn warn_of_unused(
    text: &mut String,
    what: &str,
    name: &Name,
    used: u64,
    number: usize,
) -> Result<(), AllocError> {
    if has_bit(used, number) {
        return Ok(());
    }
    write!(
        text,
        "\nwarning: nothing in the file uses the {what} {}",
        name.as_str()
    )
}

/// Of variables that nothing reads, and words that no variable gets.
fn warn_of_variables(
    text: &mut String,
    definition: &Definition,
    uses: Uses,
) -> Result<(), AllocError> {
    for (i, variable) in definition.variables.as_slice().iter().enumerate() {
        if !has_bit(uses.variables, i) {
            let (what, name) = (what_is(variable), variable.name.as_str());
            write!(
                text,
                "\nwarning: nothing in the file reads the {what} {name}"
            )?;
        }
        warn_of_words(text, definition, i, variable)?;
    }
    Ok(())
}

/// What a variable is, in a word.
fn what_is(variable: &Variable) -> &'static str {
    match variable.cells {
        Cells::One => "variable",
        _ => "table",
    }
}

/// Of words of the variable with a number that it never gets. It has the first one at the start.
fn warn_of_words(
    text: &mut String,
    definition: &Definition,
    number: usize,
    variable: &Variable,
) -> Result<(), AllocError> {
    for (i, word) in variable.words.as_slice().iter().enumerate().skip(1) {
        let leaf = Leaf::Word {
            of: low_byte(number),
            word: low_byte(i),
        };
        if !is_word_given(definition, leaf) {
            let (name, word) = (variable.name.as_str(), word.as_str());
            let cell = if variable.cells == Cells::One {
                ""
            } else {
                "a cell of "
            };
            write!(text, "\nwarning: {cell}{name} never becomes {word}")?;
        }
    }
    Ok(())
}

/// A small number as a byte.
fn low_byte(number: usize) -> u8 {
    u8::try_from(number).unwrap_or(u8::MAX)
}

/// Of rules that no node has, of notes that are sent to nobody else, and of variables that keep the step while a node sleeps.
fn warn_of_rules(text: &mut String, definition: &Definition) -> Result<(), AllocError> {
    let wakes = has_wake(definition);
    let mut number: usize = 0;
    for chain in definition.chains.as_slice() {
        for rule in chain.rules.as_slice() {
            number = number.saturating_add(1);
            if let Some(why) = why_nobody(definition, chain) {
                write!(text, "\nwarning: rule {number} is no node's: {why}")?;
            }
            warn_of_sends(text, definition, number, rule)?;
        }
    }
    if wakes {
        Ok(())
    } else {
        warn_of_steps(text, definition)
    }
}

/// Whether a rule is on waking.
fn has_wake(definition: &Definition) -> bool {
    for chain in definition.chains.as_slice() {
        if chain.on == Event::Wake {
            return true;
        }
    }
    false
}

/// Of notes that the rule with a number sends to the node itself alone.
fn warn_of_sends(
    text: &mut String,
    definition: &Definition,
    number: usize,
    rule: &Rule,
) -> Result<(), AllocError> {
    for send in rule.sends.as_slice() {
        if is_me(send.to.tree()) {
            let name = match definition.notes.as_slice().get(usize::from(send.form)) {
                Some(form) => form.name.as_str(),
                None => "a note",
            };
            write!(
                text,
                "\nwarning: rule {number} sends {name} to me alone, and a node hears nothing from itself"
            )?;
        }
    }
    Ok(())
}

/// Whether a tree is the set of the node itself alone.
fn is_me(tree: &Tree) -> bool {
    match tree {
        Tree::Unary(Unary::Only, node) => is_leaf_me(node),
        _ => false,
    }
}

/// Whether a tree is the node itself.
fn is_leaf_me(tree: &Tree) -> bool {
    matches!(tree, Tree::Leaf(Leaf::Me))
}

/// The number of the variable that gets a value.
fn set_by(target: &Target) -> u8 {
    match target {
        Target::Variable(i) => *i,
        Target::Cell(table, _) | Target::Cells(table, _) => table.of,
    }
}

/// Of variables that are set to the step, where no rule is on waking.
fn warn_of_steps(text: &mut String, definition: &Definition) -> Result<(), AllocError> {
    for (i, variable) in definition.variables.as_slice().iter().enumerate() {
        if is_set_to_step(definition, i) {
            let name = variable.name.as_str();
            write!(
                text,
                "\nwarning: {name} is set to t, and no rule is on wake: time goes on while a node sleeps"
            )?;
        }
    }
    Ok(())
}

/// Whether some rule sets the variable with a number to the step.
fn is_set_to_step(definition: &Definition, number: usize) -> bool {
    for chain in definition.chains.as_slice() {
        for rule in chain.rules.as_slice() {
            if sets_to_step(rule, number) {
                return true;
            }
        }
    }
    false
}

/// Whether a rule sets the variable with a number to the step.
fn sets_to_step(rule: &Rule, number: usize) -> bool {
    for set in rule.sets.as_slice() {
        if usize::from(set_by(&set.target)) == number
            && matches!(set.value.tree(), Tree::Leaf(Leaf::Step))
        {
            return true;
        }
    }
    false
}
