//! Which rules send the note that is lost at its sender, and the one that takes its place.

use crate::replay::{Cause, Mark, cause_of, notes_to};
use lf_protocols::Protocol;
use lf_rule_machine::{Note, sets, value_of};
use lf_rules::{Definition, Send};
use lf_sim::{Run, Setting};
use std::alloc::{AllocError, Global};

/// How a note is lost at its sender.
#[derive(Clone, Copy, Debug)]
enum Loss {
    /// Two rules sent the node `to` a note of one form: that of the rule `first` was lost.
    Replaced {
        to: u32,
        form: u8,
        first: usize,
        second: usize,
    },
    /// The rule sent the node `to` a note of a form for which the packet had no room.
    Left {
        to: u32,
        form: u8,
        rule: usize,
    },
    /// The rule with this number sent two notes of one form to one node: the first was lost.
    Twice(usize),
}

/// Which note is lost at its sender at a step of this run, at which that happens at this node for the first time: for whom it was, by which rule, and why. The
/// error, also below, is that memory has run out.
pub(crate) fn replaced_words(
    alloc: Global,
    setting: &Setting<Protocol>,
    played: &Run<Protocol>,
    node: u32,
    step: u32,
) -> Result<String, AllocError> {
    match cause_of(alloc, setting, played, node, step, Mark::Replaced)? {
        Some(cause) => words(alloc, cause.definition, loss_by(&cause)),
        None => String::from_str(
            alloc,
            "more notes to one node in one step than a packet has room for",
        ),
    }
}

/// Which note was lost, and why, in words.
fn words(alloc: Global, definition: &Definition, loss: Loss) -> Result<String, AllocError> {
    match loss {
        Loss::Replaced {
            to,
            form,
            first,
            second,
        } => {
            let name = form_name(definition, form);
            format!(in alloc;
                "two notes to node {to} in one step: the {name} of rule {first} was lost, since the {name} of rule {second} took its place"
            )
        }
        Loss::Left { to, form, rule } => {
            let name = form_name(definition, form);
            format!(in alloc;
                "notes of five names to node {to} in one step: the {name} of rule {rule} was left out, since a packet has room for four"
            )
        }
        Loss::Twice(rule) => {
            format!(in alloc;
                "two notes of one name to one node in one step, both by rule {rule}: the first was lost"
            )
        }
    }
}

/// The name of a form of notes.
fn form_name(definition: &Definition, form: u8) -> &str {
    match definition.notes.as_slice().get(usize::from(form)) {
        Some(form) => form.name.as_str(),
        None => "note",
    }
}

/// How a note was lost by a rule.
fn loss_by(cause: &Cause<'_>) -> Loss {
    for to in 0..cause.at.nodes {
        if let Some(loss) = replaced(cause, to) {
            return loss;
        }
    }
    for send in cause.taken.rule.sends.as_slice() {
        if let Some(loss) = left(cause, send) {
            return loss;
        }
    }
    Loss::Twice(cause.taken.number)
}

/// The note to a node of an earlier rule in whose place the rule has put another one.
fn replaced(cause: &Cause<'_>, to: u32) -> Option<Loss> {
    let (old, new) = (notes_to(&cause.before, to), notes_to(&cause.after, to));
    let senders = cause.senders.get(to as usize)?;
    for (first, (old, new)) in senders.iter().zip(old.iter().zip(new.iter())) {
        if let (Some(old), Some(new)) = (old, new) {
            if !old.same(new) {
                return Some(Loss::Replaced {
                    to,
                    form: old.form,
                    first: *first,
                    second: cause.taken.number,
                });
            }
        }
    }
    None
}

/// The first receiver whose packet hasn't the note that the rule has sent it.
fn left(cause: &Cause<'_>, send: &Send) -> Option<Loss> {
    let receivers = value_of(cause.definition, &cause.at, &cause.after.state, &send.to);
    for to in 0..cause.at.nodes {
        if sets::has(receivers, u64::from(to))
            && to != cause.at.me
            && !has_form(&notes_to(&cause.after, to), send.form)
        {
            return Some(Loss::Left {
                to,
                form: send.form,
                rule: cause.taken.number,
            });
        }
    }
    None
}

/// Whether one of some notes is of this form.
fn has_form(notes: &[Option<Note>], form: u8) -> bool {
    for note in notes {
        if let Some(note) = note {
            if note.form == form {
                return true;
            }
        }
    }
    false
}
