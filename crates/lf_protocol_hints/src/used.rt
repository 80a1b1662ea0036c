//! What a protocol uses.

use crate::uses::{Uses, bit, has_leaf};
use lf_promises::Promise;
use lf_protocol_file::Outcome;
use lf_rule_machine::{Fact, Told};
use lf_rules::{Chain, Definition, Event, Leaf, Rule, Target};

/// How deep an outcome is looked into. No file has a deeper one, since its brackets are limited.
const DEEPEST: u32 = 100;

/// What the expressions and the outcomes of a protocol use.
pub(crate) fn used_by(definition: &Definition, outcomes: &[Outcome]) -> Uses {
    let mut uses = Uses::none();
    for named in definition.lets.as_slice() {
        uses = uses.and(&named.value);
    }
    for guard in definition.facts.as_slice() {
        uses = uses.and(&guard.value);
    }
    for chain in definition.chains.as_slice() {
        uses = used_by_chain(chain, uses);
    }
    for outcome in outcomes {
        uses = used_by_promise(&outcome.promise, DEEPEST, uses);
    }
    uses
}

/// What a chain of rules uses, besides.
fn used_by_chain(chain: &Chain, uses: Uses) -> Uses {
    let mut uses = uses.and(&chain.who);
    for rule in chain.rules.as_slice() {
        uses = used_by_rule(rule, uses);
    }
    uses
}

/// What a rule uses, besides.
fn used_by_rule(rule: &Rule, uses: Uses) -> Uses {
    let mut uses = uses.and(&rule.guard);
    for set in rule.sets.as_slice() {
        uses = used_by_target(&set.target, uses).and(&set.value);
    }
    for send in rule.sends.as_slice() {
        uses = uses.and(&send.to);
        for field in send.fields.as_slice() {
            uses = uses.and(field);
        }
    }
    uses
}

/// What the place of a target uses, besides.
fn used_by_target(target: &Target, uses: Uses) -> Uses {
    match target {
        Target::Variable(_) => uses,
        Target::Cell(_, place) | Target::Cells(_, place) => uses.and(place),
    }
}

/// What an outcome that is looked into so deep uses, besides.
fn used_by_promise(promise: &Promise, room: u32, uses: Uses) -> Uses {
    if room == 0 {
        return uses;
    }
    match promise {
        Promise::All(parts) | Promise::Any(parts) | Promise::Always(parts) | Promise::Ever(parts) =>
            {
                let mut uses = uses;
                for part in parts.as_slice() {
                    uses = used_by_promise(part, room - 1, uses);
                }
                uses
            }
        Promise::Nodes { fact, of, .. } => {
            let uses = with_fact(*fact, uses);
            match of {
                Some(nodes) => uses.and(nodes),
                None => uses,
            }
        }
        Promise::At { fact, .. } => with_fact(*fact, uses),
        Promise::Down { .. } => uses,
        Promise::One(topic) => uses.and(&topic.value).and(&topic.key).and(&topic.guard),
    }
}

/// What a fact is about, besides.
fn with_fact(fact: Fact, uses: Uses) -> Uses {
    match fact.told {
        Told::Named(i) => uses.with(Leaf::Fact(i)),
        Told::Word { variable, .. } | Told::Flag(variable) => uses.with(Leaf::Variable(variable)),
        Told::Clamped | Told::Replaced => uses,
    }
}

/// The notes that are sent, and those that a rule is on, a bit for each.
pub(crate) fn notes_used(definition: &Definition) -> (u64, u64) {
    let (mut sent, mut heard): (u64, u64) = (0, 0);
    for chain in definition.chains.as_slice() {
        if let Event::Note(form) = chain.on {
            heard |= bit(usize::from(form));
        }
        sent |= sent_by(chain);
    }
    (sent, heard)
}

/// The notes that a chain sends, a bit for each.
fn sent_by(chain: &Chain) -> u64 {
    let mut sent: u64 = 0;
    for rule in chain.rules.as_slice() {
        for send in rule.sends.as_slice() {
            sent |= bit(usize::from(send.form));
        }
    }
    sent
}

/// Whether a variable may ever get a word: the word stands in an assignment, in a note that is sent, or in a named expression.
pub(crate) fn is_word_given(definition: &Definition, word: Leaf) -> bool {
    for named in definition.lets.as_slice() {
        if has_leaf(&named.value, word) {
            return true;
        }
    }
    for chain in definition.chains.as_slice() {
        for rule in chain.rules.as_slice() {
            if gives(rule, word) {
                return true;
            }
        }
    }
    false
}

/// Whether a word stands in what a rule sets or sends.
fn gives(rule: &Rule, word: Leaf) -> bool {
    for set in rule.sets.as_slice() {
        if has_leaf(&set.value, word) {
            return true;
        }
    }
    for send in rule.sends.as_slice() {
        for field in send.fields.as_slice() {
            if has_leaf(field, word) {
                return true;
            }
        }
    }
    false
}
