//! When chains of rules are well formed.

ghost use Rattle.std.specs.Prelude.{◌≡◌, slice_get};
ghost use Rattle.std.specs.List.{list_all, list_any};
ghost use Rattle.lf_rules.specs.Trees.{has_it};
ghost use Rattle.lf_rules.specs.Forms.{is_whole, is_assigned, within_of, is_assignment, are_fields, are_sent, same_truth, is_send, is_rule_in};
ghost use Rattle.lf_rules.specs.Forms.{is_event, scope_of, sends_of, is_chain};

use crate::definition::Definition;
use crate::expr::{Expr, has_it};
use crate::kind::Kind;
use crate::rule::{Assignment, Chain, Event, Rule, Send, Target};
use crate::sort::{Scope, Sort, Within};
use crate::table::Cells;

impl Definition {
    /// Whether a chain of rules is well formed.
    pub(crate) fn is_chain(&self, chain: &Chain) -> bool
        ensures { result ≡ is_chain self.now chain.now }
    {
        let scope = scope_of(chain.on);
        let sends = sends_of(chain.on);
        self.is_a(Scope::Who, Within::Nothing, Sort::Nodes, &chain.who)
            && self.is_event(chain.on)
            && 1 <= chain.rules.len()
            && self.are_rules(scope, sends, chain.rules.as_slice())
    }

    /// Whether the note of an event is there.
    fn is_event(&self, event: Event) -> bool
        ensures { result ≡ is_event self.now event }
    {
        match event {
            Event::Note(form) => usize::from(form) < self.notes.len(),
            _ => true,
        }
    }

    /// Whether all rules are well formed that send at most so often.
    fn are_rules(&self, scope: Scope, sends: usize, rules: &[Rule]) -> bool
        ensures { result ≡ list_all (is_rule_in self.now scope sends) rules.now }
    {
        for rule in rules {
            if !self.is_rule(scope, sends, rule) {
                return false;
            }
        }
        true
    }

    /// Whether a rule is well formed that sends at most so often.
    fn is_rule(&self, scope: Scope, sends: usize, rule: &Rule) -> bool
        ensures { result ≡ is_rule_in self.now scope sends rule.now }
    {
        self.is_a(scope, Within::Nothing, Sort::Truth, &rule.guard)
            && rule.sets.len() <= 16
            && self.are_assignments(scope, rule.sets.as_slice())
            && rule.sends.len() <= sends
            && self.are_sends(scope, rule.sends.as_slice())
    }

    /// Whether variables may get all these values.
    fn are_assignments(&self, scope: Scope, sets: &[Assignment]) -> bool
        ensures { result ≡ list_all (is_assignment self.now scope) sets.now }
    {
        for set in sets {
            if !self.is_assignment(scope, set) {
                return false;
            }
        }
        true
    }

    /// Whether a target may get its value.
    fn is_assignment(&self, scope: Scope, set: &Assignment) -> bool
        ensures { result ≡ is_assignment self.now scope set.now }
    {
        match &set.target {
            Target::Variable(i) => {
                self.is_whole(*i) && self.is_assigned(scope, Within::Nothing, *i, &set.value)
            }
            Target::Cell(table, place) => {
                self.is_table(*table)
                    && self.is_a(scope, Within::Nothing, Sort::Number, place)
                    && self.is_assigned(scope, within_of(table.cells), table.of, &set.value)
            }
            Target::Cells(table, places) => {
                self.is_table(*table)
                    && table.cells.is_each_node()
                    && self.is_a(scope, Within::Nothing, Sort::Nodes, places)
                    && self.is_assigned(scope, Within::Receiver, table.of, &set.value)
            }
        }
    }

    /// Whether a variable is there that is no table.
    fn is_whole(&self, i: u8) -> bool
        ensures { result ≡ is_whole (slice_get self.now.variables i) }
    {
        match self.variables.as_slice().get(usize::from(i)) {
            Some(variable) => variable.cells.is_one(),
            None => false,
        }
    }

    /// Whether a cell of a variable may get this value.
    fn is_assigned(&self, scope: Scope, within: Within, i: u8, value: &Expr) -> bool
        ensures { result ≡ is_assigned self.now scope within (slice_get self.now.variables i) value.now }
    {
        match self.variables.as_slice().get(usize::from(i)) {
            Some(variable) => self.is_a(scope, within, variable.kind.sort(), value),
            None => false,
        }
    }

    /// Whether all these notes may be sent.
    fn are_sends(&self, scope: Scope, sends: &[Send]) -> bool
        ensures { result ≡ list_all (is_send self.now scope) sends.now }
    {
        for send in sends {
            if !self.is_send(scope, send) {
                return false;
            }
        }
        true
    }

    /// Whether a note may be sent with these values.
    fn is_send(&self, scope: Scope, send: &Send) -> bool
        ensures { result ≡ is_send self.now scope send.now }
    {
        self.are_sent(scope, send.form, send.fields.as_slice())
            && self.is_a(scope, Within::Nothing, Sort::Nodes, &send.to)
            && same_truth(send.each, have_it(send.fields.as_slice()))
    }

    /// Whether a note of this form may have these values.
    fn are_sent(&self, scope: Scope, form: u8, values: &[Expr]) -> bool
        ensures { result ≡ are_sent self.now scope (slice_get self.now.notes form) values.now }
    {
        match self.notes.as_slice().get(usize::from(form)) {
            Some(form) => self.are_fields(scope, form.fields.as_slice(), values),
            None => false,
        }
    }

    /// Whether fields of these kinds may have these values.
    fn are_fields(&self, scope: Scope, kinds: &[Kind], values: &[Expr]) -> bool
        ensures { result ≡ are_fields self.now scope kinds.now values.now }
    {
        match kinds {
            [] => values.is_empty(),
            [kind, kinds @ ..] => match values {
                [] => false,
                [value, values @ ..] => {
                    self.is_a(scope, Within::Receiver, kind.sort(), value)
                        && self.are_fields(scope, kinds, values)
                }
            },
        }
    }
}

/// What `It` is in the value of a table's cell.
pub fn within_of(cells: Cells) -> Within
    ensures { result ≡ within_of cells }
{
    match cells {
        Cells::EachNode => Within::Receiver,
        Cells::One | Cells::UpTo(_) => Within::Nothing,
    }
}

/// Whether `It` stands in one of some expressions, outside of bodies of its own.
pub fn have_it(values: &[Expr]) -> bool
    ensures { result ≡ list_any has_it values.now }
{
    for value in values {
        if has_it(value.tree()) {
            return true;
        }
    }
    false
}

/// Whether two truth values are the same.
fn same_truth(one: bool, other: bool) -> bool
    ensures { result ≡ same_truth one other }
{
    if one { other } else { !other }
}

/// Where the expressions of rules on an event stand.
fn scope_of(event: Event) -> Scope
    ensures { result ≡ scope_of event }
{
    match event {
        Event::Note(form) => Scope::Note(form),
        _ => Scope::Plain,
    }
}

/// How often a rule on an event sends at most.
fn sends_of(event: Event) -> usize
    ensures { result ≡ sends_of event }
{
    match event {
        Event::Start | Event::Wake => 0,
        _ => 8,
    }
}
