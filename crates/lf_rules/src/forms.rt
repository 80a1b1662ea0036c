//! When a definition is well formed.

ghost use Rattle.std.specs.Prelude.{◌≡◌, slice_get, min};
ghost use Rattle.std.specs.List.{list_all};
ghost use Rattle.lf_rules.specs.Forms.{is_from, has_words, is_kind, is_word_of, is_variable, are_variables, is_form, is_value, is_given};
ghost use Rattle.lf_rules.specs.Forms.{is_constant, is_let, is_fact, is_chain, rules_in, is_shown, is_in_limits, is_well_formed};

use crate::definition::{Constant, Definition, Given, Guard, Named, NoteForm, Value, Variable};
use crate::kind::Kind;
use crate::rule::Chain;
use crate::sort::{Scope, Sort, Within};

impl Definition {
    /// Whether the definition is well formed: all that has a number is there, each expression is of the sort that its place wants, and nothing passes its
    /// limit.
    pub fn is_well_formed(&self) -> bool
        ensures { result ≡ is_well_formed self.now }
    {
        self.is_in_limits()
            && self.are_variables()
            && self.are_forms()
            && self.are_constants()
            && self.are_lets()
            && self.are_facts()
            && self.are_chains()
            && self.are_shown()
    }

    /// Whether all forms of notes are well formed.
    fn are_forms(&self) -> bool
        ensures { result ≡ list_all (is_form self.now) self.now.notes }
    {
        for form in self.notes.as_slice() {
            if !self.is_form(form) {
                return false;
            }
        }
        true
    }

    /// Whether all constants are well formed.
    fn are_constants(&self) -> bool
        ensures { result ≡ list_all (is_constant self.now) self.now.given }
    {
        for constant in self.given.as_slice() {
            if !self.is_constant(constant) {
                return false;
            }
        }
        true
    }

    /// Whether all named expressions are well formed.
    fn are_lets(&self) -> bool
        ensures { result ≡ list_all (is_let self.now) self.now.lets }
    {
        for named in self.lets.as_slice() {
            if !self.is_let(named) {
                return false;
            }
        }
        true
    }

    /// Whether all named guards are well formed.
    fn are_facts(&self) -> bool
        ensures { result ≡ list_all (is_fact self.now) self.now.facts }
    {
        for guard in self.facts.as_slice() {
            if !self.is_fact(guard) {
                return false;
            }
        }
        true
    }

    /// Whether all chains of rules are well formed.
    fn are_chains(&self) -> bool
        ensures { result ≡ list_all (is_chain self.now) self.now.chains }
    {
        for chain in self.chains.as_slice() {
            if !self.is_chain(chain) {
                return false;
            }
        }
        true
    }

    /// Whether all variables of a trace are there.
    fn are_shown(&self) -> bool
        ensures { result ≡ list_all (is_shown self.now) self.now.trace }
    {
        for variable in self.trace.as_slice() {
            if !self.is_shown(*variable) {
                return false;
            }
        }
        true
    }

    /// Whether the values of all kinds are there.
    fn are_kinds(&self, kinds: &[Kind]) -> bool
        ensures { result ≡ list_all (is_kind self.now) kinds.now }
    {
        for kind in kinds {
            if !self.is_kind(*kind) {
                return false;
            }
        }
        true
    }

    /// Whether a constant of a sort may have all these values.
    fn are_values(&self, sort: Sort, values: &[Value]) -> bool
        ensures { result ≡ list_all (is_value self.now sort) values.now }
    {
        for value in values {
            if !self.is_value(sort, value) {
                return false;
            }
        }
        true
    }

    /// Whether there is no more of anything than its limit.
    fn is_in_limits(&self) -> bool
        ensures { result ≡ is_in_limits self.now }
    {
        is_from(1, 32, self.variables.len())
            && self.cells_in() <= 64
            && self.notes.len() <= 16
            && self.given.len() <= 16
            && self.lets.len() <= 16
            && self.facts.len() <= 32
            && rules_in(self.chains.as_slice()) <= 128
            && is_from(1, 32, self.trace.len())
    }

    /// Whether the values of a kind are there.
    fn is_kind(&self, kind: Kind) -> bool
        ensures { result ≡ is_kind self.now kind }
    {
        match kind {
            Kind::Flag | Kind::Nodes => true,
            Kind::UpTo(most) => 1 <= most,
            Kind::Word { of, words } => {
                is_from(2, 16, usize::from(words)) && self.has_words(of, words)
            }
        }
    }

    /// Whether a variable has so many words.
    fn has_words(&self, of: u8, words: u8) -> bool
        ensures { result ≡ has_words (slice_get self.now.variables of) words }
    {
        match self.variables.as_slice().get(usize::from(of)) {
            Some(variable) => variable.words.len() == usize::from(words),
            None => false,
        }
    }

    /// Whether all variables are well formed.
    fn are_variables(&self) -> bool
        ensures { result ≡ are_variables self.now 0 self.now.variables }
    {
        for (i, variable) in self.variables.as_slice().iter().enumerate() {
            if !self.is_variable(i, variable) {
                return false;
            }
        }
        true
    }

    /// Whether a variable is well formed, by its number.
    fn is_variable(&self, i: usize, variable: &Variable) -> bool
        ensures { result ≡ is_variable self.now i variable.now }
    {
        self.is_kind(variable.kind)
            && variable.cells.is_cells()
            && (variable.words.len() == 0 || is_word_of(i, variable.kind))
    }

    /// Whether a form of notes is well formed.
    fn is_form(&self, form: &NoteForm) -> bool
        ensures { result ≡ is_form self.now form.now }
    {
        form.fields.len() <= 7 && self.are_kinds(form.fields.as_slice())
    }

    /// Whether a constant is well formed.
    fn is_constant(&self, constant: &Constant) -> bool
        ensures { result ≡ is_constant self.now constant.now }
    {
        self.is_given(constant.sort, &constant.value)
    }

    /// Whether a constant of a sort may be this.
    pub fn is_given(&self, sort: Sort, given: &Given) -> bool
        ensures { result ≡ is_given self.now sort given.now }
    {
        match given {
            Given::One(value) => self.is_value(sort, value),
            Given::Each(values) => {
                is_from(1, 8, values.len()) && self.are_values(sort, values.as_slice())
            }
        }
    }

    /// Whether a constant of a sort may have this value.
    fn is_value(&self, sort: Sort, value: &Value) -> bool
        ensures { result ≡ is_value self.now sort value.now }
    {
        match value {
            Value::Number(_) => sort.same(Sort::Number),
            Value::Truth(_) => sort.same(Sort::Truth),
            Value::Nodes(expr) => {
                sort.same(Sort::Nodes)
                    && self.is_a(Scope::Given, Within::Nothing, Sort::Nodes, expr)
            }
        }
    }

    /// Whether a named expression is well formed.
    fn is_let(&self, named: &Named) -> bool
        ensures { result ≡ is_let self.now named.now }
    {
        self.is_a(Scope::Let, Within::Nothing, named.sort, &named.value)
    }

    /// Whether a named guard is well formed.
    fn is_fact(&self, guard: &Guard) -> bool
        ensures { result ≡ is_fact self.now guard.now }
    {
        self.is_a(Scope::Fact, Within::Nothing, Sort::Truth, &guard.value)
    }

    /// Whether there is a variable with this number.
    fn is_shown(&self, variable: u8) -> bool
        ensures { result ≡ is_shown self.now variable }
    {
        usize::from(variable) < self.variables.len()
    }
}

/// Whether a length is in a range.
fn is_from(least: usize, most: usize, length: usize) -> bool
    ensures { result ≡ is_from least most length }
{
    least <= length && length <= most
}

/// Whether a variable's values are its own words, by its number.
fn is_word_of(i: usize, kind: Kind) -> bool
    ensures { result ≡ is_word_of i kind }
{
    match kind {
        Kind::Word { of, .. } => usize::from(of) == i,
        _ => false,
    }
}

/// How many rules there are in all, and the greatest `usize` where they are more.
fn rules_in(chains: &[Chain]) -> usize
    ensures { result ≡ min (rules_in chains.now) 18446744073709551615 }
{
    let mut count: usize = 0;
    for chain in chains {
        count = count.saturating_add(chain.rules.len());
    }
    count
}
