//! Whether a protocol or a promise divides by a constant that is 0.

ghost use Rattle.std.specs.Prelude.{◌≡◌, slice_get};
ghost use Rattle.std.specs.List.{list_any};
ghost use Rattle.lf_rules.specs.Terms.{term_of};
ghost use Rattle.lf_own_scenario.specs.Zeros.{is_zero, has_zero, is_zero_at, is_division, is_zero_leaf, divides_by_zero};
ghost use Rattle.lf_own_scenario.specs.Zeros.{set_divides, target_divides, send_divides, rule_divides, chain_divides, fact_divides, let_divides};
ghost use Rattle.lf_own_scenario.specs.Zeros.{definition_divides, promise_divides, group_divides, topic_divides};

use lf_promises::Promise;
use lf_rules::{
    Assignment, Binary, Chain, Definition, Expr, Given, Guard, Leaf, Named, Rule, Send, Target,
    Topic, Tree, Value,
};

/// Whether a value is the number 0.
fn is_zero(value: &Value) -> bool
    ensures { result ≡ is_zero value.now }
{
    match value {
        Value::Number(number) => *number == 0,
        Value::Truth(_) | Value::Nodes(_) => false,
    }
}

/// Whether one of some values is the number 0.
fn some_zero(values: &[Value]) -> bool
    ensures { result ≡ list_any is_zero values.now }
{
    'values: for value in values {
        if is_zero(value) {
            return true;
        }
    }
    false
}

/// Whether a constant is 0 at some node.
fn has_zero(given: &Given) -> bool
    ensures { result ≡ has_zero given.now }
{
    match given {
        Given::One(value) => is_zero(value),
        Given::Each(values) => some_zero(values.as_slice()),
    }
}

/// Whether the constant with a number is 0 at some node.
fn is_zero_at(given: &[Given], i: u8) -> bool
    ensures { result ≡ is_zero_at (slice_get given.now i) }
{
    match given.get(usize::from(i)) {
        Some(given) => has_zero(given),
        None => false,
    }
}

/// Whether an operator divides.
fn is_division(operator: Binary) -> bool
    ensures { result ≡ is_division operator }
{
    match operator {
        Binary::Remainder => true,
        _ => false,
    }
}

/// Whether a tree is a constant that is 0 at some node.
fn is_zero_leaf(given: &[Given], tree: &Tree) -> bool
    ensures { result ≡ is_zero_leaf given.now (term_of tree.now) }
{
    match tree {
        Tree::Leaf(Leaf::Given(i)) => is_zero_at(given, *i),
        _ => false,
    }
}

/// Whether a tree divides by such a constant.
fn tree_divides(given: &[Given], tree: &Tree) -> bool
    ensures { result ≡ divides_by_zero given.now (term_of tree.now) }
{
    match tree {
        Tree::Leaf(_) => false,
        Tree::Unary(_, a) => tree_divides(given, a),
        Tree::Binary(operator, a, b) => {
            is_division(*operator) && is_zero_leaf(given, b)
                || tree_divides(given, a)
                || tree_divides(given, b)
        }
        Tree::At(_, place) => tree_divides(given, place),
        Tree::Over(_, set, body) => tree_divides(given, set) || tree_divides(given, body),
    }
}

/// Whether an expression divides by a constant that is 0 at some node.
fn divides(given: &[Given], expr: &Expr) -> bool
    ensures { result ≡ divides_by_zero given.now expr.now }
{
    tree_divides(given, expr.tree())
}

/// Whether one of some expressions does.
fn some_value_divides(given: &[Given], values: &[Expr]) -> bool
    ensures { result ≡ list_any (divides_by_zero given.now) values.now }
{
    'values: for value in values {
        if divides(given, value) {
            return true;
        }
    }
    false
}

/// Whether an assignment does.
fn set_divides(given: &[Given], set: &Assignment) -> bool
    ensures { result ≡ set_divides given.now set.now }
{
    target_divides(given, &set.target) || divides(given, &set.value)
}

/// Whether the place of what gets a value does.
fn target_divides(given: &[Given], target: &Target) -> bool
    ensures { result ≡ target_divides given.now target.now }
{
    match target {
        Target::Variable(_) => false,
        Target::Cell(_, place) | Target::Cells(_, place) => divides(given, place),
    }
}

/// Whether one of some assignments does.
fn some_set_divides(given: &[Given], sets: &[Assignment]) -> bool
    ensures { result ≡ list_any (set_divides given.now) sets.now }
{
    'sets: for set in sets {
        if set_divides(given, set) {
            return true;
        }
    }
    false
}

/// Whether what is sent does.
fn send_divides(given: &[Given], send: &Send) -> bool
    ensures { result ≡ send_divides given.now send.now }
{
    some_value_divides(given, send.fields.as_slice()) || divides(given, &send.to)
}

/// Whether one of some notes that are sent does.
fn some_send_divides(given: &[Given], sends: &[Send]) -> bool
    ensures { result ≡ list_any (send_divides given.now) sends.now }
{
    'sends: for send in sends {
        if send_divides(given, send) {
            return true;
        }
    }
    false
}

/// Whether a rule does.
fn rule_divides(given: &[Given], rule: &Rule) -> bool
    ensures { result ≡ rule_divides given.now rule.now }
{
    divides(given, &rule.guard)
        || some_set_divides(given, rule.sets.as_slice())
        || some_send_divides(given, rule.sends.as_slice())
}

/// Whether one of some rules does.
fn some_rule_divides(given: &[Given], rules: &[Rule]) -> bool
    ensures { result ≡ list_any (rule_divides given.now) rules.now }
{
    'rules: for rule in rules {
        if rule_divides(given, rule) {
            return true;
        }
    }
    false
}

/// Whether a chain of rules does.
fn chain_divides(given: &[Given], chain: &Chain) -> bool
    ensures { result ≡ chain_divides given.now chain.now }
{
    divides(given, &chain.who) || some_rule_divides(given, chain.rules.as_slice())
}

/// Whether one of some chains does.
fn some_chain_divides(given: &[Given], chains: &[Chain]) -> bool
    ensures { result ≡ list_any (chain_divides given.now) chains.now }
{
    'chains: for chain in chains {
        if chain_divides(given, chain) {
            return true;
        }
    }
    false
}

/// Whether a named guard does.
fn fact_divides(given: &[Given], fact: &Guard) -> bool
    ensures { result ≡ fact_divides given.now fact.now }
{
    divides(given, &fact.value)
}

/// Whether one of some named guards does.
fn some_fact_divides(given: &[Given], facts: &[Guard]) -> bool
    ensures { result ≡ list_any (fact_divides given.now) facts.now }
{
    'facts: for fact in facts {
        if fact_divides(given, fact) {
            return true;
        }
    }
    false
}

/// Whether a named expression does.
fn let_divides(given: &[Given], named: &Named) -> bool
    ensures { result ≡ let_divides given.now named.now }
{
    divides(given, &named.value)
}

/// Whether one of some named expressions does.
fn some_let_divides(given: &[Given], nameds: &[Named]) -> bool
    ensures { result ≡ list_any (let_divides given.now) nameds.now }
{
    'nameds: for named in nameds {
        if let_divides(given, named) {
            return true;
        }
    }
    false
}

/// Whether a rule, a named guard or a named expression divides by a constant that is 0 at some node.
pub(crate) fn definition_divides(given: &[Given], definition: &Definition) -> bool
    ensures { result ≡ definition_divides given.now definition.now }
{
    some_chain_divides(given, definition.chains.as_slice())
        || some_fact_divides(given, definition.facts.as_slice())
        || some_let_divides(given, definition.lets.as_slice())
}

/// Whether a promise speaks of a set or asks about a value that divides by a constant that is 0 at some node.
#[cycle(promises)]
pub(crate) fn promise_divides(given: &[Given], promise: &Promise) -> bool
    ensures { result ≡ promise_divides given.now promise.now }
{
    match promise {
        Promise::All(parts) | Promise::Any(parts) | Promise::Always(parts) | Promise::Ever(parts) =>
            { some_divides(given, parts.as_slice()) }
        Promise::Nodes { of, .. } => group_divides(given, of),
        Promise::Down { .. } | Promise::At { .. } => false,
        Promise::One(topic) => topic_divides(given, topic),
    }
}

/// Whether one of some promises does.
#[cycle(promises)]
fn some_divides(given: &[Given], parts: &[Promise]) -> bool
    ensures { result ≡ list_any (promise_divides given.now) parts.now }
{
    'parts: for part in parts {
        if promise_divides(given, part) {
            return true;
        }
    }
    false
}

/// Whether a topic does.
fn topic_divides(given: &[Given], topic: &Topic) -> bool
    ensures { result ≡ topic_divides given.now topic.now }
{
    divides(given, &topic.value) || divides(given, &topic.key) || divides(given, &topic.guard)
}

/// Whether a set does, where there is one.
fn group_divides(given: &[Given], of: &Option<Expr>) -> bool
    ensures { result ≡ group_divides given.now of.now }
{
    match of {
        Some(set) => divides(given, set),
        None => false,
    }
}
