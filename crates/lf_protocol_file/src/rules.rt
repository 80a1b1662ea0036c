//! Rules.

ghost use Rattle.std.specs.Prelude.{◌≡◌, ◌≢◌, Ok, Err};
ghost use Rattle.toml.specs.View.{view, table_view};
ghost use Rattle.lf_rules.specs.Forms.{scope_of};
ghost use Rattle.lf_rules.specs.Terms as terms;
ghost use Rattle.lf_protocol_file.specs.Readings.{Gives, Reads, located};
ghost use Rattle.lf_protocol_file.specs.Refusals.{shown};
ghost use Rattle.lf_protocol_file.specs.RuleParts.{known_parts, part_tokens, who_in, heard_in, under, condition_in, changes_in, may_send, letters_in};
ghost use Rattle.lf_protocol_file.specs.RuleParts.{rule_of, rule_in};

use crate::chains::{goes_on, with_rule};
use crate::{
    Draft, Fault, Listing, Part, Path, ProtocolError, Shown, Who, at, is_part, none_of, tokens_in,
};
use lf_grammar::Token;
use lf_list::Listed;
use lf_rules::{Assignment, Event, Expr, Leaf, Rule, Scope, Send, Tree};
use lf_texts::{Heard, When, read_event, read_nodes, read_sends, read_sets, read_when};
use std::alloc::Global;
use toml::{Table, Value};

/// The draft with one more rule, which has a number.
pub(crate) fn rule_in(
    alloc: Global,
    draft: Draft,
    number: usize,
    value: &Value,
) -> Result<Draft, ProtocolError>
    ensures { Reads (rule_in draft number (view value.now)) result }
{
    match value {
        Value::Table(table) => rule_of(alloc, draft, number, table),
        _ => Err(ProtocolError::WrongKind(Path::Item(Listing::Rules, number))),
    }
}

/// The draft with the rule of a table: its parts, in order.
#[tactic(auto, unfolding(crate::specs::RuleParts::rule_of))]
fn rule_of(
    alloc: Global,
    draft: Draft,
    number: usize,
    table: &Table,
) -> Result<Draft, ProtocolError>
    ensures { Reads (rule_of draft number (table_view table.now)) result }
{
    known_parts(alloc, number, table)?;
    let who = who_at(alloc, &draft, number, table)?;
    let heard = heard_at(alloc, &draft, number, table)?;
    let when = when_at(alloc, &draft, &who, &heard, number, table)?;
    let sets = sets_at(alloc, &draft, &heard, number, table)?;
    let sends = sends_at(alloc, &draft, &heard, number, table)?;
    let rule = Rule {
        guard: when.guard,
        sets,
        sends,
    };
    let draft = with_rule(alloc, draft, when.is_else, who, heard.on, rule)?;
    Ok(draft)
}

/// Whose rule it is, or the refusal of that.
fn who_at(alloc: Global, draft: &Draft, number: usize, table: &Table) -> Result<Who, ProtocolError>
    ensures { Reads (located (Path.Part number Part.Who) (who_in draft.now (table_view table.now))) result }
{
    match who_in(alloc, draft, table) {
        Ok(who) => Ok(who),
        Err(fault) => Err(fault.at(Path::Part(number, Part::Who))),
    }
}

/// What it is on, or the refusal of that.
fn heard_at(
    alloc: Global,
    draft: &Draft,
    number: usize,
    table: &Table,
) -> Result<Heard, ProtocolError>
    ensures { Reads (located (Path.Part number Part.On) (heard_in draft.now (table_view table.now))) result }
{
    match heard_in(alloc, draft, table) {
        Ok(heard) => Ok(heard),
        Err(fault) => Err(fault.at(Path::Part(number, Part::On))),
    }
}

/// When it is taken, or the refusal of that.
fn when_at(
    alloc: Global,
    draft: &Draft,
    who: &Who,
    heard: &Heard,
    number: usize,
    table: &Table,
) -> Result<When, ProtocolError>
    ensures { Reads (located (Path.Part number Part.When) (condition_in draft.now who.now heard.now (table_view table.now))) result }
{
    match condition_in(alloc, draft, who, heard, table) {
        Ok(when) => Ok(when),
        Err(fault) => Err(fault.at(Path::Part(number, Part::When))),
    }
}

/// What it sets, or the refusal of that.
fn sets_at(
    alloc: Global,
    draft: &Draft,
    heard: &Heard,
    number: usize,
    table: &Table,
) -> Result<Listed<Assignment>, ProtocolError>
    ensures { Reads (located (Path.Part number Part.Set) (changes_in draft.now heard.now (table_view table.now))) result }
{
    match changes_in(alloc, draft, heard, table) {
        Ok(sets) => Ok(sets),
        Err(fault) => Err(fault.at(Path::Part(number, Part::Set))),
    }
}

/// What it sends, or the refusal of that.
fn sends_at(
    alloc: Global,
    draft: &Draft,
    heard: &Heard,
    number: usize,
    table: &Table,
) -> Result<Listed<Send>, ProtocolError>
    ensures { Reads (located (Path.Part number Part.Send) (letters_in draft.now heard.now (table_view table.now))) result }
{
    match letters_in(alloc, draft, heard, table) {
        Ok(sends) => Ok(sends),
        Err(fault) => Err(fault.at(Path::Part(number, Part::Send))),
    }
}

/// Refuses a rule with a key that rules don't have.
#[tactic(auto, unfolding(crate::specs::RuleParts::known_parts))]
fn known_parts(alloc: Global, number: usize, table: &Table) -> Result<(), ProtocolError>
    ensures { Reads (known_parts number (table_view table.now)) result }
{
    'members: for (key, _value) in table.iter() {
        if !is_part(key.as_str()) {
            return Err(unknown_part(alloc, number, key.as_str()));
        }
    }
    Ok(())
}

/// The refusal of a key that rules don't have.
fn unknown_part(alloc: Global, number: usize, key: &str) -> ProtocolError
    ensures { result ≢ ProtocolError.Memory → result ≡ ProtocolError.Unknown (Path.PartKey number (shown key.now)) }
{
    match Shown::of(alloc, key) {
        Ok(shown) => ProtocolError::Unknown(Path::PartKey(number, shown)),
        Err(_) => ProtocolError::Memory,
    }
}

/// The tokens of a part, where it is there.
#[tactic(auto, unfolding(crate::specs::RuleParts::part_tokens))]
fn part_tokens(alloc: Global, table: &Table, part: Part) -> Result<Option<Listed<Token>>, Fault>
    ensures { Gives (part_tokens (table_view table.now) part) result }
{
    match at(table, part.name()) {
        Some(value) => {
            let tokens = tokens_in(alloc, value)?;
            Ok(Some(Listed::from_vec(tokens)))
        }
        None => Ok(None),
    }
}

/// An expression of one part.
fn lone(leaf: Leaf) -> Expr
    ensures { result ≡ terms.Leaf leaf }
{
    Expr::new(Tree::Leaf(leaf)).unwrap()
}

/// Whose rule it is: every node's, where that isn't said.
#[tactic(auto, unfolding(crate::specs::RuleParts::who_in))]
fn who_in(alloc: Global, draft: &Draft, table: &Table) -> Result<Who, Fault>
    ensures { Gives (who_in draft.now (table_view table.now)) result }
{
    match part_tokens(alloc, table, Part::Who)? {
        Some(tokens) => {
            let place = draft.place(&[], Scope::Who);
            let nodes = read_nodes(alloc, &place, tokens.as_slice())?;
            Ok(Who {
                nodes,
                tokens: Some(tokens),
            })
        }
        None => Ok(Who {
            nodes: lone(Leaf::All),
            tokens: None,
        }),
    }
}

/// What it is on, which has to be said.
#[tactic(auto, unfolding(crate::specs::RuleParts::heard_in))]
fn heard_in(alloc: Global, draft: &Draft, table: &Table) -> Result<Heard, Fault>
    ensures { Gives (heard_in draft.now (table_view table.now)) result }
{
    match part_tokens(alloc, table, Part::On)? {
        Some(tokens) => {
            let place = draft.place(&[], Scope::Plain);
            let heard = read_event(alloc, &place, tokens.as_slice())?;
            Ok(heard)
        }
        None => Err(Fault::Missing),
    }
}

/// Where the expressions of a rule on an event stand.
fn scope_of(on: Event) -> Scope
    ensures { result ≡ scope_of on }
{
    match on {
        Event::Note(form) => Scope::Note(form),
        _ => Scope::Plain,
    }
}

/// When it is taken: always, where that isn't said. `else` stands only right under a rule of the same nodes on the same event.
#[tactic(auto, unfolding(crate::specs::RuleParts::condition_in))]
fn condition_in(
    alloc: Global,
    draft: &Draft,
    who: &Who,
    heard: &Heard,
    table: &Table,
) -> Result<When, Fault>
    ensures { Gives (condition_in draft.now who.now heard.now (table_view table.now)) result }
{
    match part_tokens(alloc, table, Part::When)? {
        Some(tokens) => {
            let place = draft.place(heard.fields.as_slice(), scope_of(heard.on));
            let when = read_when(alloc, &place, tokens.as_slice())?;
            under(goes_on(&draft.begun, who, heard.on), when)
        }
        None => Ok(When {
            is_else: false,
            guard: lone(Leaf::Truth(true)),
        }),
    }
}

/// Refuses `else` where there is no chain to go on with.
fn under(goes_on: bool, when: When) -> Result<When, Fault>
    ensures { result ≡ under goes_on when }
{
    if when.is_else && !goes_on {
        Err(Fault::Unfit)
    } else {
        Ok(when)
    }
}

/// What it sets: nothing, where that isn't said.
#[tactic(auto, unfolding(crate::specs::RuleParts::changes_in))]
fn changes_in(
    alloc: Global,
    draft: &Draft,
    heard: &Heard,
    table: &Table,
) -> Result<Listed<Assignment>, Fault>
    ensures { Gives (changes_in draft.now heard.now (table_view table.now)) result }
{
    match part_tokens(alloc, table, Part::Set)? {
        Some(tokens) => {
            let place = draft.place(heard.fields.as_slice(), scope_of(heard.on));
            let sets = read_sets(alloc, &place, tokens.as_slice())?;
            Ok(Listed::from_vec(sets))
        }
        None => Ok(none_of(alloc)),
    }
}

/// Whether a rule on an event may send.
fn may_send(on: Event) -> bool
    ensures { result ≡ may_send on }
{
    !matches!(on, Event::Start | Event::Wake)
}

/// What it sends: nothing, where that isn't said, and nothing at the start and on waking.
#[tactic(auto, unfolding(crate::specs::RuleParts::letters_in))]
fn letters_in(
    alloc: Global,
    draft: &Draft,
    heard: &Heard,
    table: &Table,
) -> Result<Listed<Send>, Fault>
    ensures { Gives (letters_in draft.now heard.now (table_view table.now)) result }
{
    match part_tokens(alloc, table, Part::Send)? {
        Some(tokens) => {
            if !may_send(heard.on) {
                return Err(Fault::Unfit);
            }
            let place = draft.place(heard.fields.as_slice(), scope_of(heard.on));
            let sends = read_sends(alloc, &place, tokens.as_slice())?;
            Ok(Listed::from_vec(sends))
        }
        None => Ok(none_of(alloc)),
    }
}
