//! How notes are sent.

ghost use Rattle.std.specs.Prelude.{◌≡◌, Some, slice_get, replicate};
ghost use Rattle.std.specs.List.{fold};
ghost use Rattle.lf_rule_machine.specs.Moments.{seen, with_it};
ghost use Rattle.lf_rule_machine.specs.Events.{fill_as, fill, drafted, kinds_of, is_receiver, place, put, put_all, send, send_one, send_each, put_draft};

use crate::fitting::{fitted, put_item, remember};
use crate::{Moment, Note, Packet, State, sets, value_of};
use lf_rules::{Definition, Expr, Kind, Send};
use lf_sim::Stepped;

/// Sends a rule's notes, from the left.
pub(crate) fn send_all(
    definition: &Definition,
    at: &Moment<'_>,
    turn: &mut Stepped<State, Packet>,
    sends: &[Send],
)
    ensures { turn.new ≡ fold (send definition.now (seen at.now)) turn.old sends.now }
{
    for message in sends {
        send(definition, at, turn, message);
    }
}

/// Sends a note.
fn send(definition: &Definition, at: &Moment<'_>, turn: &mut Stepped<State, Packet>, message: &Send)
    ensures { turn.new ≡ send definition.now (seen at.now) turn.old message.now }
{
    if message.each {
        let set = value_of(definition, at, &turn.state, &message.to);
        send_each(definition, at, set, message, turn);
    } else {
        send_alike(definition, at, turn, message);
    }
}

/// Sends a note with the same fields to each node: works out its fields, then its set of nodes, and then puts it.
fn send_alike(
    definition: &Definition,
    at: &Moment<'_>,
    turn: &mut Stepped<State, Packet>,
    message: &Send,
)
    ensures { turn.new
        ≡ put_draft definition.now (seen at.now) turn.old message.now (drafted definition.now (seen at.now) turn.old.state message.now) }
{
    let note = drafted(definition, at, &mut turn.state, message);
    let set = value_of(definition, at, &turn.state, &message.to);
    put_all(at, set, note, turn);
}

/// Sends each node of a set but the sender a note with fields of its own.
fn send_each(
    definition: &Definition,
    at: &Moment<'_>,
    set: u64,
    message: &Send,
    turn: &mut Stepped<State, Packet>,
)
    ensures { turn.new ≡ send_each definition.now (seen at.now) set message.now turn.old }
{
    for to in 0..at.nodes {
        send_one(definition, at, set, message, turn, to);
    }
}

/// Sends one node a note, if that is another one of the set: works out the fields with that node for `It`, and puts the note.
fn send_one(
    definition: &Definition,
    at: &Moment<'_>,
    set: u64,
    message: &Send,
    turn: &mut Stepped<State, Packet>,
    to: u32,
)
    ensures { turn.new ≡ send_one definition.now (seen at.now) set message.now turn.old to }
{
    if is_receiver(at, set, to) {
        let note = drafted(definition, &at.with_it(to), &mut turn.state, message);
        place(note, turn, to);
    }
}

/// A note, whose fields are worked out.
fn drafted(definition: &Definition, at: &Moment<'_>, state: &mut State, message: &Send) -> Note
    ensures state { state.new ≡ (drafted definition.now (seen at.now) state.old message.now).state }
    ensures note { result ≡ record { form = message.now.form; fields = (drafted definition.now (seen at.now) state.old message.now).fields } }
{
    let mut fields = [0; 7];
    let kinds = kinds_of(definition, message.form);
    fill(
        definition,
        at,
        kinds,
        state,
        &mut fields,
        message.fields.as_slice(),
    );
    Note {
        form: message.form,
        fields,
    }
}

/// The kinds of a note's fields, and none where there is no such form.
fn kinds_of(definition: &Definition, form: u8) -> &[Kind]
    ensures { result.now ≡ kinds_of (slice_get definition.now.notes form) }
{
    match definition.notes.as_slice().get(usize::from(form)) {
        Some(form) => form.fields.as_slice(),
        None => &[],
    }
}

/// Works out the fields of these kinds, from the left.
fn fill(
    definition: &Definition,
    at: &Moment<'_>,
    kinds: &[Kind],
    state: &mut State,
    fields: &mut [u8; 7],
    values: &[Expr],
)
    ensures { record { state = state.new; fields = fields.new }
        ≡ fill definition.now (seen at.now) kinds.now (record { state = state.old; fields = fields.old }) 0 values.now }
{
    for (k, value) in values.iter().enumerate() {
        fill_one(definition, at, kinds, state, fields, k, value);
    }
}

/// The k-th field, where the form has it.
fn fill_one(
    definition: &Definition,
    at: &Moment<'_>,
    kinds: &[Kind],
    state: &mut State,
    fields: &mut [u8; 7],
    k: usize,
    value: &Expr,
)
    ensures { record { state = state.new; fields = fields.new }
        ≡ fill_as definition.now (seen at.now) (record { state = state.old; fields = fields.old }) k (slice_get kinds.now k) value.now }
{
    match kinds.get(k) {
        Some(kind) => fill_as(definition, at, state, fields, k, *kind, value),
        None => {}
    }
}

/// Works out a field.
fn fill_as(
    definition: &Definition,
    at: &Moment<'_>,
    state: &mut State,
    fields: &mut [u8; 7],
    k: usize,
    kind: Kind,
    value: &Expr,
)
    ensures { record { state = state.new; fields = fields.new }
        ≡ fill_as definition.now (seen at.now) (record { state = state.old; fields = fields.old }) k (Some kind) value.now }
{
    let value = value_of(definition, at, state, value);
    remember(kind, value, state);
    put_item(fields, k, fitted(kind, value));
}

/// Puts a note for each node of a set but the sender.
// Never inlined: a loop over rules would be entered with the place of each note at hand, though few rules send.
#[inline(never)]
fn put_all(at: &Moment<'_>, set: u64, note: Note, turn: &mut Stepped<State, Packet>)
    ensures { turn.new ≡ put_all (seen at.now) set note turn.old }
{
    for to in 0..at.nodes {
        put(at, set, note, turn, to);
    }
}

/// Puts a note for one node, if that is another one of the set.
fn put(at: &Moment<'_>, set: u64, note: Note, turn: &mut Stepped<State, Packet>, to: u32)
    ensures { turn.new ≡ put (seen at.now) set note turn.old to }
{
    if is_receiver(at, set, to) {
        place(note, turn, to);
    }
}

/// Whether a node is another one of the set.
fn is_receiver(at: &Moment<'_>, set: u64, to: u32) -> bool
    ensures { result ≡ is_receiver (seen at.now) set to }
{
    sets::has(set, u64::from(to)) && to != at.me
}

/// Puts a note into the packet for one node.
fn place(note: Note, turn: &mut Stepped<State, Packet>, to: u32)
    ensures { turn.new ≡ place note turn.old to }
{
    let mut packet = match turn.out.to(to) {
        Some(packet) => packet,
        None => Packet::empty(),
    };
    let lost = packet.put(note);
    turn.state.replaced = turn.state.replaced || lost;
    turn.out.put(to, packet);
}
