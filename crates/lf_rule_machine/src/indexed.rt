//! A protocol of rules with what is worked out of it once, and what a node does by it.

ghost use Rattle.std.specs.Prelude.{◌≡◌, ◌≤◌, Some, map};
ghost use Rattle.std.specs.Arc.{arc_value};
ghost use Rattle.std.specs.List.{fold};
ghost use Rattle.lf_rule_machine.specs.Moments.{seen};
ghost use Rattle.lf_rule_machine.specs.Indexes.{rows_of};
ghost use Rattle.lf_rule_machine.specs.Events.{act};
ghost use Rattle.lf_rule_machine.specs.Machines.{moment, act_alone, entry_by, hear_note, hear_of, is_told, shows_of};

use crate::places::item;
use crate::{Fact, Moment, Note, Packet, State, Told, fact_value, go_through, index, value_of};
use lf_rules::{Event, Rules, Topic};
use lf_sim::{Entry, Letter, Stepped};
use std::sync::Arc;

/// A protocol of rules among so many nodes, with the values of its constants, and which chains each node goes through at each event.
#[derive(Debug, Drop)]
pub(crate) struct Indexed {
    pub rules: Arc<Rules>,
    /// 2..=8.
    pub nodes: u32,
    /// The values of the constants, by node and number.
    pub given: [[u8; 16]; 8],
    /// The chains that each node goes through at each event.
    pub rows: Vec<Vec<usize>>,
    ghost indexed: { map (λ row. row.items) rows.items ≡ rows_of (arc_value rules) nodes given },
    ghost many: { 2 ≤ nodes },
    ghost few: { nodes ≤ 8 },
}

impl Indexed {
    /// Takes in the letters of an inbox, in order.
    pub fn take_in_all(
        &self,
        node: u32,
        t: u32,
        turn: &mut Stepped<State, Packet>,
        inbox: &[Letter<Packet>],
    )
        ensures { turn.new ≡ fold (hear_of (arc_value self.now.rules) self.now.nodes self.now.given node t) turn.old inbox.now }
    {
        for letter in inbox {
            self.take_in(node, t, turn, letter);
        }
    }

    /// Takes in a letter: its notes, in order.
    pub fn take_in(
        &self,
        node: u32,
        t: u32,
        turn: &mut Stepped<State, Packet>,
        letter: &Letter<Packet>,
    )
        ensures { turn.new ≡ hear_of (arc_value self.now.rules) self.now.nodes self.now.given node t turn.old letter.now }
    {
        self.hear_notes(node, t, letter.from, turn, &letter.note.notes);
    }

    /// Hears the notes of a packet by a sender, in order.
    fn hear_notes(
        &self,
        node: u32,
        t: u32,
        from: u32,
        turn: &mut Stepped<State, Packet>,
        notes: &[Option<Note>],
    )
        ensures { turn.new ≡ fold (hear_note (arc_value self.now.rules) self.now.nodes self.now.given node t from) turn.old notes.now }
    {
        for note in notes {
            self.hear_note(node, t, from, turn, *note);
        }
    }

    /// Hears a note by a sender. A place without a note is passed over.
    fn hear_note(
        &self,
        node: u32,
        t: u32,
        from: u32,
        turn: &mut Stepped<State, Packet>,
        note: Option<Note>,
    )
        ensures { turn.new ≡ hear_note (arc_value self.now.rules) self.now.nodes self.now.given node t from turn.old note }
    {
        if let Some(note) = note {
            let at = self.moment(node, t, from, note.fields);
            self.act(&at, Event::Note(note.form), turn);
        }
    }

    /// Acts at an event without a letter.
    pub fn act_alone(&self, node: u32, t: u32, event: Event, turn: &mut Stepped<State, Packet>)
        ensures { turn.new ≡ act_alone (arc_value self.now.rules) self.now.nodes self.now.given node t event turn.old }
    {
        let at = self.moment(node, t, 0, [0; 7]);
        self.act(&at, event, turn);
    }

    /// Acts at an event.
    fn act(&self, at: &Moment<'_>, event: Event, turn: &mut Stepped<State, Packet>)
        requires nodes { at.now.nodes ≡ self.now.nodes }
        requires given { at.now.given.now ≡ self.now.given }
        ensures { turn.new ≡ act (arc_value self.now.rules) (seen at.now) event turn.old }
    {
        let numbers = index::row_for(self.rows.as_slice(), at.me, event);
        go_through(self.rules.definition(), at, turn, numbers);
    }

    /// A moment of a node's step.
    pub fn moment(&self, node: u32, t: u32, sender: u32, fields: [u8; 7]) -> Moment<'_>
        ensures { seen result ≡ moment self.now.nodes self.now.given node t sender fields }
    {
        Moment {
            nodes: self.nodes,
            me: node,
            given: &self.given,
            step: t,
            sender,
            fields,
            it: 0,
        }
    }

    /// What a state enters under a topic.
    pub fn entry(&self, node: u32, state: &State, topic: &Topic) -> Option<Entry>
        ensures { result ≡ entry_by (arc_value self.now.rules) self.now.nodes self.now.given node state.now (Some topic.now) }
    {
        let at = self.moment(node, 0, 0, [0; 7]);
        let rules = self.rules.definition();
        if value_of(rules, &at, state, &topic.guard) == 0 {
            return None;
        }
        let key = value_of(rules, &at, state, &topic.key);
        let value = value_of(rules, &at, state, &topic.value);
        Some(Entry { key, value })
    }

    /// Whether a state shows a fact.
    pub fn shows(&self, node: u32, state: &State, fact: Fact) -> bool
        ensures { result ≡ shows_of (arc_value self.now.rules) self.now.nodes self.now.given node state.now fact }
    {
        let told = self.is_told(node, state, fact.told);
        if fact.denied { !told } else { told }
    }

    /// Whether something is so of a state.
    fn is_told(&self, node: u32, state: &State, told: Told) -> bool
        ensures { result ≡ is_told (arc_value self.now.rules) self.now.nodes self.now.given node state.now told }
    {
        match told {
            Told::Named(i) => {
                let at = self.moment(node, 0, 0, [0; 7]);
                fact_value(self.rules.definition(), &at, state, i) != 0
            }
            Told::Word { variable, word } => item(&state.values, variable) == word,
            Told::Flag(variable) => item(&state.values, variable) != 0,
            Told::Clamped => state.clamped,
            Told::Replaced => state.replaced,
        }
    }
}
