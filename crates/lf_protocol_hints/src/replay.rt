//! A step of a node that is played anew, rule by rule.

use lf_protocols::{Kind, Note as Sent, Protocol, State as Kept};
use lf_rule_machine::{Moment, Note, Packet, Ruled, State, chosen, go_through, value_of};
use lf_rules::{Definition, Event, Rule};
use lf_sim::{Out, Run, Setting, Stepped};
use std::alloc::{AllocError, Global};

/// What a node has come to within a step.
pub(crate) type Turn = Stepped<State, Packet>;

/// What a node remembers of its own.
#[derive(Clone, Copy, Debug, PartialEq, Eq)]
pub(crate) enum Mark {
    Clamped,
    Replaced,
}

impl Mark {
    /// Whether a state has it.
    fn is_in(self, state: &State) -> bool {
        match self {
            Mark::Clamped => state.clamped,
            Mark::Replaced => state.replaced,
        }
    }
}

/// A rule, with its number, from 1.
#[derive(Clone, Copy)]
pub(crate) struct Taken<'a> {
    pub number: usize,
    pub rule: &'a Rule,
}

/// How a node came to a mark: by which rule, when, from what, and to what.
#[derive(Clone, Copy)]
pub(crate) struct Cause<'a> {
    pub definition: &'a Definition,
    pub at: Moment<'a>,
    pub before: Turn,
    pub after: Turn,
    pub taken: Taken<'a>,
    /// For each node and each place of the packet for it the number of the rule that had put a note there before, and 0 where none had.
    pub senders: [[usize; 4]; 8],
}

/// What a node has sent, and is sending, at a step that is played anew, up to the rule by which it comes to a mark.
#[derive(Clone, Copy)]
struct Replay<'a> {
    ruled: &'a Ruled,
    mark: Mark,
    node: u32,
    step: u32,
    turn: Turn,
    /// For each node and each place of the packet for it the number of the rule that has put a note there, and 0 where none has.
    senders: [[usize; 4]; 8],
}

/// How a node comes to a mark at a step of this run, or at its start, which is step 0. None where it doesn't, or where the protocol isn't one of rules.
/// The error, also below, is that memory has run out.
pub(crate) fn cause_of<'a>(
    alloc: Global,
    setting: &'a Setting<Protocol>,
    played: &Run<Protocol>,
    node: u32,
    step: u32,
    mark: Mark,
) -> Result<Option<Cause<'a>>, AllocError> {
    let Kind::Ruled(ruled) = setting.machine.kind() else {
        return Ok(None);
    };
    let Some(state) = kept(played, node, step) else {
        return Ok(None);
    };
    Replay::new(ruled, mark, node, step, state).cause(alloc, setting, played)
}

/// The state of a node of a protocol of rules before a step, and before its start.
fn kept(played: &Run<Protocol>, node: u32, step: u32) -> Option<State> {
    if played.nodes() <= node || played.horizon() < step {
        return None;
    }
    if step == 0 {
        return Some(State::zeros());
    }
    match played.state(node, step - 1) {
        Kept::Ruled(state) => Some(state),
        _ => None,
    }
}

impl<'a> Replay<'a> {
    /// A node that has this state before a step, and has sent nothing in it.
    fn new(ruled: &'a Ruled, mark: Mark, node: u32, step: u32, state: State) -> Replay<'a> {
        let turn = Stepped {
            state,
            out: Out::none(),
        };
        Replay {
            ruled,
            mark,
            node,
            step,
            turn,
            senders: [[0; 4]; 8],
        }
    }

    /// How it comes to the mark. None where it doesn't.
    fn cause(
        self,
        alloc: Global,
        setting: &Setting<Protocol>,
        played: &Run<Protocol>,
    ) -> Result<Option<Cause<'a>>, AllocError> {
        let mut replay = self;
        if replay.step == 0 {
            return replay.act(alloc, Event::Start, 0, [0; 7]);
        }
        if let Some(found) = replay.act(alloc, Event::Begin, 0, [0; 7])? {
            return Ok(Some(found));
        }
        if let Some(found) = replay.hear(alloc, setting, played)? {
            return Ok(Some(found));
        }
        replay.act(alloc, Event::End, 0, [0; 7])
    }

    /// Hears the packets that reach it, in order, up to the first note at which it comes to the mark.
    fn hear(
        &mut self,
        alloc: Global,
        setting: &Setting<Protocol>,
        played: &Run<Protocol>,
    ) -> Result<Option<Cause<'a>>, AllocError> {
        let network = &setting.network;
        if network.nodes() <= self.node || self.step == 0 || network.horizon() < self.step {
            return Ok(None);
        }
        for slot in setting.arriving(self.node, self.step) {
            let (from, sent) = (u32::from(slot.from), u32::from(slot.sent));
            if let Some(Sent::Ruled(packet)) = note_in(played, from, self.node, sent) {
                if let Some(found) = self.hear_packet(alloc, from, &packet)? {
                    return Ok(Some(found));
                }
            }
        }
        Ok(None)
    }

    /// Hears the notes of a packet, in order, up to the first one at which it comes to the mark.
    fn hear_packet(
        &mut self,
        alloc: Global,
        from: u32,
        packet: &Packet,
    ) -> Result<Option<Cause<'a>>, AllocError> {
        for place in packet.notes.iter() {
            if let Some(note) = place {
                if let Some(found) = self.act(alloc, Event::Note(note.form), from, note.fields)? {
                    return Ok(Some(found));
                }
            }
        }
        Ok(None)
    }

    /// Goes through the rules for an event, up to the first one by which it comes to the mark.
    fn act(
        &mut self,
        alloc: Global,
        event: Event,
        sender: u32,
        fields: [u8; 7],
    ) -> Result<Option<Cause<'a>>, AllocError> {
        let definition = self.ruled.definition();
        let at = self.ruled.moment(self.node, self.step, sender, fields);
        let given = at.given_here();
        for number in chosen(alloc, definition, at.nodes, at.me, &given, event)?.as_slice() {
            let before = self.turn;
            go_through(definition, &at, &mut self.turn, &[*number]);
            if let Some(taken) = rule_taken(definition, &at, &before.state, *number) {
                if self.mark.is_in(&self.turn.state) && !self.mark.is_in(&before.state) {
                    return Ok(Some(Cause {
                        definition,
                        at,
                        before,
                        after: self.turn,
                        taken,
                        senders: self.senders,
                    }));
                }
                self.keep_senders(&before, taken.number);
            }
        }
        Ok(None)
    }

    /// Keeps the number of the rule that has been taken at this turn, for the notes that it has put.
    fn keep_senders(&mut self, before: &Turn, rule: usize) {
        for (to, senders) in self.senders.iter_mut().enumerate() {
            let to = u32::try_from(to).unwrap_or(8);
            let (old, new) = (notes_to(before, to), notes_to(&self.turn, to));
            for (sender, (old, new)) in senders.iter_mut().zip(old.iter().zip(new.iter())) {
                if old.is_none() && new.is_some() {
                    *sender = rule;
                }
            }
        }
    }
}

/// The notes for a node.
pub(crate) fn notes_to(turn: &Turn, to: u32) -> [Option<Note>; 4] {
    match turn.out.to(to) {
        Some(packet) => packet.notes,
        None => [None; 4],
    }
}

/// What a node sent to another at a step of a run.
fn note_in(played: &Run<Protocol>, from: u32, to: u32, step: u32) -> Option<Sent> {
    if from < played.nodes() && step <= played.horizon() {
        played.sent(from, to, step)
    } else {
        None
    }
}

/// The rule that is taken of the chain with a number. None where none is.
fn rule_taken<'a>(
    definition: &'a Definition,
    at: &Moment<'_>,
    state: &State,
    number: usize,
) -> Option<Taken<'a>> {
    let mut before: usize = 0;
    for (i, chain) in definition.chains.as_slice().iter().enumerate() {
        let rules = chain.rules.as_slice();
        if i == number {
            return first_true(definition, at, state, rules, before);
        }
        before = before.saturating_add(rules.len());
    }
    None
}

/// The first rule whose guard is true, behind so many others. None where there is none.
fn first_true<'a>(
    definition: &Definition,
    at: &Moment<'_>,
    state: &State,
    rules: &'a [Rule],
    before: usize,
) -> Option<Taken<'a>> {
    for (i, rule) in rules.iter().enumerate() {
        if value_of(definition, at, state, &rule.guard) != 0 {
            let number = before.saturating_add(i).saturating_add(1);
            return Some(Taken { number, rule });
        }
    }
    None
}
