//! Which rules a node of a protocol of rules takes at a step.

ghost use Rattle.std.specs.Prelude.{◌≡◌, ◌++◌, IfOk};
ghost use Rattle.std.specs.List.{fold};
ghost use Rattle.lf_rule_machine.specs.Events.{act};
ghost use Rattle.lf_rule_machine.specs.Moments.{seen};
ghost use Rattle.lf_rule_machine.specs.Machines.{moment, opened, act_alone, hear_note, wake_of};
ghost use Rattle.lf_protocols.specs.RuledTurns.{hear_by_rules};
ghost use Rattle.lf_taken.specs.Numbers.{taken_in};
ghost use Rattle.lf_taken.specs.Turns.{taken_alone, taken_by_note, taken_by_notes, taken_by_one, taken_by_letters, taken_in_step, taken_in_turn};

use crate::numbers::{self, Turn};
use lf_protocols::Note;
use lf_rule_machine::{Moment, Note as Message, Ruled, State};
use lf_rules::Event;
use lf_sim::{Letter, Machine, Out, Stepped};
use std::alloc::{AllocError, Global};

/// A node of a protocol of rules at a step.
#[derive(Clone, Copy)]
pub(crate) struct Acting<'a> {
    pub ruled: &'a Ruled,
    pub node: u32,
    pub t: u32,
}

impl Acting<'_> {
    /// What it takes at the step, from its state and its inbox.
    pub fn taken(
        &self,
        alloc: Global,
        wakes: bool,
        own: State,
        inbox: &[Letter<Note>],
    ) -> Result<Vec<usize>, AllocError>
        ensures { IfOk result (λ taken.
            taken.items ≡ taken_in_turn self.now.ruled.now self.now.node self.now.t wakes own inbox.now) }
    {
        let mut taken = Vec::new(alloc);
        self.push_turn(alloc, wakes, own, inbox, &mut taken)?;
        Ok(taken)
    }

    /// Adds what it takes at the step: where it wakes, first what it takes on waking.
    fn push_turn(
        &self,
        alloc: Global,
        wakes: bool,
        own: State,
        inbox: &[Letter<Note>],
        taken: &mut Vec<usize>,
    ) -> Result<(), AllocError>
        ensures { IfOk result (λ _. taken.new.items ≡ taken.old.items
            ++ taken_in_turn self.now.ruled.now self.now.node self.now.t wakes own inbox.now) }
    {
        if wakes {
            let woken = self.push_wake(alloc, own, taken)?;
            self.push_step(alloc, woken, inbox, taken)
        } else {
            self.push_step(alloc, own, inbox, taken)
        }
    }

    /// Adds what it takes on waking. Gives the state with which it goes on.
    fn push_wake(
        &self,
        alloc: Global,
        own: State,
        taken: &mut Vec<usize>,
    ) -> Result<State, AllocError>
        ensures state { IfOk result (λ woken. woken ≡ wake_of self.now.ruled.now.definition self.now.ruled.now.nodes self.now.ruled.now.given
            self.now.node self.now.t own) }
        ensures taken { IfOk result (λ _. taken.new.items ≡ taken.old.items
            ++ taken_alone self.now.ruled.now self.now.node self.now.t Event.Wake (opened own)) }
    {
        let mut turn = opened(own);
        self.push_alone(alloc, Event::Wake, &mut turn, taken)?;
        Ok(turn.state)
    }

    /// Adds what it takes from the beginning of the step on.
    fn push_step(
        &self,
        alloc: Global,
        own: State,
        inbox: &[Letter<Note>],
        taken: &mut Vec<usize>,
    ) -> Result<(), AllocError>
        ensures { IfOk result (λ _. taken.new.items ≡ taken.old.items
            ++ taken_in_step self.now.ruled.now self.now.node self.now.t own inbox.now) }
    {
        let mut turn = opened(own);
        self.push_alone(alloc, Event::Begin, &mut turn, taken)?;
        self.push_letters(alloc, inbox, &mut turn, taken)?;
        self.push_alone(alloc, Event::End, &mut turn, taken)
    }

    /// Adds what it takes at the letters of an inbox, in order.
    fn push_letters(
        &self,
        alloc: Global,
        inbox: &[Letter<Note>],
        turn: &mut Turn,
        taken: &mut Vec<usize>,
    ) -> Result<(), AllocError>
        ensures turn { IfOk result (λ _. turn.new ≡ fold (hear_by_rules self.now.ruled.now self.now.node self.now.t) turn.old inbox.now) }
        ensures taken { IfOk result (λ _. taken.new.items ≡ taken.old.items
            ++ taken_by_letters self.now.ruled.now self.now.node self.now.t turn.old inbox.now) }
    {
        for letter in inbox {
            self.push_letter(alloc, letter, turn, taken)?;
        }
        Ok(())
    }

    /// Adds what it takes at a letter. A note of another protocol is ignored.
    fn push_letter(
        &self,
        alloc: Global,
        letter: &Letter<Note>,
        turn: &mut Turn,
        taken: &mut Vec<usize>,
    ) -> Result<(), AllocError>
        ensures turn { IfOk result (λ _. turn.new ≡ hear_by_rules self.now.ruled.now self.now.node self.now.t turn.old letter.now) }
        ensures taken { IfOk result (λ _. taken.new.items ≡ taken.old.items
            ++ taken_by_note self.now.ruled.now self.now.node self.now.t turn.old letter.now.from letter.now.note) }
    {
        match letter.note {
            Note::Ruled(packet) => self.push_notes(alloc, letter.from, &packet.notes, turn, taken),
            _ => Ok(()),
        }
    }

    /// Adds what it takes at the notes of a packet by a sender, in order.
    fn push_notes(
        &self,
        alloc: Global,
        from: u32,
        notes: &[Option<Message>],
        turn: &mut Turn,
        taken: &mut Vec<usize>,
    ) -> Result<(), AllocError>
        ensures turn { IfOk result (λ _. turn.new ≡ fold (hear_note self.now.ruled.now.definition self.now.ruled.now.nodes self.now.ruled.now.given
            self.now.node self.now.t from) turn.old notes.now) }
        ensures taken { IfOk result (λ _. taken.new.items ≡ taken.old.items
            ++ taken_by_notes self.now.ruled.now self.now.node self.now.t turn.old from notes.now) }
    {
        match notes {
            [] => Ok(()),
            [note, notes @ ..] => {
                self.push_note(alloc, from, *note, turn, taken)?;
                self.push_notes(alloc, from, notes, turn, taken)
            }
        }
    }

    /// Adds what it takes at a note by a sender: nothing where there is none.
    fn push_note(
        &self,
        alloc: Global,
        from: u32,
        note: Option<Message>,
        turn: &mut Turn,
        taken: &mut Vec<usize>,
    ) -> Result<(), AllocError>
        ensures turn { IfOk result (λ _. turn.new ≡ hear_note self.now.ruled.now.definition self.now.ruled.now.nodes self.now.ruled.now.given
            self.now.node self.now.t from turn.old note) }
        ensures taken { IfOk result (λ _. taken.new.items ≡ taken.old.items
            ++ taken_by_one self.now.ruled.now self.now.node self.now.t turn.old from note) }
    {
        match note {
            Some(note) => {
                let at = self.moment(from, note.fields);
                self.push(alloc, &at, Event::Note(note.form), turn, taken)
            }
            None => Ok(()),
        }
    }

    /// Adds what it takes at an event without a letter.
    fn push_alone(
        &self,
        alloc: Global,
        event: Event,
        turn: &mut Turn,
        taken: &mut Vec<usize>,
    ) -> Result<(), AllocError>
        ensures turn { IfOk result (λ _. turn.new ≡ act_alone self.now.ruled.now.definition self.now.ruled.now.nodes self.now.ruled.now.given
            self.now.node self.now.t event turn.old) }
        ensures taken { IfOk result (λ _. taken.new.items ≡ taken.old.items
            ++ taken_alone self.now.ruled.now self.now.node self.now.t event turn.old) }
    {
        let at = self.moment(0, [0; 7]);
        self.push(alloc, &at, event, turn, taken)
    }

    /// Adds what it takes at an event.
    fn push(
        &self,
        alloc: Global,
        at: &Moment<'_>,
        event: Event,
        turn: &mut Turn,
        taken: &mut Vec<usize>,
    ) -> Result<(), AllocError>
        ensures turn { IfOk result (λ _. turn.new ≡ act self.now.ruled.now.definition (seen at.now) event turn.old) }
        ensures taken { IfOk result (λ _. taken.new.items ≡ taken.old.items ++ taken_in self.now.ruled.now.definition (seen at.now) event turn.old) }
    {
        numbers::act(alloc, self.ruled.definition(), at, event, turn, taken)
    }

    /// A moment of the step.
    fn moment(&self, sender: u32, fields: [u8; 7]) -> Moment<'_>
        ensures { seen result ≡ moment self.now.ruled.now.nodes self.now.ruled.now.given self.now.node self.now.t sender fields }
    {
        self.ruled.moment(self.node, self.t, sender, fields)
    }
}

/// A state, and no note yet.
fn opened(state: State) -> Turn
    ensures { result ≡ opened state }
{
    Stepped {
        state,
        out: Out::none(),
    }
}
