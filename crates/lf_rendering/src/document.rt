//! The document.

ghost use Rattle.lf_sim.specs.Settings.{IsRun, world_of};
ghost use Rattle.std.specs.Prelude.{◌≢◌, ◌<◌, ◌≤◌};

use crate::failed::{Failed, failed_atoms};
use lf_faults::{FaultSet, fault_text};
use lf_outcome::{Formula, holds};
use lf_protocols::{Fact, Note, Protocol};
use lf_rule_machine::Packet;
use lf_sim::{Run, Setting};
use serde::Serialize;
use std::alloc::{AllocError, Global};

/// The run of a scenario.
#[derive(Serialize, Drop)]
struct Document {
    nodes: u32,
    horizon: u32,
    /// The faults, as texts.
    faults: Vec<String>,
    /// `reaches` or `misses`.
    verdict: &'static str,
    /// The atoms of the outcome that make it false.
    failed: Vec<Failed>,
    /// The nodes' states before the first step, in words.
    start: Vec<String>,
    steps: Vec<Step>,
}

/// One step of it.
#[derive(Serialize, Drop)]
struct Step {
    step: u32,
    /// The nodes' states after the step, in words; nothing for a node that is down.
    states: Vec<Option<String>>,
    /// What is sent at the step, by sender and then by receiver.
    notes: Vec<Sent>,
}

/// What a node sends another one at a step.
#[derive(Serialize, Drop)]
struct Sent {
    from: u32,
    to: u32,
    note: Said,
    /// `heard`, `omitted`, or `lost` where it arrives after the last step or at a node that is down.
    fate: &'static str,
    /// The step at which it arrives, or would.
    arrival: u32,
}

/// The text of a note, or of more notes in one packet the list of their texts, in order.
#[derive(Serialize, Drop)]
#[serde(untagged)]
enum Said {
    One(String),
    More(Vec<String>),
}

/// What is told.
#[derive(Clone, Copy)]
struct Telling<'a> {
    alloc: Global,
    setting: &'a Setting<Protocol>,
    run: &'a Run<Protocol>,
}

/// The run of a setting as a JSON document: its nodes, last step and faults, whether it reaches the outcome and which atoms fail, and all states and notes
/// step by step. The error is that memory has run out.
pub fn json_trace(
    alloc: Global,
    setting: &Setting<Protocol>,
    formula: &Formula<Fact>,
    run: &Run<Protocol>,
) -> Result<String, AllocError>
    requires { IsRun (world_of setting.now) run.now }
{
    let telling = Telling {
        alloc,
        setting,
        run,
    };
    let document = Document {
        nodes: run.nodes(),
        horizon: run.horizon(),
        faults: fault_texts(alloc, &run.set())?,
        verdict: if holds(setting, formula, run) {
            "reaches"
        } else {
            "misses"
        },
        failed: failed_atoms(alloc, setting, formula, run)?,
        start: telling.starts()?,
        steps: telling.steps()?,
    };
    // No value of the document is refused by the writer, so that it fails for want of memory alone.
    let mut text = serde_json::to_string_pretty(alloc, &document).map_err(|_| AllocError)?;
    text.push('\n')?;
    Ok(text)
}

/// The texts of faults.
fn fault_texts(alloc: Global, set: &FaultSet) -> Result<Vec<String>, AllocError> {
    let mut texts = Vec::new(alloc);
    for fault in set.items() {
        texts.push(fault_text(alloc, fault)?)?;
    }
    Ok(texts)
}

impl Telling<'_> {
    /// The states before the first step.
    fn starts(&self) -> Result<Vec<String>, AllocError>
        requires { IsRun (world_of self.now.setting.now) self.now.run.now }
    {
        let mut starts = Vec::new(self.alloc);
        for node in 0..self.run.nodes() {
            starts.push(self.state_text(node, 0)?)?;
        }
        Ok(starts)
    }

    /// The steps.
    fn steps(&self) -> Result<Vec<Step>, AllocError>
        requires { IsRun (world_of self.now.setting.now) self.now.run.now }
    {
        let mut steps = Vec::new(self.alloc);
        for past in 0..self.run.horizon() {
            steps.push(Step {
                step: past + 1,
                states: self.states(past + 1)?,
                notes: self.notes(past + 1)?,
            })?;
        }
        Ok(steps)
    }

    /// The states after a step.
    fn states(&self, step: u32) -> Result<Vec<Option<String>>, AllocError>
        requires run { IsRun (world_of self.now.setting.now) self.now.run.now }
        requires step { step ≤ (world_of self.now.setting.now).horizon }
    {
        let mut states = Vec::new(self.alloc);
        for node in 0..self.run.nodes() {
            let state = if self.run.up(node, step) {
                Some(self.state_text(node, step)?)
            } else {
                None
            };
            states.push(state)?;
        }
        Ok(states)
    }

    /// The words of a node's state after a step.
    fn state_text(&self, node: u32, step: u32) -> Result<String, AllocError>
        requires run { IsRun (world_of self.now.setting.now) self.now.run.now }
        requires node { node < (world_of self.now.setting.now).rules.nodes }
        requires step { step ≤ (world_of self.now.setting.now).horizon }
    {
        let mut text = String::new(self.alloc);
        let state = self.run.state(node, step);
        self.setting.machine.push_state(&state, &mut text)?;
        Ok(text)
    }

    /// The notes that are sent at a step.
    fn notes(&self, step: u32) -> Result<Vec<Sent>, AllocError>
        requires run { IsRun (world_of self.now.setting.now) self.now.run.now }
        requires first { 1 ≤ step }
        requires last { step ≤ (world_of self.now.setting.now).horizon }
    {
        let mut notes = Vec::new(self.alloc);
        for from in 0..self.run.nodes() {
            self.push_notes(from, step, &mut notes)?;
        }
        Ok(notes)
    }

    /// Adds the notes of a sender.
    fn push_notes(&self, from: u32, step: u32, notes: &mut Vec<Sent>) -> Result<(), AllocError>
        requires run { IsRun (world_of self.now.setting.now) self.now.run.now }
        requires from { from < (world_of self.now.setting.now).rules.nodes }
        requires first { 1 ≤ step }
        requires last { step ≤ (world_of self.now.setting.now).horizon }
    {
        for to in 0..self.run.nodes() {
            if from != to {
                if let Some(note) = self.run.sent(from, to, step) {
                    notes.push(self.told(from, to, step, &note)?)?;
                }
            }
        }
        Ok(())
    }

    /// A note.
    fn told(&self, from: u32, to: u32, step: u32, note: &Note) -> Result<Sent, AllocError>
        requires run { IsRun (world_of self.now.setting.now) self.now.run.now }
        requires from { from < (world_of self.now.setting.now).rules.nodes }
        requires to { to < (world_of self.now.setting.now).rules.nodes }
        requires apart { from ≢ to }
        requires first { 1 ≤ step }
        requires last { step ≤ (world_of self.now.setting.now).horizon }
    {
        let note = self.said(note)?;
        let arrival = self.setting.network.arrival(from, to, step);
        let fate = if self.run.set().omits(from, to, step) {
            "omitted"
        } else if self.run.up(to, arrival) {
            "heard"
        } else {
            "lost"
        };
        Ok(Sent {
            from,
            to,
            note,
            fate,
            arrival,
        })
    }

    /// The text of a note, or those of the notes of a packet.
    fn said(&self, note: &Note) -> Result<Said, AllocError> {
        if let Note::Ruled(packet) = note {
            let texts = self.note_texts(packet)?;
            if texts.len() > 1 {
                return Ok(Said::More(texts));
            }
        }
        Ok(Said::One(self.note_text(note)?))
    }

    /// The texts of the notes of a packet, in order.
    fn note_texts(&self, packet: &Packet) -> Result<Vec<String>, AllocError> {
        let mut texts = Vec::new(self.alloc);
        for place in packet.notes.iter() {
            if place.is_some() {
                let mut alone = Packet::empty();
                alone.notes[0] = *place;
                texts.push(self.note_text(&Note::Ruled(alone))?)?;
            }
        }
        Ok(texts)
    }

    /// The text of a note.
    fn note_text(&self, note: &Note) -> Result<String, AllocError> {
        let mut text = String::new(self.alloc);
        self.setting.machine.push_note(note, &mut text)?;
        Ok(text)
    }
}
