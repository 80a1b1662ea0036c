//! Machines: one whose states rest on each letter and which never says that two are equal, one that counts its letters, and one in which little
//! happens.

ghost use Rattle.std.specs.Prelude.{◌≡◌, ◌<◌, ◌==◌, if◌then◌else◌};
ghost use Rattle.sim_examples.specs.Beacons.{beacon_out, has_letter, told};

use lf_sim::{Entry, Letter, Machine, Out, Stepped};

/// Four nodes, each of which tells another one the step's number, and which one by it too. It can't tell states or notes apart.
#[derive(Clone, Copy, Drop)]
pub(crate) struct Beacon;

impl Machine for Beacon {
    ghost use Rattle.sim_examples.specs.Beacons.{beacon};
    ghost use Rattle.sim_examples.specs.BeaconsLemmas.{beacon-silent};

    type State = u32;

    type Note = u32;

    type Fact = u32;

    ghost rules = { λ machine. beacon };

    fn nodes(&self) -> u32 {
        4
    }

    fn start(&self, node: u32) -> u32 {
        node
    }

    fn step(&self, node: u32, t: u32, state: u32, inbox: &[Letter<u32>]) -> Stepped<u32, u32> {
        Stepped {
            state: tell(state, inbox),
            out: beacon_notes(node, t),
        }
    }

    fn wake(&self, _node: u32, t: u32, state: u32) -> u32 {
        state.wrapping_add(t)
    }

    fn shows(&self, _node: u32, state: u32, fact: u32) -> bool {
        state == fact
    }

    fn entry(&self, _node: u32, _state: &u32, _topic: u8) -> Option<Entry> {
        None
    }

    ghost silent = { λ machine n t to state inbox node first last nobody. beacon-silent n t to nobody };
}

/// A number, with each letter in turn.
fn tell(state: u32, inbox: &[Letter<u32>]) -> u32
    ensures { result ≡ told state inbox.now }
{
    match inbox {
        [] => state,
        [letter, inbox @ ..] => {
            let more = state
                .wrapping_mul(5)
                .wrapping_add(letter.note)
                .wrapping_add(letter.from)
                .wrapping_add(letter.sent.wrapping_mul(3));
            tell(more, inbox)
        }
    }
}

/// The note of a beacon.
fn beacon_notes(node: u32, t: u32) -> Out<u32>
    requires node { node < 4 }
    requires t { t < 49 }
    ensures { result ≡ beacon_out node t }
{
    let mut out = Out::none();
    let to = (node + t) % 4;
    if to != node {
        out.put(to, t);
    }
    out
}

/// Three nodes, each of which keeps how many letters it got at its last step, tells the others how many it had got
/// before, and forgets it in a pause.
#[derive(Clone, Copy, Drop)]
pub(crate) struct Tally;

impl Machine for Tally {
    ghost use Rattle.std.specs.Prelude.{◌==◌, length, None};
    ghost use Rattle.lf_sim.specs.Outs.{to_others};
    ghost use Rattle.lf_sim.specs.OutsLemmas.{to_others-silent};

    type State = usize;

    type Note = usize;

    type Fact = usize;

    ghost rules = { λ machine. record {
      nodes = 3;
      start = λ n. n;
      step = λ n t state inbox. record { state = length inbox; out = to_others 3 n state };
      wake = λ n t state. 0;
      shows = λ n state fact. state == fact;
      entry = λ n state topic. None;
    } };

    fn nodes(&self) -> u32 {
        3
    }

    fn start(&self, node: u32) -> usize {
        node as usize
    }

    fn step(
        &self,
        node: u32,
        _t: u32,
        state: usize,
        inbox: &[Letter<usize>],
    ) -> Stepped<usize, usize> {
        Stepped {
            state: inbox.len(),
            out: Out::to_others(3, node, state),
        }
    }

    fn wake(&self, _node: u32, _t: u32, _state: usize) -> usize {
        0
    }

    fn same_state(&self, one: &usize, other: &usize) -> bool {
        one == other
    }

    fn same_note(&self, one: &usize, other: &usize) -> bool {
        one == other
    }

    fn shows(&self, _node: u32, state: usize, fact: usize) -> bool {
        state == fact
    }

    fn entry(&self, _node: u32, _state: &usize, _topic: u8) -> Option<Entry> {
        None
    }

    ghost silent = { λ machine n t to state inbox node first last nobody. to_others-silent 3 n state to nobody };
}

/// Five nodes, of which the first has something to tell. Each tells it to all others once, at the step after it heard of it.
#[derive(Clone, Copy, Drop)]
pub(crate) struct Rumour;

impl Machine for Rumour {
    ghost use Rattle.sim_examples.specs.Beacons.{rumour};
    ghost use Rattle.sim_examples.specs.BeaconsLemmas.{rumour-silent};

    type State = u32;

    type Note = u32;

    type Fact = u32;

    ghost rules = { λ machine. rumour };

    fn nodes(&self) -> u32 {
        5
    }

    fn start(&self, node: u32) -> u32 {
        if node == 0 { 1 } else { 0 }
    }

    fn step(&self, node: u32, t: u32, state: u32, inbox: &[Letter<u32>]) -> Stepped<u32, u32> {
        let out = if state == 1 {
            Out::to_others(5, node, t)
        } else {
            Out::none()
        };
        Stepped {
            state: heard(state, inbox),
            out,
        }
    }

    fn wake(&self, _node: u32, _t: u32, state: u32) -> u32 {
        state
    }

    fn same_state(&self, one: &u32, other: &u32) -> bool {
        one == other
    }

    fn same_note(&self, one: &u32, other: &u32) -> bool {
        one == other
    }

    fn ignores_letters(&self, _node: u32, _t: u32, state: &u32) -> bool {
        *state != 0
    }

    fn shows(&self, _node: u32, state: u32, fact: u32) -> bool {
        state == fact
    }

    fn entry(&self, _node: u32, _state: &u32, _topic: u8) -> Option<Entry> {
        None
    }

    ghost silent = { λ machine n t to state inbox node first last nobody. rumour-silent n t to state nobody };
}

/// Whether a node of a rumour has yet to hear of it, 0, is about to tell it, 1, or has told it.
fn heard(state: u32, inbox: &[Letter<u32>]) -> u32
    ensures { result ≡ (if state == 0 then (if has_letter inbox.now then 1 else 0) else 2) }
{
    if state != 0 {
        2
    } else if inbox.is_empty() {
        0
    } else {
        1
    }
}
