//! Machines that are like no protocol, whose states depend on the order of their inboxes, and one that counts.

ghost use Rattle.std.specs.Prelude.{◌≡◌, ◌<◌};
ghost use Rattle.sim_examples.specs.Samples.{told, ring_out, hub_out};

use lf_sim::{Entry, Letter, Machine, Out, Stepped};

/// Four nodes in a ring. Each tells the next one twice in a step, and the second note stands.
#[derive(Clone, Copy, Drop)]
pub(crate) struct Ring;

impl Machine for Ring {
    ghost use Rattle.sim_examples.specs.Samples.{ring, told};
    ghost use Rattle.sim_examples.specs.SamplesLemmas.{ring-silent};

    type State = u32;

    type Note = u32;

    type Fact = u32;

    ghost rules = { λ machine. ring };

    fn nodes(&self) -> u32 {
        4
    }

    fn start(&self, node: u32) -> u32 {
        node
    }

    fn step(&self, node: u32, t: u32, state: u32, inbox: &[Letter<u32>]) -> Stepped<u32, u32> {
        let state = tell(state, inbox);
        Stepped {
            state,
            out: ring_notes(node, t, state),
        }
    }

    fn wake(&self, _node: u32, t: u32, state: u32) -> u32 {
        state.wrapping_add(t)
    }

    fn shows(&self, _node: u32, state: u32, fact: u32) -> bool {
        state == fact
    }

    fn entry(&self, _node: u32, _state: &u32, _topic: u8) -> Option<Entry> {
        None
    }

    ghost silent = { λ machine n t to state inbox node first last nobody. ring-silent n t to (told state inbox) node nobody };
}

/// Three nodes. The first is told by the others, and forgets all but its inbox.
#[derive(Clone, Copy, Drop)]
pub(crate) struct Hub;

impl Machine for Hub {
    ghost use Rattle.sim_examples.specs.Samples.{hub, told};
    ghost use Rattle.sim_examples.specs.SamplesLemmas.{hub-silent};

    type State = u32;

    type Note = u32;

    type Fact = u32;

    ghost rules = { λ machine. hub };

    fn nodes(&self) -> u32 {
        3
    }

    fn start(&self, _node: u32) -> u32 {
        7
    }

    fn step(&self, node: u32, t: u32, state: u32, inbox: &[Letter<u32>]) -> Stepped<u32, u32> {
        Stepped {
            state: tell(t, inbox),
            out: hub_notes(node, t, state),
        }
    }

    fn wake(&self, _node: u32, t: u32, _state: u32) -> u32 {
        t * 9
    }

    fn shows(&self, _node: u32, state: u32, fact: u32) -> bool {
        state == fact
    }

    fn entry(&self, _node: u32, _state: &u32, _topic: u8) -> Option<Entry> {
        None
    }

    ghost silent = { λ machine n t to state inbox node first last nobody. hub-silent n t to state node nobody };
}

/// A number, with each letter in turn.
fn tell(state: u32, inbox: &[Letter<u32>]) -> u32
    ensures { result ≡ told state inbox.now }
{
    let mut state = state;
    for letter in inbox {
        state = state
            .wrapping_mul(5)
            .wrapping_add(letter.note)
            .wrapping_add(letter.from)
            .wrapping_add(letter.sent.wrapping_mul(3));
    }
    state
}

/// The notes of the ring.
fn ring_notes(node: u32, t: u32, state: u32) -> Out<u32>
    requires { node < 4 }
    ensures { result ≡ ring_out node t state }
{
    let mut out = Out::none();
    out.put((node + 1) % 4, 1);
    out.put((node + 1) % 4, state);
    if t % 2 == 0 {
        out.put((node + 2) % 4, t);
    }
    out
}

/// The notes of the hub.
fn hub_notes(node: u32, t: u32, state: u32) -> Out<u32>
    ensures { result ≡ hub_out node t state }
{
    let mut out = Out::none();
    if node == 0 {
        if t % 3 == 0 {
            out.put(2, state);
        }
    } else {
        out.put(0, state);
    }
    out
}

/// Three nodes, each of which keeps how many letters it got at its last step, tells the others how many it had got
/// before, and forgets it in a pause.
#[derive(Clone, Copy, Drop)]
pub(crate) struct Tally;

impl Machine for Tally {
    ghost use Rattle.std.specs.Prelude.{◌==◌, length, None};
    ghost use Rattle.lf_sim.specs.Outs.{to_others};
    ghost use Rattle.lf_sim.specs.OutsLemmas.{to_others-silent};

    type State = usize;

    type Note = usize;

    type Fact = usize;

    ghost rules = { λ machine. record {
      nodes = 3;
      start = λ n. n;
      step = λ n t state inbox. record { state = length inbox; out = to_others 3 n state };
      wake = λ n t state. 0;
      shows = λ n state fact. state == fact;
      entry = λ n state topic. None;
    } };

    fn nodes(&self) -> u32 {
        3
    }

    fn start(&self, node: u32) -> usize {
        node as usize
    }

    fn step(
        &self,
        node: u32,
        _t: u32,
        state: usize,
        inbox: &[Letter<usize>],
    ) -> Stepped<usize, usize> {
        Stepped {
            state: inbox.len(),
            out: Out::to_others(3, node, state),
        }
    }

    fn wake(&self, _node: u32, _t: u32, _state: usize) -> usize {
        0
    }

    fn shows(&self, _node: u32, state: usize, fact: usize) -> bool {
        state == fact
    }

    fn entry(&self, _node: u32, _state: &usize, _topic: u8) -> Option<Entry> {
        None
    }

    ghost silent = { λ machine n t to state inbox node first last nobody. to_others-silent 3 n state to nobody };
}
