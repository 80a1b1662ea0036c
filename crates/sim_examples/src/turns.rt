//! Turns of one node, the notes of one step, and the sizes that fit.

ghost use Rattle.std.specs.Prelude.{◌<◌};

use crate::machines::{Hub, Ring, Tally};
use crate::texts::agrees;
use lf_faults::FaultSpec;
use lf_latency::{Links, Network};
use lf_sim::{Letter, Machine, Out, Setting, Stepped};

/// Step 1 of a node, and its step 3 where it was paused over step 2.
fn two_turns<M: Machine>(
    machine: &M,
    node: u32,
    first: &[Letter<M::Note>],
    third: &[Letter<M::Note>],
) -> (Stepped<M::State, M::Note>, Stepped<M::State, M::Note>)
    requires { node < (M.rules machine.now).nodes }
{
    let begun = machine.step(node, 1, machine.start(node), first);
    let woken = machine.wake(node, 3, begun.state);
    (begun, machine.step(node, 3, woken, third))
}

/// Whether a tally keeps and tells what it is to, at two turns of node 1.
fn is_tallied() -> bool {
    let letter = Letter {
        from: 0,
        sent: 1,
        note: 7,
    };
    let (begun, woken) = two_turns(&Tally, 1, &[letter, letter], &[letter]);
    let is_begun = begun.state == 2 && begun.out.to(0) == Some(1);
    is_begun
        && woken.state == 1
        && woken.out.to(2) == Some(0)
        && Tally.nodes() == 3
        && !Tally.shows(1, woken.state, 2)
}

#[test]
fn a_machine_takes_its_turns(rt: HostRuntime) {
    agrees(&rt, is_tallied(), "steps 1 and 3");
}

/// The notes to the first nine receivers.
fn notes(out: &Out<u32>) -> [Option<u32>; 9] {
    [
        out.to(0),
        out.to(1),
        out.to(2),
        out.to(3),
        out.to(4),
        out.to(5),
        out.to(6),
        out.to(7),
        out.to(8),
    ]
}

#[test]
fn notes_are_kept_by_receiver(rt: HostRuntime) {
    let mut out = Out::to_others(3, 1, 5);
    out.put(7, 9);
    out.put(8, 4);
    let (five, nine) = (Some(5), Some(9));
    let kept = [five, None, five, None, None, None, None, nine, None];
    agrees(&rt, notes(&out) == kept, "notes to three and nine");
    agrees(&rt, Out::<u8>::none().to(0).is_none(), "no notes");
}

/// Whether a machine fits a network and these bounds.
fn fits<M: Machine + Drop>(machine: M, network: &Network, nodes: u32, horizon: u32) -> bool {
    match FaultSpec::new(nodes, horizon, 1, 0, 0) {
        Some(spec) => Setting::new(machine, *network, spec).is_some(),
        None => false,
    }
}

/// Nodes and a last step, and whether a ring fits the network with them.
const SIZES: [(u32, u32, bool); 5] = [
    (4, 9, true),
    (3, 9, false),
    (5, 9, false),
    (4, 8, false),
    (4, 10, false),
];

#[test]
fn a_setting_has_one_size(rt: HostRuntime) {
    let network = Network::new([0; 32], Links::new(4, 1, 0), 4, 9);
    for (nodes, horizon, ring) in SIZES {
        agrees(&rt, fits(Ring, &network, nodes, horizon) == ring, "a ring");
        agrees(&rt, !fits(Hub, &network, nodes, horizon), "a hub");
    }
}
