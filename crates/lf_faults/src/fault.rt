//! One fault.

ghost use Rattle.std.specs.Prelude.{◌≡◌, ◌<◌, ◌≤◌, ◌↔◌, IsSome, IfSome, IsTrue};
ghost use Rattle.lf_faults.specs.Faults.{IsFault, is_before};

use std::marker::Model;

/// The most nodes that a run has.
pub(crate) const MOST_NODES: u32 = 8;

/// The most steps that a run has.
pub(crate) const MOST_STEPS: u32 = 48;

/// What a fault is.
#[derive(Clone, Copy, Debug, PartialEq, Eq)]
pub enum Parts {
    /// The note that `from` sends to `to` at `step` is lost, if there is one.
    Omit { from: u32, to: u32, step: u32 },
    /// `node` takes no step at `step` or later. What it sent before still arrives.
    Crash { node: u32, step: u32 },
    /// `node` takes no step from `step` on for as many steps as a pause lasts, and then restarts.
    Pause { node: u32, step: u32 },
}

/// What happens, in the order of a step's faults.
#[derive(Clone, Copy, Debug, PartialEq, Eq, PartialOrd, Ord)]
enum Kind {
    Omit,
    Crash,
    Pause,
}

/// A fault whose nodes are in 0..=7, two different ones for an omission, and whose step is in 1..=48. It is four bytes.
///
/// Faults are ordered by step, then omissions before crashes before pauses, then by sender or node, then by receiver.
#[derive(Clone, Copy, Debug, PartialEq, Eq, PartialOrd, Ord)]
pub struct Fault {
    step: u8,
    kind: Kind,
    /// The sender, or the node.
    node: u8,
    /// 0 for a crash and a pause.
    receiver: u8,
}

const _: () = prove!(size_of::<Fault>() == 4);

impl Model for Fault {
    ghost use Rattle.lf_faults.specs.declared.fault.Parts.{Parts};

    ghost Value = { Parts };

    ghost use Rattle.std.specs.Prelude.{◌≡◌};
    ghost use Rattle.lf_faults.specs.Faults.{IsFault, receiver_of};
    ghost use Rattle.lf_faults.specs.Kinds.{parts_of, fields_of, fields_again};

    ghost view = { λ f. parts_of f.step f.kind f.node f.receiver };

    ghost invariant = { λ f. IsFault (parts_of f.step f.kind f.node f.receiver) × (f.receiver ≡ receiver_of (parts_of f.step f.kind f.node f.receiver)) };

    ghost inverse = { fields_of };

    ghost inverse_ok = { λ f h. fields_again f h.1 };
}

impl Fault {
    /// The loss of what `from` sends to `to` at `step`. None outside the ranges.
    pub fn omit(from: u32, to: u32, step: u32) -> Option<Fault>
        ensures some { IsSome result ↔ IsFault (Parts.Omit from to step) }
        ensures value { IfSome result (λ f. f ≡ Parts.Omit from to step) }
    {
        if is_point(from, step) && to < MOST_NODES && from != to {
            Some(Fault::from_parts(Parts::Omit { from, to, step }))
        } else {
            None
        }
    }

    /// The crash of `node` at `step`. None outside the ranges.
    pub fn crash(node: u32, step: u32) -> Option<Fault>
        ensures some { IsSome result ↔ IsFault (Parts.Crash node step) }
        ensures value { IfSome result (λ f. f ≡ Parts.Crash node step) }
    {
        if is_point(node, step) {
            Some(Fault::from_parts(Parts::Crash { node, step }))
        } else {
            None
        }
    }

    /// The pause of `node` from `step` on. None outside the ranges.
    pub fn pause(node: u32, step: u32) -> Option<Fault>
        ensures some { IsSome result ↔ IsFault (Parts.Pause node step) }
        ensures value { IfSome result (λ f. f ≡ Parts.Pause node step) }
    {
        if is_point(node, step) {
            Some(Fault::from_parts(Parts::Pause { node, step }))
        } else {
            None
        }
    }

    /// What the fault is.
    pub fn parts(&self) -> Parts
        ensures value { result ≡ self.now }
        ensures in_range { IsFault self.now }
    {
        let step = u32::from(self.step);
        let node = u32::from(self.node);
        match self.kind {
            Kind::Omit => Parts::Omit {
                from: node,
                to: u32::from(self.receiver),
                step,
            },
            Kind::Crash => Parts::Crash { node, step },
            Kind::Pause => Parts::Pause { node, step },
        }
    }

    /// The fault with these parts: nodes in 0..=7, two different ones for an omission, and a step in 1..=48.
    pub fn from_parts(parts: Parts) -> Fault
        requires { IsFault parts }
        ensures { result ≡ parts }
    {
        match parts {
            Parts::Omit { from, to, step } => Fault {
                step: step as u8,
                kind: Kind::Omit,
                node: from as u8,
                receiver: to as u8,
            },
            Parts::Crash { node, step } => Fault {
                step: step as u8,
                kind: Kind::Crash,
                node: node as u8,
                receiver: 0,
            },
            Parts::Pause { node, step } => Fault {
                step: step as u8,
                kind: Kind::Pause,
                node: node as u8,
                receiver: 0,
            },
        }
    }

    /// What stands in a set's unused places.
    pub(crate) fn filler() -> Fault
        ensures { result ≡ Parts.Crash 0 1 }
    {
        Fault::from_parts(Parts::Crash { node: 0, step: 1 })
    }

    /// Whether it comes before another, in the order of faults.
    pub fn is_before(&self, other: &Fault) -> bool
        ensures { result ≡ is_before self.now other.now }
    {
        self < other
    }
}

/// Whether a fault can have this node and this step.
fn is_point(node: u32, step: u32) -> bool
    ensures { IsTrue result ↔ (node < 8) × (1 ≤ step) × (step ≤ 48) }
{
    node < MOST_NODES && 1 <= step && step <= MOST_STEPS
}
