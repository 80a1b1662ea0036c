//! Bounds on faults.

ghost use Rattle.std.specs.Prelude.{◌≡◌, ◌<◌, ◌≤◌, ◌↔◌, IsTrue, IsSome, IfSome};
ghost use Rattle.lf_faults.specs.Allowed.{IsInLimits, IsAdmitted, without_pauses};

use crate::fault::{MOST_NODES, MOST_STEPS};
use crate::set::MOST_FAULTS;
use crate::{Fault, Parts};
use std::marker::Model;

/// The longest pause, in steps.
const LONGEST_PAUSE: u32 = 8;

/// The numbers of bounds, by which contracts see a `FaultSpec`.
#[derive(Clone, Copy, Debug, PartialEq, Eq)]
pub struct Bounds {
    /// How many nodes there are.
    pub nodes: u32,
    /// The last step.
    pub horizon: u32,
    /// The last step at which a note may be omitted, 0 for none.
    pub last_omission: u32,
    /// The most crashes in a set.
    pub crashes: u32,
    /// The most faults in a set.
    pub budget: u32,
    /// The most pauses in a set.
    pub pauses: u32,
    /// How many steps a pause takes.
    pub pause_length: u32,
}

/// How many nodes and steps there are, and what bounds the faults.
#[derive(Clone, Copy, Debug, PartialEq, Eq)]
pub struct FaultSpec {
    bounds: Bounds,
}

impl Model for FaultSpec {
    ghost use Rattle.lf_faults.specs.Allowed.{Bounds, IsInLimits};

    ghost Value = { Bounds };

    ghost view = { λ s. s.bounds };

    ghost invariant = { λ s. IsInLimits s.bounds };

    ghost inverse = { λ b. record { bounds = b } };
}

impl FaultSpec {
    /// Bounds with no pauses, of length 1: 2..=8 nodes, 1..=48 steps, omissions at the steps 1..=last_omission (below
    /// the horizon), at most `crashes` crashes (at most the nodes), at most `budget` faults in a set (at most 6).
    /// None outside these limits.
    pub fn new(
        nodes: u32,
        horizon: u32,
        last_omission: u32,
        crashes: u32,
        budget: u32,
    ) -> Option<FaultSpec>
        ensures some { IsSome result ↔ IsInLimits (without_pauses nodes horizon last_omission crashes budget) }
        ensures value { IfSome result (λ s. s ≡ without_pauses nodes horizon last_omission crashes budget) }
    {
        if 2 <= nodes
            && nodes <= MOST_NODES
            && 1 <= horizon
            && horizon <= MOST_STEPS
            && last_omission < horizon
            && crashes <= nodes
            && budget as usize <= MOST_FAULTS
        {
            let bounds = Bounds {
                nodes,
                horizon,
                last_omission,
                crashes,
                budget,
                pauses: 0,
                pause_length: 1,
            };
            Some(FaultSpec { bounds })
        } else {
            None
        }
    }

    /// The bounds with at most `pauses` pauses (at most the nodes), each of `length` steps (1..=8).
    /// None outside these limits.
    pub fn with_pauses(self, pauses: u32, length: u32) -> Option<FaultSpec>
        ensures some { IsSome result ↔ (pauses ≤ self.nodes) × ((1 ≤ length) × (length ≤ 8)) }
        ensures value { IfSome result (λ s. s ≡ record self { pauses = pauses; pause_length = length }) }
    {
        if pauses <= self.bounds.nodes && 1 <= length && length <= LONGEST_PAUSE {
            let bounds = Bounds {
                pauses,
                pause_length: length,
                ..self.bounds
            };
            Some(FaultSpec { bounds })
        } else {
            None
        }
    }

    /// The numbers, each in the range that its reader names.
    pub fn bounds(&self) -> Bounds
        ensures value { result ≡ self.now }
        ensures limits { IsInLimits self.now }
    {
        self.bounds
    }

    /// How many nodes there are, 2..=8.
    pub fn nodes(&self) -> u32
        ensures value { result ≡ self.now.nodes }
        ensures limits { IsInLimits self.now }
    {
        self.bounds.nodes
    }

    /// The last step, 1..=48.
    pub fn horizon(&self) -> u32
        ensures value { result ≡ self.now.horizon }
        ensures limits { IsInLimits self.now }
    {
        self.bounds.horizon
    }

    /// The last step at which a note may be omitted, 0 for none, below the horizon.
    pub fn last_omission(&self) -> u32
        ensures value { result ≡ self.now.last_omission }
        ensures limits { IsInLimits self.now }
    {
        self.bounds.last_omission
    }

    /// The greatest number of crashes in a set.
    pub fn crashes(&self) -> u32
        ensures value { result ≡ self.now.crashes }
        ensures limits { IsInLimits self.now }
    {
        self.bounds.crashes
    }

    /// The greatest number of faults in a set, 0..=6.
    pub fn budget(&self) -> u32
        ensures value { result ≡ self.now.budget }
        ensures limits { IsInLimits self.now }
    {
        self.bounds.budget
    }

    /// The greatest number of pauses in a set.
    pub fn pauses(&self) -> u32
        ensures value { result ≡ self.now.pauses }
        ensures limits { IsInLimits self.now }
    {
        self.bounds.pauses
    }

    /// How many steps a pause takes, 1..=8.
    pub fn pause_length(&self) -> u32
        ensures value { result ≡ self.now.pause_length }
        ensures limits { IsInLimits self.now }
    {
        self.bounds.pause_length
    }

    /// Whether it is a fault of these bounds: its nodes are there, its step is one of the run, and an omission comes
    /// at `last_omission` or before.
    pub fn admits_fault(&self, fault: &Fault) -> bool
        ensures { IsTrue result ↔ IsAdmitted self.now fault.now }
    {
        match fault.parts() {
            Parts::Omit { from, to, step } => {
                from < self.bounds.nodes
                    && to < self.bounds.nodes
                    && from != to
                    && 1 <= step
                    && step <= self.bounds.last_omission
            }
            Parts::Crash { node, step } | Parts::Pause { node, step } => {
                node < self.bounds.nodes && 1 <= step && step <= self.bounds.horizon
            }
        }
    }
}
