//! Up to which step each node counts.

ghost use Rattle.std.specs.Prelude.{◌≡◌, ℕ, ◌-◌, ◌<◌, ◌≤◌, ◌↔◌, ◌++◌, IsSome, IfSome, IsTrue, All, length, max, replicate, slice_set};
ghost use Rattle.lf_outcome.specs.Reaches.{IsReach, IsReachOf, reach_at};

use std::marker::Model;

/// The last step that counts.
const LAST: u32 = 48;

/// For each of 2..=8 nodes the last step that counts, 1..=48, or 0 where none does.
///
/// It takes no memory beside its own nine bytes.
#[derive(Clone, Copy, Debug, PartialEq, Eq)]
pub struct Reach {
    count: u8,
    steps: [u8; 8],
}

impl Model for Reach {
    ghost use Rattle.std.specs.Prelude.{ℕ, List};

    ghost Value = { List ℕ };

    ghost use Rattle.std.specs.Prelude.{take, length, ◌++◌, ◌-◌, replicate};
    ghost use Rattle.lf_outcome.specs.Reaches.{FillsEight, eight_again};

    ghost view = { λ r. take r.count r.steps };

    ghost invariant = { λ r. FillsEight r.count r.steps };

    ghost inverse = { λ steps. record { count = length steps; steps = steps ++ replicate (8 - length steps) 0 } };

    ghost inverse_ok = { λ r h. eight_again r h };
}

impl Reach {
    /// The reach with these numbers, node by node. None where they aren't 2 to 8 numbers of 0..=48.
    pub fn new(steps: &[u32]) -> Option<Reach>
        ensures some { IsSome result ↔ IsReach steps.now }
        ensures value { IfSome result (λ r. r ≡ steps.now) }
    {
        if 2 <= steps.len() && steps.len() <= 8 && steps.iter().all(|step| *step <= LAST) {
            Some(Reach {
                count: steps.len() as u8,
                steps: packed(steps),
            })
        } else {
            None
        }
    }

    /// The reach of so many nodes, 2..=8, of which none counts at any step.
    pub fn none(nodes: u32) -> Reach
        requires { (2 ≤ nodes) × (nodes ≤ 8) }
        ensures { result ≡ replicate nodes 0 }
    {
        Reach {
            count: nodes as u8,
            steps: [0; 8],
        }
    }

    /// The last step of each node, by their numbers. A step is at most 48, so that it is a byte.
    pub fn items(&self) -> &[u8]
        ensures value { result.now ≡ self.now }
        ensures within { IsReach self.now }
    {
        &self.steps[..usize::from(self.count)]
    }

    /// How many nodes there are, 2..=8.
    pub fn len(&self) -> usize
        ensures value { result ≡ length self.now }
        ensures within { IsReach self.now }
    {
        self.items().len()
    }

    /// The last step of a node that counts: 0 where none does, and where there is no such node.
    pub fn at(&self, node: u32) -> u32
        ensures value { result ≡ reach_at self.now node }
        ensures short { result ≤ 48 }
    {
        match self.items().get(node as usize) {
            Some(step) => u32::from(*step),
            None => 0,
        }
    }

    /// Whether the reach has a last step for each of so many nodes, none past the horizon.
    pub fn has_form(&self, nodes: u32, horizon: u32) -> bool
        ensures { IsTrue result ↔ IsReachOf nodes horizon self.now }
    {
        if self.len() != nodes as usize {
            return false;
        }
        self.ends_by(horizon)
    }

    /// Whether no node counts past a step.
    pub fn ends_by(&self, last: u32) -> bool
        ensures { IsTrue result ↔ All (λ step. step ≤ last) self.now }
    {
        self.items().iter().all(|step| u32::from(*step) <= last)
    }

    /// The reach in which a node counts up to a step at least.
    pub fn raised(self, node: u32, step: u32) -> Reach
        requires node { node < length self }
        requires step { step ≤ 48 }
        ensures { result ≡ slice_set self node (max (reach_at self node) step) }
    {
        let mut reach = self;
        reach.steps[node as usize] = reach.steps[node as usize].max(step as u8);
        reach
    }
}

/// The numbers, in eight places.
fn packed(steps: &[u32]) -> [u8; 8]
    requires few { length steps.now ≤ 8 }
    requires short { All (λ t. t ≤ 48) steps.now }
    ensures { result ≡ steps.now ++ replicate (8 - length steps.now) 0 }
{
    let mut places = [0; 8];
    for (i, step) in steps.iter().enumerate() {
        places[i] = *step as u8;
    }
    places
}
