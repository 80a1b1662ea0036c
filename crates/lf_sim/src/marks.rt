//! Points that are to be worked again, or were.

ghost use Rattle.std.specs.Prelude.{◌≡◌, ℕ, ◌+◌, ◌*◌, ◌<◌, ◌≤◌, true, false, length};
ghost use Rattle.lf_sim.specs.Marks.{is_marked, AreBetween, AreTold};

/// The places for points: 8 nodes and the steps 0..=49.
const POINTS: usize = 400;

/// The steps 0..=49: those of the longest run, and one after it.
const STEPS: usize = 50;

/// Marked points, each a node, 0..=7, with a step, 0..=49.
#[derive(Clone, Copy, Drop)]
pub struct Marks {
    // By step and then by node, 8 to a step.
    pub(crate) points: [bool; POINTS],
    // By step, whether it has a marked point.
    steps: [bool; STEPS],
    // Between which nodes and steps all marked points lie.
    first_node: u32,
    last_node: u32,
    first_step: u32,
    last_step: u32,
    ghost told: { AreTold points steps },
    ghost between: { AreBetween points first_node last_node first_step last_step },
}

impl Marks {
    /// No point.
    pub(crate) fn none() -> Marks {
        Marks {
            points: [false; POINTS],
            steps: [false; STEPS],
            first_node: u32::MAX,
            last_node: 0,
            first_step: u32::MAX,
            last_step: 0,
        }
    }

    /// Marks a point.
    pub(crate) fn mark(&mut self, node: u32, step: u32)
        requires node { node < 8 }
        requires step { step < 50 }
        ensures there { is_marked self.new.points node step ≡ true }
        ensures kept { (n t : ℕ) → is_marked self.old.points n t ≡ true → is_marked self.new.points n t ≡ true }
    {
        self.points[(step * 8 + node) as usize] = true;
        self.steps[step as usize] = true;
        self.first_node = self.first_node.min(node);
        self.last_node = self.last_node.max(node);
        self.first_step = self.first_step.min(step);
        self.last_step = self.last_step.max(step);
    }

    /// Whether a point is marked.
    pub fn has(&self, node: u32, step: u32) -> bool
        requires node { node < 8 }
        requires step { step < 50 }
        ensures { result ≡ is_marked self.now.points node step }
    {
        self.points[(step * 8 + node) as usize]
    }

    /// Whether there may be a marked point from one node to another and from one step to another, all of them among these.
    pub fn may_have(&self, first_node: u32, last_node: u32, first_step: u32, last_step: u32) -> bool
        ensures { result ≡ false → (n t : ℕ) → n < 8 → first_node ≤ n → n ≤ last_node → first_step ≤ t → t ≤ last_step →
            is_marked self.now.points n t ≡ false }
    {
        self.first_node <= last_node
            && first_node <= self.last_node
            && self.first_step <= last_step
            && first_step <= self.last_step
    }

    /// Whether a step has a marked point.
    pub(crate) fn has_any(&self, step: u32) -> bool
        requires { step < 50 }
        ensures { result ≡ false → (n : ℕ) → n < 8 → is_marked self.now.points n step ≡ false }
    {
        self.steps[step as usize]
    }
}
