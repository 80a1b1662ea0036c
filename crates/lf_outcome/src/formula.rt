//! Formulas.

use lf_list::Listed;

/// What a run is to show. Of a formula that is true in the run of a set of faults, the set reaches the outcome.
///
/// Nodes and steps may be any numbers: where there is no such point, nobody is up.
#[derive(Debug, Drop)]
pub enum Formula<F> {
    /// Every part is true. It is true where there is no part.
    All(Formulas<F>),
    /// Some part is true. It is false where there is no part.
    Any(Formulas<F>),
    /// The node isn't up at the step.
    Down {
        node: u32,
        step: u32,
    },
    /// The node is up at the step, and its state after it shows the fact.
    Shows {
        node: u32,
        step: u32,
        fact: F,
    },
    /// Of what the nodes below `nodes` enter under a topic, by their states after the steps 1 to `last` at which they are up, no two entries have one key
    /// and different values.
    One {
        nodes: u32,
        last: u32,
        topic: u8,
    },
    /// Each of the parts at each step from `first` to `last`, by step and then in order, the steps of Down, Shows and Over in the parts counted from that step:
    /// if `every`, all of them are true, and else some are. There are none where `last` is before `first`. One stays what it is. Steps past 2^32 - 1 count as
    /// that: no run has them.
    Over {
        every: bool,
        first: u32,
        last: u32,
        parts: Formulas<F>,
    },
}

/// The parts of a formula.
pub type Formulas<F> = Listed<Formula<F>>;
