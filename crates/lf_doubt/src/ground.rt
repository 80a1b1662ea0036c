//! What the questions are made from.

use lf_faults::FaultSpec;
use lf_mutations::Mutation;
use lf_parts::Part;

/// What was counted of a part of a promise.
#[derive(Clone, Copy, Debug, PartialEq, Eq)]
pub struct Stake {
    /// The number of the part, from 1 on, from the left.
    pub place: usize,
    /// What it says.
    pub part: Part,
    /// In how many runs what it speaks of is so.
    pub times: usize,
    /// Of how many.
    pub runs: usize,
}

/// What the questions about an answer are made from.
#[derive(Clone, Copy, Debug)]
pub struct Ground<'a> {
    /// What may be changed in the protocol's rules.
    pub mutations: &'a [Mutation],
    /// In how many of the runs without a fault and with a single one each rule is taken: the first is of rule 1.
    pub taken: &'a [usize],
    /// Whether each rule is one of the start, which no step takes.
    pub starting: &'a [bool],
    /// How many such runs there are.
    pub runs: usize,
    /// What was counted of each part of the promise.
    pub stakes: &'a [Stake],
    pub bounds: FaultSpec,
    /// Whether some link has a spread.
    pub has_spread: bool,
    /// Whether the protocol is that of a file.
    pub is_own: bool,
}
