//! What may be wrong with a tree.

ghost use Rattle.std.specs.Prelude.{◌≡◌};
ghost use Rattle.lf_certificate.specs.Faults.{number_of};

/// What is wrong with a tree that isn't accepted.
#[derive(Clone, Copy, Debug, PartialEq, Eq)]
pub enum Reason {
    /// The answer isn't an allowed set.
    AnswerNotAllowed,
    /// A leaf says that its set reaches the outcome, and its run misses it.
    SaidToReach,
    /// A leaf says that its set misses the outcome, and its run reaches it.
    SaidToMiss,
    /// The reach of a branch isn't one number up to the horizon for each node, or the outcome isn't true within it.
    ReachFallsShort,
    /// What is heard within the reach of a branch wasn't all done within it.
    ReachNotClosed,
    /// A fault that is to be tried isn't among the edges of a branch.
    EdgeMissing,
    /// The edges of a branch aren't exactly the faults that are to be tried, in order.
    EdgesDiffer,
    /// A branch hasn't as many kids as edges.
    KidsDiffer,
    /// A leaf isn't at the last depth, or a branch isn't above it.
    WrongDepth,
    /// The answer isn't the first of the sets at the last depth that miss.
    AnswerNotFirst,
    /// The run of a branch misses the outcome.
    BranchMisses,
}

impl Reason {
    /// The number by which a verdict names the reason, 1..=11.
    pub fn number(self) -> u32
        ensures { result ≡ number_of self }
    {
        match self {
            Reason::AnswerNotAllowed => 1,
            Reason::SaidToReach => 2,
            Reason::SaidToMiss => 3,
            Reason::ReachFallsShort => 4,
            Reason::ReachNotClosed => 5,
            Reason::EdgeMissing => 6,
            Reason::EdgesDiffer => 7,
            Reason::KidsDiffer => 8,
            Reason::WrongDepth => 9,
            Reason::AnswerNotFirst => 10,
            Reason::BranchMisses => 11,
        }
    }
}
