//! What two-phase and three-phase commit have in common as rules.

use crate::build::{
    Grown, List, STEP, alone, and, becomes, binary, chain, constant, equal, given_from,
    given_number, guard, is, leaf, more, nodes_from, none, number, one, only, or, plain, rule,
    send, set, unary, variable, worded, yes,
};
use crate::made::Numbers;
use lf_list::Listed;
use lf_rules::{
    Assignment, Binary, Chain, Constant, Event, Given, Guard, Kind, Leaf, Rule, Sort, Unary, Value,
    Variable,
};
use std::alloc::{AllocError, Global};

const PHASE: u8 = 0;

pub(crate) const SINCE: u8 = 1;

pub(crate) const YES: u8 = 2;

const REFUSED: u8 = 3;

const IDLE: u8 = 0;

const VOTING: u8 = 1;

pub(crate) const PREPARED: u8 = 2;

pub(crate) const COMMITTED: u8 = 3;

pub(crate) const ABORTED: u8 = 4;

/// The number of the form that asks for a vote.
const ASK: u8 = 0;

/// That of a vote for the commit.
const AGREE: u8 = 1;

/// That of a vote against it.
const REFUSE: u8 = 2;

pub(crate) const COMMIT: u8 = 3;

pub(crate) const ABORT: u8 = 4;

const PATIENCE: u8 = 0;

const VOTE: u8 = 1;

const PARTICIPANTS: u8 = 2;

/// Whether a node is in a phase.
pub(crate) fn in_phase(alloc: Global, phase: u8) -> Grown {
    is(alloc, PHASE, phase)
}

/// The phase that a node comes to.
pub(crate) fn comes_to(alloc: Global, phase: u8) -> List<Assignment> {
    becomes(alloc, PHASE, phase)
}

/// The phase that a node comes to, from whose step on it waits.
pub(crate) fn enters(alloc: Global, phase: u8) -> List<Assignment> {
    more(comes_to(alloc, phase), set(SINCE, leaf(Leaf::Step)))
}

pub(crate) fn participants() -> Grown {
    leaf(Leaf::Given(PARTICIPANTS))
}

/// Whether the time-out has come.
pub(crate) fn is_late(alloc: Global) -> Grown {
    let waited = binary(alloc, Binary::Subtract, leaf(Leaf::Step), variable(SINCE));
    binary(alloc, Binary::AtMost, leaf(Leaf::Given(PATIENCE)), waited)
}

/// Whether a set has all participants.
pub(crate) fn has_all(alloc: Global, variable_of: u8) -> Grown {
    equal(alloc, variable(variable_of), participants())
}

/// The phase, since when a node waits, whose votes node 0 has, and whether there is one against.
pub(crate) fn variables(alloc: Global, phases: &str) -> List<Variable> {
    let phase = one(alloc, worded(alloc, "phase", PHASE, phases));
    let since = more(phase, plain(alloc, "since", STEP));
    let votes = more(since, plain(alloc, "yes", Kind::Nodes));
    more(votes, plain(alloc, "refused", Kind::Flag))
}

/// How long nodes wait, how each votes, and which take part.
pub(crate) fn constants(alloc: Global) -> List<Constant> {
    let four = Ok(Value::Number(4));
    let patience = one(alloc, constant(alloc, "patience", Sort::Number, four));
    let agree = Ok(Value::Truth(true));
    let vote = more(patience, constant(alloc, "vote", Sort::Truth, agree));
    let others = nodes_from(alloc, 1);
    more(vote, constant(alloc, "participants", Sort::Nodes, others))
}

pub(crate) fn facts(alloc: Global) -> List<Guard> {
    let blocked = guard(alloc, "blocked", in_phase(alloc, PREPARED));
    let free = unary(alloc, Unary::Not, in_phase(alloc, PREPARED));
    more(one(alloc, blocked), guard(alloc, "free", free))
}

/// Node 0 asks at step 1.
fn asking(alloc: Global) -> Result<Chain, AllocError> {
    let first = equal(alloc, leaf(Leaf::Step), number(1));
    let asked = send(alloc, ASK, leaf(Leaf::All));
    let asks = rule(first, enters(alloc, VOTING), asked);
    alone(alloc, only(alloc, 0), Event::Begin, asks)
}

/// In a phase node 0 adds the sender of a note to a set.
pub(crate) fn counting(alloc: Global, form: u8, phase: u8, to: u8) -> Result<Chain, AllocError> {
    let sender = unary(alloc, Unary::Only, leaf(Leaf::Sender));
    let added = set(to, binary(alloc, Binary::Union, variable(to), sender));
    let counted = rule(in_phase(alloc, phase), one(alloc, added), none(alloc));
    alone(alloc, only(alloc, 0), Event::Note(form), counted)
}

/// It notes a vote against the commit.
fn refusing(alloc: Global) -> Result<Chain, AllocError> {
    let sets = one(alloc, set(REFUSED, yes()));
    let noted = rule(in_phase(alloc, VOTING), sets, none(alloc));
    alone(alloc, only(alloc, 0), Event::Note(REFUSE), noted)
}

/// Node 0 asks, and notes the votes.
pub(crate) fn polling(alloc: Global) -> List<Chain> {
    let asked = one(alloc, asking(alloc));
    let agreed = more(asked, counting(alloc, AGREE, VOTING, YES));
    more(agreed, refusing(alloc))
}

/// Where something is so, node 0 tells all of the phase that it comes to.
pub(crate) fn telling(
    alloc: Global,
    guard: Grown,
    sets: List<Assignment>,
    form: u8,
) -> Result<Rule, AllocError> {
    rule(guard, sets, send(alloc, form, leaf(Leaf::All)))
}

/// What node 0 does that waits for votes: it gives up where one is against the commit, takes this rule where all are for it, and gives up where it
/// has waited too long.
pub(crate) fn deciding(alloc: Global, agreed: Result<Rule, AllocError>) -> List<Rule> {
    let refused = and(alloc, in_phase(alloc, VOTING), variable(REFUSED));
    let first = telling(alloc, refused, comes_to(alloc, ABORTED), ABORT);
    let late = and(alloc, in_phase(alloc, VOTING), is_late(alloc));
    let last = telling(alloc, late, comes_to(alloc, ABORTED), ABORT);
    more(more(one(alloc, first), agreed), last)
}

/// Whether all are for the commit.
pub(crate) fn all_agree(alloc: Global) -> Grown {
    and(alloc, in_phase(alloc, VOTING), has_all(alloc, YES))
}

/// A participant votes.
pub(crate) fn voting(alloc: Global) -> Result<Chain, AllocError> {
    let agrees = and(alloc, in_phase(alloc, IDLE), leaf(Leaf::Given(VOTE)));
    let agreed = send(alloc, AGREE, only(alloc, 0));
    let first = rule(agrees, enters(alloc, PREPARED), agreed);
    let refused = send(alloc, REFUSE, only(alloc, 0));
    let second = rule(in_phase(alloc, IDLE), comes_to(alloc, ABORTED), refused);
    let votes = more(one(alloc, first), second);
    chain(participants(), Event::Note(ASK), votes)
}

/// Whether a participant may still be told.
pub(crate) fn is_open(alloc: Global) -> Grown {
    or(alloc, in_phase(alloc, IDLE), in_phase(alloc, PREPARED))
}

/// Where something is so, a participant that hears a note comes to a phase.
pub(crate) fn following(
    alloc: Global,
    form: u8,
    guard: Grown,
    phase: u8,
) -> Result<Chain, AllocError> {
    let told = rule(guard, comes_to(alloc, phase), none(alloc));
    alone(alloc, participants(), Event::Note(form), told)
}

/// Who wakes waits from then on, by the variable with this number.
pub(crate) fn waking(alloc: Global, since: u8) -> Result<Chain, AllocError> {
    let sets = one(alloc, set(since, leaf(Leaf::Step)));
    alone(
        alloc,
        leaf(Leaf::All),
        Event::Wake,
        rule(yes(), sets, none(alloc)),
    )
}

/// How each node votes: in half of the settings one in four against the commit. Node 0, and numbers that are no nodes, stand for it.
pub(crate) fn votes(numbers: Numbers, nodes: u32) -> [bool; 8] {
    let mut votes = [true; 8];
    if numbers.is_rare(2, 1) {
        return votes;
    }
    for node in 1..8u32 {
        if node < nodes && numbers.is_rare(u64::from(node) + 2, 3) {
            votes[node as usize] = false;
        }
    }
    votes
}

/// The votes of the nodes that there are.
fn listed(alloc: Global, votes: [bool; 8], nodes: u32) -> Result<Given, AllocError> {
    let mut values = Vec::new(alloc);
    for vote in votes.iter().take(nodes as usize) {
        values.push(Value::Truth(*vote))?;
    }
    Ok(Given::Each(Listed::from_vec(values)))
}

/// The values of the constants.
pub(crate) fn given(alloc: Global, nodes: u32, patience: u32, votes: [bool; 8]) -> List<Given> {
    let patience = one(alloc, given_number(patience));
    let vote = more(patience, listed(alloc, votes, nodes));
    more(vote, given_from(alloc, 1))
}
