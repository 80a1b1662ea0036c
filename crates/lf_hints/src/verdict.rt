//! What is wrong with a certificate that isn't accepted.

use crate::faults::faults_hint;
use crate::hint::{Hint, Words};
use crate::stand::{Stand, at_path, faults_text};
use lf_certificate::Reason;
use lf_faults::FaultSpec;
use lf_outcome::Reach;
use lf_tree::{Node, Tree};

/// Why a tree isn't accepted, within these bounds, by the reason and the path to where it holds. Nothing of a place that the tree hasn't.
pub(crate) fn verdict_hint(
    spec: &FaultSpec,
    tree: &Tree,
    reason: Reason,
    path: &[usize],
) -> Option<Hint> {
    match reason {
        Reason::AnswerNotAllowed => not_allowed(spec, tree),
        Reason::AnswerNotFirst => Some(Hint::of(match tree.answer {
            Some(_) => "answer: not the first, in the order of sets, of the leaves' sets that miss",
            None => "answer: null, and a leaf says that its set misses",
        })),
        _ => {
            let stand = at_path(tree, path)?;
            let words = words_at(spec, tree, reason, &stand);
            Some(Hint::of(format_args!("{}: {}", stand.place.as_str(), words.as_str())))
        }
    }
}

/// Why the answer of a tree isn't allowed.
fn not_allowed(spec: &FaultSpec, tree: &Tree) -> Option<Hint> {
    let answer = tree.answer?;
    let faults = faults_text(answer.items());
    let bar = faults_hint(spec, faults.as_str())?;
    Some(Hint::of(format_args!("answer: not allowed by the scenario: {}", bar.as_str())))
}

/// What is wrong with the node that stands at a place, by the reason.
fn words_at(spec: &FaultSpec, tree: &Tree, reason: Reason, stand: &Stand<'_>) -> Words {
    match reason {
        Reason::SaidToReach => Words::of("the leaf says reaches, and the run misses"),
        Reason::SaidToMiss => Words::of("the leaf says misses, and the run reaches"),
        Reason::BranchMisses => Words::of(match tree.answer {
            Some(_) =>
                "a branch stands here, and the run misses: this set is smaller than the answer",
            None => "a branch stands here, and the run misses: the answer isn't null",
        }),
        Reason::ReachNotClosed => Words::of(
            "what a node does past its number could be heard within the reach, also where it sends nothing: raise it to that step",
        ),
        Reason::EdgeMissing => Words::of(
            "a fault that could change what is within the reach isn't among the edges, nor among those before a branch further up: add it, with a kid",
        ),
        Reason::EdgesDiffer => Words::of(
            "the edges aren't just the faults that could change what is within the reach, each once and in order",
        ),
        Reason::WrongDepth => depth_words(spec, tree, stand),
        _ => match stand.node {
            Node::Branch { reach, edges, kids } => match reason {
                Reason::ReachFallsShort => reach_words(spec, reach),
                _ => kids_words(edges.as_slice().len(), kids.as_slice().len()),
            },
            _ => Words::of("a leaf stands here"),
        },
    }
}

/// What is wrong with a node that stands too high or too deep.
fn depth_words(spec: &FaultSpec, tree: &Tree, stand: &Stand<'_>) -> Words {
    let (last, why) = match tree.answer {
        Some(answer) => (answer.len(), "as many as the answer has faults"),
        None => (spec.budget() as usize, "the budget"),
    };
    let depth = stand.depth;
    match stand.node {
        Node::Branch { .. } => Words::of(format_args!(
            "a branch stands at depth {depth}, and branches stand above depth {last}, {why}"
        )),
        _ => Words::of(format_args!(
            "a leaf stands at depth {depth}, and leaves stand at depth {last}, {why}"
        )),
    }
}

/// What is wrong with a reach that falls short.
fn reach_words(spec: &FaultSpec, reach: &Reach) -> Words {
    let (count, nodes) = (reach.items().len(), spec.nodes());
    if count != nodes as usize {
        return Words::of(format_args!("the reach has {count} numbers, and nodes = {nodes}"));
    }
    for (node, step) in reach.items().iter().enumerate() {
        if u32::from(*step) > spec.horizon() {
            return Words::of(format_args!(
                "reach[{node}] = {step}, and horizon = {}",
                spec.horizon()
            ));
        }
    }
    Words::of("the outcome doesn't follow from what is within the reach: raise its numbers")
}

/// What is wrong with so many edges and kids.
fn kids_words(edges: usize, kids: usize) -> Words {
    Words::of(format_args!(
        "{edges} edges and {kids} kids: each edge needs one kid, at the same place"
    ))
}
