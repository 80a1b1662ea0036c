//! The certificate's tree.

ghost use Rattle.std.specs.Prelude.{◌≡◌, ◌≢◌, ℕ, ◌+◌, ◌-◌, ◌<◌, length, nat_lt, take, Some};
ghost use Rattle.std.specs.List.{slice_get};
ghost use Rattle.lf_tree.specs.declared.tree.Node.TheVariants as node;
ghost use Rattle.lf_marks.specs.Arena.{look};
ghost use Rattle.lf_marks.specs.Building.{IsHung, branch_node, kid_at, node_in, node_for};
ghost use Rattle.lf_marks.specs.Marks.{mark_at, level_of};
ghost use Rattle.lf_marks.specs.Nodes.{IsTreeOf};
ghost use Rattle.lf_marks.specs.Steps.{IsUnmarked};
ghost use Rattle.lf_marks.specs.Steps as mark;
ghost use Rattle.lf_marks.specs.Walks.{IsBeneath, IsKept};

use crate::marks::Marks;
use crate::set::{Branch, Set, State};
use lf_list::Listed;
use lf_tree::Node;

impl Marks {
    /// The tree of the answered sets, in which the branches of the level are leaves: what waits is dropped. No set may be open or
    /// claimed. It takes no memory.
    pub fn into_nodes(self) -> Node
        requires done { IsUnmarked (mark_at self) mark.Open }
        requires free { (t : ℕ) → IsUnmarked (mark_at self) (mark.Claimed t) }
        ensures { IsTreeOf (level_of self) (mark_at self) result }
    {
        let start = self.start;
        let mut sets = self.sets;
        while sets.len() > 1 {
            hang_last(&mut sets, start);
        }
        let (_, _, root) = take_last(&mut sets, start);
        root
    }
}

/// Takes the last set out and puts its node into the branch above it. Most sets reach the outcome and have no kids: their nodes stand there already.
fn hang_last(sets: &mut Vec<Set>, start: usize)
    requires some { 0 < length sets.old.items }
    requires beneath { IsBeneath (look sets.old.items) (length sets.old.items - 1) }
    requires bare { kid_at sets.old.items (look sets.old.items (length sets.old.items - 1)).parent (look sets.old.items (length sets.old.items - 1)).kid
        ≡ Some node.Reaches }
    ensures { IsHung start sets.old.items sets.new.items }
{
    let (parent, kid, node) = take_last(sets, start);
    match node {
        Node::Reaches => {}
        other => put_kid(sets, parent, kid as usize, other),
    }
}

/// Takes the last set out, and tells the place of the branch above it, which of that branch's kids it is, and its node.
fn take_last(sets: &mut Vec<Set>, start: usize) -> (usize, u32, Node)
    requires { 0 < length sets.old.items }
    ensures count { length sets.new.items + 1 ≡ length sets.old.items }
    ensures rest { sets.new.items ≡ take (length sets.old.items - 1) sets.old.items }
    ensures parent { result.0 ≡ (look sets.old.items (length sets.new.items)).parent }
    ensures kid { result.1 ≡ (look sets.old.items (length sets.new.items)).kid }
    ensures node { result.2 ≡ node_for (nat_lt (length sets.new.items) start) (slice_get sets.old.items (length sets.new.items)) }
{
    let Some(set) = sets.pop() else {
        unreachable!()
    };
    let Set {
        parent,
        kid,
        state,
        ..
    } = set;
    let above = sets.len() < start;
    (parent, kid, node_of(state, above))
}

/// The node of a set whose kids' nodes are made. A branch on the level is a leaf.
fn node_of(state: State, above: bool) -> Node
    ensures { result ≡ node_in above state }
{
    match state {
        State::Open | State::Claimed(_) | State::Misses => Node::Misses,
        State::Reaches => Node::Reaches,
        State::Branch(branch) => branch_of(Box::into_inner(branch), above),
    }
}

/// The node of a branch whose kids' nodes are made. On the level it is a leaf.
fn branch_of(branch: Branch, above: bool) -> Node
    ensures { result ≡ branch_node above branch }
{
    if !above {
        return Node::Reaches;
    }
    let Branch {
        reach,
        edges,
        kids,
        ..
    } = branch;
    Node::Branch {
        reach,
        edges,
        kids: Listed::from_vec(kids),
    }
}

/// Puts the node of a kid into its branch.
fn put_kid(sets: &mut Vec<Set>, parent: usize, kid: usize, node: Node)
    requires { kid < (look sets.old.items parent).taken }
    ensures length { length sets.new.items ≡ length sets.old.items }
    ensures kept { IsKept (look sets.old.items) (look sets.new.items) }
    ensures put { kid_at sets.new.items parent kid ≡ Some node }
    ensures others { (y i : ℕ) → (y ≡ parent → i ≢ kid) → kid_at sets.new.items y i ≡ kid_at sets.old.items y i }
{
    let set = &mut sets[parent];
    match &mut set.state {
        State::Branch(branch) => branch.put_kid(kid, node),
        _ => unreachable!(),
    }
}
