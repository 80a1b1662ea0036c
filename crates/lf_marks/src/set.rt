//! A set that was taken, and the branch that it may become.

ghost use Rattle.std.specs.Prelude.{◌≡◌, ◌<◌, ◌≤◌, IfOk, length};

use crate::room::enlarge;
use lf_faults::Fault;
use lf_list::Listed;
use lf_outcome::Reach;
use lf_tree::{Edges, Kids, Node};
use std::alloc::AllocError;

/// A set that was taken.
#[derive(Drop)]
pub(crate) struct Set {
    /// The place of the branch that it stands beneath. 0 for the root.
    pub(crate) parent: usize,
    /// Which of that branch's kids it is, from 0. 0 for the root.
    pub(crate) kid: u32,
    /// How many branches stand above it.
    pub(crate) depth: u32,
    /// What is known of it.
    pub(crate) state: State,
}

/// What is known of a set that was taken.
#[derive(Drop)]
pub(crate) enum State {
    /// It was given back.
    Open,
    /// The ticket works it.
    Claimed(u64),
    /// Its run misses the outcome.
    Misses,
    /// Its run reaches the outcome.
    Reaches,
    /// Its run reaches the outcome, and a kid stands beneath it for each edge.
    Branch(Box<Branch>),
}

/// A branch with its kids.
#[derive(Drop)]
pub(crate) struct Branch {
    /// What the outcome rests on.
    pub(crate) reach: Reach,
    /// The faults that lead to the kids.
    pub(crate) edges: Edges,
    /// The place of the first kid, once one was taken.
    pub(crate) first: usize,
    /// A node for each kid that was taken. Until the tree is made each is `Node::Reaches`, as most are in the end.
    pub(crate) kids: Vec<Node>,
    ghost few: { length edges ≤ 65535 },
    ghost within: { length kids.items ≤ length edges },
}

impl Branch {
    ghost use Rattle.lf_marks.specs.Branches.{AddsKid, PutsKid};
    ghost use Rattle.lf_marks.specs.Fits.{Fits};

    /// A larger list for the kids that are taken, where one kid more has no place: it has a place for each kid.
    pub(crate) fn kid_room(&self) -> Result<Option<Vec<Node>>, AllocError>
        requires { length self.now.kids.items < length self.now.edges }
        ensures { IfOk result (Fits self.now.kids 1) }
    {
        if self.kids.len() < self.kids.capacity() {
            return Ok(None);
        }
        Ok(Some(Vec::with_capacity(*self.kids.allocator(), self.edges.len())?))
    }

    /// One kid more is taken, at a place if it is the first, with the larger list for the kids, where there is one.
    pub(crate) fn add_kid(&mut self, place: usize, larger: Option<Vec<Node>>)
        requires more { length self.old.kids.items < length self.old.edges }
        requires room { Fits self.old.kids 1 larger }
        ensures { AddsKid self.old self.new place }
    {
        enlarge(&mut self.kids, larger);
        self.kids.push_reserved(Node::Reaches);
        if self.kids.len() == 1 {
            self.first = place;
        }
    }

    /// Puts a node in place of another, of a kid that was taken.
    pub(crate) fn put_kid(&mut self, kid: usize, node: Node)
        requires { kid < length self.old.kids.items }
        ensures { PutsKid self.old self.new kid node }
    {
        self.kids[kid] = node;
    }
}
