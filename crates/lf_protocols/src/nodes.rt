//! Sets of nodes.

ghost use Rattle.std.specs.Prelude.{◌≡◌, ◌≢◌, ℕ, ◌<◌, length, false, true};
ghost use Rattle.lf_protocols.specs.NodeSets.{has_node, no_nodes, with_node, has_participants};

/// Some of the nodes 0..=7.
#[derive(Clone, Copy, Debug, PartialEq, Eq, PartialOrd, Ord)]
pub struct Nodes {
    /// For each node, whether it is one of them.
    pub members: [bool; 8],
}

impl Nodes {
    /// No node.
    pub fn none() -> Nodes
        ensures { result ≡ no_nodes }
    {
        Nodes {
            members: [false; 8],
        }
    }

    /// Whether a node is one of them. No number from 8 on is.
    pub fn contains(&self, node: u32) -> bool
        ensures { result ≡ has_node self.now node }
    {
        node < 8 && self.members[node as usize]
    }

    /// Puts a node to them. Nothing changes for numbers from 8 on.
    pub fn insert(&mut self, node: u32)
        ensures value { self.new ≡ with_node self.old node }
        ensures there { node < 8 → has_node self.new node ≡ true }
        ensures others { (m : ℕ) → m ≢ node → has_node self.new m ≡ has_node self.old m }
    {
        if node < 8 {
            self.members[node as usize] = true;
        }
    }

    /// Whether each of the nodes 1 to `nodes` - 1 is one of them.
    pub(crate) fn has_participants(&self, nodes: u32) -> bool
        ensures { result ≡ has_participants nodes self.now }
    {
        (1..nodes).all(|node| self.contains(node))
    }
}
