//! What states enter under a topic.

/// A value that a node's state enters for a key, under a topic.
#[derive(Clone, Copy, Debug, PartialEq, Eq)]
pub struct Entry {
    pub key: u64,
    pub value: u64,
}
