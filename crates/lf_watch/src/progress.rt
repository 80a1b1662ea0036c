//! What is told of work under way.

/// How far the work has come.
#[derive(Clone, Copy, Debug, PartialEq, Eq)]
pub enum Progress {
    /// A search has run `done` sets of `level` faults, of `all` that it has to run, where that is known.
    Sets {
        level: u32,
        done: u64,
        all: Option<u64>,
    },
    /// A search over configurations has worked `done` of them in the pass over sets of at most `pass` faults. How many
    /// there are isn't known before its end.
    Configurations {
        pass: usize,
        done: u64,
    },
    /// A check has judged `done` of the `all` nodes of a tree.
    Nodes {
        done: u64,
        all: u64,
    },
}
