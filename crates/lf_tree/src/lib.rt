//! The certificate of a search, as a tree and as a text.
#![tactic(auto)]

mod counting;
mod facts;
mod fault;
mod lists;
mod nodes;
mod own;
mod pauses;
mod preorder;
mod read;
mod size;
mod tree;
mod write;

pub use counting::count;
pub use facts::{rows_are_one, texts_are_json, types_are_kept};
pub use fault::TreeFault;
pub use preorder::{Row, rows};
pub use read::read_tree;
pub use size::{LONGEST_TREE, text_length};
pub use tree::{Edges, Kids, Node, Tree};
pub use write::to_text;
