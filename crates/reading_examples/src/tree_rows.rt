//! Trees, their texts to the byte, and their rows.
//!
//! A tree is told by its answer, which is `null` or faults with `,` between them, and by its nodes, each before its kids, with `;`
//! between them. A branch is told by how many kids it has, its reach and its edges, with `:` between them.

use crate::rows::{agrees, columns, number};
use crate::same::are_same;
use lf_faults::{Fault, FaultSet, read_fault};
use lf_outcome::Reach;
use lf_tree::{Edges, Kids, Node, Row, Tree, count, read_tree, rows, text_length, to_text};
use std::alloc::{AllocError, Global};

/// Trees, and their texts.
const TEXTS: &str = concat!(
    // one kid
    r#"omit 0>1 @1|1:3,3:omit 0>1 @1;misses|"#,
    r#"{"answer":["omit 0>1 @1"],"format":1,"root":{"edges":["omit 0>1 @1"],"kids":[{"misses":true}],"reach":[3,3]}}"#,
    "\n",
    // two kids
    r#"omit 0>1 @1|2:4,4,4:omit 0>1 @1,omit 0>2 @1;misses;misses|"#,
    r#"{"answer":["omit 0>1 @1"],"format":1,"root":{"edges":["omit 0>1 @1","omit 0>2 @1"],"kids":[{"misses":true},{"misses":true}],"reach":[4,4,4]}}"#,
    "\n",
    // a pause in an edge, or in the answer, has format 2
    r#"null|1:48,10:crash 7 @48;0:1,0:pause 1 @9|"#,
    r#"{"answer":null,"format":2,"root":{"edges":["crash 7 @48"],"kids":[{"edges":["pause 1 @9"],"kids":[],"reach":[1,0]}],"reach":[48,10]}}"#,
    "\n",
    r#"omit 3>0 @10,pause 2 @10|reaches|"#,
    r#"{"answer":["omit 3>0 @10","pause 2 @10"],"format":2,"root":{"misses":false}}"#,
    "\n",
    // no answer is null, and the empty set an empty list
    r#"null|reaches|{"answer":null,"format":1,"root":{"misses":false}}"#,
    "\n",
    r#"|misses|{"answer":[],"format":1,"root":{"misses":true}}"#,
    "\n",
    // each part of its own kind
    r#"omit 0>1 @1|2:0,48:pause 1 @2,crash 3 @10;reaches;misses|"#,
    r#"{"answer":["omit 0>1 @1"],"format":2,"root":{"edges":["pause 1 @2","crash 3 @10"],"kids":[{"misses":false},{"misses":true}],"reach":[0,48]}}"#,
    "\n",
);

/// The columns before and behind the first `:`.
fn fields(word: &str) -> (&str, &str) {
    word.split_once(':').unwrap_or((word, ""))
}

/// The faults of a text.
fn faults(alloc: Global, text: &str) -> Result<Vec<Fault>, AllocError> {
    let mut faults = Vec::new(alloc);
    for word in text.split(',') {
        if let Some(fault) = read_fault(word) {
            faults.push(fault)?;
        }
    }
    Ok(faults)
}

/// The answer of a text.
fn answer(text: &str) -> Option<FaultSet> {
    if text == "null" {
        return None;
    }
    let mut set = FaultSet::empty();
    for word in text.split(',') {
        if let Some(fault) = read_fault(word) {
            set = set.insert(fault).unwrap_or(set);
        }
    }
    Some(set)
}

/// The reach of a text, if it is one.
fn reach(text: &str) -> Option<Reach> {
    let mut steps = [0; 3];
    let mut count = 0_usize;
    for word in text.split(',') {
        if let Some(step) = steps.get_mut(count) {
            *step = number(word)?;
            count = count.saturating_add(1);
        }
    }
    Reach::new(steps.get(..count)?)
}

/// Takes out the last nodes, so many and the last first. Fewer where there are no more.
pub(crate) fn taken(
    alloc: Global,
    nodes: &mut Vec<Node>,
    count: u32,
) -> Result<Vec<Node>, AllocError> {
    let mut kids = Vec::new(alloc);
    for _ in 0..count {
        if let Some(kid) = nodes.pop() {
            kids.push(kid)?;
        }
    }
    Ok(kids)
}

/// The branch of a word, whose kids are taken out of the nodes. A leaf where the word is of no branch.
fn branch(alloc: Global, nodes: &mut Vec<Node>, word: &str) -> Result<Node, AllocError> {
    let (count, rest) = fields(word);
    let (steps, edges) = fields(rest);
    let edges = faults(alloc, edges)?;
    let kids = taken(alloc, nodes, number(count).unwrap_or(0))?;
    match reach(steps) {
        Some(reach) => Ok(Node::Branch {
            reach,
            edges: Edges::from_vec(edges),
            kids: Kids::from_vec(kids),
        }),
        None => Ok(Node::Misses),
    }
}

/// Puts the node of a word behind the others, of which a branch takes its kids.
fn put(alloc: Global, nodes: &mut Vec<Node>, word: &str) -> Result<(), AllocError> {
    let node = match word {
        "misses" => Node::Misses,
        "reaches" => Node::Reaches,
        word => branch(alloc, nodes, word)?,
    };
    nodes.push(node)?;
    Ok(())
}

/// The root of nodes that are told by words.
fn root(alloc: Global, words: &str) -> Result<Node, AllocError> {
    let mut nodes = Vec::new(alloc);
    for word in words.rsplit(';') {
        put(alloc, &mut nodes, word)?;
    }
    Ok(nodes.pop().unwrap_or(Node::Misses))
}

/// Whether this is the text of the tree, and its length.
fn is_text(alloc: Global, tree: &Tree, wanted: &str) -> bool {
    match to_text(alloc, tree) {
        Ok(text) => {
            text.as_slice() == wanted.as_bytes() && text_length(tree) as usize == wanted.len()
        }
        Err(_) => false,
    }
}

/// Whether the tree is read of this text, and then written again.
fn is_read(alloc: Global, tree: &Tree, text: &str) -> bool {
    match read_tree(alloc, text.as_bytes()) {
        Ok(found) => are_same(&found, tree) && is_text(alloc, &found, text),
        Err(_) => false,
    }
}

/// Whether the tree of a row has its text.
fn row_is_written(alloc: Global, row: &str) -> bool {
    let (answer_text, rest) = columns(row);
    let (words, wanted) = columns(rest);
    let Ok(root) = root(alloc, words) else {
        return false;
    };
    let answer = answer(answer_text);
    let tree = Tree { answer, root };
    is_text(alloc, &tree, wanted) && is_read(alloc, &tree, wanted)
}

#[test]
fn trees_are_written_and_read_to_the_byte(rt: HostRuntime) {
    for row in TEXTS.lines() {
        agrees(&rt, row_is_written(rt.alloc(), row), row);
    }
}

/// A tree of depth 3. The first number of each reach tells the branches apart.
const UNEVEN: &str = concat!(
    "3:1,0:crash 0 @1;2:2,0:crash 0 @1;misses;1:3,0:crash 0 @1;0:4,0:;reaches;",
    "1:5,0:crash 0 @1;misses",
);

/// The rows of that tree: the parent, the place among its kids, the depth, and what tells the node from the others.
const UNEVEN_ROWS: [(Option<usize>, usize, usize, u32); 8] = [
    (None, 0, 0, 1),
    (Some(0), 0, 1, 2),
    (Some(1), 0, 2, 100),
    (Some(1), 1, 2, 3),
    (Some(3), 0, 3, 4),
    (Some(0), 1, 1, 101),
    (Some(0), 2, 1, 5),
    (Some(6), 0, 2, 100),
];

/// A number that tells a node from the others: the first of a branch's reach.
fn mark(node: &Node) -> u32 {
    match node {
        Node::Misses => 100,
        Node::Reaches => 101,
        Node::Branch { reach, .. } => reach.at(0),
    }
}

/// Whether the rows of the tree are those of the uneven one.
fn is_uneven(alloc: Global, tree: &Tree) -> bool {
    let Ok(rows) = rows(alloc, tree) else {
        return false;
    };
    for (row, expected) in rows.iter().zip(UNEVEN_ROWS) {
        if (row.parent, row.kid, row.depth, mark(row.node)) != expected {
            return false;
        }
    }
    rows.len() == 8 && count(tree) == 8
}

#[test]
fn rows_are_the_root_and_then_each_kid_with_all_beneath_it(rt: HostRuntime) {
    let is_uneven = match root(rt.alloc(), UNEVEN) {
        Ok(root) => is_uneven(rt.alloc(), &Tree { answer: None, root }),
        Err(_) => false,
    };
    agrees(&rt, is_uneven, UNEVEN);
}

/// A branch over a million leaves.
fn million(alloc: Global, reach: Reach) -> Result<Node, AllocError> {
    let mut kids = Vec::new(alloc);
    for _ in 0..1_000_000 {
        kids.push(Node::Misses)?;
    }
    Ok(Node::Branch {
        reach,
        edges: Edges::from_vec(Vec::new(alloc)),
        kids: Kids::from_vec(kids),
    })
}

/// Whether the tree has the rows of a branch over a million leaves.
fn has_a_million(alloc: Global, tree: &Tree) -> bool {
    let Ok(rows) = rows(alloc, tree) else {
        return false;
    };
    match rows.last() {
        Some(last) => {
            rows.len() == 1_000_001
                && (last.parent, last.kid, last.depth) == (Some(0), 999_999, 1)
                && (count(tree), text_length(tree)) == (1_000_001, 16_000_069)
        }
        None => false,
    }
}

#[test]
fn a_million_leaves(rt: HostRuntime) {
    let Some(reach) = Reach::new(&[1, 1]) else {
        return agrees(&rt, false, "a reach");
    };
    let is_counted = match million(rt.alloc(), reach) {
        Ok(root) => has_a_million(rt.alloc(), &Tree { answer: None, root }),
        Err(_) => false,
    };
    agrees(&rt, is_counted, "a million leaves");
}
