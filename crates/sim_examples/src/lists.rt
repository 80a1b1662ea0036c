//! Lists that a type holds of itself.

ghost use Rattle.std.specs.Prelude.{◌≡◌, ◌↔◌, IsTrue};

use crate::rows::agrees;
use lf_list::Listed;
use std::alloc::{AllocError, Global};

/// A type that holds lists of itself.
#[derive(Drop)]
#[cycle(tree)]
enum Tree {
    Leaf(u32),
    Branch(Listed<Tree>),
}

/// Whether two trees are equal.
#[cycle(same)]
fn same(one: &Tree, other: &Tree) -> bool
    ensures { IsTrue result ↔ (one.now ≡ other.now) }
{
    match one {
        Tree::Leaf(number) => match other {
            Tree::Leaf(other_number) => number == other_number,
            Tree::Branch(_) => false,
        },
        Tree::Branch(kids) => match other {
            Tree::Leaf(_) => false,
            Tree::Branch(other_kids) => all_same(kids.as_slice(), other_kids.as_slice()),
        },
    }
}

/// Whether two lists of trees are equal.
#[cycle(same)]
fn all_same(ones: &[Tree], others: &[Tree]) -> bool
    ensures { IsTrue result ↔ (ones.now ≡ others.now) }
{
    if ones.len() != others.len() {
        return false;
    }
    'kids: for (i, kid) in ones.iter().enumerate() {
        if !same(kid, &others[i]) {
            return false;
        }
    }
    true
}

fn branch(alloc: Global, last: u32) -> Result<Tree, AllocError> {
    let mut kids = Vec::new(alloc);
    kids.push(Tree::Leaf(1))?;
    kids.push(Tree::Branch(Listed::from_vec(Vec::new(alloc))))?;
    kids.push(Tree::Leaf(last))?;
    Ok(Tree::Branch(Listed::from_vec(kids)))
}

/// Whether the trees with these last leaves are equal. None where there is no memory.
fn are_same(alloc: Global, one: u32, other: u32) -> Option<bool> {
    match (branch(alloc, one), branch(alloc, other)) {
        (Ok(one), Ok(other)) => Some(same(&one, &other)),
        _ => None,
    }
}

#[test]
fn a_tree_of_lists_is_compared_by_recursion(rt: HostRuntime) {
    let one_is_two = are_same(rt.alloc(), 2, 2);
    let one_is_three = are_same(rt.alloc(), 2, 3);
    let compared = one_is_two == Some(true) && one_is_three == Some(false);
    agrees(&rt, compared, "trees of lists");
}

/// Whether a list of the items, which are 3, 1 and 2, has them and gives them back.
fn is_given_back(items: Vec<u32>) -> bool {
    let list = Listed::from_vec(items);
    let has_them = list.len() == 3 && !list.is_empty() && list.as_slice()[0] == 3;
    let items = list.into_vec();
    has_them && items.len() == 3 && items[2] == 2
}

#[test]
fn a_list_gives_back_its_items(rt: HostRuntime) {
    let given_back = match vec![in rt.alloc(); 3u32, 1, 2] {
        Ok(items) => is_given_back(items),
        Err(_) => false,
    };
    agrees(&rt, given_back, "3, 1 and 2");
}
