//! Expressions, read: how many parts they have.

use lf_grammar::{Place, read_tokens, read_truth};
use lf_list::Listed;
use lf_rules::{Definition, Scope, Tree, Within};
use std::alloc::Global;

/// How many parts an expression has that the text is.
fn parts(tree: &Tree) -> u32 {
    match tree {
        Tree::Leaf(_) => 1,
        Tree::Unary(_, a) | Tree::At(_, a) => parts(a).saturating_add(1),
        Tree::Binary(_, a, b) | Tree::Over(_, a, b) => parts(a)
            .saturating_add(parts(b))
            .saturating_add(1),
    }
}

fn empty<T>(alloc: Global) -> Listed<T> {
    Listed::from_vec(Vec::new(alloc))
}

fn bare(alloc: Global) -> Definition {
    Definition {
        variables: empty(alloc),
        notes: empty(alloc),
        given: empty(alloc),
        lets: empty(alloc),
        facts: empty(alloc),
        chains: empty(alloc),
        trace: empty(alloc),
    }
}

fn count(alloc: Global, text: &str) -> u32 {
    let definition = bare(alloc);
    let place = Place {
        definition: &definition,
        names: &[],
        fields: &[],
        scope: Scope::Plain,
        within: Within::Nothing,
    };
    match read_tokens(alloc, text.as_bytes()) {
        Ok(tokens) => match read_truth(alloc, &place, tokens.as_slice()) {
            Ok((found, rest)) => if rest.is_empty() {
                parts(&found.tree)
            } else {
                1000
            },
            Err(_) => 0,
        },
        Err(_) => 2000,
    }
}

#[test]
fn expressions_are_read(rt: HostRuntime) {
    let alloc = rt.alloc();
    assert!(&rt; count(alloc, "1") == 1);
    assert!(&rt;
        count(
            alloc,
            "t + 1 - me < nodes mod 2 and not clamped or replaced"
        ) == 14
    );
    assert!(&rt; count(alloc, "{1, 2..3, 4..} - me = {}") == 15);
    assert!(&rt; count(alloc, "majority({0,1}) and me in {0} + 1") == 15);
    assert!(&rt; count(alloc, "(t)") == 1);
    assert!(&rt; count(alloc, "t t") == 1000);
    assert!(&rt; count(alloc, "t +") == 0);
    assert!(&rt; count(alloc, "t and me") == 0);
    assert!(&rt; count(alloc, "sender") == 0);
    assert!(&rt; count(alloc, "min(t, 3) >= highest({me})") == 7);
    assert!(&rt; count(alloc, "t mod 0") == 0);
}
