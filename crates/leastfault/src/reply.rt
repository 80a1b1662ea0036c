//! A reply, before it is written.

ghost use Rattle.std.specs.Prelude.{◌≡◌, None};

use crate::said::Said;
use lf_tree::Tree;

/// A reply, before it is written, and what its engine answers with it.
#[derive(Drop)]
pub struct Reply<X> {
    /// The whole reply: lines, each with its line feed.
    pub text: String,
    /// What the engine answers.
    pub value: X,
    /// What the lines were made of.
    pub said: Said,
}

/// What a search came to, once its reply is written.
#[derive(Debug, Drop)]
pub struct Searched {
    /// 0 where no allowed set of faults defeats the outcome, 1 where one does, 2 where the scenario is refused or a level of the
    /// search is too full.
    pub status: u8,
    /// The certificate of the answer, where there is one: the tree of the search.
    pub tree: Option<Tree>,
}

/// What a command came to.
#[derive(Debug, Drop)]
pub struct Certified {
    /// The status of the command's reply, 0..=2.
    pub status: u8,
    /// The text of the certificate, where one was asked for and there is an answer.
    pub certificate: Option<Vec<u8>>,
}

/// A reply that hands out no tree.
pub(crate) fn without_tree(text: String, status: u8, said: Said) -> Reply<Searched>
    ensures text { result.text ≡ text }
    ensures status { result.value.status ≡ status }
    ensures tree { result.value.tree ≡ None }
{
    Reply {
        text,
        value: Searched { status, tree: None },
        said,
    }
}

/// A reply with no certificate.
pub(crate) fn without_certificate(text: String, status: u8, said: Said) -> Reply<Certified>
    ensures text { result.text ≡ text }
    ensures status { result.value.status ≡ status }
    ensures certificate { result.value.certificate ≡ None }
{
    Reply {
        text,
        value: Certified {
            status,
            certificate: None,
        },
        said,
    }
}
