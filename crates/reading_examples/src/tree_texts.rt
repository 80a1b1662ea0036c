//! What is wrong with the text of a certificate.

use crate::rows::agrees;
use lf_tree::{TreeFault, read_tree};

#[test]
fn what_is_wrong_has_its_name_and_its_number(rt: HostRuntime) {
    let found = read_tree(rt.alloc(), b"3").err();
    let are_numbered = TreeFault::TooLong.number() == 1
        && TreeFault::NoJson.number() == 2
        && TreeFault::Form.number() == 3
        && TreeFault::OutOfRange.number() == 4
        && TreeFault::TooDeep.number() == 5
        && TreeFault::Memory.number() == 6;
    agrees(
        &rt,
        are_numbered && found == Some(TreeFault::Form),
        "what is wrong",
    );
}
