//! What may be changed in a protocol of rules: one thing of one rule, so that it can be asked what an answer changes to where it is another.
#![tactic(auto)]

mod all;
mod change;
mod change_laws;
mod mutation;
mod places;

pub use all::mutations;
pub use change::mutated;
pub use change_laws::{
    mutations_are_all, mutations_are_well_formed, one_rule_changes, rules_are_numbered,
};
pub use mutation::Mutation;
