//! The language of protocols that a designer writes as rules: its types, and when a definition in it is well formed.
//!
//! A node keeps a value for each of some variables, and of a table for each of its cells. At each event of a step, its chains of rules are gone through in
//! order: of a chain the first rule whose guard is true sets variables and cells, and then sends notes.
#![tactic(auto)]

mod definition;
mod expr;
mod forms;
mod kind;
mod name;
mod rule;
mod rule_forms;
mod rules;
mod same;
mod sort;
mod sorting;
mod table;
mod table_laws;
mod topic;

pub use definition::{Constant, Definition, Given, Guard, Named, NoteForm, Value, Variable};
pub use expr::{Binary, Expr, Leaf, Over, Row, Tree, Unary};
pub use kind::Kind;
pub use name::Name;
pub use rule::{Assignment, Chain, Event, Rule, Send, Target};
pub use rule_forms::{have_it, within_of};
pub use rules::Rules;
pub use sort::{Scope, Sort, Within, at_sort, binary_sort, over_sort, unary_sort};
pub use table::{Cells, Table};
pub use table_laws::cells_are_apart;
pub use topic::{Topic, Topics, same_topics};
