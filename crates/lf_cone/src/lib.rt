//! Light cones: what of a run an outcome can depend on, and which faults could change that.
#![tactic(auto)]

mod delays;
mod hearing;
mod marks;
mod points;
mod promises;
mod required;
mod room;

pub use delays::cone;
pub use hearing::{is_closed, sharp};
pub use promises::{
    agree, edges_are_few, light_cone, reaches_are_decided, reaches_are_one, reaches_exist,
};
pub use required::{MOST_EDGES, edges, put_edges};
