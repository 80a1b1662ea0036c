//! A run as one JSON document, for programs that read it (`docs/schema/trace.schema.json` has its form), and as a picture.
//!
//! The picture is an SVG document in which each node has a column and time goes downward. States stand where they change, and notes are arrows from the step at
//! which they are sent to the one at which they arrive: one that the faults omit is broken off with a cross, and one that nobody takes ends in a bar. Times at
//! which a node is down are grey. A ring marks each point at which the outcome looks, a red one each by which it is first seen to fail, and what the outcome
//! rests on is shaded. Of one value for each key, the rings stand where something is entered, and the red ones where a key has several values by then.
//!
//! The picture has no script and no font of its own. Its colours are attributes, so whatever draws SVG documents shows it; browsers take others on
//! dark ground.
#![tactic(auto)]

mod arrows;
mod columns;
mod document;
mod drawing;
mod entries;
mod escape;
mod failed;
mod labels;
mod layout;
mod marks;
mod style;
mod title;

pub use document::json_trace;
pub use drawing::picture;
