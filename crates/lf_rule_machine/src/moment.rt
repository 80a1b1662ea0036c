//! When an expression is worked out.

ghost use Rattle.std.specs.Prelude.{◌≡◌};
ghost use Rattle.lf_rule_machine.specs.Moments.{seen, with_it, given_here};

use crate::constants::constants_at;

/// A moment of a node's step: what an expression's value depends on beside the definition and the node's state.
#[derive(Clone, Copy, Debug)]
pub struct Moment<'a> {
    /// How many nodes there are.
    pub nodes: u32,
    /// The node whose step it is.
    pub me: u32,
    /// The values of the constants, by node and number; 0 from the last constant on.
    pub given: &'a [[u8; 16]; 8],
    /// The number of the step; 0 at the start.
    pub step: u32,
    /// The node that sent the letter that is heard; 0 where none is.
    pub sender: u32,
    /// The fields of the note that is heard; 0 where none is.
    pub fields: [u8; 7],
    /// The node for which a body is worked out, or the receiver of a note, or the node whose cell is set; 0 where there is none.
    pub it: u32,
}

impl<'a> Moment<'a> {
    /// The same moment with another node for `it`.
    pub fn with_it(&self, node: u32) -> Moment<'a>
        ensures { seen result ≡ with_it (seen self.now) node }
    {
        Moment {
            nodes: self.nodes,
            me: self.me,
            given: self.given,
            step: self.step,
            sender: self.sender,
            fields: self.fields,
            it: node,
        }
    }

    /// The values of the constants at the node whose step it is.
    pub fn given_here(&self) -> [u8; 16]
        ensures { result ≡ given_here (seen self.now) }
    {
        constants_at(self.given, self.me)
    }
}
