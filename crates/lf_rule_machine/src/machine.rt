//! Protocols of rules as machines.

ghost use Rattle.std.specs.Prelude.{◌≡◌, ◌↔◌, true, [], IsSome, IsTrue, IfSome, IfOk, slice_get};
ghost use Rattle.lf_rules.specs.Forms.{is_well_formed};
ghost use Rattle.std.specs.Arc.{arc_value};
ghost use Rattle.lf_rule_machine.specs.Constants.{given_table};
ghost use Rattle.lf_rule_machine.specs.Moments.{row_of, seen};
ghost use Rattle.lf_rule_machine.specs.Machines.{is_machine, moment, opened, begin_of, hear_of, end_of};

use crate::constants::{are_given, constants_at, given_table};
use crate::indexed::Indexed;
use crate::{Fact, Moment, Packet, State, index};
use lf_list::Listed;
use lf_rules::{Definition, Event, Given, Rules, Topic, Topics, same_topics};
use lf_sim::{Entry, Letter, Machine, Out, Stepped};
use std::alloc::{AllocError, Global};
use std::marker::Model;
use std::sync::Arc;

/// A protocol of rules among so many nodes, with the values that its constants have at each of them, and with topics: what its nodes' states enter is asked by
/// a topic's number.
#[derive(Debug, Drop)]
pub struct Ruled {
    indexed: Arc<Indexed>,
    topics: Arc<Topics>,
}

impl Model for Ruled {
    ghost use Rattle.std.specs.Arc.{arc_value};
    ghost use Rattle.lf_rule_machine.specs.Instances.{Instance, instance_code, instance_of};

    ghost Value = { Instance };

    ghost coded = { instance_code };

    ghost view = { λ m. instance_of (arc_value m.indexed) (arc_value m.topics) };
}

impl Ruled {
    /// The machine of a protocol among so many nodes, with a value for each of its constants. None where there aren't 2 to 8 nodes, where the values don't fit
    /// the constants, or where a list hasn't an item for each node. It has no topics. The error is that memory has run out.
    pub fn new(
        alloc: Global,
        rules: Arc<Rules>,
        nodes: u32,
        given: &[Given],
    ) -> Result<Option<Ruled>, AllocError>
        ensures some { IfOk result (λ made. IsSome made ↔ IsTrue (is_machine (arc_value rules) nodes given.now)) }
        ensures value { IfOk result
            (λ made. IfSome made (λ m. m ≡ record { definition = arc_value rules; nodes = nodes; given = given_table nodes given.now; topics = [] })) }
    {
        if nodes < 2 {
            return Ok(None);
        }
        if 8 < nodes {
            return Ok(None);
        }
        if !are_given(rules.definition(), nodes, given) {
            return Ok(None);
        }
        let given = given_table(nodes, given);
        let rows = index::rows(alloc, rules.definition(), nodes, &given)?;
        let indexed = Indexed {
            rules,
            nodes,
            given,
            rows,
        };
        let topics = shared(alloc, Listed::from_vec(Vec::new(alloc)))?;
        match Arc::new(alloc, indexed) {
            Ok(indexed) => Ok(Some(Ruled { indexed, topics })),
            Err(_) => Err(AllocError),
        }
    }

    /// The same machine with these topics in place of its own. The error is that memory has run out.
    pub fn with_topics(&self, alloc: Global, topics: Topics) -> Result<Ruled, AllocError>
        ensures { IfOk result (λ made. made ≡ record self.now { topics = topics }) }
    {
        let topics = shared(alloc, topics)?;
        let indexed = self.indexed.clone()?;
        Ok(Ruled { indexed, topics })
    }

    /// Its topics, by number.
    pub fn topics(&self) -> &[Topic]
        ensures { result.now ≡ self.now.topics }
    {
        self.topics.as_slice()
    }

    /// Whether two machines are the same: of protocols that say the same, among as many nodes, with the same values and topics.
    pub fn same(&self, other: &Ruled) -> bool
        ensures { IsTrue result ↔ (self.now ≡ other.now) }
    {
        let one: &Indexed = &self.indexed;
        let another: &Indexed = &other.indexed;
        one.nodes == another.nodes
            && are_same_values(&one.given, &another.given)
            && one.rules.definition().same(another.rules.definition())
            && same_topics(&self.topics, &other.topics)
    }

    /// The protocol's definition.
    pub fn definition(&self) -> &Definition
        ensures value { result.now ≡ self.now.definition }
        ensures well_formed { is_well_formed result.now ≡ true }
    {
        self.indexed.rules.definition()
    }

    /// The values of the constants at a node, by number: 0 where there is no such constant, or no such node.
    pub fn constants_at(&self, node: u32) -> [u8; 16]
        ensures { result ≡ row_of (slice_get self.now.given node) }
    {
        constants_at(&self.indexed.given, node)
    }

    /// A moment of a node's step `t` at which a letter by a sender is heard, whose note has these fields. All of these are 0 where none is heard.
    pub fn moment(&self, node: u32, t: u32, sender: u32, fields: [u8; 7]) -> Moment<'_>
        ensures { seen result ≡ moment self.now.nodes self.now.given node t sender fields }
    {
        self.indexed.moment(node, t, sender, fields)
    }

    /// What a node does at step `t` before its inbox: the state and the notes that it comes to.
    pub fn begin(&self, node: u32, t: u32, state: State) -> Stepped<State, Packet>
        ensures { result ≡ begin_of self.now.definition self.now.nodes self.now.given node t state }
    {
        let mut turn = opened(state);
        self.indexed.act_alone(node, t, Event::Begin, &mut turn);
        turn
    }

    /// Takes in a letter, note by note: what it comes to with it.
    pub fn hear(
        &self,
        node: u32,
        t: u32,
        turn: &mut Stepped<State, Packet>,
        letter: &Letter<Packet>,
    )
        ensures { turn.new ≡ hear_of self.now.definition self.now.nodes self.now.given node t turn.old letter.now }
    {
        self.indexed.take_in(node, t, turn, letter);
    }

    /// What it comes to after its inbox: what the step gives.
    pub fn end(&self, node: u32, t: u32, turn: &mut Stepped<State, Packet>)
        ensures { turn.new ≡ end_of self.now.definition self.now.nodes self.now.given node t turn.old }
    {
        self.indexed.act_alone(node, t, Event::End, turn);
    }
}

impl Machine for Ruled {
    ghost use Rattle.lf_rule_machine.specs.Ruleds.{rules_of};
    ghost use Rattle.lf_rule_machine.specs.RuledLemmas.{rules_of-silent};

    type State = State;

    type Note = Packet;

    type Fact = Fact;

    ghost rules = { rules_of };

    fn nodes(&self) -> u32 {
        self.indexed.nodes
    }

    fn start(&self, node: u32) -> State {
        let mut turn = opened(State::zeros());
        self.indexed.act_alone(node, 0, Event::Start, &mut turn);
        turn.state
    }

    fn step(
        &self,
        node: u32,
        t: u32,
        state: State,
        inbox: &[Letter<Packet>],
    ) -> Stepped<State, Packet> {
        let mut turn = opened(state);
        self.indexed.act_alone(node, t, Event::Begin, &mut turn);
        self.indexed.take_in_all(node, t, &mut turn, inbox);
        self.indexed.act_alone(node, t, Event::End, &mut turn);
        turn
    }

    fn wake(&self, node: u32, t: u32, state: State) -> State {
        let mut turn = opened(state);
        self.indexed.act_alone(node, t, Event::Wake, &mut turn);
        turn.state
    }

    fn shows(&self, node: u32, state: State, fact: Fact) -> bool {
        self.indexed.shows(node, &state, fact)
    }

    fn entry(&self, node: u32, state: &State, topic: u8) -> Option<Entry> {
        match self.topics().get(usize::from(topic)) {
            Some(topic) => self.indexed.entry(node, state, topic),
            None => None,
        }
    }

    ghost silent = { λ m n t to state inbox node first last nobody. rules_of-silent m n t to state inbox nobody };
}

/// Whether constants have the same values at each node.
fn are_same_values(one: &[[u8; 16]; 8], other: &[[u8; 16]; 8]) -> bool
    ensures { IsTrue result ↔ (one.now ≡ other.now) }
{
    one == other
}

/// Topics that machines share. The error is that memory has run out.
fn shared(alloc: Global, topics: Topics) -> Result<Arc<Topics>, AllocError>
    ensures { IfOk result (λ made. arc_value made ≡ topics) }
{
    match Arc::new(alloc, topics) {
        Ok(topics) => Ok(topics),
        Err(_) => Err(AllocError),
    }
}

/// A state, and no note yet.
fn opened(state: State) -> Stepped<State, Packet>
    ensures { result ≡ opened state }
{
    Stepped {
        state,
        out: Out::none(),
    }
}
