//! The protocols as machines.

ghost use Rattle.std.specs.Prelude.{◌≡◌, ◌<◌};
ghost use Rattle.lf_protocols.specs.Protocols.{ignores_letters, is_over, nodes_of, shows_of};

use crate::{
    Fact, Holding, Kind, Note, Phase, Protocol, Relay, State, commit, primary_backup, redundant,
    retry, ruled, three_phase, two_phase,
};
use lf_sim::{Entry, Letter, Machine, Out, Stepped, Turns};

impl Machine for Protocol {
    ghost use Rattle.lf_protocols.specs.Protocols.{rules_of};
    ghost use Rattle.lf_protocols.specs.ProtocolsLemmas.{rules_of-silent};

    type State = State;

    type Note = Note;

    type Fact = Fact;

    ghost rules = { rules_of };

    fn nodes(&self) -> u32 {
        match self.kind() {
            Kind::Retry { nodes, .. } | Kind::Redundant { nodes, .. } => *nodes,
            Kind::TwoPhase { nodes, .. } | Kind::ThreePhase { nodes, .. } => *nodes,
            Kind::PrimaryBackup { nodes, .. } => *nodes,
            Kind::Ruled(ruled) => ruled.nodes(),
        }
    }

    fn start(&self, node: u32) -> State {
        match self.kind() {
            Kind::Retry { .. } => State::Retry(retry::start(node)),
            Kind::Redundant { .. } => State::Redundant(redundant::start(node)),
            Kind::TwoPhase { .. } => State::TwoPhase(commit::start()),
            Kind::ThreePhase { .. } => State::ThreePhase(commit::start()),
            Kind::PrimaryBackup { .. } => State::PrimaryBackup(primary_backup::start(node)),
            Kind::Ruled(ruled) => State::Ruled(ruled.start(node)),
        }
    }

    fn step(
        &self,
        node: u32,
        t: u32,
        state: State,
        inbox: &[Letter<Note>],
    ) -> Stepped<State, Note> {
        match (self.kind(), state) {
            (Kind::Retry { nodes, tries }, State::Retry(holding)) => {
                wrapped(
                    State::Retry,
                    retry::step(*nodes, *tries, node, t, holding, inbox),
                )
            }
            (Kind::Redundant { nodes, tries }, State::Redundant(relay)) => {
                wrapped(
                    State::Redundant,
                    redundant::step(*nodes, *tries, node, relay, inbox),
                )
            }
            (
                Kind::TwoPhase {
                    nodes,
                    patience,
                    votes,
                },
                State::TwoPhase(progress),
            ) => wrapped(
                State::TwoPhase,
                two_phase::step(*nodes, *patience, *votes, node, t, progress, inbox),
            ),
            (
                Kind::ThreePhase {
                    nodes,
                    patience,
                    votes,
                },
                State::ThreePhase(progress),
            ) => wrapped(
                State::ThreePhase,
                three_phase::step(*nodes, *patience, *votes, node, t, progress, inbox),
            ),
            (Kind::PrimaryBackup { nodes, patience }, State::PrimaryBackup(replica)) => {
                wrapped(
                    State::PrimaryBackup,
                    primary_backup::step(*nodes, *patience, node, t, replica, inbox),
                )
            }
            (Kind::Ruled(rules), State::Ruled(own)) => ruled::step(rules, node, t, own, inbox),
            (_, other) => Stepped {
                state: other,
                out: Out::none(),
            },
        }
    }

    fn put_step(
        &self,
        node: u32,
        t: u32,
        state: State,
        inbox: &[Letter<Note>],
        turns: &mut Turns<State, Note>,
    ) {
        match (self.kind(), state) {
            (Kind::Retry { nodes, tries }, State::Retry(holding)) => {
                retry::put_step(*nodes, *tries, node, t, holding, inbox, turns);
            }
            (Kind::Redundant { nodes, tries }, State::Redundant(relay)) => {
                redundant::put_step(*nodes, *tries, node, relay, inbox, turns);
            }
            (
                Kind::TwoPhase {
                    nodes,
                    patience,
                    votes,
                },
                State::TwoPhase(progress),
            ) => {
                two_phase::put_step(*nodes, *patience, *votes, node, t, progress, inbox, turns);
            }
            (
                Kind::ThreePhase {
                    nodes,
                    patience,
                    votes,
                },
                State::ThreePhase(progress),
            ) => {
                three_phase::put_step(*nodes, *patience, *votes, node, t, progress, inbox, turns);
            }
            (Kind::PrimaryBackup { nodes, patience }, State::PrimaryBackup(replica)) => {
                primary_backup::put_step(*nodes, *patience, node, t, replica, inbox, turns);
            }
            (Kind::Ruled(rules), State::Ruled(own)) => {
                ruled::put_step(rules, node, t, own, inbox, turns);
            }
            (_, other) => turns.push_silent(other),
        }
    }

    fn wake(&self, node: u32, t: u32, state: State) -> State {
        match state {
            State::Ruled(own) => match self.kind() {
                Kind::Ruled(ruled) => State::Ruled(ruled.wake(node, t, own)),
                _ => state,
            },
            State::Retry(_) | State::Redundant(_) => state,
            State::TwoPhase(progress) => State::TwoPhase(commit::wake(t, progress)),
            State::ThreePhase(progress) => State::ThreePhase(commit::wake(t, progress)),
            State::PrimaryBackup(replica) => State::PrimaryBackup(primary_backup::wake(t, replica)),
        }
    }

    fn same_state(&self, one: &State, other: &State) -> bool {
        one == other
    }

    fn same_note(&self, one: &Note, other: &Note) -> bool {
        one == other
    }

    fn ignores_letters(&self, _node: u32, t: u32, state: &State) -> bool {
        ignores_letters(self.kind(), t, state)
    }

    fn shows(&self, node: u32, state: State, fact: Fact) -> bool {
        match state {
            State::Ruled(own) => self.shows_by_rules(node, own, fact),
            State::Retry(holding) => retry::shows(holding, fact),
            State::Redundant(relay) => redundant::shows(relay, fact),
            State::TwoPhase(progress) | State::ThreePhase(progress) => commit::shows(
                progress, fact,
            ),
            State::PrimaryBackup(replica) => primary_backup::shows(replica, fact),
        }
    }

    fn entry(&self, node: u32, state: &State, topic: u8) -> Option<Entry> {
        match (self.kind(), state) {
            (Kind::Ruled(ruled), State::Ruled(own)) => ruled.entry(node, own, topic),
            _ => None,
        }
    }

    ghost silent = { λ kind n t to state inbox node first last nobody. rules_of-silent kind n t to state inbox node nobody };
}

/// Whether a node that goes on from a state at step `t` is known to ignore its letters.
fn ignores_letters(kind: &Kind, t: u32, state: &State) -> bool
    ensures { result ≡ ignores_letters kind.now t state.now }
{
    match (kind, state) {
        (Kind::Retry { .. }, State::Retry(Holding::Has)) => true,
        (Kind::Redundant { .. }, State::Redundant(Relay::Has { .. })) => true,
        (Kind::TwoPhase { .. }, State::TwoPhase(progress)) => is_over(t, progress.phase),
        (Kind::ThreePhase { .. }, State::ThreePhase(progress)) => is_over(t, progress.phase),
        _ => false,
    }
}

/// Whether a commit is decided for a node in a phase. At step 1 node 0 asks for votes whatever it was in.
fn is_over(t: u32, phase: Phase) -> bool
    ensures { result ≡ is_over t phase }
{
    match phase {
        Phase::Committed | Phase::Aborted => t != 1,
        _ => false,
    }
}

impl Protocol {
    /// Whether a state of rules shows a fact. It knows only facts of rules, and of others says what a state says that knows nothing of them.
    fn shows_by_rules(&self, node: u32, state: lf_rule_machine::State, fact: Fact) -> bool
        requires { node < nodes_of self.now }
        ensures { result ≡ shows_of self.now node (State.Ruled state) fact }
    {
        match (self.kind(), fact) {
            (Kind::Ruled(ruled), Fact::Ruled(fact)) => ruled.shows(node, state, fact),
            (_, other) => other.is_denial(),
        }
    }
}

/// A turn of one protocol, as one of any: `wrap` makes that protocol's state one of any.
fn wrapped<Own, F: FnOnce(Own) -> State>(wrap: F, turn: Stepped<Own, Note>) -> Stepped<State, Note>
    requires { F.IsAlwaysCallable wrap }
    ensures state { F.post wrap turn.state result.state }
    ensures out { result.out ≡ turn.out }
{
    Stepped {
        state: wrap(turn.state),
        out: turn.out,
    }
}
