//! A step of a node in its parts: before its inbox, with each letter, and after its inbox.

ghost use Rattle.std.specs.Prelude.{◌≡◌, ℕ, ◌<◌, List, map};
ghost use Rattle.lf_sim.specs.declared.letter.Letter.{Letter};
ghost use Rattle.lf_protocols.specs.declared.note.Note.{Note};
ghost use Rattle.lf_protocols.specs.declared.protocol.Kind.{Kind};
ghost use Rattle.lf_protocols.specs.declared.state.State.{State};
ghost use Rattle.lf_protocols.specs.Folds.{begin_of, hear_of, end_of, folded_step};
ghost use Rattle.lf_rule_machine.specs.declared.state.State.{State as Values};
ghost use Rattle.lf_rule_machine.specs.declared.state.Packet.{Packet as Message};
ghost use Rattle.lf_rule_machine.specs.declared.fact.Fact.{Fact as Told};
ghost use Rattle.lf_rule_machine.specs.Instances.{Instance};
ghost use Rattle.lf_rule_machine.specs.Ruleds.{rules_of};
ghost use Rattle.lf_protocols.specs.declared.fact.Fact.{Fact};
ghost use Rattle.lf_protocols.specs.RuledTurns.{any_letter, any_turn};
ghost use Rattle.lf_protocols.specs.Protocols.{nodes_of, start_of, step_of, wake_of, shows_of};

use crate::{
    Kind, Note, Protocol, State, commit, primary_backup, redundant, retry, ruled, three_phase,
    turns, two_phase,
};
use lf_sim::{Letter, Stepped};

impl Protocol {
    /// What a node, 0..=7, does at step `t` before its inbox: the state and the notes that it comes to.
    pub fn begin(&self, node: u32, t: u32, state: State) -> Stepped<State, Note>
        ensures { result ≡ begin_of self.now node t state }
    {
        match (self.kind(), state) {
            (Kind::TwoPhase { nodes, .. }, State::TwoPhase(own)) => {
                let turn = commit::begin(*nodes, node, t, own);
                Stepped {
                    state: State::TwoPhase(turn.state),
                    out: turn.out,
                }
            }
            (Kind::ThreePhase { nodes, .. }, State::ThreePhase(own)) => {
                let turn = commit::begin(*nodes, node, t, own);
                Stepped {
                    state: State::ThreePhase(turn.state),
                    out: turn.out,
                }
            }
            (Kind::PrimaryBackup { .. }, State::PrimaryBackup(own)) => {
                let turn = primary_backup::begin(node, t, own);
                Stepped {
                    state: State::PrimaryBackup(turn.state),
                    out: turn.out,
                }
            }
            (Kind::Ruled(rules), State::Ruled(own)) => ruled::begin(rules, node, t, own),
            (_, other) => turns::begin(other),
        }
    }

    /// What it comes to with a letter.
    pub fn hear(
        &self,
        node: u32,
        t: u32,
        turn: Stepped<State, Note>,
        letter: Letter<Note>,
    ) -> Stepped<State, Note>
        requires { node < 8 }
        ensures { result ≡ hear_of self.now node t turn letter }
    {
        let Stepped { state, out } = turn;
        match (self.kind(), state) {
            (Kind::Retry { .. }, State::Retry(own)) => Stepped {
                state: State::Retry(retry::hear(own, letter.note)),
                out,
            },
            (Kind::Redundant { .. }, State::Redundant(own)) => Stepped {
                state: State::Redundant(redundant::hear(own, letter.note)),
                out,
            },
            (Kind::TwoPhase { votes, .. }, State::TwoPhase(own)) => {
                let heard = two_phase::hear(*votes, node, t, Stepped { state: own, out }, letter);
                Stepped {
                    state: State::TwoPhase(heard.state),
                    out: heard.out,
                }
            }
            (Kind::ThreePhase { votes, .. }, State::ThreePhase(own)) => {
                let own = Stepped { state: own, out };
                let heard = three_phase::hear_one(*votes, node, t, own, letter);
                Stepped {
                    state: State::ThreePhase(heard.state),
                    out: heard.out,
                }
            }
            (Kind::PrimaryBackup { .. }, State::PrimaryBackup(own)) => {
                let heard = primary_backup::hear(node, t, Stepped { state: own, out }, letter);
                Stepped {
                    state: State::PrimaryBackup(heard.state),
                    out: heard.out,
                }
            }
            (Kind::Ruled(rules), State::Ruled(own)) => {
                ruled::hear(rules, node, t, own, out, letter)
            }
            (_, other) => Stepped { state: other, out },
        }
    }

    /// What it comes to after its inbox: what the step gives.
    pub fn end(&self, node: u32, t: u32, turn: Stepped<State, Note>) -> Stepped<State, Note>
        ensures { result ≡ end_of self.now node t turn }
    {
        let Stepped { state, out } = turn;
        match (self.kind(), state) {
            (Kind::Retry { nodes, tries }, State::Retry(own)) => Stepped {
                state: State::Retry(own),
                out: retry::send(*nodes, *tries, node, t),
            },
            (Kind::Redundant { nodes, tries }, State::Redundant(own)) => {
                let sent = redundant::send(*nodes, *tries, node, own);
                Stepped {
                    state: State::Redundant(sent.state),
                    out: sent.out,
                }
            }
            (
                Kind::TwoPhase {
                    nodes,
                    patience,
                    ..
                },
                State::TwoPhase(own),
            ) => {
                let own = Stepped { state: own, out };
                let done = two_phase::finish(*nodes, *patience, node, t, own);
                Stepped {
                    state: State::TwoPhase(done.state),
                    out: done.out,
                }
            }
            (
                Kind::ThreePhase {
                    nodes,
                    patience,
                    ..
                },
                State::ThreePhase(own),
            ) => {
                let own = Stepped { state: own, out };
                let done = three_phase::finish(*nodes, *patience, node, t, own);
                Stepped {
                    state: State::ThreePhase(done.state),
                    out: done.out,
                }
            }
            (Kind::PrimaryBackup { nodes, patience }, State::PrimaryBackup(own)) => {
                let own = Stepped { state: own, out };
                let done = primary_backup::finish(*nodes, *patience, node, t, own);
                Stepped {
                    state: State::PrimaryBackup(done.state),
                    out: done.out,
                }
            }
            (Kind::Ruled(rules), State::Ruled(own)) => ruled::end(rules, node, t, own, out),
            (_, other) => Stepped { state: other, out },
        }
    }
}

/// A protocol of rules among the others does what its machine does alone.
pub fn rules_do_as_their_machine()
    ensures nodes { (m : Instance) → nodes_of (Kind.Ruled m) ≡ (rules_of m).nodes }
    ensures start { (m : Instance) (node : ℕ) → start_of (Kind.Ruled m) node ≡ State.Ruled ((rules_of m).start node) }
    ensures step { (m : Instance) (node t : ℕ) (own : Values) (inbox : List (Letter Message)) →
        step_of (Kind.Ruled m) node t (State.Ruled own) (map any_letter inbox) ≡ any_turn ((rules_of m).step node t own inbox) }
    ensures wake { (m : Instance) (node t : ℕ) (own : Values) →
        wake_of (Kind.Ruled m) node t (State.Ruled own) ≡ State.Ruled ((rules_of m).wake node t own) }
    ensures shows { (m : Instance) (node : ℕ) (own : Values) (fact : Told) →
        shows_of (Kind.Ruled m) node (State.Ruled own) (Fact.Ruled fact) ≡ (rules_of m).shows node own fact }
{}

/// A step is what a node does before its inbox, with each letter in inbox order, and after its inbox.
pub fn steps_are_folds()
    ensures { (k : Kind) (node t : ℕ) (own : State) (inbox : List (Letter Note)) →
        step_of k node t own inbox ≡ folded_step k node t own inbox }
{}
