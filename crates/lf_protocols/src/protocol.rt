//! Which protocol it is, with its settings.

ghost use Rattle.std.specs.Prelude.{◌≡◌, ◌↔◌, IsTrue, IsSome, IfSome};
ghost use Rattle.lf_protocols.specs.Limits.{IsDelivery, IsCommit, IsBackup, IsWithinLimits};

use lf_rule_machine::Ruled;
use lf_sim::Machine;
use std::marker::Model;

/// A protocol and its settings: `nodes`, how many nodes there are, 2..=8, and those of its own.
#[derive(Debug, Drop)]
pub enum Kind {
    /// Node 0 sends the data to all at the steps 1..=`tries`. `tries` is in 1..=48.
    Retry {
        nodes: u32,
        tries: u32,
    },
    /// Each node that has the data sends it to all, at its first `tries` steps with it. `tries` is in 1..=48.
    Redundant {
        nodes: u32,
        tries: u32,
    },
    /// Node 0 asks the others to vote, and commits where all say yes in time. `patience` is how many steps it waits, in
    /// 1..=48. At its place in `votes` stands each other node's vote, and true at every place of no such node.
    TwoPhase {
        nodes: u32,
        patience: u32,
        votes: [bool; 8],
    },
    /// As `TwoPhase`, but node 0 tells that all have said yes before it commits, and the others too wait for no more
    /// than `patience` steps.
    ThreePhase {
        nodes: u32,
        patience: u32,
        votes: [bool; 8],
    },
    /// Node 0 has what node 2 writes copied at node 1, and node 1 takes its place where it hears nothing for `patience`
    /// steps, in 1..=48. `nodes` is in 3..=8.
    PrimaryBackup {
        nodes: u32,
        patience: u32,
    },
    /// A protocol that a designer has written as rules.
    Ruled(Ruled),
}

/// A protocol whose settings are within their limits.
#[derive(Debug, Drop)]
pub struct Protocol {
    kind: Kind,
}

impl Model for Protocol {
    ghost use Rattle.lf_protocols.specs.declared.protocol.Kind.{Kind};
    ghost use Rattle.lf_protocols.specs.contracts.protocol.Kind.{the_row};

    ghost Value = { Kind };

    ghost coded = { the_row.coded };

    ghost use Rattle.lf_protocols.specs.Limits.{IsWithinLimits};

    ghost view = { λ p. p.kind };

    ghost invariant = { λ p. IsWithinLimits p.kind };
}

impl Protocol {
    /// Retry among 2..=8 nodes, with 1..=48 tries. None outside these limits.
    pub fn retry(nodes: u32, tries: u32) -> Option<Protocol>
        ensures some { IsSome result ↔ IsWithinLimits (Kind.Retry nodes tries) }
        ensures value { IfSome result (λ p. p ≡ Kind.Retry nodes tries) }
    {
        Protocol::of(Kind::Retry { nodes, tries })
    }

    /// Redundant among 2..=8 nodes, with 1..=48 tries. None outside these limits.
    pub fn redundant(nodes: u32, tries: u32) -> Option<Protocol>
        ensures some { IsSome result ↔ IsWithinLimits (Kind.Redundant nodes tries) }
        ensures value { IfSome result (λ p. p ≡ Kind.Redundant nodes tries) }
    {
        Protocol::of(Kind::Redundant { nodes, tries })
    }

    /// Two-phase commit among 2..=8 nodes, with a patience of 1..=48 steps. At place n of `votes` stands node n's vote,
    /// and true at 0 and from `nodes` on. None outside these limits.
    pub fn two_phase(nodes: u32, patience: u32, votes: [bool; 8]) -> Option<Protocol>
        ensures some { IsSome result ↔ IsWithinLimits (Kind.TwoPhase nodes patience votes) }
        ensures value { IfSome result (λ p. p ≡ Kind.TwoPhase nodes patience votes) }
    {
        Protocol::of(Kind::TwoPhase {
            nodes,
            patience,
            votes,
        })
    }

    /// Three-phase commit among 2..=8 nodes, with a patience of 1..=48 steps. At place n of `votes` stands node n's
    /// vote, and true at 0 and from `nodes` on. None outside these limits.
    pub fn three_phase(nodes: u32, patience: u32, votes: [bool; 8]) -> Option<Protocol>
        ensures some { IsSome result ↔ IsWithinLimits (Kind.ThreePhase nodes patience votes) }
        ensures value { IfSome result (λ p. p ≡ Kind.ThreePhase nodes patience votes) }
    {
        Protocol::of(Kind::ThreePhase {
            nodes,
            patience,
            votes,
        })
    }

    /// Primary and backup among 3..=8 nodes, with a patience of 1..=48 steps. None outside these limits.
    pub fn primary_backup(nodes: u32, patience: u32) -> Option<Protocol>
        ensures some { IsSome result ↔ IsWithinLimits (Kind.PrimaryBackup nodes patience) }
        ensures value { IfSome result (λ p. p ≡ Kind.PrimaryBackup nodes patience) }
    {
        Protocol::of(Kind::PrimaryBackup { nodes, patience })
    }

    /// A protocol of rules.
    pub fn ruled(ruled: Ruled) -> Protocol
        ensures { result ≡ Kind.Ruled ruled }
    {
        let _nodes = ruled.nodes();
        Protocol {
            kind: Kind::Ruled(ruled),
        }
    }

    /// The protocol of a kind. None where its settings are outside their limits.
    fn of(kind: Kind) -> Option<Protocol>
        ensures some { IsSome result ↔ IsWithinLimits kind }
        ensures value { IfSome result (λ p. p ≡ kind) }
    {
        if is_within_limits(&kind) {
            Some(Protocol { kind })
        } else {
            None
        }
    }

    /// Which protocol it is, and its settings.
    pub fn kind(&self) -> &Kind
        ensures value { result.now ≡ self.now }
        ensures within { IsWithinLimits self.now }
    {
        &self.kind
    }

    /// Whether two protocols are the same, with the same settings.
    pub fn same(&self, other: &Protocol) -> bool
        ensures { IsTrue result ↔ (self.now ≡ other.now) }
    {
        same_kind(&self.kind, &other.kind)
    }
}

/// Whether two protocols and their settings are the same.
fn same_kind(one: &Kind, other: &Kind) -> bool
    ensures { IsTrue result ↔ (one.now ≡ other.now) }
{
    match (one, other) {
        (Kind::Retry { nodes, tries }, Kind::Retry { nodes: n, tries: t }) => nodes == n
            && tries == t,
        (Kind::Redundant { nodes, tries }, Kind::Redundant { nodes: n, tries: t }) => nodes == n
            && tries == t,
        (
            Kind::TwoPhase {
                nodes,
                patience,
                votes,
            },
            Kind::TwoPhase {
                nodes: n,
                patience: p,
                votes: v,
            },
        ) => { nodes == n && patience == p && same_votes(votes, v) }
        (
            Kind::ThreePhase {
                nodes,
                patience,
                votes,
            },
            Kind::ThreePhase {
                nodes: n,
                patience: p,
                votes: v,
            },
        ) => { nodes == n && patience == p && same_votes(votes, v) }
        (
            Kind::PrimaryBackup { nodes, patience },
            Kind::PrimaryBackup {
                nodes: n,
                patience: p,
            },
        ) => { nodes == n && patience == p }
        (Kind::Ruled(one), Kind::Ruled(other)) => one.same(other),
        _ => false,
    }
}

/// Whether the votes are the same at each place.
fn same_votes(one: &[bool; 8], other: &[bool; 8]) -> bool
    ensures { IsTrue result ↔ (one.now ≡ other.now) }
{
    one == other
}

/// Whether a protocol's settings are within their limits.
fn is_within_limits(kind: &Kind) -> bool
    ensures { IsTrue result ↔ IsWithinLimits kind.now }
{
    match kind {
        Kind::Retry { nodes, tries } | Kind::Redundant { nodes, tries } => is_delivery(
            *nodes, *tries,
        ),
        Kind::TwoPhase {
            nodes,
            patience,
            votes,
        }
        | Kind::ThreePhase {
            nodes,
            patience,
            votes,
        } => is_commit(*nodes, *patience, votes),
        Kind::PrimaryBackup { nodes, patience } => is_backup(*nodes, *patience),
        Kind::Ruled(ruled) => {
            let nodes = ruled.nodes();
            2 <= nodes && nodes <= 8
        }
    }
}

/// Whether the settings of a protocol that delivers data are within the limits.
fn is_delivery(nodes: u32, tries: u32) -> bool
    ensures { IsTrue result ↔ IsDelivery nodes tries }
{
    2 <= nodes && nodes <= 8 && 1 <= tries && tries <= 48
}

/// Whether the settings of a protocol that commits are within the limits.
fn is_commit(nodes: u32, patience: u32, votes: &[bool; 8]) -> bool
    ensures { IsTrue result ↔ IsCommit nodes patience votes.now }
{
    2 <= nodes
        && nodes <= 8
        && 1 <= patience
        && patience <= 48
        && votes[0]
        && votes[nodes as usize..].iter().all(|vote| *vote)
}

/// Whether the settings of a primary and a backup are within the limits.
fn is_backup(nodes: u32, patience: u32) -> bool
    ensures { IsTrue result ↔ IsBackup nodes patience }
{
    3 <= nodes && nodes <= 8 && 1 <= patience && patience <= 48
}
