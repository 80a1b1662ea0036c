//! Sources and sinks that fail at some call, that have no end, and that take nothing.

ghost use Rattle.std.specs.Prelude.{◌≡◌, false};

use crate::texts::{ONCE, agrees};
use leastfault::{BytesFault, LONGEST_TREE, check_bytes, run_bytes, search_bytes};
use lf_scenario::LONGEST;
use lf_streams::testing::{Chunks, Endless, FailsAfter};
use lf_streams::{FromRead, Sink, Source, ToWrite};
use std::alloc::Global;

/// Two nodes and one try, of which the note may be lost.
const PAIR: &str =
    "nodes = 2\nhorizon = 3\nlast_omission = 1\ncrashes = 0\nbudget = 1\nprotocol = \"retry\"\ntries = 1\noutcome = \"delivered\"\n";

/// The certificate of the lost note.
const LOST: &str =
    r#"{"answer":["omit 0>1 @1"],"format":1,"root":{"edges":["omit 0>1 @1"],"kids":[{"misses":true}],"reach":[3,3]}}"#;

/// The reply to the run of the pair with no fault.
const UNHARMED: &str =
    "step 1\n0 has\n1 lacks\n0>1 data 2\nstep 2\n0 has\n1 has\nstep 3\n0 has\n1 has\nreaches\n";

/// What is asked of a scenario.
#[derive(Clone, Copy)]
enum Call {
    Search,
    /// A run under these faults.
    Run(&'static str),
    Check,
}

/// The status with which a call ends. A check alone reads the tree.
fn ended<R: Source, S: Source, W: Sink>(
    alloc: Global,
    call: Call,
    source: &mut R,
    tree: &mut S,
    sink: &mut W,
) -> Result<u8, BytesFault>
    requires source { R.has_failed source.old ≡ false }
    requires tree { S.has_failed tree.old ≡ false }
    requires sink { W.has_failed sink.old ≡ false }
{
    match call {
        Call::Search => match search_bytes(alloc, source, sink) {
            Ok(found) => Ok(found.status),
            Err(fault) => Err(fault),
        },
        Call::Run(faults) => run_bytes(alloc, source, faults, sink),
        Call::Check => check_bytes(alloc, source, tree, sink),
    }
}

/// A call, the scenario that it is given, and its reply and status.
#[derive(Clone, Copy)]
struct Case {
    call: Call,
    text: &'static str,
    reply: &'static str,
    status: u8,
}

/// After how many calls the source of a scenario, that of a tree and a sink fail.
#[derive(Clone, Copy)]
struct Calls {
    source: usize,
    tree: usize,
    sink: usize,
}

/// Whether a call ends so, with so many bytes of its reply written, where the sources give seven bytes a call, the sink takes one, and all
/// fail after so many calls. A fault is told exactly by that of a source or of the sink.
fn ends(
    alloc: Global,
    case: Case,
    calls: Calls,
    end: Result<u8, BytesFault>,
    written: usize,
) -> bool {
    let (inner, most) = (FromRead::new(case.text.as_bytes()), 7);
    let mut source = FailsAfter::new(Chunks { inner, most }, calls.source);
    let inner = FromRead::new(LOST.as_bytes());
    let mut tree = FailsAfter::new(Chunks { inner, most }, calls.tree);
    let mut out = Vec::new(alloc);
    let (inner, most) = (ToWrite::new(&mut out), 1);
    let mut sink = FailsAfter::new(Chunks { inner, most }, calls.sink);
    let found = ended(alloc, case.call, &mut source, &mut tree, &mut sink);
    let is_read = source.failed() || tree.failed();
    let is_write = sink.failed();
    found == end
        && is_read == (end == Err(BytesFault::Read))
        && is_write == (end == Err(BytesFault::Write))
        && case.reply.as_bytes().get(..written) == Some(out.as_slice())
}

/// How many calls read a text whole, seven bytes a call: one more for the end.
fn calls_for(text: &str) -> usize {
    text.len().div_ceil(7).saturating_add(1)
}

/// Whether a source that fails at any call leaves nothing written, and a sink that does has a part of the reply; and where none fails, the
/// whole reply is written.
fn ends_at_any_call(alloc: Global, case: Case) -> bool {
    let (source, sink) = (calls_for(case.text), case.reply.len());
    let tree = match case.call {
        Call::Check => calls_for(LOST),
        _ => 0,
    };
    let enough = Calls { source, tree, sink };
    let mut is_so = ends(alloc, case, enough, Ok(case.status), sink);
    for source in 0..source {
        let calls = Calls { source, tree, sink };
        is_so &= ends(alloc, case, calls, Err(BytesFault::Read), 0);
    }
    for tree in 0..tree {
        let calls = Calls { source, tree, sink };
        is_so &= ends(alloc, case, calls, Err(BytesFault::Read), 0);
    }
    for sink in 0..sink {
        let calls = Calls { source, tree, sink };
        is_so &= ends(alloc, case, calls, Err(BytesFault::Write), sink);
    }
    is_so
}

/// Calls, and what they are given. Of the runs one is under words that name no set.
const CASES: [Case; 4] = [
    Case {
        call: Call::Search,
        text: ONCE,
        reply: "least 1\nomit 0>1 @1\n",
        status: 1,
    },
    Case {
        call: Call::Run(","),
        text: PAIR,
        reply: "refused faults\n",
        status: 2,
    },
    Case {
        call: Call::Run(""),
        text: PAIR,
        reply: UNHARMED,
        status: 0,
    },
    Case {
        call: Call::Check,
        text: PAIR,
        reply: "yes\n",
        status: 0,
    },
];

#[test]
fn a_source_that_fails_leaves_nothing_written_and_a_sink_a_part_of_the_reply(rt: HostRuntime) {
    for case in CASES {
        agrees(&rt, ends_at_any_call(rt.alloc(), case), case.reply);
    }
}

/// Whether a call whose scenario has no end takes one byte past the longest, and refuses it, whatever the tree.
fn endless_is_refused(alloc: Global, call: Call) -> bool {
    let mut source = Endless { taken: 0 };
    let mut tree = FromRead::new(b"{".as_slice());
    let mut out = Vec::new(alloc);
    let mut sink = ToWrite::new(&mut out);
    let found = ended(alloc, call, &mut source, &mut tree, &mut sink);
    found == Ok(2)
        && source.taken == LONGEST as u64 + 1
        && out.as_slice() == b"refused 1\n".as_slice()
}

/// Whether a check whose tree has no end takes one byte past the longest, and refuses it.
fn endless_tree_is_refused(alloc: Global) -> bool {
    let mut source = FromRead::new(PAIR.as_bytes());
    let mut tree = Endless { taken: 0 };
    let mut out = Vec::new(alloc);
    let mut sink = ToWrite::new(&mut out);
    let found = ended(alloc, Call::Check, &mut source, &mut tree, &mut sink);
    found == Ok(2)
        && tree.taken == LONGEST_TREE as u64 + 1
        && out.as_slice() == b"refused tree 1\n".as_slice()
}

/// Whether a search tells of a sink that takes nothing.
fn full_sink_is_told(alloc: Global) -> bool {
    let mut none: [u8; 0] = [];
    let mut source = FromRead::new(ONCE.as_bytes());
    let mut tree = FromRead::new(LOST.as_bytes());
    let mut sink = ToWrite::new(none.as_mut_slice());
    let found = ended(alloc, Call::Search, &mut source, &mut tree, &mut sink);
    found == Err(BytesFault::Write) && sink.failed()
}

#[test]
fn a_source_without_end_is_refused_and_a_sink_that_takes_none_is_told(rt: HostRuntime) {
    for call in [Call::Search, Call::Run(""), Call::Check] {
        agrees(&rt, endless_is_refused(rt.alloc(), call), "no end");
    }
    let are_told = endless_tree_is_refused(rt.alloc()) && full_sink_is_told(rt.alloc());
    agrees(&rt, are_told, "a tree without end, and a full sink");
}
