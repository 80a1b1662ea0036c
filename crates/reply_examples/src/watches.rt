//! Watches are told how far a search, an answer or a check has come, and change no reply.

use crate::asking::{Texts, executed};
use crate::texts::{agrees, behind, text_of};
use leastfault::{Executed, NoWatch, Progress, Watch};
use std::alloc::Global;
use std::rt::Clock;
use std::sync::Wait;
use std::sync::atomic::AtomicU64;
use std::sync::atomic::Ordering::SeqCst;
use std::thread::Threads;

/// Counts the sets that it is told of and how often it is told of configurations, and keeps how many nodes it was told of last.
#[derive(Drop)]
struct Counted {
    sets: AtomicU64,
    configurations: AtomicU64,
    nodes: AtomicU64,
}

impl Counted {
    /// Nothing was told.
    fn new() -> Counted {
        Counted {
            sets: AtomicU64::new(0),
            configurations: AtomicU64::new(0),
            nodes: AtomicU64::new(0),
        }
    }
}

impl Watch for Counted {
    fn tell(&self, progress: Progress) {
        match progress {
            Progress::Sets { .. } => {
                let _before = self.sets.fetch_add(1, SeqCst);
            }
            Progress::Configurations { .. } => {
                let _before = self.configurations.fetch_add(1, SeqCst);
            }
            Progress::Nodes { done, .. } => self.nodes.store(done, SeqCst),
        }
    }
}

/// What the words of a line come to, of a scenario's text and a certificate's.
fn done_of<V: Watch>(
    rt: &(impl Threads + Wait + Clock + Sync),
    alloc: Global,
    line: &str,
    text: &str,
    tree: &str,
    watch: &V,
) -> Option<Executed> {
    let texts = Texts {
        protocol: "",
        scenario: text,
        tree,
    };
    executed(rt, alloc, line, texts, watch)
}

/// Whether the reply with a watch is that of a search without.
fn is_same<V: Watch>(
    rt: &(impl Threads + Wait + Clock + Sync),
    alloc: Global,
    text: &str,
    line: &str,
    watch: &V,
) -> bool {
    let alone = done_of(rt, alloc, "search+-", text, "", &NoWatch);
    let watched = done_of(rt, alloc, line, text, "", watch);
    match (alone, watched) {
        (Some(alone), Some(watched)) => {
            alone.reply.text == watched.reply.text
                && alone.reply.value.status == watched.reply.value.status
        }
        _ => false,
    }
}

/// Whether a check with a watch says yes to the certificate of a search with the same.
fn is_certified<V: Watch>(
    rt: &(impl Threads + Wait + Clock + Sync),
    alloc: Global,
    text: &str,
    watch: &V,
) -> bool {
    let Some(made) = done_of(rt, alloc, "search+-+--tree+c", text, "", watch) else {
        return false;
    };
    let Some(certificate) = &made.reply.value.certificate else {
        return false;
    };
    let Ok(tree) = str::from_utf8(certificate.as_slice()) else {
        return false;
    };
    match done_of(rt, alloc, "check+-+t", text, tree, watch) {
        Some(done) => done.reply.text.as_str() == "yes\n" && done.reply.value.status == 0,
        None => false,
    }
}

/// Whether each reply to a row's text is the same with a watch and without, and the watch is told of so many sets and nodes as the row
/// says, and of configurations as the first pass begins.
fn row_is_told(rt: &(impl Threads + Wait + Clock + Sync), alloc: Global, row: &str) -> bool {
    let Ok(text) = text_of(alloc, row) else {
        return false;
    };
    let text = text.as_str();
    let (alone, several, checked) = (Counted::new(), Counted::new(), Counted::new());
    let is_unchanged = is_same(rt, alloc, text, "search+-", &alone)
        && is_same(rt, alloc, text, "search+-+--workers+3", &several)
        && is_same(rt, alloc, text, "answer+-", &alone)
        && is_certified(rt, alloc, text, &checked);
    let (sets, nodes) = (alone.sets.load(SeqCst), checked.nodes.load(SeqCst));
    let is_told = checked.sets.load(SeqCst) == sets && alone.configurations.load(SeqCst) > 0;
    match format!(in alloc; "{sets} {} {nodes}", several.sets.load(SeqCst)) {
        Ok(told) => is_unchanged && is_told && told.as_str() == behind(row),
        Err(_) => false,
    }
}

/// A scenario, and of how many sets a watch is told by one thread and by three workers, and of how many nodes.
const WATCHED: &str = concat!(
    "3 4 3 0 2|protocol = \"retry\";tries = 1;outcome = \"delivered\"|3 3 3\n",
    "3 4 1 1 3|protocol = \"redundant\";tries = 4;outcome = \"delivered\"|52 52 52\n",
    "2 1 0 0 0|protocol = \"retry\";tries = 1;outcome = \"delivered\"|1 1 1\n",
);

#[test]
fn watches_change_no_reply(rt: HostRuntime) {
    for row in WATCHED.lines() {
        agrees(&rt, row_is_told(&rt, rt.alloc(), row), row);
    }
}
