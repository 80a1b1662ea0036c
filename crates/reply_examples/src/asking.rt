//! Command lines, done with files in memory.

ghost use Rattle.std.specs.Prelude.{◌≡◌, false, IfOk};

use leastfault::{BytesFault, Executed, Watch, asked, execute};
use lf_streams::in_memory::{Held, InMemory};
use std::alloc::{AllocError, Global};
use std::rt::Clock;
use std::sync::Wait;
use std::thread::Threads;

/// The certificate of one lost note, of two that may be lost.
pub(crate) const LOST: &str = concat!(
    r#"{"answer":["omit 0>1 @1"],"format":1,"root":{"edges":["omit 0>1 @1","omit 0>2 @1"],"#,
    r#""kids":[{"misses":true},{"misses":true}],"reach":[4,4,4]}}"#,
);

/// The words of a line, between any two of which stands a `+`.
pub(crate) fn words_of(alloc: Global, line: &str) -> Result<Vec<String>, AllocError> {
    let mut words = Vec::new(alloc);
    for word in line.split('+') {
        words.push(String::from_str(alloc, word)?)?;
    }
    Ok(words)
}

/// A file.
fn held(alloc: Global, name: &str, text: &str) -> Result<Held, AllocError> {
    Ok(Held {
        name: String::from_str(alloc, name)?,
        bytes: Vec::from_slice(alloc, text.as_bytes())?,
    })
}

/// The texts of the file `p`, of standard input and the file `s`, and of the file `t`.
#[derive(Clone, Copy)]
pub(crate) struct Texts<'a> {
    pub(crate) protocol: &'a str,
    pub(crate) scenario: &'a str,
    pub(crate) tree: &'a str,
}

/// Files that have these texts, of which so many reads and writes are done before each one fails.
pub(crate) fn files_of(
    alloc: Global,
    texts: Texts<'_>,
    reads: usize,
    writes: usize,
) -> Result<InMemory, AllocError>
    ensures read { IfOk result (λ files. files.read_failed ≡ false) }
    ensures write { IfOk result (λ files. files.write_failed ≡ false) }
{
    let mut files = InMemory::new(alloc, reads, writes);
    files.input = Vec::from_slice(alloc, texts.scenario.as_bytes())?;
    files.files.push(held(alloc, "p", texts.protocol)?)?;
    files.files.push(held(alloc, "s", texts.scenario)?)?;
    files.files.push(held(alloc, "t", texts.tree)?)?;
    Ok(files)
}

/// What the words of a line come to with these files; nothing where they ask for nothing, or memory has run out.
pub(crate) fn done_with<V: Watch>(
    rt: &(impl Threads + Wait + Clock + Sync),
    alloc: Global,
    line: &str,
    files: &mut InMemory,
    watch: &V,
) -> Option<Result<Executed, BytesFault>>
    requires read { files.old.read_failed ≡ false }
    requires write { files.old.write_failed ≡ false }
{
    let Ok(words) = words_of(alloc, line) else {
        return None;
    };
    match asked(alloc, words.as_slice()) {
        Ok(asked) => Some(execute(rt, alloc, &asked, files, watch)),
        Err(_) => None,
    }
}

/// What the words of a line come to with these texts; nothing where they come to nothing.
pub(crate) fn executed<V: Watch>(
    rt: &(impl Threads + Wait + Clock + Sync),
    alloc: Global,
    line: &str,
    texts: Texts<'_>,
    watch: &V,
) -> Option<Executed> {
    let Ok(mut files) = files_of(alloc, texts, 3, 2) else {
        return None;
    };
    match done_with(rt, alloc, line, &mut files, watch) {
        Some(Ok(done)) => Some(done),
        _ => None,
    }
}
