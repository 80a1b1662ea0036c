//! The line of a combination.

ghost use Rattle.std.specs.Prelude.{◌≡◌, ◌++◌, IfOk, map, string_bytes};
ghost use Rattle.lf_sweep.specs.Lines.{cells, line_of, tab_for, tabbed};

use std::alloc::{AllocError, Global};

/// The line of a combination: its values, each with a tab behind it, and then the lines of the reply, with tabs between.
pub fn line_of(alloc: Global, words: &[String], reply: &str) -> Result<Vec<u8>, AllocError>
    ensures { IfOk result (λ line. line.items ≡ line_of (map string_bytes words.now) reply.now) }
{
    let mut line = Vec::new(alloc);
    push_words(words, &mut line)?;
    push_reply(reply.as_bytes(), &mut line)?;
    Ok(line)
}

/// Adds words, each with a tab behind it.
fn push_words(words: &[String], line: &mut Vec<u8>) -> Result<(), AllocError>
    ensures { IfOk result (λ _. line.new.items ≡ line.old.items ++ cells (map string_bytes words.now)) }
{
    'words: for word in words {
        line.extend_from_slice(word.as_bytes())?;
        line.push(b'\t')?;
    }
    Ok(())
}

/// Adds a reply as the end of a line: its lines with a tab between any two.
fn push_reply(reply: &[u8], line: &mut Vec<u8>) -> Result<(), AllocError>
    ensures { IfOk result (λ _. line.new.items ≡ line.old.items ++ tabbed reply.now) }
{
    let shown = &reply[..reply.len().saturating_sub(1)];
    'bytes: for byte in shown {
        line.push(tab_for(*byte))?;
    }
    line.push(b'\n')?;
    Ok(())
}

/// A tab in place of a line feed.
fn tab_for(byte: u8) -> u8
    ensures { result ≡ tab_for byte }
{
    if byte == b'\n' { b'\t' } else { byte }
}
