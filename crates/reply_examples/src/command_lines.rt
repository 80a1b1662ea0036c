//! Command lines, and what they ask for. Those that ask for nothing stand in `examples/cases/words/`.
//!
//! In a table each line is a command line, `|`, and what it asks for. Before each word stands `;`.

use lf_words::{Asked, Shown, asked};
use std::alloc::{AllocError, Global};

/// Adds the words as they come from the system. Says whether there was memory.
fn add_words(alloc: Global, owned: &mut Vec<String>, words: &str) -> bool {
    for word in words.split(';').skip(1) {
        let Ok(word) = String::from_str(alloc, word) else {
            return false;
        };
        if owned.push(word).is_err() {
            return false;
        }
    }
    true
}

/// How a table says whether nothing is to be told on the way.
fn stillness(quiet: bool) -> &'static str {
    if quiet { ";quiet" } else { "" }
}

/// Whether a table says this: what to do, the file, what stands behind it, and the rest.
fn is_text(
    alloc: Global,
    expected: &str,
    verb: &str,
    file: &str,
    behind: (&str, &str),
    rest: &str,
) -> bool {
    let (mark, second) = behind;
    match format!(in alloc; ";{verb};{file}{mark}{second}{rest}") {
        Ok(text) => text.as_str() == expected,
        Err(_) => false,
    }
}

/// Whether a table says this of what is asked for: behind it stand `;rules`, `;every delay`, `;late` with delays, and `;of` with the file of
/// a protocol.
fn is_said(alloc: Global, asked: &Asked, expected: &str) -> bool {
    let (verb, behind, rest) = parts(asked);
    let (told, workers) = options(asked);
    match end_of(alloc, asked, told, workers, rest) {
        Ok(end) => is_text(alloc, expected, verb, asked.file(), behind, end.as_str()),
        Err(_) => false,
    }
}

/// What to do, what stands behind the file, and whether nothing is to be told on the way.
fn parts(asked: &Asked) -> (&str, (&str, &str), &str) {
    match asked {
        Asked::Search { tree, quiet, .. } => {
            let behind = match tree {
                Some(tree) => (";tree;", tree.as_str()),
                None => ("", ""),
            };
            ("search", behind, stillness(*quiet))
        }
        Asked::Run { faults, shown, .. } => ("run", (";", faults.as_str()), told_by(shown)),
        Asked::Draw { faults, .. } => ("draw", (";", faults.as_str()), ""),
        Asked::Check { tree, quiet, .. } => ("check", (";", tree.as_str()), stillness(*quiet)),
        Asked::Answer { quiet, .. } => ("answer", ("", ""), stillness(*quiet)),
        Asked::Why { quiet, .. } => ("why", ("", ""), stillness(*quiet)),
        Asked::Protocol { .. } => ("protocol", ("", ""), ""),
    }
}

/// What is to be told of a run; of a run beside another its faults are told apart.
fn told_by(shown: &Shown) -> &str {
    match shown {
        Shown::Whole => "",
        Shown::Rules => ";rules",
        Shown::Changes => ";changes",
        Shown::Json => ";json",
        Shown::Beside(_) => ";beside",
    }
}

/// Whether all least sets are to be told, and how many workers search, where one of these is said.
fn options(asked: &Asked) -> (&str, Option<u32>) {
    match asked {
        Asked::Search { all, workers, .. } => (if *all { ";all" } else { "" }, Some(*workers)),
        _ => ("", None),
    }
}

/// The end of what a table says of what is asked for.
fn end_of(
    alloc: Global,
    asked: &Asked,
    told: &str,
    workers: Option<u32>,
    rest: &str,
) -> Result<String, AllocError> {
    let mut end = String::from_str(alloc, told)?;
    if let Some(workers) = workers {
        write!(&mut end, ";{workers}")?;
    }
    end.push_str(rest)?;
    if let Asked::Run {
        shown: Shown::Beside(other),
        ..
    } = asked
    {
        write!(&mut end, ";{other}")?;
    }
    if let Asked::Answer {
        every_delay: true,
        ..
    } = asked
    {
        end.push_str(";every delay")?;
    }
    if let Some(delays) = delays_of(asked) {
        write!(&mut end, ";late;{delays}")?;
    }
    if let Some(protocol) = asked.protocol_file() {
        write!(&mut end, ";of;{protocol}")?;
    }
    Ok(end)
}

/// The delays that are given, as they were written.
fn delays_of(asked: &Asked) -> Option<&str> {
    match asked {
        Asked::Run { delays, .. } | Asked::Draw { delays, .. } => delays.as_deref(),
        _ => None,
    }
}

/// Whether a command line of a table asks for what stands behind it.
fn is_asked(alloc: Global, line: &str) -> bool {
    let Some((words, expected)) = line.split_once('|') else {
        return false;
    };
    let mut owned = Vec::new(alloc);
    if !add_words(alloc, &mut owned, words) {
        return false;
    }
    match asked(alloc, owned.as_slice()) {
        Ok(asked) => is_said(alloc, &asked, expected),
        Err(_) => false,
    }
}

/// Command lines, and what they ask for.
const LINES: &str = concat!(
    // Searches.
    "|;search;-;1\n",
    ";search;a.toml|;search;a.toml;1\n",
    ";search;-|;search;-;1\n",
    ";search;--;-x|;search;-x;1\n",
    ";search;--;--help|;search;--help;1\n",
    ";search;search|;search;search;1\n",
    ";search;|;search;;1\n",
    ";search;two words.toml|;search;two words.toml;1\n",
    ";search; grün/日本.toml|;search; grün/日本.toml;1\n",
    ";search;a.toml;--tree;a.json|;search;a.toml;tree;a.json;1\n",
    ";search;--tree;a.json;a.toml|;search;a.toml;tree;a.json;1\n",
    ";search;-;--tree=-|;search;-;tree;-;1\n",
    ";search;a;--tree;-|;search;a;tree;-;1\n",
    ";search;a;--all|;search;a;all;1\n",
    ";search;--all;-|;search;-;all;1\n",
    ";search;--;--all|;search;--all;1\n",
    ";search;--all;a;--tree;t|;search;a;tree;t;all;1\n",
    ";search;--tree=--all;a|;search;a;tree;--all;1\n",
    ";search;a;--workers;1|;search;a;1\n",
    ";search;a;--workers=32|;search;a;32\n",
    ";search;--workers;3;a;--all|;search;a;all;3\n",
    ";search;a;--workers;+3|;search;a;3\n",
    ";search;a;--tree;./a|;search;a;tree;./a;1\n",
    ";search;a;--quiet|;search;a;1;quiet\n",
    ";search;--quiet;a;--all;--tree;t|;search;a;tree;t;all;1;quiet\n",
    ";search;a;--quiet;--workers;2|;search;a;2;quiet\n",
    ";search;--;--quiet|;search;--quiet;1\n",
    ";search;a;--protocol;p|;search;a;1;of;p\n",
    ";search;--protocol=-;-|;search;-;1;of;-\n",
    ";search;a;--all;--tree;t;--protocol;p;--workers;2|;search;a;tree;t;all;2;of;p\n",
    // Runs and pictures.
    ";run;a.toml;|;run;a.toml;\n",
    ";run;-;omit 0>1 @2,crash 2 @3|;run;-;omit 0>1 @2,crash 2 @3\n",
    ";run;run;run|;run;run;run\n",
    ";run;;|;run;;\n",
    ";run;ü b; é,日本 |;run;ü b; é,日本 \n",
    ";run;a;--;-h|;run;a;-h\n",
    ";run;--;-a;--help|;run;-a;--help\n",
    ";run;a;;--protocol;p|;run;a;;of;p\n",
    ";run;a;;--protocol;p;--rules|;run;a;;rules;of;p\n",
    ";run;--rules;--protocol=p;a;crash 0 @1|;run;a;crash 0 @1;rules;of;p\n",
    ";run;a;;--changes|;run;a;;changes\n",
    ";run;a;crash 0 @1;--beside;|;run;a;crash 0 @1;beside;\n",
    ";run;a;;--beside;crash 0 @1;--protocol;p|;run;a;;beside;crash 0 @1;of;p\n",
    ";run;a;;--json|;run;a;;json\n",
    ";run;a;;--delays;|;run;a;;late;\n",
    ";run;a;crash 0 @1;--delays;0>1 @9 13,2>0 @5 9|;run;a;crash 0 @1;late;0>1 @9 13,2>0 @5 9\n",
    ";run;--delays=0>1 @9 13;a;;--json;--protocol;p|;run;a;;json;late;0>1 @9 13;of;p\n",
    ";run;a;;--delays;x;--beside;y|;run;a;;beside;y;late;x\n",
    ";draw;a;crash 0 @1|;draw;a;crash 0 @1\n",
    ";draw;a;;--protocol;p|;draw;a;;of;p\n",
    ";draw;a;crash 0 @1;--delays;0>1 @9 13|;draw;a;crash 0 @1;late;0>1 @9 13\n",
    ";draw;a;;--delays;;--protocol;p|;draw;a;;late;;of;p\n",
    // Checks.
    ";check;a.toml;a.json|;check;a.toml;a.json\n",
    ";check;-;a.json|;check;-;a.json\n",
    ";check;a.toml;-|;check;a.toml;-\n",
    ";check;check;|;check;check;\n",
    ";check;--;-a;-|;check;-a;-\n",
    ";check;a;b;--quiet|;check;a;b;quiet\n",
    ";check;--quiet;a;-|;check;a;-;quiet\n",
    ";check;a;b;--protocol;p;--quiet|;check;a;b;quiet;of;p\n",
    ";check;-;b;--protocol;-|;check;-;b;of;-\n",
    // Answers.
    ";answer;a.toml|;answer;a.toml\n",
    ";answer;-|;answer;-\n",
    ";answer;--;-x|;answer;-x\n",
    ";answer;answer|;answer;answer\n",
    ";answer;a;--quiet|;answer;a;quiet\n",
    ";answer;a;--protocol;p|;answer;a;of;p\n",
    ";answer;a;--every-delay|;answer;a;every delay\n",
    ";answer;--every-delay;--quiet;a;--protocol;p|;answer;a;quiet;every delay;of;p\n",
    ";answer;--;--every-delay|;answer;--every-delay\n",
    // Reasons.
    ";why;a.toml|;why;a.toml\n",
    ";why;-|;why;-\n",
    ";why;--;-x|;why;-x\n",
    ";why;why|;why;why\n",
    ";why;a;--quiet|;why;a;quiet\n",
    ";why;a;--protocol;p|;why;a;of;p\n",
    // Protocols.
    ";protocol;a.toml|;protocol;a.toml\n",
    ";protocol;-|;protocol;-\n",
    ";protocol;--;-x|;protocol;-x\n",
);

#[test]
fn words_ask_for_what_they_say(rt: HostRuntime) {
    for line in LINES.lines() {
        let is_asked = is_asked(rt.alloc(), line);
        assert!(&rt; is_asked, "at {line}");
    }
}

/// Whether what is told of words that ask for nothing is displayed, too.
fn is_displayed(alloc: Global, words: &[String]) -> bool {
    match asked(alloc, words) {
        Ok(_) => false,
        Err(unasked) => match format!(in alloc; "{unasked}\n") {
            Ok(displayed) => displayed.as_str() == unasked.text(),
            Err(_) => false,
        },
    }
}

#[test]
fn what_is_told_is_displayed(rt: HostRuntime) {
    let mut owned = Vec::new(rt.alloc());
    let is_displayed = add_words(rt.alloc(), &mut owned, ";a.toml")
        && is_displayed(rt.alloc(), owned.as_slice());
    assert!(&rt; is_displayed);
}
