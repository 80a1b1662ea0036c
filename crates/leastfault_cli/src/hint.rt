//! What to say on standard error of what a command came to.

use leastfault::{
    Asked, CommandTexts, Executed, FaultSet, ProtocolFile, Said, ScenarioError, Shown, Verdict,
    read_known, read_protocol,
};
use lf_hints::{
    Wanted, delays_hint, judged_hint, level_hint, scenario_hint, see_hint, see_late_hint,
    seed_note, set_hint, tree_hint,
};
use lf_protocol_hints::{own_hint, protocol_hint, protocol_notes, run_notes};
use lf_words::shell_word;
use std::alloc::{AllocError, Global};
use std::io::IsTerminal;

/// What is wrong with what was refused, or with a certificate, what a protocol file has, and on a terminal how to see what a set does that was
/// found, or how to ask what it rests on that there is none, in words; nothing where all is well. The error, also below, is that memory has run out.
pub(crate) fn words_of(
    rt: &HostRuntime,
    asked: &Asked,
    done: &Executed,
) -> Result<String, AllocError> {
    let (alloc, texts) = (rt.alloc(), &done.texts);
    match &done.reply.said {
        Said::File(file) => protocol_notes(alloc, file),
        Said::NoFile(error) => protocol_hint(alloc, protocol_text(asked, texts), error),
        Said::NoScenario(error) => refused_words(alloc, asked, texts, *error),
        Said::NoTree(fault) => tree_hint(alloc, bytes_of(&texts.tree), *fault),
        Said::NoFaults => faults_words(alloc, asked, texts),
        Said::NoDelays => delays_words(alloc, asked, texts),
        Said::Full { level, count, most } => {
            level_hint(alloc, wanted_of(asked), *level, *count, *most)
        }
        Said::Judged {
            verdict: Verdict::No { reason, path },
            scenario,
            tree,
        } => judged_hint(alloc, scenario, tree, *reason, path.as_slice()),
        Said::Judged { .. } => Ok(String::new(alloc)),
        found => {
            let words = if rt.stderr().is_terminal() {
                see_words(alloc, asked, found)?
            } else {
                String::new(alloc)
            };
            with_notes(alloc, asked, words, texts)
        }
    }
}

/// The bytes of a text, and none where there is none.
fn bytes_of(text: &Option<Vec<u8>>) -> &[u8] {
    match text {
        Some(bytes) => bytes.as_slice(),
        None => &[],
    }
}

/// The text of the protocol file that is asked about, or that a scenario may be of.
fn protocol_text<'a>(asked: &Asked, texts: &'a CommandTexts) -> &'a [u8] {
    match asked {
        Asked::Protocol { .. } => texts.scenario.as_slice(),
        _ => bytes_of(&texts.protocol),
    }
}

/// What a search was to tell.
fn wanted_of(asked: &Asked) -> Wanted {
    match asked {
        Asked::Search { all: true, .. } => Wanted::AllLeast,
        _ => Wanted::Answer,
    }
}

/// The protocol file that the scenario may be of, where one is named that was not refused.
fn known_of(alloc: Global, texts: &CommandTexts) -> Option<ProtocolFile> {
    let text = texts.protocol.as_ref()?;
    read_protocol(alloc, text.as_slice()).ok()
}

/// What is wrong with the text of a scenario that was refused so.
fn refused_words(
    alloc: Global,
    asked: &Asked,
    texts: &CommandTexts,
    error: ScenarioError,
) -> Result<String, AllocError> {
    let text = texts.scenario.as_slice();
    if asked.protocol_file().is_none() {
        return with_option(alloc, error, scenario_hint(alloc, text, error)?);
    }
    match known_of(alloc, texts) {
        Some(file) => own_hint(alloc, text, &file, error),
        None => Ok(String::new(alloc)),
    }
}

/// The words, and that `--protocol` may have been forgotten, where the protocol is unknown or constants are given.
pub(crate) fn with_option(
    alloc: Global,
    error: ScenarioError,
    words: String,
) -> Result<String, AllocError> {
    if error == ScenarioError::Protocol {
        format!(in alloc; "{words}; the file of a protocol of your own is named by --protocol FILE")
    } else if words.as_str().starts_with("\"given\"") {
        format!(in alloc;
            "{words}; scenarios of a protocol file have it: name the file by --protocol FILE"
        )
    } else {
        Ok(words)
    }
}

/// What is wrong with the words for the faults of a run, or else with those of the run beside it.
fn faults_words(alloc: Global, asked: &Asked, texts: &CommandTexts) -> Result<String, AllocError> {
    let file = known_of(alloc, texts);
    let Ok(scenario) = read_known(alloc, texts.scenario.as_slice(), file.as_ref()) else {
        return Ok(String::new(alloc));
    };
    let (Asked::Run { faults, .. } | Asked::Draw { faults, .. }) = asked else {
        return Ok(String::new(alloc));
    };
    let words = set_hint(alloc, &scenario, faults.as_str())?;
    match asked {
        Asked::Run {
            shown: Shown::Beside(other),
            ..
        } if words.is_empty() => set_hint(alloc, &scenario, other.as_str()),
        _ => Ok(words),
    }
}

/// What is wrong with the words for late notes.
fn delays_words(alloc: Global, asked: &Asked, texts: &CommandTexts) -> Result<String, AllocError> {
    let (Asked::Run {
        delays: Some(delays),
        ..
    }
    | Asked::Draw {
        delays: Some(delays),
        ..
    }) = asked
    else {
        return Ok(String::new(alloc));
    };
    let file = known_of(alloc, texts);
    match read_known(alloc, texts.scenario.as_slice(), file.as_ref()) {
        Ok(scenario) => delays_hint(alloc, &scenario, delays.as_str()),
        Err(_) => Ok(String::new(alloc)),
    }
}

/// How to see what a set does that a search or an answer found in a file, or how to ask what it rests on that there is none.
fn see_words(alloc: Global, asked: &Asked, found: &Said) -> Result<String, AllocError> {
    let (Asked::Search { file, .. } | Asked::Answer { file, .. }) = asked else {
        return Ok(String::new(alloc));
    };
    if file.as_str() == "-" {
        return Ok(String::new(alloc));
    }
    let file = shell_word(alloc, file.as_str())?;
    let protocol = match asked.protocol_file() {
        Some(protocol) => Some(shell_word(alloc, protocol)?),
        None => None,
    };
    let (file, protocol) = (file.as_str(), protocol.as_deref());
    match found {
        Said::Answer(None) => doubt_words(alloc, asked, file, protocol),
        Said::Answer(Some(set)) => {
            let sets: [FaultSet; 1] = [*set];
            see_hint(alloc, file, protocol, &sets)
        }
        Said::AllLeast(sets) if sets.is_empty() => doubt_words(alloc, asked, file, protocol),
        Said::AllLeast(sets) => see_hint(alloc, file, protocol, sets.as_slice()),
        Said::Late { set, delays } => {
            see_late_hint(alloc, file, protocol, set, delays.as_slice())
        }
        _ => Ok(String::new(alloc)),
    }
}

/// How to ask what it rests on that no faults defeat the outcome of a scenario, for files as a shell takes them; nothing of an answer over every
/// delay, of which there is no doubt.
fn doubt_words(
    alloc: Global,
    asked: &Asked,
    file: &str,
    protocol: Option<&str>,
) -> Result<String, AllocError> {
    if let Asked::Answer {
        every_delay: true,
        ..
    } = asked
    {
        return Ok(String::new(alloc));
    }
    match protocol {
        Some(protocol) => {
            format!(in alloc;
                "to ask what this rests on: leastfault doubt {file} --protocol {protocol}"
            )
        }
        None => format!(in alloc; "to ask what this rests on: leastfault doubt {file}"),
    }
}

/// The words, behind what has to be said of the run without faults of a protocol file's scenario.
fn with_notes(
    alloc: Global,
    asked: &Asked,
    words: String,
    texts: &CommandTexts,
) -> Result<String, AllocError> {
    let mut notes = notes_of(alloc, asked, texts)?;
    if !notes.is_empty() && !words.is_empty() {
        notes.push('\n')?;
    }
    notes.push_str(words.as_str())?;
    Ok(notes)
}

/// Which rules no node has, and where the run without faults passes a range or replaces a note: of a search, a run or a picture of a
/// protocol file's scenario, by its seed. Of an answer over every delay, that a seed plays no part.
fn notes_of(alloc: Global, asked: &Asked, texts: &CommandTexts) -> Result<String, AllocError> {
    match asked {
        Asked::Answer {
            every_delay: true,
            ..
        } => return seed_note(alloc, texts.scenario.as_slice()),
        Asked::Search { .. }
        | Asked::Why { .. }
        | Asked::Run { delays: None, .. }
        | Asked::Draw { delays: None, .. } => {}
        _ => return Ok(String::new(alloc)),
    }
    let Some(file) = known_of(alloc, texts) else {
        return Ok(String::new(alloc));
    };
    match read_known(alloc, texts.scenario.as_slice(), Some(&file)) {
        Ok(scenario) => run_notes(alloc, &scenario),
        Err(_) => Ok(String::new(alloc)),
    }
}
