//! How to see what a set of faults does that was found.

use crate::delays::spelling;
use crate::hint::Hint;
use crate::stand::faults_text;
use lf_delays::Delay;
use lf_faults::FaultSet;
use std::alloc::{AllocError, Global};

/// The longest file name that is told, in bytes.
const LONGEST_FILE: usize = 300;

/// The command that shows what the first of some sets of faults does. The file of the scenario, and that of its protocol where one is named,
/// are single words, as a shell takes them. Nothing where there is no set, or the files have long names.
pub(crate) fn run_command(file: &str, protocol: Option<&str>, sets: &[FaultSet]) -> Option<Hint> {
    let named = protocol.unwrap_or("");
    if file.len() > LONGEST_FILE || named.len() > LONGEST_FILE - file.len() {
        return None;
    }
    let (first, others) = sets.split_first()?;
    let what = if others.is_empty() { "it" } else { "the first" };
    let option = if named.is_empty() { "" } else { " --protocol " };
    Some(Hint::of(format_args!(
        "to see {what}: leastfault run {file} '{}'{option}{named}",
        faults_text(first.items()).as_str()
    )))
}

/// The command that shows what a set of faults does where these notes come late, for files as those of `run_command`. Every other note takes
/// its least delay, so `--delays` stands there also where none is late. The error is that memory has run out.
pub(crate) fn late_run_command(
    alloc: Global,
    file: &str,
    protocol: Option<&str>,
    set: &FaultSet,
    delays: &[Delay],
) -> Result<String, AllocError> {
    let mut command = format!(in alloc;
        "to see it: leastfault run {file} '{}' --delays '",
        faults_text(set.items()).as_str()
    )?;
    let mut comma = "";
    for delay in delays {
        command.push_str(comma)?;
        command.push_str(spelling(*delay).as_str())?;
        comma = ",";
    }
    command.push('\'')?;
    if let Some(protocol) = protocol {
        write!(&mut command, " --protocol {protocol}")?;
    }
    Ok(command)
}
