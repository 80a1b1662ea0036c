//! What to say of a combination of a sweep.

use leastfault::{read_known, read_protocol};
use leastfault_sweep::{Plan, Study};
use lf_hints::combination_hint;
use lf_protocol_hints::own_hint;
use lf_sweep::text_of;
use std::alloc::{AllocError, Global};

/// The values of the combination with this number, from 0. None where there is no such combination.
fn values_of(alloc: Global, plan: &Plan, number: u64) -> Result<Vec<String>, AllocError> {
    if number < plan.count() {
        plan.words(alloc, number)
    } else {
        Ok(Vec::new(alloc))
    }
}

/// The values of a combination behind the names of what varies, each behind a blank.
pub(crate) fn place_words(
    alloc: Global,
    plan: &Plan,
    names: &[String],
    number: u64,
) -> Result<String, AllocError> {
    let values = values_of(alloc, plan, number)?;
    let mut place = String::new(alloc);
    for (name, value) in names.iter().zip(values.iter()) {
        write!(place, " {name}={value}")?;
    }
    Ok(place)
}

/// What is wrong with the combination with a number, which is refused, with what varies by name. Empty where nothing can be said.
pub(crate) fn refused_words(
    alloc: Global,
    protocol: Option<&[u8]>,
    study: &Study<'_>,
    names: &[String],
    number: u64,
) -> Result<String, AllocError> {
    let values = values_of(alloc, study.plan, number)?;
    let Ok(text) = text_of(
        alloc,
        study.scenario,
        study.plan.varied(),
        values.as_slice(),
    ) else {
        return Ok(String::new(alloc));
    };
    let words = hint_of(alloc, protocol, study.scenario, text.as_bytes())?;
    if words.is_empty() {
        return Ok(words);
    }
    let place = place_words(alloc, study.plan, names, number)?;
    format!(in alloc; "refused, first at{place}: {words}")
}

/// What is wrong with the text of a combination, which was made of this scenario's.
fn hint_of(
    alloc: Global,
    protocol: Option<&[u8]>,
    scenario: &[u8],
    text: &[u8],
) -> Result<String, AllocError> {
    let Some(protocol) = protocol else {
        return combination_hint(alloc, scenario, text);
    };
    let Ok(file) = read_protocol(alloc, protocol) else {
        return Ok(String::new(alloc));
    };
    match read_known(alloc, text, Some(&file)) {
        Ok(_) => Ok(String::new(alloc)),
        Err(error) => own_hint(alloc, text, &file, error),
    }
}
