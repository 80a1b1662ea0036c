//! Words that are to spell a fault and don't.

use crate::faults::{JOINED, bar_of_numbers};
use crate::hint::Words;
use lf_faults::{FaultSpec, Parts};

/// Why a word spells no fault: a blank before or behind it, a number that is out of range, or another spelling.
pub(crate) fn misspelt(spec: &FaultSpec, word: &str) -> Words {
    if word.trim().len() < word.len() {
        return Words::of(JOINED);
    }
    if word == "-" {
        return Words::of("no fault at all is written as ''");
    }
    let Some(parts) = meant(word) else {
        return Words::of("not a fault; write omit 0>1 @2, crash 0 @2 or pause 0 @2");
    };
    let spelling = spelling(parts);
    if spelling.as_str() == word {
        bar_of_numbers(spec, parts).unwrap_or(Words::of("not a fault"))
    } else {
        Words::of(format_args!("not a fault; did you mean {}?", spelling.as_str()))
    }
}

/// The text of a fault with these parts, in range or not.
pub(crate) fn spelling(parts: Parts) -> Words {
    match parts {
        Parts::Omit { from, to, step } => Words::of(format_args!("omit {from}>{to} @{step}")),
        Parts::Crash { node, step } => Words::of(format_args!("crash {node} @{step}")),
        Parts::Pause { node, step } => Words::of(format_args!("pause {node} @{step}")),
    }
}

/// The parts that a word may mean, in range or not: those of the kind that it begins with, and the numbers behind that.
fn meant(word: &str) -> Option<Parts> {
    let kind = word.trim_end_matches(is_no_letter);
    let (first, rest) = first_number(word.strip_prefix(kind)?)?;
    let (second, rest) = first_number(rest)?;
    match first_number(rest) {
        Some((third, rest)) if kind.eq_ignore_ascii_case("omit") && first_number(rest).is_none() =>
            {
                Some(Parts::Omit {
                    from: first,
                    to: second,
                    step: third,
                })
            }
        None if kind.eq_ignore_ascii_case("crash") => Some(Parts::Crash {
            node: first,
            step: second,
        }),
        None if kind.eq_ignore_ascii_case("pause") => Some(Parts::Pause {
            node: first,
            step: second,
        }),
        _ => None,
    }
}

/// The first number in a text, and what follows it. None where there is none, or one that is too large.
pub(crate) fn first_number(text: &str) -> Option<(u32, &str)> {
    let digits = text.trim_start_matches(is_no_digit);
    let rest = digits.trim_start_matches(is_digit);
    match digits.strip_suffix(rest)?.parse::<u32>() {
        Ok(number) => Some((number, rest)),
        Err(_) => None,
    }
}

/// Whether a character is no letter.
fn is_no_letter(c: char) -> bool {
    !c.is_ascii_alphabetic()
}

/// Whether a character is a digit.
fn is_digit(c: char) -> bool {
    c.is_ascii_digit()
}

/// Whether a character is no digit.
fn is_no_digit(c: char) -> bool {
    !c.is_ascii_digit()
}
