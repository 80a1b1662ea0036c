//! What the command line asks for.

use std::alloc::AllocError;
use std::env;
use std::env::Args;
use std::io::ErrorKind;

/// Which module is asked for.
#[derive(Clone, Copy)]
pub(crate) enum Module {
    Books,
    Pools,
    /// None of them.
    Other,
}

/// What is done with a book, or told of a pool.
#[derive(Clone, Copy)]
pub(crate) enum Way {
    Search,
    Runs,
    Plain,
    Drive,
    Shares,
}

/// What the words are.
#[derive(Clone, Copy)]
pub(crate) struct Asked {
    /// The module.
    pub(crate) module: Module,
    /// How many times, how many sets or events, or how many workers; 0 where the word is no number.
    pub(crate) count: u32,
    /// What is done or told: a search where no word says otherwise.
    pub(crate) way: Way,
}

/// What the command line asks for: no module where it can't be read.
pub(crate) fn parsed(rt: &HostRuntime) -> Result<Asked, AllocError> {
    match env::args(rt) {
        Ok(words) => Ok(parsed_words(words)),
        Err(error) if error.kind() == ErrorKind::OutOfMemory => Err(AllocError),
        Err(_) => Ok(Asked {
            module: Module::Other,
            count: 0,
            way: Way::Search,
        }),
    }
}

/// What these words ask for, of which the first is the program's name.
fn parsed_words(mut words: Args) -> Asked {
    let _program = words.next();
    Asked {
        module: module_of(words.next()),
        count: number(words.next()),
        way: way_of(words.next()),
    }
}

/// The module that a word names.
fn module_of(word: Option<String>) -> Module {
    let Some(word) = word else {
        return Module::Other;
    };
    match word.as_str() {
        "books" => Module::Books,
        "pools" => Module::Pools,
        _ => Module::Other,
    }
}

/// What a word says is done or told.
fn way_of(word: Option<String>) -> Way {
    let Some(word) = word else {
        return Way::Search;
    };
    match word.as_str() {
        "runs" => Way::Runs,
        "plain" => Way::Plain,
        "drive" => Way::Drive,
        "shares" => Way::Shares,
        _ => Way::Search,
    }
}

/// The number that a word is, or 0.
fn number(word: Option<String>) -> u32 {
    match word {
        Some(word) => word.as_str().parse::<u32>().unwrap_or(0),
        None => 0,
    }
}
