//! The words that name a set of faults.

ghost use Rattle.std.specs.Prelude.{◌≡◌, ◌↔◌, List, Some};
ghost use Rattle.lf_faults.specs.declared.fault.Parts.{Parts};
ghost use Rattle.lf_trace.specs.Namings.{Adds, Names};

use lf_faults::{FaultSet, read_fault};

/// The set of faults that the words name: the texts of its faults, as `fault_text` writes them, in any order, with one
/// comma between each two. The empty text names the set without faults.
///
/// None where the words name no set: a piece is no fault's text, a fault is there twice, or there are more than six.
pub fn read_faults(words: &str) -> Option<FaultSet>
    ensures { (set : List Parts) → ((result ≡ Some set) ↔ Names words.now set) }
{
    let mut set = FaultSet::empty();
    if words.is_empty() {
        return Some(set);
    }
    'pieces: for piece in words.split(',') {
        set = added(&set, piece)?;
    }
    Some(set)
}

/// The set with the fault that the piece spells. None where it spells none, or the fault is there, or six are.
fn added(set: &FaultSet, piece: &str) -> Option<FaultSet>
    ensures { (larger : List Parts) → ((result ≡ Some larger) ↔ Adds piece.now set.now larger) }
{
    let fault = read_fault(piece)?;
    set.insert(fault)
}

/// The law that words name at most one set, which is the one that `read_faults` answers.
pub fn names_are_one(words: &str)
    ensures { (one other : List Parts) → Names words.now one → Names words.now other → one ≡ other }
{
    let _named = read_faults(words);
}
