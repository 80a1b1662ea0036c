//! The reading of sources.

ghost use Rattle.std.specs.Prelude.{◌≡◌, ◌+◌, ◌||◌, false};
ghost use Rattle.lf_scenario.specs.Limits.{longest};
ghost use Rattle.lf_tree.specs.Texts.{most_bytes};
ghost use Rattle.leastfault.specs.Engines.{IsFront, IsMade, TookAtMost, WasRead};

use crate::fault::BytesFault;
use lf_scenario::LONGEST;
use lf_streams::{ReadFault, Source, read_up_to};
use lf_tree::LONGEST_TREE;
use std::alloc::Global;

/// The texts of a scenario and of a tree.
#[derive(Drop)]
pub(crate) struct Texts {
    pub(crate) scenario: Vec<u8>,
    pub(crate) tree: Vec<u8>,
}

/// What the source holds, or as much of it as tells that it is longer than `limit`.
#[tactic(auto, using(crate::proofs::EngineLemmas::was_read))]
pub(crate) fn read_text<R: Source>(
    alloc: Global,
    reader: &mut R,
    limit: usize,
) -> Result<Vec<u8>, BytesFault>
    requires { R.has_failed reader.old ≡ false }
    ensures { IsMade (λ text. IsFront limit (R.left reader.old) text.items × WasRead (limit + 1) (R.left reader.old) (R.left reader.new)) (λ _. ⊥)
        (R.has_failed reader.new) (TookAtMost (limit + 1) (R.left reader.old) (R.left reader.new)) result }
{
    match read_up_to(alloc, reader, limit) {
        Ok(text) => Ok(text),
        Err(ReadFault::Failed) => Err(BytesFault::Read),
        Err(ReadFault::Memory) => Err(BytesFault::Memory),
    }
}

/// What the sources of a scenario and of a tree hold, or as much of it as tells that it is longer than a text may be.
pub(crate) fn read_texts<R: Source, S: Source>(
    alloc: Global,
    reader: &mut R,
    tree_reader: &mut S,
) -> Result<Texts, BytesFault>
    requires scenario { R.has_failed reader.old ≡ false }
    requires tree { S.has_failed tree_reader.old ≡ false }
    ensures { IsMade (λ texts. (IsFront longest (R.left reader.old) texts.scenario.items × IsFront most_bytes (S.left tree_reader.old) texts.tree.items)
        × (WasRead (longest + 1) (R.left reader.old) (R.left reader.new) × WasRead (most_bytes + 1) (S.left tree_reader.old) (S.left tree_reader.new)))
        (λ _. ⊥) (R.has_failed reader.new || S.has_failed tree_reader.new)
        (TookAtMost (longest + 1) (R.left reader.old) (R.left reader.new)
        × TookAtMost (most_bytes + 1) (S.left tree_reader.old) (S.left tree_reader.new)) result }
{
    let scenario = read_text(alloc, reader, LONGEST)?;
    let tree = read_text(alloc, tree_reader, LONGEST_TREE)?;
    Ok(Texts { scenario, tree })
}
