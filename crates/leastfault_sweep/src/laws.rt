//! What the definitions of this crate promise: calls that compute nothing, whose contracts are the laws.

ghost use Rattle.std.specs.Prelude.{◌≡◌, ◌<◌, ℕ, List, Option, true};
ghost use Rattle.toml.specs.Data.{Members};
ghost use Rattle.lf_sweep.specs.declared.part.Part.{Part};
ghost use Rattle.lf_sweep.specs.declared.varied.Varied.{Varied};
ghost use Rattle.lf_sweep.specs.Exact.{members_have_no_floats};
ghost use Rattle.lf_sweep.specs.Texts.{IsScenario, with_words};
ghost use Rattle.lf_sweep.specs.Combinations.{words_at};
ghost use Rattle.lf_sweep.specs.declared.counts.Counts.{Counts};
ghost use Rattle.lf_sweep_words.specs.declared.types.By.{By};
ghost use Rattle.leastfault_sweep.specs.Replies.{IsSweep};

use leastfault::replies_are_one;
use lf_sweep::texts_are_one;

/// A sweep of the same texts, of what varies, and of a part comes to the same lines and the same counts, by however many workers: where no
/// float stands in the scenario with the values of a combination. A scenario has no float at any of its keys.
pub fn sweeps_are_one()
    ensures { (protocol : Option (List ℕ)) (by : By) (scenario : List ℕ) (vs : List Varied) (part : Part) (one other : List ℕ) (counts more : Counts)
        → ((number : ℕ) (ms : Members) → IsScenario scenario ms → members_have_no_floats (with_words vs (words_at vs number) ms) ≡ true)
        → IsSweep protocol by scenario vs part one counts → IsSweep protocol by scenario vs part other more → (one ≡ other) × (counts ≡ more) }
{
    replies_are_one("");
    texts_are_one();
}
