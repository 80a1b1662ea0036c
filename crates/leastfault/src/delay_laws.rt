//! What the replies over every delay promise of one another, and of the runs that play them again: calls whose contracts are the laws.

ghost use Rattle.std.specs.Prelude.{◌≡◌, ℕ, List, Option};
ghost use Rattle.lf_protocol_file.specs.declared.declared.Declared.{Declared};
ghost use Rattle.leastfault.specs.Delayed.{IsEveryDelayReply, RepliesEveryDelay};
ghost use Rattle.leastfault.specs.Known.{IsTextOf};
ghost use Rattle.leastfault.specs.Replays.{AgreeButForDelays, IsReplayed};

use crate::laws::limits_are_kept;
use lf_delays::delays_are_one;
use lf_latency::keeps_limits;
use lf_outcome::Scenario;
use lf_trace::names_are_one;

/// A text has at most one answer over every delay: the replies that tell it have one status, one first line and the same faults. Which notes come
/// late may differ.
pub fn every_delay_replies_are_one()
    ensures { (known : Option Declared) (text one other : List ℕ) (m n : ℕ) →
        IsEveryDelayReply known text one m → IsEveryDelayReply known text other n → AgreeButForDelays one other × (m ≡ n) }
{}

/// A `least` reply that tells the answer over every delay to a scenario is played again by `run`, by the words that name its faults and those that
/// name its delays: that ends in `misses`, with status 1.
pub fn every_delay_replies_replay(scenario: &Scenario, faults: &str)
    ensures { (known : Option Declared) (text reply : List ℕ) → IsTextOf known scenario.now text → RepliesEveryDelay scenario.now reply 1 →
        IsReplayed known faults.now text scenario.now reply }
{
    let setting = scenario.setting();
    keeps_limits(&setting.network);
    limits_are_kept(&setting.spec);
    delays_are_one();
    names_are_one(faults);
}
