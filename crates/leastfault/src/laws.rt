//! What the definitions of this crate promise, for every scenario and every text: calls whose contracts are the laws.

ghost use Rattle.lf_book.specs.Ends.{IsFull};
ghost use Rattle.std.specs.Prelude.{◌≡◌, ◌⊎◌, ◌++◌, ℕ, Bool, List, Option, length, slice_get};
ghost use Rattle.lf_protocol_file.specs.declared.declared.Declared.{Declared};
ghost use Rattle.leastfault.specs.Known.{IsTextOf};
ghost use Rattle.std.specs.List.{Contains};
ghost use Rattle.lf_faults.specs.Allowed.{IsInLimits};
ghost use Rattle.lf_faults.specs.declared.fault.Parts.{Parts};
ghost use Rattle.lf_outcome.specs.declared.scenario.Scenario.{Scenario};
ghost use Rattle.lf_tree.specs.declared.tree.Tree.{Tree};
ghost use Rattle.leastfault.specs.Answers.{AreLeastSets, IsAnswer, IsLeast};
ghost use Rattle.leastfault.specs.Commands.{HasOneEnd, IsCertified};
ghost use Rattle.leastfault.specs.Protocols.{IsProtocolReply};
ghost use Rattle.leastfault.specs.Replies.{RepliesAll, RepliesReport};
ghost use Rattle.leastfault.specs.Replies.{HandsOut, HasOneReply, HasOneStatus, IsAllReply, IsAnswerReply, IsCheckReply, IsRunReply, IsSearchReply, IsTreeText};
ghost use Rattle.leastfault.specs.Reports.{yes_line};
ghost use Rattle.leastfault.specs.Shown.{HasOneShown, IsDrawnReply, IsShownReply, NamesOnce};
ghost use Rattle.leastfault.specs.Why.{IsWhyReply};

use lf_faults::{FaultSpec, orders_are_total};
use lf_protocol_file::refusals_are_one;
use lf_trace::names_are_one;
use lf_tree::texts_are_json;
use lf_words::Shown;

/// A scenario has at most one answer. Every allowed set with fewer faults than the answer reaches the outcome; where the answer is none,
/// every allowed set does.
pub fn answers_are_one()
    ensures one { (s : Scenario) (x y : Option (List Parts)) → IsAnswer s x → IsAnswer s y → x ≡ y }
    ensures least { (s : Scenario) (x : Option (List Parts)) → IsAnswer s x → IsLeast s x }
{}

/// A scenario has at most one list of all least sets. The answer is the first of them, or none where there is none, and they have as
/// many faults as it.
pub fn least_sets_are_one()
    ensures one { (s : Scenario) (xs ys : List (List Parts)) → AreLeastSets s xs → AreLeastSets s ys → xs ≡ ys }
    ensures first { (s : Scenario) (answer : Option (List Parts)) (sets : List (List Parts)) → IsAnswer s answer → AreLeastSets s sets →
        answer ≡ slice_get sets 0 }
    ensures size { (s : Scenario) (sets : List (List Parts)) (one other : List Parts) → AreLeastSets s sets → Contains sets one → Contains sets other →
        length one ≡ length other }
{
    orders_are_total();
}

/// A text has at most one reply of a search that reports the answer, and one of a search that reports all least sets, both with one
/// status and one tree that is handed out, and each one with a certificate, which is one too; one that tells the answer alone, which is
/// that of the search unless a level of it is too full; one that tells why, which begins with that of the search; and with these words at
/// most one of a run. So it is whichever protocol is known besides the shipped ones.
pub fn replies_are_one(faults: &str)
    ensures search { (known : Option Declared) (text : List ℕ) → HasOneReply (IsSearchReply known text) }
    ensures all { (known : Option Declared) (text : List ℕ) → HasOneReply (IsAllReply known text) }
    ensures answer { (known : Option Declared) (text : List ℕ) → HasOneReply (IsAnswerReply known text) }
    ensures agree { (known : Option Declared) (text one other : List ℕ) (m n : ℕ) → IsSearchReply known text one m → IsAnswerReply known text other n →
        ((one ≡ other) × (m ≡ n)) ⊎ ((s : Scenario) × (level : ℕ) × (count : ℕ) × IsTextOf known s text × IsFull s level count) }
    ensures status { (known : Option Declared) (text one other : List ℕ) (m n : ℕ) → IsSearchReply known text one m → IsAllReply known text other n → m ≡ n }
    ensures tree { (known : Option Declared) (text : List ℕ) (status : ℕ) (one other : Option Tree) → HandsOut known text one status →
        HandsOut known text other status → one ≡ other }
    ensures certified { (known : Option Declared) (text : List ℕ) → HasOneEnd (IsCertified known RepliesReport text) }
    ensures certified_all { (known : Option Declared) (text : List ℕ) → HasOneEnd (IsCertified known RepliesAll text) }
    ensures run { (known : Option Declared) (rules : Bool) (text : List ℕ) → HasOneReply (IsRunReply known rules faults.now text) }
    ensures why { (known : Option Declared) (text : List ℕ) → HasOneReply (IsWhyReply known text) }
    ensures begins { (known : Option Declared) (text reply : List ℕ) (status : ℕ) → IsWhyReply known text reply status →
        (report : List ℕ) × (lines : List ℕ) × IsSearchReply known text report status × (reply ≡ report ++ lines) }
{
    orders_are_total();
    names_are_one(faults);
}

/// A text has at most one reply of a run that is told as it is asked, by the seed or where notes arrive as words say: its trace, with rules or
/// without, what changes in it, and the lines in which it differs from another run. Of a JSON document and of a picture, whose texts no
/// contract tells, the status is one, and so are the refusals. So it is whichever protocol is known besides the shipped ones.
pub fn shown_replies_are_one(shown: &Shown, faults: &str)
    ensures shown { (known : Option Declared) (delays : Option (List ℕ)) (text : List ℕ) →
        HasOneShown shown.now (IsShownReply known shown.now delays faults.now text) }
    ensures drawn { (known : Option Declared) (delays : Option (List ℕ)) (text : List ℕ) → HasOneStatus (IsDrawnReply known delays faults.now text) }
{
    names_are_one(faults);
    names_once(shown);
}

/// The words for the set beside a run name one set at most.
fn names_once(shown: &Shown)
    ensures { NamesOnce shown.now }
{
    match shown {
        Shown::Beside(words) => names_are_one(words.as_str()),
        Shown::Whole | Shown::Rules | Shown::Changes | Shown::Json => (),
    }
}

/// The texts of a scenario and of a tree have at most one reply of a check, with one status.
pub fn check_replies_are_one()
    ensures { (known : Option Declared) (text certificate : List ℕ) → HasOneReply (IsCheckReply known text certificate) }
{
    texts_are_json();
}

/// A text has at most one reply as that of a protocol file, with one status.
pub fn protocol_replies_are_one()
    ensures { (text : List ℕ) → HasOneReply (IsProtocolReply text) }
{
    refusals_are_one();
}

/// What `yes` says, whoever made the certificate: the texts are those of a scenario and of a tree, and the tree's answer is
/// the answer to the scenario: it is allowed, its run misses the outcome, and every allowed set with fewer faults reaches it;
/// or it is none, and every allowed set reaches. The status 0 says the same.
pub fn yes_is_the_answer()
    ensures yes { (known : Option Declared) (text certificate : List ℕ) (status : ℕ) → IsCheckReply known text certificate yes_line status →
        (s : Scenario) × (tree : Tree) × IsTextOf known s text × IsTreeText tree certificate
        × IsAnswer s tree.answer × IsLeast s tree.answer }
    ensures zero { (known : Option Declared) (text certificate reply : List ℕ) → IsCheckReply known text certificate reply 0 → reply ≡ yes_line }
{}

/// Bounds keep their limits. Their type says so, and a call of this tells it to the prover.
pub(crate) fn limits_are_kept(spec: &FaultSpec)
    ensures { IsInLimits spec.now }
{
    let _nodes = spec.nodes();
}
