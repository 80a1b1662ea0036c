//! Taking a set to work it.

ghost use Rattle.std.specs.Prelude.{◌≡◌, ℕ, ◌+◌, ◌<◌, if◌then◌else◌, List, length, Some};
ghost use Rattle.std.specs.List.{All};
ghost use Rattle.lf_marks.specs.Claims.{standing};
ghost use Rattle.lf_marks.specs.Marks.{mark_at, level_of, HasPlaces, IsNext, IsNextKid, LeadsToLast};
ghost use Rattle.lf_marks.specs.Room.{FitsNext, HasRoom};
ghost use Rattle.lf_marks.specs.Steps.{Took};
ghost use Rattle.lf_marks.specs.Steps as mark;

use crate::claim::Claim;
use crate::marks::Marks;
use crate::room::{Room, enlarge};
use crate::set::{Set, State};
use crate::sets::{add_kid, put_state};
use crate::steps::Steps;
use lf_tree::Node;
use std::sync::ledger::Ledger;

impl Marks {
    /// Claims the open set that `find_open` found, by a ticket that is larger than those of all claims. The room is what was made with its
    /// path. It takes no memory. It is one step: the set that it changes.
    pub fn claim<L: Ledger>(&mut self, ticket: u64, room: Room, steps: &mut Steps<L>)
        requires next { (p : List ℕ) × IsNext self.old p }
        requires room { HasRoom self.old room }
        requires above { (p : List ℕ) (t : ℕ) → mark_at self.old p ≡ Some (mark.Claimed t) → t < ticket }
        ensures took { (p : List ℕ) → IsNext self.old p → Took p ticket (mark_at self.old) (mark_at self.new) }
        ensures level { level_of self.new ≡ level_of self.old }
        ensures steps { steps.new ≡ steps.old + 1 }
    {
        let Room {
            sets,
            claims,
            coming,
            opened,
            kids,
        } = room;
        enlarge(&mut self.sets, sets);
        self.claims.enlarge(claims);
        enlarge(&mut self.coming, coming);
        enlarge(&mut self.opened, opened);
        steps.tick();
        if self.opened.is_empty() {
            self.claim_next(ticket, kids);
        } else {
            self.claim_again(ticket);
        }
    }

    /// Claims the last set that was given back.
    fn claim_again(&mut self, ticket: u64)
        requires some { 0 < length self.old.opened.items }
        requires room { HasPlaces self.old }
        requires above { All (λ c. c.ticket < ticket) (standing self.old.claims) }
        ensures took { (p : List ℕ) → LeadsToLast self.old.sets.items self.old.opened.items p
            → Took p ticket (mark_at self.old) (mark_at self.new) }
        ensures level { level_of self.new ≡ level_of self.old }
    {
        let place = self.opened[self.opened.len() - 1];
        let _ = self.opened.pop();
        put_state(&mut self.sets, place, State::Claimed(ticket));
        self.claims.add(Claim { ticket, place });
    }

    /// Claims the first set that nobody has taken, with the room for it beneath its branch.
    fn claim_next(&mut self, ticket: u64, larger: Option<Vec<Node>>)
        requires some { self.old.at < length self.old.queue.items }
        requires none { length self.old.opened.items ≡ 0 }
        requires room { HasPlaces self.old }
        requires kids { FitsNext self.old.sets.items self.old.queue.items self.old.at larger }
        requires above { All (λ c. c.ticket < ticket) (standing self.old.claims) }
        ensures took { (p : List ℕ) → IsNextKid self.old.sets.items self.old.queue.items self.old.at p
            → Took p ticket (mark_at self.old) (mark_at self.new) }
        ensures level { level_of self.new ≡ level_of self.old }
    {
        let parent = self.queue[self.at];
        let place = self.sets.len();
        let kid = self.taken(parent);
        let kids = self.kids(parent);
        add_kid(&mut self.sets, parent, place, larger);
        self.sets.push_reserved(Set {
            parent,
            kid,
            depth: self.level,
            state: State::Claimed(ticket),
        });
        self.claims.add(Claim { ticket, place });
        self.untaken -= 1;
        self.at = following(self.at, kid + 1 < kids);
    }
}

/// The place in a queue where the next kid is to be taken: the same as long as its branch has more.
fn following(at: usize, more: bool) -> usize
    requires { at < 9223372036854775808 }
    ensures { result ≡ (if more then at else at + 1) }
{
    if more { at } else { at + 1 }
}
