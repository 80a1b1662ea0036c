//! What becomes of claims.

ghost use Rattle.std.specs.Prelude.{◌≡◌, ℕ, ◌+◌, ◌&&◌, ◌==◌, ◌<◌, ◌≤◌, List, length, Some, nat_lt, vec_capacity};
ghost use Rattle.lf_marks.specs.Answers.{mark_for};
ghost use Rattle.lf_marks.specs.Arena.{first_in, mark_in, taken_in};
ghost use Rattle.lf_marks.specs.Claims.{IsOfTicket, standing};
ghost use Rattle.lf_marks.specs.Marks.{mark_at, level_of};
ghost use Rattle.lf_marks.specs.Steps.{Answered, GaveBack, Reclaimed, IsMarked, kids_beneath};
ghost use Rattle.lf_marks.specs.Steps as mark;
ghost use Rattle.lf_marks.specs.Walks.{once, times};

use crate::claims::claim_of;
use crate::grown::{Answer, Grown};
use crate::marks::Marks;
use crate::set::State;
use crate::sets::put_state;

impl Marks {
    /// Answers the set that the ticket claims. It takes no memory.
    pub fn answer(&mut self, ticket: u64, answer: Answer)
        requires { IsMarked (mark_at self.old) (mark.Claimed ticket) }
        ensures answered { (p : List ℕ) → mark_at self.old p ≡ Some (mark.Claimed ticket)
            → Answered p ticket (mark_for answer) (mark_at self.old) (mark_at self.new) }
        ensures level { level_of self.new ≡ level_of self.old }
    {
        let Some(index) = claim_of(self.claims.standing(), ticket) else {
            unreachable!()
        };
        let place = self.claims.remove(index).place;
        let kids = kids_of(&answer);
        put_if(&mut self.coming, place, kids > 0);
        self.waiting += u64::from(kids);
        self.answered += 1;
        put_state(&mut self.sets, place, state_for(answer));
    }

    /// Opens the set again that the ticket claims. It takes no memory.
    pub fn give_back(&mut self, ticket: u64)
        requires { IsMarked (mark_at self.old) (mark.Claimed ticket) }
        ensures gave_back { (p : List ℕ) → mark_at self.old p ≡ Some (mark.Claimed ticket) → GaveBack p ticket (mark_at self.old) (mark_at self.new) }
        ensures level { level_of self.new ≡ level_of self.old }
    {
        let Some(index) = claim_of(self.claims.standing(), ticket) else {
            unreachable!()
        };
        self.free(index);
    }

    /// Opens the set of a claim again.
    fn free(&mut self, index: usize)
        requires { index < length (standing self.old.claims) }
        ensures gave_back { (p : List ℕ) (t : ℕ) → IsOfTicket (standing self.old.claims) t index → mark_at self.old p ≡ Some (mark.Claimed t)
            → GaveBack p t (mark_at self.old) (mark_at self.new) }
        ensures count { length (standing self.new.claims) + 1 ≡ length (standing self.old.claims) }
        ensures level { level_of self.new ≡ level_of self.old }
    {
        let place = self.claims.remove(index).place;
        self.opened.push_reserved(place);
        put_state(&mut self.sets, place, State::Open);
    }

    /// Opens all sets again that are claimed. It takes no memory, and time in proportion to the number of claims.
    pub fn reclaim(&mut self)
        ensures reclaimed { Reclaimed (mark_at self.old) (mark_at self.new) }
        ensures level { level_of self.new ≡ level_of self.old }
    {
        'claims: while self.claims.count() > 0 {
            let last = self.claims.count() - 1;
            self.free(last);
        }
    }
}

/// How many kids an answer brings.
fn kids_of(answer: &Answer) -> u32
    ensures value { result ≡ kids_beneath (mark_for answer.now) }
    ensures few { result ≤ 65535 }
{
    match answer {
        Answer::Misses | Answer::Reaches => 0,
        Answer::Branch(grown) => grown.branch.edges.len() as u32,
    }
}

/// The state of a set that was answered.
fn state_for(answer: Answer) -> State
    ensures mark { mark_in result ≡ mark_for answer }
    ensures first { first_in result ≡ 0 }
    ensures taken { taken_in result ≡ 0 }
{
    match answer {
        Answer::Misses => State::Misses,
        Answer::Reaches => State::Reaches,
        Answer::Branch(grown) => {
            let Grown { branch } = grown;
            State::Branch(branch)
        }
    }
}

/// Puts a place at the end of a list with room, if it is to stand there.
fn put_if(places: &mut Vec<usize>, place: usize, stands: bool)
    requires { length places.old.items < vec_capacity places.old }
    ensures times { (y : ℕ) → times y places.new.items ≡ times y places.old.items + once (stands && place == y) }
    ensures length { length places.new.items ≡ length places.old.items + once stands }
    ensures capacity { vec_capacity places.new ≡ vec_capacity places.old }
{
    if stands {
        places.push_reserved(place);
    }
}
