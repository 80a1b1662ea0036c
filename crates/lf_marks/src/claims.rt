//! The claims of a tree of marks.

ghost use Rattle.std.specs.Prelude.{◌≢◌, MatchOption};
ghost use Rattle.std.specs.List.{All};
ghost use Rattle.lf_marks.specs.Claims.{AreAscending, IsOfTicket};

use crate::claim::{Claim, Claims};
use crate::room::enlarge;
use std::alloc::Global;

/// How many claims may have ended at the front of a list before the others move there.
const MOST_GONE: usize = 128;

impl Claims {
    ghost use Rattle.std.specs.Prelude.{◌≡◌, ◌+◌, ◌<◌, ◌++◌, ◌∷◌, [], length, slice_index_or, vec_capacity};
    ghost use Rattle.std.specs.List.{remove};
    ghost use Rattle.lf_marks.specs.Claims.{standing};
    ghost use Rattle.lf_marks.specs.Fits.{Fits};

    /// No claim.
    pub(crate) fn new(alloc: Global) -> Claims
        ensures { standing result ≡ [] }
    {
        Claims {
            list: Vec::new(alloc),
            gone: 0,
        }
    }

    /// The claims that stand.
    pub(crate) fn standing(&self) -> &[Claim]
        ensures { result.now ≡ standing self.now }
    {
        &self.list[self.gone..]
    }

    /// How many claims stand.
    pub(crate) fn count(&self) -> usize
        ensures { result ≡ length (standing self.now) }
    {
        self.list.len() - self.gone
    }

    /// Moves the claims into the larger list, where there is one. It takes no memory.
    pub(crate) fn enlarge(&mut self, larger: Option<Vec<Claim>>)
        requires { Fits self.old.list 1 larger }
        ensures same { standing self.new ≡ standing self.old }
        ensures places { length self.new.list.items < vec_capacity self.new.list }
    {
        enlarge(&mut self.list, larger);
    }

    /// One claim more stands, by a ticket above all others.
    pub(crate) fn add(&mut self, claim: Claim)
        requires { length self.old.list.items < vec_capacity self.old.list }
        ensures items { standing self.new ≡ standing self.old ++ claim ∷ [] }
        ensures count { length (standing self.new) ≡ length (standing self.old) + 1 }
    {
        self.list.push_reserved(claim);
    }

    /// Ends the claim at a place among those that stand.
    pub(crate) fn remove(&mut self, index: usize) -> Claim
        requires { index < length (standing self.old) }
        ensures value { result ≡ slice_index_or (standing self.old) index result }
        ensures items { standing self.new ≡ remove (standing self.old) index }
        ensures count { length (standing self.new) + 1 ≡ length (standing self.old) }
    {
        if index > 0 {
            return self.list.remove(self.gone + index);
        }
        let first = self.list[self.gone];
        self.gone += 1;
        self.tidy();
        first
    }

    /// Uses the memory of claims that have ended again, where there are no others or many.
    fn tidy(&mut self)
        ensures { standing self.new ≡ standing self.old }
    {
        let rest = self.list.len() - self.gone;
        if rest == 0 {
            self.list.clear();
            self.gone = 0;
        } else if self.gone >= MOST_GONE {
            self.list.as_mut_slice().rotate_left(self.gone);
            self.list.truncate(rest);
            self.gone = 0;
        }
    }
}

/// Which claim is the ticket's, of claims in the order of their tickets. It looks at few of them, halving what is left each time.
pub(crate) fn claim_of(claims: &[Claim], ticket: u64) -> Option<usize>
    requires { AreAscending claims.now }
    ensures { MatchOption result (All (λ c. c.ticket ≢ ticket) claims.now) (IsOfTicket claims.now ticket) }
{
    claims
        .binary_search_by_key(&ticket, |claim| claim.ticket)
        .ok()
}
