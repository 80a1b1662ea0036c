//! Room for what a claim adds.

ghost use Rattle.std.specs.Prelude.{◌≡◌, ℕ, ◌+◌, ◌^◌, ◌<◌, ◌≤◌, IfOk, length, vec_capacity};
ghost use Rattle.lf_marks.specs.Fits.{Fits};
ghost use Rattle.lf_marks.specs.Room.{FitsNext, HasRoom};

use crate::claim::Claim;
use crate::marks::Marks;
use crate::set::Set;
use crate::sets::kid_room;
use lf_tree::Node;
use std::alloc::AllocError;
use std::mem;

/// Larger lists, for those of a tree of marks that have no place for what one claim more adds.
#[derive(Drop)]
pub struct Room {
    /// For the sets that were taken.
    pub(crate) sets: Option<Vec<Set>>,
    /// For the claims.
    pub(crate) claims: Option<Vec<Claim>>,
    /// For the branches of the level with kids.
    pub(crate) coming: Option<Vec<usize>>,
    /// For the sets that were given back.
    pub(crate) opened: Option<Vec<usize>>,
    /// For the kids of the branch that the set stands beneath, where nobody has taken it.
    pub(crate) kids: Option<Vec<Node>>,
}

impl Marks {
    /// Room for one claim more, wherever it ends.
    pub(crate) fn room(&self) -> Result<Room, AllocError>
        ensures { IfOk result (HasRoom self.now) }
    {
        let claims = self.claims.count() + 1;
        Ok(Room {
            sets: larger(&self.sets, 1)?,
            claims: larger(&self.claims.list, 1)?,
            coming: larger(&self.coming, claims)?,
            opened: larger(&self.opened, claims)?,
            kids: self.kid_room()?,
        })
    }

    /// Room beneath its branch for the first set that nobody has taken, where the next claim takes it.
    fn kid_room(&self) -> Result<Option<Vec<Node>>, AllocError>
        ensures { IfOk result (λ kids. length self.now.opened.items ≡ 0 → FitsNext self.now.sets.items self.now.queue.items self.now.at kids) }
    {
        if !self.opened.is_empty() {
            return Ok(None);
        }
        if self.at >= self.queue.len() {
            return Ok(None);
        }
        kid_room(self.sets.as_slice(), self.queue[self.at])
    }
}

/// A larger list, where a list has no places for so many items more.
fn larger<T>(list: &Vec<T>, more: usize) -> Result<Option<Vec<T>>, AllocError>
    requires { length list.now.items + more < 2 ^ 64 }
    ensures { IfOk result (Fits list.now more) }
{
    let needed = list.len() + more;
    if needed <= list.capacity() {
        return Ok(None);
    }
    let capacity = needed.max(2 * list.capacity());
    Ok(Some(Vec::with_capacity(*list.allocator(), capacity)?))
}

/// Moves a list into the larger one, where there is one. It takes no memory.
pub(crate) fn enlarge<T: Drop>(list: &mut Vec<T>, larger: Option<Vec<T>>)
    requires { Fits list.old 0 larger }
    ensures items { list.new.items ≡ list.old.items }
    ensures places { (more : ℕ) → Fits list.old more larger → length list.new.items + more ≤ vec_capacity list.new }
{
    let Some(mut roomy) = larger else {
        return;
    };
    let Ok(()) = roomy.append(list) else {
        unreachable!()
    };
    mem::swap(list, &mut roomy);
}
