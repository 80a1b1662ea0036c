//! The beginning of a tree of marks, and its next level.

ghost use Rattle.std.specs.Prelude.{◌≡◌, ℕ, ◌+◌, ◌^◌, ◌<◌, List, [], Some, None, IfOk};
ghost use Rattle.lf_marks.specs.Marks.{mark_at, level_of, waiting_of};
ghost use Rattle.lf_marks.specs.Steps.{IsUnmarked, WentDown, only_root};
ghost use Rattle.lf_marks.specs.Steps as mark;

use crate::claim::Claims;
use crate::marks::Marks;
use crate::set::{Set, State};
use std::alloc::{AllocError, Global};
use std::mem;

impl Marks {
    /// The root alone, open, on level 0.
    pub fn new(alloc: Global) -> Result<Marks, AllocError>
        ensures root { IfOk result (λ m. (p : List ℕ) → mark_at m p ≡ only_root p) }
        ensures level { IfOk result (λ m. level_of m ≡ 0) }
    {
        let mut sets = Vec::with_capacity(alloc, 1)?;
        let mut opened = Vec::with_capacity(alloc, 1)?;
        sets.push(Set {
            parent: 0,
            kid: 0,
            depth: 0,
            state: State::Open,
        })?;
        opened.push(0)?;
        Ok(Marks {
            level: 0,
            start: 0,
            sets,
            queue: Vec::new(alloc),
            at: 0,
            coming: Vec::new(alloc),
            opened,
            claims: Claims::new(alloc),
            untaken: 0,
            waiting: 0,
            answered: 0,
        })
    }

    /// Lowers the level by one: the sets that wait are open. No set may be open or claimed, fewer than 2^32 may wait, and the level
    /// may be at most 15. It looks at no set.
    pub fn go_down(&mut self)
        requires done { IsUnmarked (mark_at self.old) mark.Open }
        requires free { (t : ℕ) → IsUnmarked (mark_at self.old) (mark.Claimed t) }
        requires few { waiting_of self.old < 2 ^ 32 }
        requires high { level_of self.old < 16 }
        ensures went_down { WentDown (mark_at self.old) (mark_at self.new) }
        ensures level { level_of self.new ≡ level_of self.old + 1 }
    {
        mem::swap(&mut self.queue, &mut self.coming);
        self.coming.clear();
        self.at = 0;
        self.start = self.sets.len();
        self.level += 1;
        self.untaken = self.waiting;
        self.waiting = 0;
    }
}
