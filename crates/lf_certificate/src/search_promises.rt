//! What the definitions of this crate promise: calls that compute nothing, whose contracts are the laws.

ghost use Rattle.std.specs.Prelude.{◌≡◌, ◌↔◌, ℕ, ◌+◌, ◌≤◌, true, List, Some, IsSome, Option};
ghost use Rattle.std.specs.List.{Contains};
ghost use Rattle.lf_faults.specs.declared.fault.Parts.{Parts};
ghost use Rattle.lf_faults.specs.declared.spec.Bounds.{Bounds};
ghost use Rattle.lf_sim.specs.Runs.{World};
ghost use Rattle.lf_outcome.specs.declared.formula.Formula.{Formula};
ghost use Rattle.lf_tree.specs.declared.tree.Node.{Node};
ghost use Rattle.lf_certificate.specs.Accepted.{IsBounded, IsAnswer};
ghost use Rattle.lf_certificate.specs.Grown.{IsTreeOf};
ghost use Rattle.lf_marks.specs.Nodes as nodes;
ghost use Rattle.lf_marks.specs.Steps.{Mark, IsShape};
ghost use Rattle.lf_certificate.specs.Closed.{IsClosed, IsFirstMissing, MissesAt};
ghost use Rattle.lf_certificate.specs.Events.{TakesSet, FilesMark, GivesBack, Reclaims, FindsAnswer, FindsNone, FindsFull, GoesDown};
ghost use Rattle.lf_certificate.specs.Found.{IsFound};
ghost use Rattle.lf_certificate.specs.Levels.{AreAscending, AreAllLeast, IsFullAt};
ghost use Rattle.lf_certificate.specs.States.{State, IsStart};
ghost use Rattle.lf_certificate.specs.Tasks.{Task, task_at};

/// Every event of a search leaves a closed state closed, whichever open set is taken and whenever it is answered. Of marks it asks
/// besides that they have the shape of a tree, which every tree of marked sets keeps. In a closed state no set stands twice.
pub fn searches_stay_closed<Local, Note, Fact>()
    ensures start { (w : World Local Note Fact) (b : Bounds) (formula : Formula Fact) (most : ℕ) (s : State) →
        1 ≤ most → IsStart s → IsShape s.level s.marks → IsClosed w b formula most s }
    ensures take { (w : World Local Note Fact) (b : Bounds) (formula : Formula Fact) (most : ℕ) (old new : State)
        (path : List ℕ) (ticket : ℕ) (task : Task) → IsClosed w b formula most old → TakesSet path ticket task old new →
        IsShape new.level new.marks → IsClosed w b formula most new }
    ensures file { (w : World Local Note Fact) (b : Bounds) (formula : Formula Fact) (most : ℕ) (old new : State)
        (path : List ℕ) (ticket : ℕ) (task : Task) (m : Mark) → IsClosed w b formula most old → FilesMark path ticket task m old new →
        IsFound w b formula task.faults task.excluded m → IsShape new.level new.marks → IsClosed w b formula most new }
    ensures give_back { (w : World Local Note Fact) (b : Bounds) (formula : Formula Fact) (most : ℕ) (old new : State)
        (path : List ℕ) (ticket : ℕ) (task : Task) → IsClosed w b formula most old → GivesBack path ticket task old new →
        IsShape new.level new.marks → IsClosed w b formula most new }
    ensures reclaim { (w : World Local Note Fact) (b : Bounds) (formula : Formula Fact) (most : ℕ) (old new : State) →
        IsClosed w b formula most old → Reclaims old new → IsShape new.level new.marks → IsClosed w b formula most new }
    ensures answer { (w : World Local Note Fact) (b : Bounds) (formula : Formula Fact) (most : ℕ) (old new : State) →
        IsClosed w b formula most old → FindsAnswer old new → IsClosed w b formula most new }
    ensures none { (w : World Local Note Fact) (b : Bounds) (formula : Formula Fact) (most : ℕ) (old new : State) →
        IsClosed w b formula most old → FindsNone b old new → IsClosed w b formula most new }
    ensures down { (w : World Local Note Fact) (b : Bounds) (formula : Formula Fact) (most : ℕ) (old new : State) →
        IsClosed w b formula most old → GoesDown b most old new → IsShape new.level new.marks → IsClosed w b formula most new }
    ensures once { (w : World Local Note Fact) (b : Bounds) (formula : Formula Fact) (most : ℕ) (s : State) (p q : List ℕ) (t u : Task) →
        IsClosed w b formula most s → IsSome (s.marks p) → IsSome (s.marks q) → task_at s.marks p ≡ Some t → task_at s.marks q ≡ Some u →
        t.faults ≡ u.faults → p ≡ q }
{}

/// What a search finds that ended: the answer, by runs alone, and the one tree of the search; it was full at no level; the sets that miss
/// are all the least sets. A search that is full has seen that every allowed set with fewer faults than the next level reaches.
pub fn searches_find_the_answer<Local, Note, Fact>()
    ensures answer { (w : World Local Note Fact) (b : Bounds) (formula : Formula Fact) (most : ℕ) (s : State) (answer : Option (List Parts)) →
        IsBounded w b → IsClosed w b formula most s → s.finished ≡ true → IsFirstMissing s.marks answer → IsAnswer w b formula answer }
    ensures tree { (w : World Local Note Fact) (b : Bounds) (formula : Formula Fact) (most : ℕ) (s : State) (answer : Option (List Parts))
        (root : Node) → IsBounded w b → IsClosed w b formula most s → s.finished ≡ true → IsFirstMissing s.marks answer →
        nodes.IsTreeOf s.level s.marks root → IsTreeOf w b formula (record { answer = answer; root = root }) }
    ensures full { (w : World Local Note Fact) (b : Bounds) (formula : Formula Fact) (most count : ℕ) (old new : State) →
        IsBounded w b → IsClosed w b formula most old → FindsFull b most count old new → IsFullAt w b formula most (old.level + 1) count }
    ensures never_full { (w : World Local Note Fact) (b : Bounds) (formula : Formula Fact) (most : ℕ) (s : State) (k count : ℕ) →
        IsBounded w b → IsClosed w b formula most s → s.finished ≡ true → ¬ IsFullAt w b formula most k count }
    ensures least { (w : World Local Note Fact) (b : Bounds) (formula : Formula Fact) (most : ℕ) (s : State) (sets : List (List Parts)) →
        IsBounded w b → IsClosed w b formula most s → s.finished ≡ true → AreAscending sets →
        ((faults : List Parts) → Contains sets faults ↔ MissesAt s.marks faults) → AreAllLeast w b formula sets }
{}
