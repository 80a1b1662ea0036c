//! What the definitions of this crate promise: calls that compute nothing, whose contracts are the laws.

ghost use Rattle.std.specs.Prelude.{◌≡◌, ℕ, List, Option};
ghost use Rattle.lf_book.specs.Books.{state_of};
ghost use Rattle.lf_book.specs.declared.book.Book.{Book};
ghost use Rattle.lf_faults.specs.declared.fault.Parts.{Parts};
ghost use Rattle.lf_pool.specs.Solved.{IsFoundIn, IsFullBook};
ghost use Rattle.lf_outcome.specs.declared.scenario.Scenario.{Scenario};
ghost use Rattle.lf_tree.specs.declared.tree.Tree.{Tree};

/// What is answered for a scenario is one thing, whoever searched and by however many workers: one answer, one tree and one number of runs; or a
/// book that is full at one level, by one number of sets; and never both.
pub fn answers_are_one()
    ensures answer { (s : Scenario) (set other : Option (List Parts)) (tree second : Tree) (runs more : ℕ) → IsFoundIn s set tree runs →
        IsFoundIn s other second more → (set ≡ other) × (tree ≡ second) × (runs ≡ more) }
    ensures kind { (s : Scenario) (set : Option (List Parts)) (tree : Tree) (runs count : ℕ) (book : Book) → IsFoundIn s set tree runs →
        ¬ IsFullBook s count book }
    ensures full { (s : Scenario) (count more : ℕ) (book other : Book) → IsFullBook s count book → IsFullBook s more other →
        ((state_of book).level ≡ (state_of other).level) × (count ≡ more) }
{}
