//! What the definitions of this crate promise, for every value: calls that compute nothing, whose contracts are the laws.

ghost use Rattle.std.specs.Prelude.{◌≡◌, ◌<◌, ℕ, List, Option, Bool};
ghost use Rattle.std.specs.declared.cmp.Ordering.TheVariants.{Equal};
ghost use Rattle.std.specs.Cmp.{IsTotalOrder};
ghost use Rattle.lf_faults.specs.declared.fault.Parts.{Parts};
ghost use Rattle.lf_faults.specs.Faults.{IsAscending, fault_cmp, set_cmp};
ghost use Rattle.lf_faults.specs.Allowed.{Bounds, IsInLimits, IsAllowed, IsSubset, IsNext, IsWalkFrom, IsFirst};

/// The orders of faults and of sets are total, and tell apart what differs.
pub fn orders_are_total()
    ensures faults { IsTotalOrder fault_cmp }
    ensures faults_apart { (f g : Parts) → fault_cmp f g ≡ Equal → f ≡ g }
    ensures sets { IsTotalOrder set_cmp }
    ensures sets_apart { (fs gs : List Parts) → set_cmp fs gs ≡ Equal → fs ≡ gs }
{}

/// Every subset of an allowed set is allowed.
pub fn subsets_are_allowed()
    ensures { (b : Bounds) (large small : List Parts) → IsAllowed b large → IsAscending small → IsSubset small large → IsAllowed b small }
{}

/// There is at most one first allowed set with a property, for every property.
pub fn first_set_is_one()
    ensures { (b : Bounds) (misses : List Parts → Bool) (x y : Option (List Parts)) → IsFirst b misses x → IsFirst b misses y → x ≡ y }
{}

/// From each allowed set there is one walk over the sets that follow it, and a loop that takes the next set at each step
/// ends: each step lessens a number of the set.
pub fn walks_end()
    ensures exists { (b : Bounds) (here : List Parts) → IsInLimits b → IsAllowed b here → (sets : List (List Parts)) × IsWalkFrom b here sets }
    ensures one { (b : Bounds) (here : List Parts) (xs ys : List (List Parts)) → IsWalkFrom b here xs → IsWalkFrom b here ys → xs ≡ ys }
    ensures ends { (left : List Parts → ℕ)
        × ((b : Bounds) (here next : List Parts) → IsInLimits b → IsAllowed b here → IsNext b here next → left next < left here) }
{}
