//! What the definitions of this crate promise: calls that compute nothing, whose contracts are the laws.

ghost use Rattle.std.specs.Prelude.{◌≡◌, ◌<◌, ℕ, List, true};
ghost use Rattle.toml.specs.Data.{Members};
ghost use Rattle.lf_sweep.specs.declared.varied.Varied.{Varied};
ghost use Rattle.lf_sweep.specs.Combinations.{ArePlaces, combinations, number_of, places_at};
ghost use Rattle.lf_sweep.specs.Exact.{members_have_no_floats};
ghost use Rattle.lf_sweep.specs.Texts.{IsScenario, IsTextWith, with_words};

/// The combination with a number has one place of each that varies, whose digits the number has; and there is no other.
pub fn combinations_are_numbered()
    ensures places { (vs : List Varied) (n : ℕ) → n < combinations vs → ArePlaces vs (places_at vs n) × (number_of vs (places_at vs n) ≡ n) }
    ensures one { (vs : List Varied) (ds : List ℕ) → ArePlaces vs ds → places_at vs (number_of vs ds) ≡ ds }
{}

/// A combination has one text: where no float stands in the scenario with its values, two texts of it are the same.
pub fn texts_are_one()
    ensures { (scenario : List ℕ) (vs : List Varied) (words : List (List ℕ)) (one other : List ℕ)
        → ((ms : Members) → IsScenario scenario ms → members_have_no_floats (with_words vs words ms) ≡ true)
        → IsTextWith scenario vs words one → IsTextWith scenario vs words other → one ≡ other }
{}
