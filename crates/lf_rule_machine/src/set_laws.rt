//! What the definitions of sets mean in other words: laws, each the contract of a call that computes nothing.

ghost use Rattle.std.specs.Prelude.{◌≡◌, ℕ, ◌<◌, ◌≤◌, not, ◌&&◌, ◌||◌, ◌==◌, nat_lt, nat_le, true, false};
ghost use Rattle.lf_rule_machine.specs.Sets.{has, either, both, without, below, between, only, lowest, highest};

/// Which nodes a set has, for each way to make one.
pub fn sets_have_their_members()
    ensures either { (s g n : ℕ) → n < 8 → has (either s g) n ≡ (has s n || has g n) }
    ensures both { (s g n : ℕ) → n < 8 → has (both s g) n ≡ (has s n && has g n) }
    ensures without { (s g n : ℕ) → n < 8 → has (without s g) n ≡ (has s n && not (has g n)) }
    ensures below { (m n : ℕ) → n < 8 → has (below m) n ≡ nat_lt n m }
    ensures between { (nodes a b n : ℕ) → n < 8 → has (between nodes a b) n ≡ (nat_le a n && (nat_le n b && nat_lt n nodes)) }
    ensures only { (nodes m n : ℕ) → n < 8 → has (only nodes m) n ≡ ((n == m) && nat_lt n nodes) }
    ensures far { (s n : ℕ) → 8 ≤ n → has s n ≡ false }
{}

/// Which node of a set is its lowest, and which its highest.
pub fn sets_have_ends()
    ensures lowest { (nodes s n : ℕ) → n < 8 → has s n ≡ true → ((k : ℕ) → k < n → has s k ≡ false) → lowest nodes s ≡ n }
    ensures highest { (nodes s n : ℕ) → n < 8 → has s n ≡ true → ((k : ℕ) → n < k → has s k ≡ false) → highest nodes s ≡ n }
    ensures no_lowest { (nodes s : ℕ) → ((k : ℕ) → has s k ≡ false) → lowest nodes s ≡ nodes }
    ensures no_highest { (nodes s : ℕ) → ((k : ℕ) → has s k ≡ false) → highest nodes s ≡ nodes }
{}
