ghost use Rattle.std.specs.Prelude.{◌≡◌, ℕ, ◌*◌, ◌-◌, ◌<◌, ◌≤◌, slice_index, slice_set, IsTrue, ◌↔◌};
ghost use Rattle.lf_latency.specs.Links.{least_of, spread_of, set_entry, IsPair, IsLinks, link_of, is_pair, pair_entry, entry_at};

/// The delays of the links between nodes, in steps, by sender and then receiver.
///
/// At a place that is no pair of different nodes, the least delay is 1 and the spread 0.
#[derive(Clone, Copy, Debug, PartialEq, Eq)]
pub struct Links {
    /// The fewest steps that a note takes, 1 to 16.
    pub least: [[u32; 8]; 8],
    /// How many steps more it may take, 0 to 15.
    pub spread: [[u32; 8]; 8],
}

impl Links {
    /// The links between `nodes` nodes, 2 to 8, all with one least delay and one spread.
    pub fn new(nodes: u32, least: u32, spread: u32) -> Links
        requires nodes_at_least { 2 ≤ nodes }
        requires nodes_at_most { nodes ≤ 8 }
        requires least_at_least { 1 ≤ least }
        requires least_at_most { least ≤ 16 }
        requires spread_at_most { spread ≤ 15 }
        ensures form { IsLinks nodes result }
        ensures all_least { (n m : ℕ) → IsPair nodes n m → least_of result n m ≡ least }
        ensures all_spread { (n m : ℕ) → IsPair nodes n m → spread_of result n m ≡ spread }
    {
        Links {
            least: pair_table(nodes, least, 1),
            spread: pair_table(nodes, spread, 0),
        }
    }

    /// The same links, but for the one from `from` to `to`.
    pub fn with(self, from: u32, to: u32, least: u32, spread: u32) -> Links
        requires pair { IsPair 8 from to }
        requires least_at_least { 1 ≤ least }
        requires least_at_most { least ≤ 16 }
        requires spread_at_most { spread ≤ 15 }
        ensures form { (nodes : ℕ) → IsLinks nodes self → IsPair nodes from to → IsLinks nodes result }
        ensures least { result.least ≡ set_entry self.least from to least }
        ensures spread { result.spread ≡ set_entry self.spread from to spread }
        ensures least_here { least_of result from to ≡ least }
        ensures spread_here { spread_of result from to ≡ spread }
        ensures others { (n m : ℕ) → (n ≡ from → m ≡ to → ⊥) →
            (least_of result n m ≡ least_of self n m) × (spread_of result n m ≡ spread_of self n m) }
    {
        Links {
            least: with_entry(&self.least, from, to, least),
            spread: with_entry(&self.spread, from, to, spread),
        }
    }

    /// Whether these are the same delays.
    pub fn same(&self, other: &Links) -> bool
        ensures { IsTrue result ↔ (self.now ≡ other.now) }
    {
        same_table(&self.least, &other.least) && same_table(&self.spread, &other.spread)
    }
}

/// The table with one entry changed.
fn with_entry(table: &[[u32; 8]; 8], from: u32, to: u32, value: u32) -> [[u32; 8]; 8]
    requires from { from < 8 }
    requires to { to < 8 }
    ensures value { result ≡ set_entry table.now from to value }
    ensures here { entry_at result from to ≡ value }
{
    let mut changed = *table;
    changed[from as usize] = with_item(&table[from as usize], to, value);
    changed
}

/// The row with one item changed.
fn with_item(row: &[u32; 8], to: u32, value: u32) -> [u32; 8]
    requires { to < 8 }
    ensures value { result ≡ slice_set row.now to value }
    ensures here { slice_index result to ≡ value }
{
    let mut changed = *row;
    changed[to as usize] = value;
    changed
}

/// Whether two tables are equal.
fn same_table(one: &[[u32; 8]; 8], other: &[[u32; 8]; 8]) -> bool
    ensures { IsTrue result ↔ (one.now ≡ other.now) }
{
    one == other
}

/// A table with one value at each pair of different nodes, and another elsewhere.
fn pair_table(nodes: u32, value: u32, other: u32) -> [[u32; 8]; 8]
    ensures { (n m : ℕ) → n < 8 → m < 8 → entry_at result n m ≡ pair_entry nodes value other n m }
{
    let mut table = [[other; 8]; 8];
    for from in 0..8 {
        table[from as usize] = pair_row(nodes, from, value, other);
    }
    table
}

/// The row of one sender in such a table.
fn pair_row(nodes: u32, from: u32, value: u32, other: u32) -> [u32; 8]
    ensures { (m : ℕ) → m < 8 → slice_index result m ≡ pair_entry nodes value other from m }
{
    let mut row = [other; 8];
    for to in 0..8 {
        if is_pair(nodes, from, to) {
            row[to as usize] = value;
        }
    }
    row
}

/// Whether two numbers are different nodes, each below `nodes`.
pub fn is_pair(nodes: u32, from: u32, to: u32) -> bool
    ensures value { result ≡ is_pair nodes from to }
    ensures meaning { IsTrue result ↔ IsPair nodes from to }
{
    from != to && from < nodes && to < nodes
}

/// The number of the link from one node to another, among those of `nodes` nodes.
///
/// The links are numbered by sender, and then by receiver.
pub fn link(nodes: u32, from: u32, to: u32) -> u64
    requires nodes_at_least { 2 ≤ nodes }
    requires nodes_at_most { nodes ≤ 8 }
    requires pair { IsPair nodes from to }
    ensures value { result ≡ link_of nodes from to }
    ensures within { result < nodes * (nodes - 1) }
    ensures one_to_one { (a b c d : ℕ) → IsPair nodes a b → IsPair nodes c d →
        link_of nodes a b ≡ link_of nodes c d → (a ≡ c) × (b ≡ d) }
    ensures onto { (k : ℕ) → k < nodes * (nodes - 1) →
        (n : ℕ) × ((m : ℕ) × (IsPair nodes n m × (link_of nodes n m ≡ k))) }
{
    let place = if to < from { to } else { to - 1 };
    u64::from(from * (nodes - 1) + place)
}
