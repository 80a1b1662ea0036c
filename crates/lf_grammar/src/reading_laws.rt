//! What the grammar promises of all tokens: laws, each the contract of a call that computes nothing.

ghost use Rattle.std.specs.Prelude.{◌≡◌, ◌<◌, ℕ, List, [], Some};
ghost use Rattle.lf_rules.specs.Sorts.{tree_sort};
ghost use Rattle.lf_rules.specs.Terms.{Term};
ghost use Rattle.lf_rules.specs.declared.expr.Leaf.{Leaf};
ghost use Rattle.lf_rules.specs.declared.sort.Sort.{Sort};
ghost use Rattle.lf_grammar.specs.declared.token.Token.{Token};
ghost use Rattle.lf_grammar.specs.Bracketed.{bracketed, IsPlain, IsWritable};
ghost use Rattle.lf_grammar.specs.Expressions.{Next, read, steps, found, first_truth};
ghost use Rattle.lf_grammar.specs.Places.{Context};

/// Each number of steps that is enough reads the same, whatever is to be read, wherever it stands, and whatever the tokens are. So it is of no account which
/// one the definitions of what comes first take.
pub fn enough_steps_read_the_same()
    ensures { (at : Context) (m n : ℕ) (next : Next) (tokens : List Token) → steps next tokens < m → steps next tokens < n →
        read at m next tokens ≡ read at n next tokens }
{}

/// An expression that is written with every bracket is read back: the grammar reads this expression of it, of its sort, and nothing is left.
///
/// It holds wherever an expression stands where no name means `not` or what a call says, for every expression that has a sort there, whose leaves, tables and
/// constants have names that mean them, and that divides by nothing but what the language lets it divide by.
pub fn bracketed_is_read_back()
    ensures { (at : Context) (name : Leaf → List ℕ) (e : Term) (sort : Sort) → IsPlain at → IsWritable name at e →
        tree_sort at.definition at.scope at.within e ≡ Some sort → first_truth at (bracketed name e) ≡ found (record { term = e; sort = sort }) [] }
{}
