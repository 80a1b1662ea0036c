//! The laws of the grammars at texts that are read: each call cites a law, and has no premise left.

ghost use Rattle.std.specs.Prelude.{◌≡◌, ◌+◌, suc, Bool, [], codes, IfOk, Ok};
ghost use Rattle.lf_rules.specs.Terms as terms;
ghost use Rattle.lf_rules.specs.declared.expr.Binary.TheVariants as twos;
ghost use Rattle.lf_rules.specs.declared.expr.Leaf.TheVariants as leaves;
ghost use Rattle.lf_rules.specs.declared.expr.Over.TheVariants as overs;
ghost use Rattle.lf_rules.specs.declared.expr.Unary.TheVariants as ones;
ghost use Rattle.lf_rules.specs.declared.sort.Scope.TheVariants as scopes;
ghost use Rattle.lf_rules.specs.declared.sort.Within.TheVariants as withins;
ghost use Rattle.lf_rules.specs.declared.sort.Sort.TheVariants as sorts;
ghost use Rattle.lf_grammar.specs.Tokens.{tokens_of};
ghost use Rattle.lf_grammar.specs.Bracketed.{bracketed};
ghost use Rattle.lf_grammar.specs.Expressions.{first_truth, found};
ghost use Rattle.lf_grammar.specs.Expressions as expressions;
ghost use Rattle.lf_grammar.specs.Places.{Context, context_of};
ghost use Rattle.lf_grammar.specs.Readings.{said};
ghost use Rattle.lf_promises.specs.Promises as promises;
ghost use Rattle.reading_examples.specs.Rows.{in_a_rule, one_more, name_of};

use crate::build::{agrees, definition};
use lf_grammar::{
    Place, Token, TokenError, Typed, Unread, bracketed_is_read_back, enough_steps_read_the_same,
    read_tokens, read_truth,
};
use lf_rules::{Definition, Scope, Within};
use std::alloc::Global;

/// Where no name is declared, in a rule that is on no note.
fn place(definition: &Definition) -> Place<'_>
    ensures { context_of result ≡ record { definition = definition.now; fields = []; names = []; scope = scopes.Plain; within = withins.Nothing } }
{
    Place {
        definition,
        names: &[],
        fields: &[],
        scope: Scope::Plain,
        within: Within::Nothing,
    }
}

/// The expression of a text that has every bracket: a set of one node and a body, in which that node is `it`.
fn read_back<'t>(
    alloc: Global,
    definition: &Definition,
    tokens: &'t [Token],
) -> Result<(Typed, &'t [Token]), Unread>
    requires { tokens_of (codes "max({1}: ((it + t) mod nodes))") ≡ Ok tokens.now }
    ensures { IfOk result (λ r. said r.0 ≡ record {
      term = terms.Over overs.Greatest (terms.Unary ones.Only (terms.Leaf (leaves.Number 1)))
          (terms.Binary twos.Remainder (terms.Binary twos.Add (terms.Leaf leaves.It) (terms.Leaf leaves.Step)) (terms.Leaf leaves.Nodes));
      sort = sorts.Number;
    }) }
{
    bracketed_is_read_back();
    let place = place(definition);
    read_truth(alloc, &place, tokens)
}

/// The same of a text with a table's cell and a constant's item, where both have names.
fn row_read_back()
    ensures written { tokens_of (codes "(next[timeout[1]] + 1)") ≡ Ok (bracketed name_of one_more) }
    ensures read { first_truth in_a_rule (bracketed name_of one_more) ≡ found (record { term = one_more; sort = sorts.Number }) [] }
{
    bracketed_is_read_back()
}

/// Whether it is read.
fn is_read_back(alloc: Global, definition: &Definition) -> bool {
    match read_tokens(alloc, "max({1}: ((it + t) mod nodes))".as_bytes()) {
        Ok(tokens) => read_back(alloc, definition, tokens.as_slice()).is_ok(),
        Err(_) => false,
    }
}

/// The tokens of a text. Whatever is read of them, as an expression or as a promise, ninety steps more than are enough read the same.
fn tokens(alloc: Global, text: &[u8]) -> Result<Vec<Token>, TokenError>
    ensures expressions { IfOk result (λ ts. (at : Context) (next : expressions.Next)
        → expressions.read at (suc (expressions.steps next ts.items)) next ts.items
        ≡ expressions.read at (91 + expressions.steps next ts.items) next ts.items) }
    ensures promises { IfOk result (λ ts. (at : Context) (timed : Bool) (next : promises.Next)
        → promises.read at (suc (promises.steps next ts.items)) timed next ts.items
        ≡ promises.read at (91 + promises.steps next ts.items) timed next ts.items) }
{
    enough_steps_read_the_same();
    lf_promises::enough_steps_read_the_same();
    read_tokens(alloc, text)
}

#[test]
fn laws_have_no_premise_left(rt: HostRuntime) {
    let alloc = rt.alloc();
    row_read_back();
    let is_read = match definition(alloc, "late", "0") {
        Ok(definition) => is_read_back(alloc, &definition),
        Err(_) => false,
    };
    agrees(&rt, is_read, "an expression");
    agrees(
        &rt,
        tokens(alloc, b"always down 0 or ever down 1").is_ok(),
        "tokens",
    );
}
