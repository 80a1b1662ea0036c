//! All that may be changed in a protocol.

ghost use Rattle.std.specs.Prelude.{◌≡◌, ◌+◌, ◌≤◌, ◌++◌, IfOk, length};
ghost use Rattle.std.specs.List.{All};
ghost use Rattle.lf_mutations.specs.Mutations.{mutations, mutations_from, mutations_of, each_place};
ghost use Rattle.lf_mutations.specs.Places.{IsShort};

use crate::mutation::Mutation;
use lf_rules::{Assignment, Rule, Rules, Send};
use std::alloc::{AllocError, Global};

/// All changes of a protocol: of each rule in order that it is never taken, and that it is taken wherever its turn comes. If `deep`, then behind these two
/// also that it leaves out each of its assignments, in order, and each of its sends, in order.
pub fn mutations(alloc: Global, rules: &Rules, deep: bool) -> Result<Vec<Mutation>, AllocError>
    ensures { IfOk result (λ all. all.items ≡ mutations rules.now deep) }
{
    let mut all = Vec::new(alloc);
    let definition = rules.definition();
    let mut number = 1;
    for chain in definition.chains.as_slice() {
        number = push_rules(&mut all, number, chain.rules.as_slice(), deep)?;
    }
    Ok(all)
}

/// Adds the changes of rules that are numbered from `first` on. The number of the rule behind them.
fn push_rules(
    all: &mut Vec<Mutation>,
    first: u8,
    rules: &[Rule],
    deep: bool,
) -> Result<u8, AllocError>
    requires few { first + length rules.now ≤ 129 }
    requires short { All IsShort rules.now }
    ensures next { IfOk result (λ next. next ≡ first + length rules.now) }
    ensures all { IfOk result (λ _. all.new.items ≡ all.old.items ++ mutations_from deep first rules.now) }
{
    let mut number = first;
    for rule in rules {
        push_rule(all, number, rule, deep)?;
        number += 1;
    }
    Ok(number)
}

/// Adds the changes of the rule with a number.
fn push_rule(all: &mut Vec<Mutation>, number: u8, rule: &Rule, deep: bool) -> Result<(), AllocError>
    requires { IsShort rule.now }
    ensures { IfOk result (λ _. all.new.items ≡ all.old.items ++ mutations_of deep number rule.now) }
{
    all.push(Mutation::Never { rule: number })?;
    all.push(Mutation::Always { rule: number })?;
    if deep {
        push_unset(all, number, rule.sets.as_slice())?;
        push_unsent(all, number, rule.sends.as_slice())?;
    }
    Ok(())
}

/// Adds for each assignment of a rule that it is left out.
fn push_unset(all: &mut Vec<Mutation>, rule: u8, sets: &[Assignment]) -> Result<(), AllocError>
    requires { length sets.now ≤ 16 }
    ensures { IfOk result (λ _. all.new.items ≡ all.old.items ++ each_place (Mutation.Unset rule) 1 sets.now) }
{
    let mut place = 1;
    for _set in sets {
        all.push(Mutation::Unset { rule, place })?;
        place += 1;
    }
    Ok(())
}

/// Adds for each send of a rule that it is left out.
fn push_unsent(all: &mut Vec<Mutation>, rule: u8, sends: &[Send]) -> Result<(), AllocError>
    requires { length sends.now ≤ 8 }
    ensures { IfOk result (λ _. all.new.items ≡ all.old.items ++ each_place (Mutation.Unsent rule) 1 sends.now) }
{
    let mut place = 1;
    for _send in sends {
        all.push(Mutation::Unsent { rule, place })?;
        place += 1;
    }
    Ok(())
}
