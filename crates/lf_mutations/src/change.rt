//! Protocols with one thing changed.

ghost use Rattle.std.specs.Prelude.{◌≡◌, if◌then◌else◌, None, Some};
ghost use Rattle.lf_mutations.specs.Mutations.{changed, mutated, without};
ghost use Rattle.lf_mutations.specs.Places.{IsIn, at_place};

use crate::mutation::Mutation;
use crate::places::{Place, place_after};
use lf_list::Listed;
use lf_rules::{Chain, Definition, Expr, Leaf, Rule};

/// The definition with a change made. None where it has no such rule, or the rule has no such assignment or send.
pub fn mutated(mut definition: Definition, mutation: Mutation) -> Option<Definition>
    ensures { result ≡ mutated definition mutation }
{
    let before = usize::from(mutation.rule()).checked_sub(1)?;
    let place = place_after(definition.chains.as_slice(), before)?;
    if change_at(&mut definition.chains, place, mutation) {
        Some(definition)
    } else {
        None
    }
}

/// Makes a change in the rule that stands at a place, if the rule has what it changes. Whether it has.
fn change_at(chains: &mut Listed<Chain>, place: Place, mutation: Mutation) -> bool
    requires { IsIn chains.old place }
    ensures { (if result then Some chains.new else None) ≡ at_place mutation place chains.old }
{
    let items = &mut chains.items;
    let list = &mut items[place.chain].rules;
    let rules = &mut list.items;
    change(&mut rules[place.rule], mutation)
}

/// Makes a change in a rule, if the rule has what it changes. Whether it has.
fn change(rule: &mut Rule, mutation: Mutation) -> bool
    ensures { (if result then Some rule.new else None) ≡ changed mutation rule.old }
{
    match mutation {
        Mutation::Never { .. } => {
            rule.guard = Expr::leaf(Leaf::Truth(false));
            true
        }
        Mutation::Always { .. } => {
            rule.guard = Expr::leaf(Leaf::Truth(true));
            true
        }
        Mutation::Unset { place, .. } => leave_out(&mut rule.sets, place),
        Mutation::Unsent { place, .. } => leave_out(&mut rule.sends, place),
    }
}

/// Leaves an item out by its place, from 1 on, if it is there. Whether it is.
fn leave_out<T: Drop>(list: &mut Listed<T>, place: u8) -> bool
    ensures { (if result then Some list.new else None) ≡ without place list.old }
{
    let items = &mut list.items;
    match usize::from(place).checked_sub(1) {
        Some(i) if i < items.len() => {
            items.remove(i);
            true
        }
        _ => false,
    }
}
