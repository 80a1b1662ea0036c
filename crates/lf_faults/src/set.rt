//! A set of at most six faults.

ghost use Rattle.std.specs.Prelude.{◌≡◌, ◌+◌, ◌-◌, ◌<◌, ◌≤◌, ◌↔◌, ◌++◌, ◌∷◌, [], IsTrue, IsSome, IfSome, length, take, drop, replicate};
ghost use Rattle.std.specs.List.{Contains, prefix_len};
ghost use Rattle.lf_faults.specs.Faults.{IsAscending, set_omits, set_crashes, set_pauses, set_wakes, is_before, inserted, set_is_before};
ghost use Rattle.lf_faults.specs.Kinds.{filler};

use crate::{Fault, Parts};
use std::marker::Model;

/// The most faults that a set has.
pub(crate) const MOST_FAULTS: usize = 6;

/// An ascending list of at most six different faults. It takes no memory beside its own 25 bytes.
#[derive(Clone, Copy, Debug, PartialEq, Eq)]
pub struct FaultSet {
    count: u8,
    faults: [Fault; MOST_FAULTS],
}

const _: () = prove!(size_of::<FaultSet>() == 25);

impl Model for FaultSet {
    ghost use Rattle.std.specs.Prelude.{List};
    ghost use Rattle.lf_faults.specs.declared.fault.Parts.{Parts};

    ghost Value = { List Parts };

    ghost use Rattle.std.specs.Prelude.{take, length, ◌++◌, ◌-◌, replicate};
    ghost use Rattle.lf_faults.specs.Faults.{IsAscending};
    ghost use Rattle.lf_faults.specs.Kinds.{filler};
    ghost use Rattle.lf_faults.specs.Places.{FillsSix, six_again};

    ghost view = { λ s. take s.count s.faults };

    ghost invariant = { λ s. FillsSix s.count s.faults × IsAscending (take s.count s.faults) };

    ghost inverse = { λ fs. record { count = length fs; faults = fs ++ replicate (6 - length fs) filler } };

    ghost inverse_ok = { λ s h. six_again s h.0 };
}

impl FaultSet {
    /// No fault.
    pub fn empty() -> FaultSet
        ensures { result ≡ [] }
    {
        FaultSet {
            count: 0,
            faults: [Fault::filler(); MOST_FAULTS],
        }
    }

    /// The faults, ascending.
    pub fn items(&self) -> &[Fault]
        ensures value { result.now ≡ self.now }
        ensures ascending { IsAscending self.now }
        ensures few { length self.now ≤ 6 }
    {
        &self.faults[..usize::from(self.count)]
    }

    /// How many faults there are, at most six.
    pub fn len(&self) -> usize
        ensures value { result ≡ length self.now }
        ensures few { result ≤ 6 }
        ensures ascending { IsAscending self.now }
    {
        self.items().len()
    }

    /// Whether there is no fault.
    pub fn is_empty(&self) -> bool
        ensures { IsTrue result ↔ (self.now ≡ []) }
    {
        self.items().is_empty()
    }

    /// Whether the fault is there.
    pub fn contains(&self, fault: &Fault) -> bool
        ensures { IsTrue result ↔ Contains self.now fault.now }
    {
        self.items().contains(fault)
    }

    /// The set with one fault more. None where it is there, or six are.
    pub fn insert(&self, fault: Fault) -> Option<FaultSet>
        ensures some { IsSome result ↔ (¬ (Contains self.now fault)) × (length self.now < 6) }
        ensures value { IfSome result (λ s. s ≡ inserted fault self.now) }
    {
        if usize::from(self.count) == MOST_FAULTS || self.contains(&fault) {
            return None;
        }
        let at = self.place(&fault);
        Some(FaultSet {
            count: self.count + 1,
            faults: with_at(self.faults, at, fault),
        })
    }

    /// How many of its faults come before the fault.
    fn place(&self, fault: &Fault) -> usize
        ensures { result ≡ prefix_len (λ f. is_before f fault.now) self.now }
    {
        self.items()
            .iter()
            .take_while(|f| f.is_before(fault))
            .count()
    }

    /// Whether it comes before another, in the order of sets: fewer faults first, and sets of one size by their lists.
    pub fn is_before(&self, other: &FaultSet) -> bool
        ensures { result ≡ set_is_before self.now other.now }
    {
        let sizes = self.len().cmp(&other.len());
        let lists = self.items().cmp(other.items());
        sizes.then(lists).is_lt()
    }

    /// The first faults of the set, as many as `count`.
    pub fn prefix(&self, count: usize) -> FaultSet
        requires { count ≤ length self.now }
        ensures { result ≡ take count self.now }
    {
        let faults = kept(self.faults, count);
        FaultSet {
            count: count as u8,
            faults,
        }
    }

    /// Whether the note that `from` sends to `to` at `step` is lost.
    pub fn omits(&self, from: u32, to: u32, step: u32) -> bool
        ensures { result ≡ set_omits self.now from to step }
    {
        self.items()
            .iter()
            .any(|fault| fault.parts() == Parts::Omit { from, to, step })
    }

    /// Whether the node has crashed at the step or before.
    pub fn crashes(&self, at: u32, by: u32) -> bool
        ensures { result ≡ set_crashes self.now at by }
    {
        self.items().iter().any(|fault| match fault.parts() {
            Parts::Crash { node, step } => at == node && step <= by,
            Parts::Omit { .. } | Parts::Pause { .. } => false,
        })
    }

    /// Whether the node is paused over the step, where a pause lasts `length` steps, at most 8.
    pub fn pauses(&self, at: u32, over: u32, length: u32) -> bool
        requires { length ≤ 8 }
        ensures { result ≡ set_pauses length self.now at over }
    {
        self.items().iter().any(|fault| match fault.parts() {
            Parts::Pause { node, step } => at == node && step <= over && over < step + length,
            Parts::Omit { .. } | Parts::Crash { .. } => false,
        })
    }

    /// Whether the step is the first after a pause of the node, where a pause lasts `length` steps, at most 8.
    pub fn wakes(&self, at: u32, first: u32, length: u32) -> bool
        requires { length ≤ 8 }
        ensures { result ≡ set_wakes length self.now at first }
    {
        self.items().iter().any(|fault| match fault.parts() {
            Parts::Pause { node, step } => at == node && first == step + length,
            Parts::Omit { .. } | Parts::Crash { .. } => false,
        })
    }
}

/// The faults with one more at a place, and without the last.
fn with_at(faults: [Fault; MOST_FAULTS], at: usize, fault: Fault) -> [Fault; MOST_FAULTS]
    requires { at < 6 }
    ensures { result ≡ take at faults ++ fault ∷ take (5 - at) (drop at faults) }
{
    let mut faults = faults;
    shift_in(&mut faults, at, fault);
    faults
}

/// The faults before a place, and the filler from there on.
fn kept(faults: [Fault; MOST_FAULTS], count: usize) -> [Fault; MOST_FAULTS]
    requires { count ≤ 6 }
    ensures { result ≡ take count faults ++ replicate (6 - count) filler }
{
    let mut faults = faults;
    fill_from(&mut faults, count);
    faults
}

/// Puts the filler from a place on.
fn fill_from(faults: &mut [Fault], count: usize)
    requires { count ≤ length faults.old }
    ensures { faults.new ≡ take count faults.old ++ replicate (length faults.old - count) filler }
{
    faults[count..].fill(Fault::filler());
}

/// Puts a fault at a place, those from there on one further, and drops the last.
fn shift_in(faults: &mut [Fault], at: usize, fault: Fault)
    requires { at < length faults.old }
    ensures { faults.new ≡ take at faults.old ++ fault ∷ take (length faults.old - 1 - at) (drop at faults.old) }
{
    let tail = &mut faults[at..];
    tail.rotate_right(1);
    tail[0] = fault;
}
