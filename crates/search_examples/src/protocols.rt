//! Made scenarios of each protocol, with lost notes, crashes, pauses, delays and formulas.

use crate::made::{DEEP, PRIMARY_BACKUP, REDUNDANT, RETRY, THREE_PHASE, TWO_PHASE};
use crate::merged::{agree, are_one};

#[test]
fn retries(rt: HostRuntime) {
    agree(&rt, rt.alloc(), "retry", RETRY);
}

#[test]
fn values_that_are_sent_on(rt: HostRuntime) {
    agree(&rt, rt.alloc(), "redundant", REDUNDANT);
}

#[test]
fn commits_in_two_phases(rt: HostRuntime) {
    agree(&rt, rt.alloc(), "two_phase", TWO_PHASE);
}

#[test]
fn commits_in_three_phases(rt: HostRuntime) {
    agree(&rt, rt.alloc(), "three_phase", THREE_PHASE);
}

#[test]
fn backups(rt: HostRuntime) {
    agree(&rt, rt.alloc(), "primary_backup", PRIMARY_BACKUP);
}

#[test]
fn formulas_over_few_points(rt: HostRuntime) {
    are_one(&rt, rt.alloc(), DEEP);
}
