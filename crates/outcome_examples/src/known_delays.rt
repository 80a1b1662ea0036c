//! Scenarios whose answers are known, answered without an exchange of names.

use crate::delay_texts::answers;

/// Delays alone are enough; so is a first try that is lost, since the second may come too late; each try has to be lost; a crash and a pause; a
/// pause while a note may come; no faults are.
const RELAYS: &str = concat!(
    "nodes = 2;horizon = 4;last_omission = 1;crashes = 0;budget = 4;protocol = \"retry\";spread = 3;tries = 2;",
    "outcome = \"delivered\"|least 0\n",
    "nodes = 2;horizon = 2;last_omission = 0;crashes = 0;budget = 1;protocol = \"retry\";spread = 1;tries = 1;",
    "outcome = [\"shows\", 1, 2, \"has\"]|least 0\n",
    "nodes = 2;horizon = 4;last_omission = 3;crashes = 0;budget = 1;protocol = \"retry\";least = 1;spread = 2;tries = 3;",
    "outcome = \"delivered\"|least 1;omit 0>1 @1\n",
    "nodes = 2;horizon = 5;last_omission = 2;crashes = 0;budget = 4;protocol = \"redundant\";spread = 1;tries = 2;",
    "outcome = \"delivered\"|least 2;omit 0>1 @1;omit 0>1 @2\n",
    "nodes = 3;horizon = 4;last_omission = 0;crashes = 2;budget = 2;protocol = \"retry\";pauses = 2;pause_length = 1;tries = 3;",
    "outcome = \"delivered\"|least 2;crash 0 @2;pause 1 @2\n",
    "nodes = 3;horizon = 3;last_omission = 2;crashes = 1;budget = 1;protocol = \"retry\";pauses = 2;pause_length = 2;spread = 2;",
    "tries = 4;outcome = \"delivered\"|least 0\n",
    "nodes = 2;horizon = 4;last_omission = 1;crashes = 2;budget = 3;protocol = \"redundant\";pauses = 1;pause_length = 4;spread = 1;",
    "tries = 2;outcome = \"delivered\"|none 3\n",
    "nodes = 2;horizon = 9;last_omission = 2;crashes = 2;budget = 2;protocol = \"redundant\";pauses = 2;pause_length = 1;spread = 2;",
    "tries = 3;outcome = \"delivered\"|least 1;pause 1 @4\n",
    "nodes = 2;horizon = 2;last_omission = 1;crashes = 2;budget = 1;protocol = \"redundant\";pauses = 2;pause_length = 2;least = 3;",
    "spread = 2;tries = 3;outcome = [\"any\", [\"shows\", 0, 2, \"has\"], [\"down\", 1, 2]]|least 1;crash 0 @1\n",
    "nodes = 3;horizon = 4;last_omission = 0;crashes = 2;budget = 1;protocol = \"retry\";tries = 2;outcome = \"delivered\"|none 1\n",
);

#[test]
fn relays(rt: HostRuntime) {
    answers(&rt, rt.alloc(), RELAYS);
}

/// A lost note leaves a node blocked; a pause does; no faults split or block.
const COMMITS: &str = concat!(
    "nodes = 3;horizon = 7;last_omission = 4;crashes = 0;budget = 4;protocol = \"two_phase\";pauses = 2;pause_length = 1;patience = 2;",
    "outcome = \"unblocked\"|least 1;omit 0>1 @3\n",
    "nodes = 4;horizon = 4;last_omission = 3;crashes = 2;budget = 1;protocol = \"two_phase\";pauses = 1;pause_length = 2;patience = 1;",
    "outcome = \"agreement\"|none 1\n",
    "nodes = 3;horizon = 7;last_omission = 0;crashes = 1;budget = 0;protocol = \"two_phase\";spread = 0;patience = 2;",
    "outcome = \"agreement\"|none 0\n",
    "nodes = 2;horizon = 2;last_omission = 0;crashes = 2;budget = 0;protocol = \"two_phase\";patience = 1;",
    "outcome = [\"any\", [\"down\", 1, 2], [\"shows\", 1, 2, \"committed\"]]|least 0\n",
    "nodes = 2;horizon = 8;last_omission = 0;crashes = 1;budget = 3;protocol = \"three_phase\";spread = 1;patience = 2;",
    "outcome = \"unblocked\"|none 3\n",
    "nodes = 3;horizon = 2;last_omission = 1;crashes = 1;budget = 1;protocol = \"three_phase\";least = 2;spread = 3;patience = 1;",
    "outcome = \"unblocked\"|none 1\n",
    "nodes = 2;horizon = 8;last_omission = 6;crashes = 0;budget = 2;protocol = \"three_phase\";pauses = 2;pause_length = 4;spread = 1;",
    "patience = 1;outcome = \"unblocked\"|least 1;pause 1 @4\n",
    "nodes = 2;horizon = 3;last_omission = 1;crashes = 0;budget = 4;protocol = \"three_phase\";pauses = 1;pause_length = 2;",
    "patience = 3;outcome = \"agreement\"|none 4\n",
);

#[test]
fn commits(rt: HostRuntime) {
    answers(&rt, rt.alloc(), COMMITS);
}

/// A beat that comes late makes a second primary; a lost beat does; a crash leaves nobody to claim; no faults lose a write.
const BACKUPS: &str = concat!(
    "nodes = 3;horizon = 4;last_omission = 1;crashes = 2;budget = 2;protocol = \"primary_backup\";spread = 1;patience = 2;",
    "outcome = \"one_primary\"|least 0\n",
    "nodes = 3;horizon = 4;last_omission = 3;crashes = 0;budget = 1;protocol = \"primary_backup\";spread = 0;patience = 2;",
    "outcome = \"one_primary\"|least 1;omit 0>1 @1\n",
    "nodes = 3;horizon = 4;last_omission = 3;crashes = 2;budget = 1;protocol = \"primary_backup\";patience = 2;",
    "outcome = [\"shows\", 1, 4, \"unclaimed\"]|least 1;crash 1 @1\n",
    "nodes = 3;horizon = 2;last_omission = 0;crashes = 0;budget = 1;protocol = \"primary_backup\";pauses = 1;pause_length = 2;",
    "spread = 2;patience = 6;outcome = [\"down\", 0, 2]|least 0\n",
    "nodes = 3;horizon = 3;last_omission = 0;crashes = 0;budget = 1;protocol = \"primary_backup\";spread = 1;patience = 6;",
    "outcome = \"durable\"|none 1\n",
    "nodes = 3;horizon = 4;last_omission = 1;crashes = 1;budget = 1;protocol = \"primary_backup\";patience = 1;",
    "outcome = \"durable\"|none 1\n",
);

#[test]
fn backups(rt: HostRuntime) {
    answers(&rt, rt.alloc(), BACKUPS);
}
