//! How many replies of each kind a sweep has.

ghost use Rattle.std.specs.Prelude.{◌≡◌, ◌+◌, ◌<◌, ◌^◌, []};
ghost use Rattle.lf_sweep.specs.Counts.{all_of, counts_of, is_full_line, kind_by, of_one, status_of, together};

/// What a reply says.
#[derive(Clone, Copy, Debug, PartialEq, Eq)]
pub enum Kind {
    /// No allowed set of faults defeats the outcome.
    Kept,
    /// One does.
    Missed,
    /// A level of the search is too full.
    Full,
    /// The scenario is refused.
    Refused,
}

/// How many replies of each kind there are.
#[derive(Clone, Copy, Debug, PartialEq, Eq)]
pub struct Counts {
    /// That no allowed set of faults defeats the outcome.
    pub none: u64,
    /// That one does.
    pub least: u64,
    /// That a level is too full.
    pub full: u64,
    /// That the scenario is refused.
    pub refused: u64,
}

impl Counts {
    /// Of no reply.
    pub(crate) fn empty() -> Counts
        ensures { result ≡ counts_of [] }
    {
        Counts {
            none: 0,
            least: 0,
            full: 0,
            refused: 0,
        }
    }

    /// Of one reply.
    pub(crate) fn of(kind: Kind) -> Counts
        ensures { result ≡ of_one kind }
    {
        match kind {
            Kind::Kept => Counts {
                none: 1,
                least: 0,
                full: 0,
                refused: 0,
            },
            Kind::Missed => Counts {
                none: 0,
                least: 1,
                full: 0,
                refused: 0,
            },
            Kind::Full => Counts {
                none: 0,
                least: 0,
                full: 1,
                refused: 0,
            },
            Kind::Refused => Counts {
                none: 0,
                least: 0,
                full: 0,
                refused: 1,
            },
        }
    }

    /// Of both.
    pub(crate) fn plus(self, more: Counts) -> Counts
        requires { all_of self + all_of more < 2 ^ 64 }
        ensures { result ≡ together self more }
    {
        Counts {
            none: self.none + more.none,
            least: self.least + more.least,
            full: self.full + more.full,
            refused: self.refused + more.refused,
        }
    }

    /// The status of a sweep with these replies: 1 where a set of faults defeats the outcome of a combination, else 2 where one has no
    /// answer, and else 0.
    pub fn status(&self) -> u8
        ensures { result ≡ status_of self.now }
    {
        if self.least > 0 {
            1
        } else if self.full > 0 || self.refused > 0 {
            2
        } else {
            0
        }
    }
}

/// What a reply says, by its status, and where that is 2 by its first letter.
pub fn kind_of(reply: &str, status: u8) -> Kind
    ensures { result ≡ kind_by reply.now status }
{
    if status == 0 {
        Kind::Kept
    } else if status == 1 {
        Kind::Missed
    } else if is_full_line(reply.as_bytes()) {
        Kind::Full
    } else {
        Kind::Refused
    }
}

/// Whether a reply that is no answer is the line of a level that is too full: it begins with f, and a refusal with r.
fn is_full_line(reply: &[u8]) -> bool
    ensures { result ≡ is_full_line reply.now }
{
    match reply.first() {
        Some(byte) => *byte == b'f',
        None => false,
    }
}
