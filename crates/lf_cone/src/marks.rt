//! Which faults are in a list, as a table of bits.

ghost use Rattle.std.specs.Prelude.{◌≡◌, ◌<◌, ◌≤◌, ◌↔◌, IsTrue, slice_index};
ghost use Rattle.lf_faults.specs.Faults.{IsFault};
ghost use Rattle.lf_cone.specs.Places.{sender_row, crash_row, pause_row, place_at, place_of, IsMarked, AreMarks};

use lf_faults::{Fault, Parts};

/// How many senders, receivers or nodes there are at most.
const NODES: u32 = 8;

/// The rows of a step: one for each sender, one of crashes and one of pauses.
const ROWS_OF_STEP: u32 = 10;

/// The rows of all 48 steps.
pub(crate) const ROWS: usize = 480;

/// The faults of a list, by their places. A row has a bit for each of 8 receivers, or of 8 nodes.
#[derive(Drop)]
pub(crate) struct Marks<'a> {
    pub(crate) faults: &'a [Fault],
    pub(crate) rows: [u8; ROWS],
}

impl<'a> Marks<'a> {
    /// The marks of these faults.
    pub(crate) fn new(faults: &'a [Fault]) -> Marks<'a>
        ensures faults { result.faults.now ≡ faults.entry.now }
        ensures marks { AreMarks result.faults.now result.rows }
    {
        let rows = marked(faults);
        Marks { faults, rows }
    }

    /// The bits of a row.
    pub(crate) fn row(&self, row: u32) -> u8
        requires row { row < 480 }
        ensures value { result ≡ slice_index self.now.rows row }
        ensures byte { result < 256 }
    {
        self.rows[row as usize]
    }

    /// Whether the fault at a place of a row is one of them.
    pub(crate) fn at(&self, row: u32, column: u32) -> bool
        requires row { row < 480 }
        requires column { column < 8 }
        ensures { IsTrue result ↔ IsMarked self.now.rows (place_at row column) }
    {
        self.row(row) >> column & 1 == 1
    }
}

/// The table of these faults.
fn marked(faults: &[Fault]) -> [u8; ROWS]
    ensures { AreMarks faults.now result }
{
    let mut rows = [0; ROWS];
    for fault in faults {
        let place = place(fault);
        rows[place / 8] |= 1 << (place % 8);
    }
    rows
}

/// The place of a fault among all faults, in their order.
fn place(fault: &Fault) -> usize
    ensures value { result ≡ place_of fault.now }
    ensures below { result < 3840 }
    ensures in_range { IsFault fault.now }
{
    match fault.parts() {
        Parts::Omit { from, to, step } => place_at(sender_row(from, step), to),
        Parts::Crash { node, step } => place_at(crash_row(step), node),
        Parts::Pause { node, step } => place_at(pause_row(step), node),
    }
}

/// The place at a column of a row.
fn place_at(row: u32, column: u32) -> usize
    requires row { row < 480 }
    requires column { column < 8 }
    ensures { result ≡ place_at row column }
{
    (row * NODES + column) as usize
}

/// The row of the losses of what a node sends at a step, by receiver.
pub(crate) fn sender_row(from: u32, step: u32) -> u32
    requires from { from < 8 }
    requires first { 1 ≤ step }
    requires last { step ≤ 48 }
    ensures value { result ≡ sender_row from step }
    ensures within { result < 480 }
{
    (step - 1) * ROWS_OF_STEP + from
}

/// The row of the crashes at a step, by node.
pub(crate) fn crash_row(step: u32) -> u32
    requires first { 1 ≤ step }
    requires last { step ≤ 48 }
    ensures value { result ≡ crash_row step }
    ensures within { result < 480 }
{
    (step - 1) * ROWS_OF_STEP + NODES
}

/// The row of the pauses from a step on, by node.
pub(crate) fn pause_row(step: u32) -> u32
    requires first { 1 ≤ step }
    requires last { step ≤ 48 }
    ensures value { result ≡ pause_row step }
    ensures within { result < 480 }
{
    (step - 1) * ROWS_OF_STEP + NODES + 1
}
