//! Made scenarios, a table for each protocol, and one of deep formulas.

mod deep;
mod primary_backup;
mod redundant;
mod retry;
mod three_phase;
mod two_phase;

pub(crate) use deep::DEEP;
pub(crate) use primary_backup::PRIMARY_BACKUP;
pub(crate) use redundant::REDUNDANT;
pub(crate) use retry::RETRY;
pub(crate) use three_phase::THREE_PHASE;
pub(crate) use two_phase::TWO_PHASE;
