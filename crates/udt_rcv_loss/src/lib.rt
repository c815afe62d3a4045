//! The list of packets that a receiver waits for, with their last reports, held as linked ranges.
#![tactic(auto)]

mod due;
mod last_report;
mod list;
#[cfg(test)]
mod plain;
mod renew;
mod report;
#[cfg(test)]
mod tests;

pub use list::RcvLoss;
pub use report::Ranges;
use std::alloc::AllocError;

/// Memory ran out.
#[derive(Clone, Copy, Debug, PartialEq, Eq)]
pub struct OutOfMemory;

impl From<AllocError> for OutOfMemory {
    fn from(_error: AllocError) -> Self {
        OutOfMemory
    }
}

impl From<udt_ranges::OutOfMemory> for OutOfMemory {
    fn from(_error: udt_ranges::OutOfMemory) -> Self {
        OutOfMemory
    }
}
