//! The list of offsets that a sender is to retransmit, held as linked ranges.
#![tactic(auto)]

mod list;
#[cfg(test)]
mod plain;
#[cfg(test)]
mod tests;

pub use list::SndLoss;

/// Memory ran out.
#[derive(Clone, Copy, Debug, PartialEq, Eq)]
pub struct OutOfMemory;

impl From<udt_ranges::OutOfMemory> for OutOfMemory {
    fn from(_error: udt_ranges::OutOfMemory) -> Self {
        OutOfMemory
    }
}
