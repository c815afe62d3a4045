//! The blocks that a sender keeps until they are acknowledged, in one piece of memory.
#![tactic(auto)]

mod buffer;
mod head;
#[cfg(test)]
mod tests;

pub use buffer::{Block, SndBuffer};
use std::alloc::AllocError;
pub use udt_model::Flags;

/// Memory ran out.
#[derive(Clone, Copy, Debug, PartialEq, Eq)]
pub struct OutOfMemory;

impl From<AllocError> for OutOfMemory {
    fn from(_error: AllocError) -> Self {
        OutOfMemory
    }
}
