//! The blocks that a receiver has until their bytes are read, in one piece of memory.
#![tactic(auto)]

mod answers;
mod buffer;
mod copies;
mod head;
mod laws;
mod marks;
mod messages;
mod next;
#[cfg(test)]
mod tests;

pub use answers::Got;
pub use buffer::RcvBuffer;
pub use laws::{base_moves, shown_is_whole};
use std::alloc::AllocError;
pub use udt_model::{Flags, Kind, Placed};

/// Memory ran out.
#[derive(Clone, Copy, Debug, PartialEq, Eq)]
pub struct OutOfMemory;

impl From<AllocError> for OutOfMemory {
    fn from(_error: AllocError) -> Self {
        OutOfMemory
    }
}
