//! Ranges of offsets, each with a tag, linked in a ring of places.
#![tactic(auto)]

mod edits;
mod links;
mod range;
#[cfg(test)]
mod tests;

pub use links::LinkedRanges;
pub use range::{Range, Tag};
use std::alloc::AllocError;

/// Memory ran out.
#[derive(Clone, Copy, Debug, PartialEq, Eq)]
pub struct OutOfMemory;

impl From<AllocError> for OutOfMemory {
    fn from(_error: AllocError) -> Self {
        OutOfMemory
    }
}
