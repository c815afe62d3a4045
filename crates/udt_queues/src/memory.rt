// Want of memory, and of room.

use std::alloc::AllocError;

/// There was no memory.
#[derive(Clone, Copy, Debug, PartialEq, Eq)]
pub struct OutOfMemory;

impl From<AllocError> for OutOfMemory {
    fn from(_error: AllocError) -> OutOfMemory {
        OutOfMemory
    }
}

/// There was no spare buffer at a step of the call.
#[derive(Clone, Copy, Debug, PartialEq, Eq)]
pub struct Full;
