// Want of memory.

use std::alloc::AllocError;

/// There was no memory.
#[derive(Clone, Copy, Debug, PartialEq, Eq)]
pub struct OutOfMemory;

impl From<AllocError> for OutOfMemory {
    fn from(_error: AllocError) -> OutOfMemory {
        OutOfMemory
    }
}

impl From<udt_sender::OutOfMemory> for OutOfMemory {
    fn from(_error: udt_sender::OutOfMemory) -> OutOfMemory {
        OutOfMemory
    }
}

impl From<udt_receiver::OutOfMemory> for OutOfMemory {
    fn from(_error: udt_receiver::OutOfMemory) -> OutOfMemory {
        OutOfMemory
    }
}

impl From<udt_rcv_loss::OutOfMemory> for OutOfMemory {
    fn from(_error: udt_rcv_loss::OutOfMemory) -> OutOfMemory {
        OutOfMemory
    }
}
