//! The receiving half of a socket: where a data packet is placed, and which ACKs and NAKs are due.
#![tactic(auto)]

mod losses;
mod receiver;
#[cfg(test)]
mod tests;

pub use receiver::Receiver;
use std::alloc::AllocError;
pub use udt_model::{AckBody, Arrived, Config, Dropped, Flags, Placed};
pub use udt_rcv_buffer::Got;
pub use udt_rcv_loss::Ranges;
pub use udt_timing::Rtt;

/// Memory ran out.
#[derive(Clone, Copy, Debug, PartialEq, Eq)]
pub struct OutOfMemory;

impl From<AllocError> for OutOfMemory {
    fn from(_error: AllocError) -> Self {
        OutOfMemory
    }
}

impl From<udt_rcv_buffer::OutOfMemory> for OutOfMemory {
    fn from(_error: udt_rcv_buffer::OutOfMemory) -> Self {
        OutOfMemory
    }
}

impl From<udt_rcv_loss::OutOfMemory> for OutOfMemory {
    fn from(_error: udt_rcv_loss::OutOfMemory) -> Self {
        OutOfMemory
    }
}

impl From<udt_timing::OutOfMemory> for OutOfMemory {
    fn from(_error: udt_timing::OutOfMemory) -> Self {
        OutOfMemory
    }
}
