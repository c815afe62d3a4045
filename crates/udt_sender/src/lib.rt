//! The sending half of a socket: from the call that gives bytes until the peer has acknowledged them.
//!
//! It does no input or output and reads no clock. Only `new` takes memory.
#![tactic(auto)]

mod control;
mod numbers;
mod sender;

pub use sender::Sender;
pub use udt_model::{AckBody, Config, Kind, Packed, SendNo};

#[cfg(test)]
mod tests;

/// Memory ran out.
#[derive(Clone, Copy, Debug, PartialEq, Eq)]
pub struct OutOfMemory;

impl From<udt_snd_buffer::OutOfMemory> for OutOfMemory {
    fn from(_error: udt_snd_buffer::OutOfMemory) -> Self {
        OutOfMemory
    }
}

impl From<udt_snd_loss::OutOfMemory> for OutOfMemory {
    fn from(_error: udt_snd_loss::OutOfMemory) -> Self {
        OutOfMemory
    }
}
