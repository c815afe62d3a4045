//! A UDT socket as a pure machine: events with their moments in, answers and datagrams out.
//!
//! It does no input or output, reads no clock and holds no lock. Who owns a socket gives it each
//! call, each datagram that came for it and each moment, and sends what it emits.
#![tactic(auto)]

mod counts;
mod memory;
mod outs;
mod phase;
mod socket;

pub use memory::OutOfMemory;
pub use outs::Outs;
pub use socket::{OpenNo, Socket};
pub use udt_model::{Cause, Heard, Packed, Peer, Perf, Refusal, Shaken};
pub use udt_rate::Control;

#[cfg(test)]
mod tests;
