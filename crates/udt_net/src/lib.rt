//! A network in memory, which loses, repeats and reorders by draws, and which threads share.
#![tactic(auto)]

mod draws;
mod ends;
mod laws;
mod memory_net;
mod network;
mod opening;
mod ports;
mod queue;
mod shared;
mod side;
mod stored;

pub use draws::Fate;
pub use ends::{NetIn, NetOut};
pub use laws::hears_what_was_said;
pub use memory_net::MemoryNet;
pub use network::{Item, Net};
pub use opening::OutOfMemory;
pub use side::Side;

#[cfg(test)]
mod tests;
