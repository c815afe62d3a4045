//! What lies outside of the protocol, over the system: UDP ports, files, a clock, dice and a spawner.
#![tactic(auto)]

mod addresses;
mod clock;
mod dice;
mod files;
mod port_in;
mod port_out;
mod ports;
mod spawner;
mod streams;
#[cfg(test)]
mod tests;

pub use clock::SystemClock;
pub use dice::SystemDice;
pub use files::Files;
pub use port_in::UdpIn;
pub use port_out::UdpOut;
pub use ports::UdpPorts;
pub use spawner::ThreadSpawner;
pub use streams::{Input, Output};
