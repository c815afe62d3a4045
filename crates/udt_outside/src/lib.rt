//! What lies outside of the protocol: inputs and outputs that may fail, and numbers and addresses as text.
#![tactic(auto)]

mod clock;
mod failed;
mod folder;
mod gate;
mod memory;
mod numbers;
mod ports;
mod reading;
mod sink;
mod source;
mod spawner;
#[cfg(test)]
mod tests;
mod writing;

pub use clock::{Clock, Dice};
pub use failed::{Failed, OutOfMemory};
pub use folder::{Create, Folder};
pub use gate::{FreeGate, Gate, Point};
pub use memory::{
    HoldGate, ListClock, ListDatagram, ListDice, ListIn, ListOut, ListPorts, ListSpawner,
    MemoryFolder, MemorySink, MemorySource,
};
pub use numbers::read_number;
pub use ports::{Heard, PortIn, PortOut, Ports};
pub use reading::{read_addr, read_ip};
pub use sink::Sink;
pub use source::Source;
pub use spawner::{Becomes, Hand, Spawner, Work, start};
pub use udt_model::{Addr, Family, Ip};
pub use writing::write_addr;
