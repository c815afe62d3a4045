// The objects in memory, which fail as a list says and tell what they gave and took.

mod calls;
mod clock;
mod datagram;
mod folder;
mod gate;
mod port_in;
mod port_out;
mod ports;
mod sink;
mod source;
mod spawner;

pub use clock::{ListClock, ListDice};
pub use datagram::ListDatagram;
pub use folder::MemoryFolder;
pub use gate::HoldGate;
pub use port_in::ListIn;
pub use port_out::ListOut;
pub use ports::ListPorts;
pub use sink::MemorySink;
pub use source::MemorySource;
pub use spawner::ListSpawner;
