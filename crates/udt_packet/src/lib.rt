//! The packet numbers and the packets of UDT, and the bytes that spell them.
#![tactic(auto)]

mod flags;
mod laws;
mod numbers;
mod packet;
mod ranges;
mod reading;
mod short;
mod words;
mod writing;

pub use laws::{block_has_one_spelling, read_is_in_range, written_is_read};
pub use numbers::{near, seq_of};
pub use packet::Packet;
pub use ranges::{NakRanges, put_range};
pub use reading::{BlockPacket, read, read_block, target};
pub use udt_model::{AckBody, Config, Flags, Kind, Malformed, Shake};
pub use writing::{put_nak_header, size, write, write_block};

#[cfg(test)]
mod tests;
