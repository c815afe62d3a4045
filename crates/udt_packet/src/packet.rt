// Packets as the code sees them.

use crate::ranges::NakRanges;
use udt_model::{AckBody, Flags, Shake};

/// A packet that a datagram carries, with its time stamp in microseconds and the socket ID of its
/// destination. A block is data: its sequence number, its flags and its bytes. An ACK has a number of its
/// own, which its ACK2 repeats.
#[derive(Debug, Drop)]
pub enum Packet<'a> {
    Block {
        seq: u32,
        flags: Flags,
        stamp: u32,
        dest: u32,
        bytes: &'a [u8],
    },
    Handshake {
        stamp: u32,
        dest: u32,
        shake: Shake,
    },
    KeepAlive {
        stamp: u32,
        dest: u32,
    },
    Ack {
        number: u32,
        stamp: u32,
        dest: u32,
        body: AckBody,
    },
    Nak {
        stamp: u32,
        dest: u32,
        ranges: NakRanges<'a>,
    },
    Shutdown {
        stamp: u32,
        dest: u32,
    },
    Ack2 {
        number: u32,
        stamp: u32,
        dest: u32,
    },
    DropAsk {
        message: u32,
        stamp: u32,
        dest: u32,
        first: u32,
        last: u32,
    },
}

impl Packet<'_> {
    ghost use Rattle.std.specs.Prelude.{◌≡◌};
    ghost use Rattle.udt_model.specs.Wire as wire;
    ghost use Rattle.udt_packet.specs.Packets.{packet_of};

    /// Whether the packet is a handshake.
    pub fn is_handshake(&self) -> bool
        ensures { result ≡ wire.is_handshake (packet_of self.now) }
    {
        match self {
            Packet::Handshake { .. } => true,
            _ => false,
        }
    }

    /// The socket ID that the packet is for.
    pub fn destination(&self) -> u32
        ensures { result ≡ wire.destination (packet_of self.now) }
    {
        match self {
            Packet::Block { dest, .. }
            | Packet::Handshake { dest, .. }
            | Packet::KeepAlive { dest, .. }
            | Packet::Ack { dest, .. }
            | Packet::Nak { dest, .. }
            | Packet::Shutdown { dest, .. }
            | Packet::Ack2 { dest, .. }
            | Packet::DropAsk { dest, .. } => *dest,
        }
    }
}
