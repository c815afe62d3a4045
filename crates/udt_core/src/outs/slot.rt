// The memory of one datagram.

ghost use Rattle.std.specs.Prelude.{◌≡◌, ◌+◌, ◌*◌, ◌≤◌, [], ◌∷◌, length};
ghost use Rattle.udt_model.specs.declared.limits.TheConstants.{LAST_MOMENT, MOST_PAYLOAD};
ghost use Rattle.udt_model.specs.SendHalf as half;
ghost use Rattle.udt_model.specs.Wire.{spelling};
ghost use Rattle.udt_packet.specs.Packets.{packet_of, IsWritable};
ghost use Rattle.udt_rcv_loss.specs.Reports.{words_of};
ghost use Rattle.udt_core.specs.Emitted.{datagram_to, datagrams_to, written_by, range_of, nak_packet};

use super::MOST_BYTES;
use super::nak::{put_gap, put_nak};
use std::alloc::{AllocError, Global};
use std::marker::Model;
use udt_model::{Addr, Ip, Packed, Peer};
use udt_packet::{Packet, write};
use udt_rate::Control;
use udt_rcv_loss::Ranges;
use udt_sender::Sender;

/// The memory of a datagram: where it goes, and its bytes, of which the first `size` count.
#[derive(Drop)]
pub struct Slot {
    to: Addr,
    bytes: Vec<u8>,
    size: usize,
}

impl Model for Slot {
    ghost use Rattle.std.specs.Prelude.{◌≡◌, ◌≤◌, take, length};
    ghost use Rattle.udt_model.specs.State.{Datagram};
    ghost use Rattle.udt_core.specs.declared.outs.TheConstants.{MOST_BYTES};

    ghost Value = { Datagram };

    ghost view = { λ s. record { addr = s.to; bytes = take s.size s.bytes.items } };

    ghost invariant = { λ s. (length s.bytes.items ≡ MOST_BYTES) × (s.size ≤ MOST_BYTES) };
}

impl Slot {
    /// Takes the memory of a datagram.
    pub fn new(alloc: Global) -> Result<Slot, AllocError> {
        let bytes = vec![in alloc; 0u8; MOST_BYTES]?;
        let to = Addr {
            ip: Ip::V4(0),
            port: 0,
        };
        Ok(Slot { to, bytes, size: 0 })
    }

    /// Where the datagram goes, and its bytes.
    pub fn datagram(&self) -> (Addr, &[u8])
        ensures { self.now ≡ record { addr = result.0; bytes = result.1.now } }
    {
        (self.to, &self.bytes[..self.size])
    }

    /// Writes the datagram of a packet.
    pub fn write_packet(&mut self, to: Addr, packet: &Packet)
        requires fits { length (spelling (packet_of packet.now)) ≤ MOST_BYTES }
        requires in_range { IsWritable packet.now }
        ensures { self.new ≡ datagram_to to (packet_of packet.now) }
    {
        self.to = to;
        self.size = write(packet, &mut self.bytes);
    }

    /// Has the sending half write the datagram of the packet that leaves, where one does.
    pub fn write_block<C: Control>(
        &mut self,
        sender: &mut Sender<C>,
        now: u64,
        stamp: u32,
        peer: &Peer,
    ) -> Packed
        requires moment { now ≤ LAST_MOMENT }
        requires small { sender.old.blocks.room ≤ MOST_PAYLOAD }
        ensures value { result ≡ half.packed_as (half.packing C.ways sender.old now) }
        ensures next { sender.new ≡ half.after_pack C.ways sender.old now }
        ensures blocks { sender.new.blocks ≡ sender.old.blocks }
        ensures written { written_by result self.new ≡ datagrams_to peer.now.addr
            (half.packet_of sender.old stamp peer.now.id (half.packing C.ways sender.old now)) }
    {
        self.to = peer.addr;
        let packed = sender.pack(now, stamp, peer.id, &mut self.bytes);
        match packed {
            Packed::Block(size) => self.size = size,
            Packed::DropAsk(size) => self.size = size,
            Packed::NotYet(_) | Packed::Nothing => {}
        }
        packed
    }

    /// Writes the datagram of a NAK of these ranges.
    pub fn write_nak(&mut self, to: Addr, stamp: u32, dest: u32, isn: u32, ranges: &Ranges)
        requires { 16 + 4 * words_of ranges.now.ranges ≤ MOST_BYTES }
        ensures { self.new ≡ datagram_to to (nak_packet stamp dest isn ranges.now.ranges) }
    {
        self.to = to;
        self.size = put_nak(stamp, dest, isn, ranges, &mut self.bytes);
    }

    /// Writes the datagram of a NAK of one range, by its first and its last offset.
    pub fn write_gap(&mut self, to: Addr, stamp: u32, dest: u32, isn: u32, gap: (u64, u64))
        ensures { self.new ≡ datagram_to to (nak_packet stamp dest isn (range_of gap ∷ [])) }
    {
        self.to = to;
        self.size = put_gap(stamp, dest, isn, gap, &mut self.bytes);
    }
}
