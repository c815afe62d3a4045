// What an event emits.

ghost use Rattle.std.specs.Prelude.{◌≡◌, ◌+◌, ◌*◌, ◌<◌, ◌≤◌, [], ◌∷◌, ◌++◌, length, slice_get, Some, IfOk};
ghost use Rattle.udt_model.specs.declared.limits.TheConstants.{LAST_MOMENT, MOST_PAYLOAD};
ghost use Rattle.udt_model.specs.SendHalf as half;
ghost use Rattle.udt_model.specs.Wire.{spelling};
ghost use Rattle.udt_packet.specs.Packets.{packet_of, IsWritable};
ghost use Rattle.udt_rcv_loss.specs.Reports.{words_of};
ghost use Rattle.udt_core.specs.Emitted.{datagrams_to, range_of, nak_where_any};

mod nak;
mod slot;
#[cfg(test)]
mod tests;

use crate::memory::OutOfMemory;
use slot::Slot;
use std::alloc::Global;
use std::marker::Model;
use udt_model::{Addr, Packed, Peer};
use udt_packet::Packet;
use udt_rate::Control;
use udt_rcv_loss::Ranges;
use udt_sender::Sender;

/// How many datagrams an event emits at most.
pub const MOST_OUTS: usize = 3;

/// The bytes of a datagram at most.
pub const MOST_BYTES: usize = 9000;

/// The datagrams that one event emitted, at most three, in the order in which they are to be sent.
/// Their memory is taken once, and used again for each event.
#[derive(Drop)]
pub struct Outs {
    slots: Vec<Slot>,
    // how many of the slots have a datagram
    used: usize,
}

impl Model for Outs {
    ghost use Rattle.std.specs.Prelude.{◌≡◌, ◌≤◌, List, take, length};
    ghost use Rattle.udt_model.specs.State.{Datagram};
    ghost use Rattle.udt_core.specs.declared.outs.TheConstants.{MOST_OUTS};

    ghost Value = { List Datagram };

    ghost view = { λ o. take o.used o.slots.items };

    ghost invariant = { λ o. (length o.slots.items ≡ MOST_OUTS) × (o.used ≤ MOST_OUTS) };
}

impl Outs {
    /// Room for the datagrams of one event.
    pub fn new(alloc: Global) -> Result<Outs, OutOfMemory>
        ensures { IfOk result (λ outs. outs ≡ []) }
    {
        let mut slots = Vec::with_capacity(alloc, MOST_OUTS)?;
        for _ in 0..MOST_OUTS {
            slots.push_reserved(Slot::new(alloc)?);
        }
        Ok(Outs { slots, used: 0 })
    }

    /// How many datagrams there are.
    pub fn len(&self) -> usize
        ensures { result ≡ length self.now }
    {
        self.used
    }

    /// A datagram: where it goes, and its bytes.
    pub fn get(&self, i: usize) -> (Addr, &[u8])
        requires { i < length self.now }
        ensures { slice_get self.now i ≡ Some (record { addr = result.0; bytes = result.1.now }) }
    {
        self.slots[i].datagram()
    }

    /// Forgets all datagrams.
    pub fn clear(&mut self)
        ensures { self.new ≡ [] }
    {
        self.used = 0;
    }

    /// Adds the datagram of a packet.
    pub(crate) fn emit(&mut self, to: Addr, packet: &Packet)
        requires room { length self.old < MOST_OUTS }
        requires fits { length (spelling (packet_of packet.now)) ≤ MOST_BYTES }
        requires in_range { IsWritable packet.now }
        ensures { self.new
            ≡ self.old ++ record { addr = to; bytes = spelling (packet_of packet.now) } ∷ [] }
    {
        self.slots[self.used].write_packet(to, packet);
        self.used += 1;
    }

    /// Has the sending half pack, and adds the datagram to its peer, where a packet leaves.
    pub(crate) fn emit_block<C: Control>(
        &mut self,
        sender: &mut Sender<C>,
        now: u64,
        stamp: u32,
        peer: &Peer,
    ) -> Packed
        requires room { length self.old < MOST_OUTS }
        requires moment { now ≤ LAST_MOMENT }
        requires small { sender.old.blocks.room ≤ MOST_PAYLOAD }
        ensures value { result ≡ half.packed_as (half.packing C.ways sender.old now) }
        ensures next { sender.new ≡ half.after_pack C.ways sender.old now }
        ensures outs { self.new ≡ self.old ++ datagrams_to peer.now.addr
            (half.packet_of sender.old stamp peer.now.id (half.packing C.ways sender.old now)) }
        ensures bound { length self.new ≤ length self.old + 1 }
        ensures blocks { sender.new.blocks ≡ sender.old.blocks }
    {
        let packed = self.slots[self.used].write_block(sender, now, stamp, peer);
        if let Packed::Block(_) | Packed::DropAsk(_) = packed {
            self.used += 1;
        }
        packed
    }

    /// Adds the datagram of a NAK of these ranges of offsets, where there are any.
    pub(crate) fn emit_nak(&mut self, to: Addr, stamp: u32, dest: u32, isn: u32, ranges: &Ranges)
        requires room { length self.old < MOST_OUTS }
        requires fits { 16 + 4 * words_of ranges.now.ranges ≤ MOST_BYTES }
        ensures outs { self.new
            ≡ self.old ++ datagrams_to to (nak_where_any stamp dest isn ranges.now.ranges) }
        ensures bound { length self.new ≤ length self.old + 1 }
    {
        if ranges.len() == 0 {
            return;
        }
        self.slots[self.used].write_nak(to, stamp, dest, isn, ranges);
        self.used += 1;
    }

    /// Adds the datagram of a NAK of one range, by its first and its last offset.
    pub(crate) fn emit_gap(&mut self, to: Addr, stamp: u32, dest: u32, isn: u32, gap: (u64, u64))
        requires { length self.old < MOST_OUTS }
        ensures { self.new ≡ self.old ++ datagrams_to to
            (nak_where_any stamp dest isn (range_of gap ∷ [])) }
    {
        self.slots[self.used].write_gap(to, stamp, dest, isn, gap);
        self.used += 1;
    }
}
