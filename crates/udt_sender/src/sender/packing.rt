// Which packet leaves next, and when.

ghost use Rattle.std.specs.Prelude.{◌≡◌, ◌+◌, ◌*◌, ◌%◌, ◌^◌, ◌<◌, ◌≤◌, ◌==◌, [], length, All, Some, IsTrue, option_map, if◌then◌else◌};
ghost use Rattle.udt_model.specs.declared.answers.Packed.TheVariants as packed;
ghost use Rattle.udt_model.specs.declared.limits.TheConstants.{LAST_MOMENT, GREATEST_PERIOD, PROBE_INTERVAL};
ghost use Rattle.udt_model.specs.Numbers.{sequence_number};
ghost use Rattle.udt_model.specs.SendBlocks.{KeptBlock, end_of, kept_at};
ghost use Rattle.udt_model.specs.SendHalf as half;
ghost use Rattle.udt_model.specs.Wire as wire;
ghost use Rattle.udt_sender.specs.Messages.{expired_of, dropping_of, drop_packet_of, after_dropping};
ghost use Rattle.udt_sender.specs.Packets.{IsSound, IsSized, with_packet, leaves};

use super::Sender;
use crate::control::period_of;
use crate::numbers::has_passed;
use std::marker::Model;
use udt_model::{PROBE_INTERVAL, Packed};
use udt_packet::{Packet, seq_of, write, write_block};
use udt_rate::Control;
use udt_snd_buffer::{Block, SndBuffer};

// A message that its peer is asked to drop: its number, and the offsets of its first and its last block.
#[derive(Clone, Copy)]
struct Dropping {
    message: u32,
    first: u64,
    last: u64,
}

// Writes the packet of a kept block at the front of `into`, and answers its size. Where none is
// kept, nothing is written.
#[inline(always)]
fn write_kept(
    buffer: &SndBuffer,
    isn: u32,
    offset: u64,
    stamp: u32,
    dest: u32,
    into: &mut [u8],
) -> usize
    requires sound { All (IsSound buffer.now.payload) buffer.now.kept }
    requires room { 16 + buffer.now.payload ≤ length into.old }
    ensures value { (block : KeptBlock) → kept_at buffer.now offset ≡ Some block
        → result ≡ 16 + length block.bytes }
    ensures after { (block : KeptBlock) → kept_at buffer.now offset ≡ Some block
        → into.new ≡ with_packet
        (Some (wire.Block (sequence_number isn offset) block.flags stamp dest block.bytes)) into.old }
{
    match buffer.block(offset) {
        None => 0,
        Some(Block { bytes, flags, .. }) => {
            write_block(seq_of(isn, offset), flags, stamp, dest, bytes, into)
        }
    }
}

// The message of a kept block, where it has expired at this moment.
fn expired(buffer: &SndBuffer, now: u64, offset: u64) -> Option<Dropping>
    requires { All (IsSound buffer.now.payload) buffer.now.kept }
    ensures { result ≡ option_map dropping_of (expired_of now (kept_at buffer.now offset)) }
{
    let block = buffer.block(offset)?;
    if !has_passed(now, block.expires) {
        return None;
    }
    let (first, last) = buffer.message_of(offset)?;
    Some(Dropping {
        message: block.flags.message,
        first,
        last,
    })
}

// The moment before which nothing is sent after the packet with this sequence number, in nanoseconds.
fn due_after(seq: u32, now: u64, period: u64) -> u64
    requires moment { now ≤ LAST_MOMENT }
    requires period { period ≤ GREATEST_PERIOD }
    ensures value { result
        ≡ (if seq % PROBE_INTERVAL == 0 then 1000 * now else 1000 * now + period) }
    ensures bound { result ≤ 1000 * LAST_MOMENT + GREATEST_PERIOD }
{
    if seq % PROBE_INTERVAL == 0 {
        1000 * now
    } else {
        1000 * now + period
    }
}

impl<C: Control> Sender<C> {
    /// Writes the packet that leaves at this moment, in microseconds, at the front of `into`: that of
    /// the least lost block, or where none is lost that of the first block that was never sent. Where the
    /// message of the lost one has expired, it is a message drop request.
    #[tactic(auto, unfolding(udt_model::specs::SendHalf::packing, udt_model::specs::SendHalf::after_pack))]
    pub fn pack(&mut self, now: u64, stamp: u32, dest: u32, into: &mut [u8]) -> Packed
        requires moment { now ≤ LAST_MOMENT }
        requires room { 16 + self.old.blocks.room ≤ length into.old }
        requires drop_room { 24 ≤ length into.old }
        ensures value { result ≡ half.packed_as (half.packing C.ways self.old now) }
        ensures next { self.new ≡ half.after_pack C.ways self.old now }
        ensures into { into.new ≡ with_packet
            (half.packet_of self.old stamp dest (half.packing C.ways self.old now)) into.old }
        ensures size { IsSized self.old.blocks.payload result }
        ensures payload { self.old.blocks.payload ≤ self.old.blocks.room }
        ensures blocks { self.new.blocks ≡ self.old.blocks }
    {
        if 1000 * now < self.due {
            return Packed::NotYet(self.due.div_ceil(1000));
        }
        if self.loss.len() > 0 {
            self.pack_lost(now, stamp, dest, into)
        } else {
            self.pack_next(now, stamp, dest, into)
        }
    }

    /// The first moment at which packing sends a packet, in microseconds, where there is one to send.
    #[tactic(auto, unfolding(udt_model::specs::SendHalf::pack_moment))]
    pub fn pack_moment(&self) -> Option<u64>
        ensures { result ≡ half.pack_moment C.ways self.now }
    {
        if self.has_block() {
            Some(self.due.div_ceil(1000))
        } else {
            None
        }
    }

    // Whether there is a packet to send once it is due.
    fn has_block(&self) -> bool
        ensures { result
            ≡ leaves (half.leaves_next C.ways self.now (half.due_moment C.ways self.now) self.now.lost) }
    {
        if self.loss.len() > 0 {
            return true;
        }
        self.may_send()
    }

    // Retransmits the least lost block, or asks to drop its message where that has expired.
    fn pack_lost(&mut self, now: u64, stamp: u32, dest: u32, into: &mut [u8]) -> Packed
        requires some { 0 < length self.old.lost }
        requires moment { now ≤ LAST_MOMENT }
        requires room { 16 + self.old.blocks.room ≤ length into.old }
        requires drop_room { 24 ≤ length into.old }
        ensures value { result
            ≡ half.packed_as (half.leaves_next C.ways self.old now self.old.lost) }
        ensures next { self.new ≡ half.after_packing C.ways self.old now
            (half.leaves_next C.ways self.old now self.old.lost) }
        ensures into { into.new ≡ with_packet
            (half.packet_of self.old stamp dest (half.leaves_next C.ways self.old now self.old.lost))
            into.old }
        ensures size { IsSized self.old.blocks.payload result }
        ensures blocks { self.new.blocks ≡ self.old.blocks }
    {
        let Some(offset) = self.loss.take_first() else {
            return Packed::Nothing;
        };
        if let Some(message) = expired(&self.buffer, now, offset) {
            return self.pack_drop(message, stamp, dest, into);
        }
        let size = write_kept(&self.buffer, self.isn, offset, stamp, dest, into);
        self.due = due_after(seq_of(self.isn, offset), now, period_of(&self.control));
        Packed::Block(size)
    }

    // Asks the peer to drop a message, no block of which is sent any more.
    fn pack_drop(&mut self, message: Dropping, stamp: u32, dest: u32, into: &mut [u8]) -> Packed
        requires room { 24 ≤ length into.old }
        requires number { message.message < 2 ^ 29 }
        requires kept { message.last < end_of self.old.blocks }
        ensures value { result ≡ packed.DropAsk 24 }
        ensures next { self.new ≡ after_dropping self.old message }
        ensures into { into.new
            ≡ with_packet (Some (drop_packet_of self.old.isn stamp dest message)) into.old }
    {
        self.loss.remove(message.first, message.last);
        self.next = self.next.max(message.last + 1);
        let packet = Packet::DropAsk {
            message: message.message,
            stamp,
            dest,
            first: seq_of(self.isn, message.first),
            last: seq_of(self.isn, message.last),
        };
        Packed::DropAsk(write(&packet, into))
    }

    // Sends the first block that was never sent, where both windows allow it.
    fn pack_next(&mut self, now: u64, stamp: u32, dest: u32, into: &mut [u8]) -> Packed
        requires moment { now ≤ LAST_MOMENT }
        requires room { 16 + self.old.blocks.room ≤ length into.old }
        ensures value { result ≡ half.packed_as (half.leaves_next C.ways self.old now []) }
        ensures next { self.new
            ≡ half.after_packing C.ways self.old now (half.leaves_next C.ways self.old now []) }
        ensures into { into.new ≡ with_packet
            (half.packet_of self.old stamp dest (half.leaves_next C.ways self.old now [])) into.old }
        ensures size { IsSized self.old.blocks.payload result }
        ensures blocks { self.new.blocks ≡ self.old.blocks }
    {
        if !self.may_send() {
            return Packed::Nothing;
        }
        let size = write_kept(&self.buffer, self.isn, self.next, stamp, dest, into);
        self.due = due_after(seq_of(self.isn, self.next), now, period_of(&self.control));
        self.next += 1;
        Packed::Block(size)
    }

    // Whether there is a block that was never sent, and both windows allow it.
    fn may_send(&self) -> bool
        ensures value { result
            ≡ leaves (half.sends C.ways self.now (kept_at self.now.blocks self.now.next)) }
        ensures kept { IsTrue result → self.now.next < end_of self.now.blocks }
    {
        let (first, kept) = self.buffer.kept();
        let in_flight = self.next - first;
        in_flight < kept && in_flight < self.window().min(self.flow) as u64
    }
}
