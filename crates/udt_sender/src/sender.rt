// The sending half, what it is asked, and what the application and the connection give it.

ghost use Rattle.std.specs.Prelude.{◌≡◌, ◌+◌, ◌^◌, ◌<◌, ◌≤◌, [], length, IfOk, OnErr};
ghost use Rattle.udt_model.specs.declared.limits.TheConstants.{PACKET_LIMIT, FEWEST_BLOCKS, MOST_BLOCKS, MOST_PAYLOAD, LEAST_WINDOW, GREATEST_PERIOD};
ghost use Rattle.udt_model.specs.SendBlocks.{end_of, free_of};
ghost use Rattle.udt_model.specs.SendHalf as half;

mod packing;
mod reports;

use crate::OutOfMemory;
use crate::control::{period_of, window_of};
use crate::numbers::{clamped, expiry_of, message_after};
use std::alloc::Global;
use std::marker::Model;
use udt_model::{Config, FEWEST_BLOCKS, PACKET_LIMIT, SIZE_OVER_PAYLOAD, SendNo};
use udt_rate::Control;
use udt_snd_buffer::SndBuffer;
use udt_snd_loss::SndLoss;

/// The sending half of a socket, with a rate control once there is a connection.
///
/// The application gives bytes to `send`. The socket calls `link` once, at the connection, `pack`
/// to have the next datagram, and `on_ack`, `on_nak` and `on_timeout` for what comes from the peer
/// and the EXP timer. The round-trip time is the socket's, which lends it to both halves.
#[derive(Drop)]
pub struct Sender<C> {
    buffer: SndBuffer,
    // what is to be retransmitted. Its floor is the first offset that isn't acknowledged
    loss: SndLoss,
    isn: u32,
    next: u64,
    message: u32,
    flow: u32,
    due: u64,
    rate: u32,
    capacity: u32,
    control: Option<C>,
}

impl<C> Model for Sender<C> {
    ghost use Rattle.udt_model.specs.SendHalf.{Sending};

    ghost Value = { Sending C };

    ghost use Rattle.udt_sender.specs.Halves.{sending_of, IsSender};

    ghost view = { sending_of };

    ghost invariant = { IsSender };
}

impl<C: Control> Sender<C> {
    /// A half that has no connection yet, with all the memory that it will ever have. The first block
    /// will have the offset `start`.
    #[tactic(auto, unfolding(udt_model::specs::Losses::from_offset, udt_ranges::specs::Offsets::Rising, crate::specs::Messages::LieInMessages))]
    pub fn new(alloc: Global, config: &Config, start: u64) -> Result<Sender<C>, OutOfMemory>
        requires payload { 0 < config.now.payload }
        requires most_payload { config.now.payload ≤ MOST_PAYLOAD }
        requires blocks { FEWEST_BLOCKS ≤ config.now.snd_blocks }
        requires most_blocks { config.now.snd_blocks ≤ MOST_BLOCKS }
        requires start { start ≤ PACKET_LIMIT }
        ensures { IfOk result (λ sender. sender ≡ half.idle_sending C.ways config.now start) }
    {
        let buffer = SndBuffer::new(alloc, config.snd_blocks, config.payload, start)?;
        let mut loss = SndLoss::new(alloc, config.snd_blocks)?;
        loss.drop_below(start);
        Ok(Sender {
            buffer,
            loss,
            isn: 0,
            next: start,
            message: 1,
            flow: FEWEST_BLOCKS,
            due: 0,
            rate: 0,
            capacity: 0,
            control: None,
        })
    }

    /// Takes as many of the bytes as there is room for, as one message, and answers how many.
    #[tactic(auto, unfolding(udt_model::specs::SendHalf::send_answer, udt_model::specs::SendHalf::after_send))]
    pub fn send(&mut self, _now: u64, bytes: &[u8]) -> Result<usize, SendNo>
        ensures value { result ≡ half.send_answer self.old (length bytes.now) }
        ensures next { self.new ≡ half.after_send self.old bytes.now }
        ensures refused { OnErr result (self.new ≡ self.old) }
        ensures room { self.new.blocks.room ≡ self.old.blocks.room }
    {
        if bytes.is_empty() {
            return Ok(0);
        }
        let (first, kept) = self.buffer.kept();
        let room = PACKET_LIMIT - (first + kept);
        if room == 0 {
            return Err(SendNo::Spent);
        }
        if self.buffer.free() == 0 {
            return Err(SendNo::Again);
        }
        let taken = self.buffer.accept(bytes, room, self.message, false, None);
        self.message = message_after(self.message);
        Ok(taken)
    }

    /// Takes the bytes whole, as one message, and answers how many they are, or why it takes none. Once
    /// more than `ttl` microseconds have passed, where there is such a time, no block of the message is
    /// retransmitted any more. `order` says that it must be delivered in order.
    #[tactic(auto, unfolding(udt_model::specs::SendHalf::message_answer, udt_model::specs::SendHalf::after_send_message))]
    pub fn send_message(
        &mut self,
        now: u64,
        ttl: Option<u64>,
        order: bool,
        bytes: &[u8],
    ) -> Result<usize, SendNo>
        ensures value { result ≡ half.message_answer self.old (length bytes.now) }
        ensures next { self.new ≡ half.after_send_message self.old now ttl order bytes.now }
        ensures refused { OnErr result (self.new ≡ self.old) }
        ensures room { self.new.blocks.room ≡ self.old.blocks.room }
    {
        let count = self.buffer.blocks_for(bytes.len());
        if self.buffer.blocks() < count {
            return Err(SendNo::TooLarge);
        }
        let (first, kept) = self.buffer.kept();
        let room = PACKET_LIMIT - (first + kept);
        if room < count {
            return Err(SendNo::Spent);
        }
        if self.buffer.free() < count {
            return Err(SendNo::Again);
        }
        if bytes.is_empty() {
            return Ok(0);
        }
        let expires = expiry_of(now, ttl);
        let taken = self
            .buffer
            .accept(bytes, room, self.message, order, expires);
        self.message = message_after(self.message);
        Ok(taken)
    }

    /// The first offset that isn't acknowledged.
    pub fn acked(&self) -> u64
        ensures value { result ≡ half.acked_of self.now }
        ensures bound { result ≤ self.now.next }
        ensures limit { result ≤ PACKET_LIMIT }
    {
        let (first, _) = self.buffer.kept();
        first
    }

    /// The first offset that was never sent.
    pub fn next(&self) -> u64
        ensures value { result ≡ self.now.next }
        ensures bound { result ≤ end_of self.now.blocks }
        ensures limit { result ≤ PACKET_LIMIT }
    {
        self.next
    }

    /// How many more blocks may be kept now.
    pub fn free(&self) -> u64
        ensures { result ≡ free_of self.now.blocks }
    {
        self.buffer.free()
    }

    /// How many blocks may be kept at all.
    pub fn blocks(&self) -> u32
        ensures { result ≡ self.now.blocks.blocks }
    {
        self.buffer.blocks() as u32
    }

    /// The most bytes of a block, whatever is agreed on.
    pub fn room(&self) -> u32
        ensures value { result ≡ self.now.blocks.room }
        ensures some { 0 < result }
        ensures most { result ≤ MOST_PAYLOAD }
    {
        self.buffer.room() as u32
    }

    /// The congestion window in packets.
    pub fn window(&self) -> u32
        ensures value { result ≡ half.window_in C.ways self.now.control }
        ensures bound { LEAST_WINDOW ≤ result }
    {
        window_of(&self.control)
    }

    /// The packet sending period in nanoseconds.
    pub fn period(&self) -> u64
        ensures value { result ≡ half.period_in C.ways self.now.control }
        ensures bound { result ≤ GREATEST_PERIOD }
    {
        period_of(&self.control)
    }
}

impl<C: Control + Drop> Sender<C> {
    /// There is a connection, with this initial sequence number and payload, to a peer that keeps so
    /// many blocks.
    pub fn link(&mut self, isn: u32, payload: u32, flow: u32)
        requires nothing_kept { self.old.blocks.kept ≡ [] }
        requires some { 0 < payload }
        requires room { payload ≤ self.old.blocks.room }
        requires isn { isn < 2 ^ 31 }
        ensures { self.new ≡ half.linked_sending C.ways self.old isn payload flow }
    {
        let flow = clamped(flow);
        self.buffer.set_payload(payload);
        self.isn = isn;
        self.flow = flow;
        self.due = 0;
        self.control = Some(C::start(payload + SIZE_OVER_PAYLOAD, flow));
    }
}
