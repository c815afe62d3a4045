// The receiving half: where a block is placed, what is missing then, and which ACKs and NAKs are due.

ghost use Rattle.std.specs.Prelude.{◌≡◌, ◌+◌, ◌*◌, ◌^◌, ◌<◌, ◌≤◌, ◌++◌, min, length, take, drop, false, IfOk, IfSome, IsSome, IsTrue, ◌↔◌, Option, None, option_map};
ghost use Rattle.std.specs.Option.{is_some};
ghost use Rattle.udt_model.specs.declared.limits.TheConstants.{PACKET_LIMIT, LAST_ACK_NUMBER, LAST_MOMENT, SYN, GREATEST_RTT};
ghost use Rattle.udt_model.specs.Numbers.{near as near_in};
ghost use Rattle.udt_model.specs.ReceiveBlocks.{waiting_of, next_message, after_read_message};
ghost use Rattle.udt_rcv_buffer.specs.Answers.{got_of, shown_in};
ghost use Rattle.udt_model.specs.ReceiveHalf.{idle_receiving, linked_receiving, measured, within_limit, after_block, block_answer, after_receive, drop_range as taken_range, after_drop, drop_answer};
ghost use Rattle.udt_model.specs.ReceiveReports.{ack_offset as first_gap, number_after as next_number, is_just_acked as just_acked, after_ack_timer, ack_answer, light_ack as light_ack_of, after_ack2, round_trip_to, nak_words, nak_report, after_nak_timer};
ghost use Rattle.udt_model.specs.Timing.{last_under};
ghost use Rattle.udt_packet.specs.Packets.{acked};
ghost use Rattle.udt_rcv_loss.specs.Reports.{words_of, RangesRise};
ghost use Rattle.udt_timing.specs.RoundTrips.{round_trip_of};
ghost use Rattle.udt_receiver.specs.Gaps.{IsGap, IsFirstGap, Acknowledges, IsAckNumber, AreLost, range_by, gap_of};
ghost use Rattle.udt_receiver.specs.Kept.{KeepsTerms};
ghost use Rattle.udt_receiver.specs.Shown.{IfWhole, UnlessWhole};

use crate::OutOfMemory;
use crate::losses::{least, note_placed, note_taken};
use std::alloc::Global;
use std::marker::Model;
use udt_model::{
    AckBody, Arrived, Config, Dropped, FEWEST_BLOCKS, Flags, LAST_ACK_NUMBER, LIGHT_ACK_COUNT,
    PACKET_LIMIT, PROBE_INTERVAL, Placed, SYN, SentAck,
};
use udt_packet::{near, seq_of};
use udt_rcv_buffer::{Got, RcvBuffer};
use udt_rcv_loss::{Ranges, RcvLoss};
use udt_timing::{AckWindow, Rtt, Samples};

/// The receiving half of a socket. It takes all its memory at once.
///
/// `link` comes before the first packet. A data packet goes to `on_block`, a message drop request to
/// `on_drop`, an ACK2 to `on_ack2`, and `tick_ack` and `tick_nak` are called when `ack_due` and `nak_due`
/// are reached; these give what is to be sent. The application calls `recv`, or `recv_message`.
#[derive(Drop)]
pub struct Receiver {
    isn: u32,
    payload: u32,
    buffer: RcvBuffer,
    // the greatest offset that arrived plus one, and what is missing below it
    top: u64,
    lost: RcvLoss,
    // the moment of the last data packet, the times between data packets, and those of packet pairs
    last_data: Option<u64>,
    arrivals: Samples,
    pairs: Samples,
    // the full ACKs that no ACK2 has answered, the last one, and the greatest offset that was confirmed
    history: AckWindow,
    last_ack: Option<SentAck>,
    confirmed: u64,
    // the blocks that were placed since the last ACK
    fresh: u32,
    ack_due: u64,
    nak_due: u64,
}

impl Model for Receiver {
    ghost use Rattle.udt_model.specs.ReceiveHalf.{Receiving};

    ghost Value = { Receiving };

    ghost use Rattle.udt_receiver.specs.Half.{receiving_of, IsReceiver};

    ghost view = { receiving_of };

    ghost invariant = { IsReceiver };
}

impl Receiver {
    /// A half with no connection, with the memory that it will ever have. `start` is the first offset.
    pub fn new(alloc: Global, config: &Config, start: u64) -> Result<Receiver, OutOfMemory>
        requires { start ≤ PACKET_LIMIT }
        ensures { IfOk result (λ half. half ≡ idle_receiving config.now start) }
    {
        let buffer = RcvBuffer::new(alloc, config.kind, config.rcv_blocks, config.payload, start)?;
        let lost = RcvLoss::new(alloc, config.rcv_blocks)?;
        let arrivals = Samples::new(alloc)?;
        let pairs = Samples::new(alloc)?;
        let history = AckWindow::new(alloc)?;
        Ok(Receiver {
            isn: 0,
            payload: config.payload,
            buffer,
            top: start,
            lost,
            last_data: None,
            arrivals,
            pairs,
            history,
            last_ack: None,
            confirmed: start,
            fresh: 0,
            ack_due: 0,
            nak_due: 0,
        })
    }

    /// Begins a connection with this initial sequence number, which agreed on this payload.
    pub fn link(&mut self, now: u64, isn: u32, payload: u32, rtt: &Rtt)
        requires moment { now ≤ LAST_MOMENT }
        requires payload { payload ≤ self.old.blocks.payload }
        ensures { self.new ≡ linked_receiving self.old now isn payload (round_trip_of rtt.now) }
    {
        self.isn = isn;
        self.payload = payload;
        self.ack_due = now + SYN;
        self.nak_due = now + rtt.period();
    }

    // ---- getters

    /// How many blocks may wait.
    pub fn capacity(&self) -> u32
        ensures { result ≡ self.now.blocks.capacity }
    {
        self.buffer.capacity() as u32
    }

    /// The initial sequence number of this direction.
    pub fn isn(&self) -> u32
        ensures { result ≡ self.now.isn }
    {
        self.isn
    }

    /// The bytes of a full block.
    pub fn payload(&self) -> u32
        ensures { result ≡ self.now.payload }
    {
        self.payload
    }

    /// The first offset that isn't consumed.
    pub fn base(&self) -> u64
        ensures { result ≡ self.now.blocks.base }
    {
        self.buffer.base()
    }

    /// How many bytes wait to be read.
    pub fn waiting(&self) -> u64
        ensures { result ≡ length (waiting_of self.now.blocks) }
    {
        self.buffer.waiting()
    }

    /// The moment from which on an ACK may be due, in microseconds.
    pub fn ack_due(&self) -> u64
        ensures value { result ≡ self.now.ack_due }
        ensures within { result ≤ LAST_MOMENT + SYN }
    {
        self.ack_due
    }

    /// The moment from which on a NAK may be due, in microseconds.
    pub fn nak_due(&self) -> u64
        ensures value { result ≡ self.now.nak_due }
        ensures within { result ≤ LAST_MOMENT + 5 * GREATEST_RTT + SYN }
    {
        self.nak_due
    }

    /// The first offset that has not arrived.
    pub fn ack_offset(&self) -> u64
        ensures value { result ≡ first_gap self.now }
        ensures arrived { IsFirstGap self.now result }
        ensures limit { result ≤ PACKET_LIMIT }
    {
        least(&self.lost, self.top)
    }

    /// A light ACK of all that arrived before the first gap.
    pub fn light_ack(&self) -> AckBody
        ensures value { result ≡ light_ack_of self.now }
        ensures arrived { Acknowledges self.now (acked result) }
        ensures within { acked result < 2 ^ 31 }
    {
        AckBody::Light {
            ack: seq_of(self.isn, least(&self.lost, self.top)),
        }
    }

    // ---- the application

    /// Gives the bytes that follow one another from the base on, as far as there is room, and
    /// answers how many.
    pub fn recv(&mut self, into: &mut [u8]) -> usize
        ensures value { result ≡ min (length into.old) (length (waiting_of self.old.blocks)) }
        ensures into { into.new ≡ take result (waiting_of self.old.blocks) ++ drop result into.old }
        ensures next { self.new ≡ after_receive self.old result }
        ensures rest { waiting_of self.new.blocks ≡ drop result (waiting_of self.old.blocks) }
        ensures nothing { result ≡ 0 → self.new ≡ self.old }
        ensures kept { KeepsTerms self.old self.new }
    {
        self.buffer.read(into)
    }

    /// Gives the next message that can be read, where there is room for it.
    pub fn recv_message(&mut self, into: &mut [u8]) -> Got
        ensures value { result ≡ got_of (length into.old) (next_message self.old.blocks) }
        ensures into { into.new ≡ shown_in into.old (next_message self.old.blocks) }
        ensures next { self.new ≡ record self.old
            { blocks = after_read_message self.old.blocks (length into.old) } }
        ensures within { IfWhole result (λ count. count ≤ length into.old) }
        ensures rest { IfWhole result (λ count. drop count into.new ≡ drop count into.old) }
        ensures none { UnlessWhole result (into.new ≡ into.old) }
        ensures stays { UnlessWhole result (self.new ≡ self.old) }
        ensures kept { KeepsTerms self.old self.new }
    {
        self.buffer.read_message(into)
    }

    /// Whether a message can be read.
    pub fn readable(&self) -> bool
        ensures { IsTrue result ↔ IsSome (next_message self.now.blocks) }
    {
        self.buffer.readable()
    }

    // ---- the network

    /// Takes in the block of a data packet. The gap is to be reported at once.
    #[tactic(auto, unfolding(udt_model::specs::ReceiveHalf::after_block, udt_model::specs::ReceiveHalf::block_answer, udt_model::specs::ReceiveHalf::offset_of))]
    pub fn on_block(&mut self, now: u64, seq: u32, flags: Flags, bytes: &[u8]) -> Arrived
        requires some { 0 < length bytes.now }
        requires short { length bytes.now ≤ self.old.payload }
        ensures value { result ≡ block_answer self.old seq }
        ensures next { self.new ≡ after_block self.old now seq flags bytes.now }
        ensures gap { IfSome result.gap (IsGap self.old) }
        ensures kept { KeepsTerms self.old self.new }
    {
        self.measure(now, seq);
        let Some(offset) = offset_of(self.isn, self.top, seq) else {
            return unplaced(Placed::Above);
        };
        match self.buffer.place(offset, flags, bytes) {
            Placed::New => {}
            placed => return unplaced(placed),
        }
        let gap = note_placed(&mut self.lost, &mut self.top, offset, now);
        let light = self.fresh + 1 == LIGHT_ACK_COUNT;
        self.fresh = if light { 0 } else { self.fresh + 1 };
        Arrived {
            placed: Placed::New,
            gap,
            light,
        }
    }

    /// Takes the offsets of a message that the peer no longer sends, by its first and its last sequence
    /// number: those that aren't consumed are consumed now. The gap is to be reported at once.
    #[tactic(auto, unfolding(udt_model::specs::ReceiveHalf::after_drop, udt_model::specs::ReceiveHalf::drop_answer))]
    pub fn on_drop(&mut self, now: u64, first: u32, last: u32) -> Dropped
        ensures value { result ≡ drop_answer self.old first last }
        ensures next { self.new ≡ after_drop self.old now first last }
        ensures gap { IfSome (gap_of result) (IsGap self.old) }
        ensures stale { result ≡ Dropped.Stale → self.new ≡ self.old }
        ensures kept { KeepsTerms self.old self.new }
    {
        let Some((first, last)) = self.drop_range(first, last) else {
            return Dropped::Stale;
        };
        self.buffer.skip(first, last);
        let gap = note_taken(&mut self.lost, &mut self.top, first, last, now);
        Dropped::Taken { gap }
    }

    // The first and the last of the offsets that a message drop request takes.
    #[tactic(auto, unfolding(udt_model::specs::ReceiveHalf::drop_range))]
    fn drop_range(&self, first: u32, last: u32) -> Option<(u64, u64)>
        ensures value { option_map range_by result ≡ taken_range self.now first last }
        ensures order { IfSome result (λ ends. ends.0 ≤ ends.1) }
        ensures base { IfSome result (λ ends. self.now.blocks.base ≤ ends.1) }
        ensures room { IfSome result (λ ends. ends.1 < self.now.blocks.base + self.now.blocks.capacity) }
        ensures limit { IfSome result (λ ends. ends.1 < PACKET_LIMIT) }
    {
        let first = near(self.isn, self.top, first)?;
        let last = near(self.isn, self.top, last)?;
        let base = self.buffer.base();
        let end = base + self.buffer.free(base);
        if first <= last && base <= last && last < end && last < PACKET_LIMIT {
            return Some((first, last));
        }
        None
    }

    // takes in the moment of a data packet
    fn measure(&mut self, now: u64, seq: u32)
        ensures { self.new ≡ measured self.old now seq }
    {
        if let Some(last) = self.last_data {
            let since = now.saturating_sub(last);
            self.arrivals.push(since);
            if seq % PROBE_INTERVAL == 1 {
                self.pairs.push(since);
            }
        }
        self.last_data = Some(now);
    }

    /// Takes in the ACK2 of the ACK with this number, and says whether there was one that is remembered.
    #[tactic(auto, unfolding(udt_model::specs::ReceiveReports::after_ack2))]
    pub fn on_ack2(&mut self, now: u64, number: u32, rtt: &mut Rtt) -> bool
        ensures value { result ≡ is_some (last_under number self.old.history) }
        ensures next { self.new ≡ after_ack2 self.old number }
        ensures rtt { round_trip_of rtt.new
            ≡ round_trip_to now (round_trip_of rtt.old) (last_under number self.old.history) }
        ensures kept { KeepsTerms self.old self.new }
    {
        let Some((offset, moment)) = self.history.take(number) else {
            return false;
        };
        self.confirmed = self.confirmed.max(offset);
        rtt.sample(now.saturating_sub(moment));
        true
    }

    // ---- the timers

    /// The full ACK that is due at this moment, in microseconds, with its number. None is due before its
    /// time, or where it would acknowledge nothing new.
    #[tactic(auto, unfolding(udt_model::specs::ReceiveReports::ack_outcome, udt_model::specs::ReceiveReports::ack_answer, udt_model::specs::ReceiveReports::after_ack_timer))]
    pub fn tick_ack(&mut self, now: u64, rtt: &Rtt) -> Option<(u32, AckBody)>
        requires { now ≤ LAST_MOMENT }
        ensures value { result ≡ ack_answer self.old now (round_trip_of rtt.now) }
        ensures next { self.new ≡ after_ack_timer self.old now (round_trip_of rtt.now) }
        ensures arrived { IfSome result (λ ack. Acknowledges self.old (acked ack.1)) }
        ensures number { IfSome result (λ ack. IsAckNumber ack.0) }
        ensures within { IfSome result (λ ack. acked ack.1 < 2 ^ 31) }
        ensures kept { KeepsTerms self.old self.new }
    {
        if now < self.ack_due {
            return None;
        }
        self.ack_due = now + SYN;
        let offset = least(&self.lost, self.top);
        if offset == self.confirmed || is_just_acked(offset, now, rtt, &self.last_ack) {
            return None;
        }
        let number = number_after(&self.last_ack);
        self.history.note(number, offset, now);
        self.last_ack = Some(SentAck {
            number,
            offset,
            moment: now,
        });
        self.fresh = 0;
        let room = self.buffer.free(offset) as u32;
        let body = AckBody::Full {
            ack: seq_of(self.isn, offset),
            rtt: rtt.rtt as u32,
            var: rtt.var as u32,
            buffer: FEWEST_BLOCKS.max(room),
            rate: self.arrivals.speed(),
            capacity: self.pairs.capacity(),
        };
        Some((number, body))
    }

    /// Writes down the ranges of the NAK that is due at this moment, in microseconds. There are none
    /// before its time.
    #[tactic(auto, unfolding(udt_model::specs::ReceiveReports::nak_report, udt_model::specs::ReceiveReports::after_nak_timer))]
    pub fn tick_nak(&mut self, now: u64, rtt: &Rtt, into: &mut Ranges)
        requires moment { now ≤ LAST_MOMENT }
        requires room { nak_words self.old ≤ into.old.words }
        ensures into { into.new.ranges ≡ nak_report self.old now (round_trip_of rtt.now) }
        ensures next { self.new ≡ after_nak_timer self.old now (round_trip_of rtt.now) }
        ensures words { into.new.words ≡ into.old.words }
        ensures fits { words_of into.new.ranges ≤ nak_words self.old }
        ensures rise { RangesRise 0 into.new.ranges }
        ensures lost { AreLost self.old into.new.ranges }
        ensures kept { KeepsTerms self.old self.new }
    {
        if now < self.nak_due {
            into.clear();
            return;
        }
        self.nak_due = now + rtt.period();
        let words = 2.max(self.payload / 4);
        self.lost.due(now, rtt.rtt, words, into);
    }
}

// The offset that a data packet has, unless it is past the limit of packets.
#[tactic(auto, using(crate::proofs::Expected::near_top))]
fn offset_of(isn: u32, top: u64, seq: u32) -> Option<u64>
    requires { top ≤ PACKET_LIMIT }
    ensures value { result ≡ within_limit (near_in isn top seq) }
    ensures limit { IfSome result (λ offset. offset < PACKET_LIMIT) }
{
    // packets mostly come in order
    if seq == seq_of(isn, top) {
        return below_limit(top);
    }
    below_limit(near(isn, top, seq)?)
}

// The offset, unless it is past the limit of packets.
fn below_limit(offset: u64) -> Option<u64>
    ensures value { result ≡ within_limit (Some offset) }
    ensures limit { IfSome result (λ offset. offset < PACKET_LIMIT) }
{
    if offset < PACKET_LIMIT {
        Some(offset)
    } else {
        None
    }
}

// What is answered of a block that wasn't placed.
fn unplaced(placed: Placed) -> Arrived
    ensures { result ≡ record { placed = placed; gap = None; light = false } }
{
    Arrived {
        placed,
        gap: None,
        light: false,
    }
}

// The last ACK named this offset, less than two round trips ago.
fn is_just_acked(offset: u64, now: u64, rtt: &Rtt, last: &Option<SentAck>) -> bool
    ensures { result ≡ just_acked offset now (round_trip_of rtt.now) last.now }
{
    match last {
        None => false,
        Some(ack) => ack.offset == offset && now.saturating_sub(ack.moment) < 2 * rtt.rtt,
    }
}

// The number of the ACK after the last one.
fn number_after(last: &Option<SentAck>) -> u32
    requires number { IfSome last.now (λ ack. ack.number ≤ LAST_ACK_NUMBER) }
    ensures value { result ≡ next_number last.now }
    ensures within { IsAckNumber result }
{
    match last {
        None => 1,
        Some(ack) if ack.number == LAST_ACK_NUMBER => 1,
        Some(ack) => ack.number + 1,
    }
}
