// The calls of the application, and what the owner of the port asks.

ghost use Rattle.std.specs.Prelude.{◌≡◌, ◌+◌, ◌-◌, ◌^◌, ◌<◌, ◌≤◌, [], length, drop, Ok, IfOk, OnErr};
ghost use Rattle.udt_model.specs.Step.{step};
ghost use Rattle.udt_model.specs.declared.limits.TheConstants.{LAST_MOMENT};
ghost use Rattle.udt_model.specs.Events.{Send, Recv, SendMessage, RecvMessage, Pack, Close, Measure, Sent, Received, SentMessage, ReceivedMessage, DidPack, DidMeasure, at_moment, event, outs_of};
ghost use Rattle.udt_model.specs.Calls.{packed_so, gives, gives_message, perf_of, refusal_of as why_of};
ghost use Rattle.udt_model.specs.Moments as moments;
ghost use Rattle.udt_model.specs.Readiness.{ready_bits, has_readable};
ghost use Rattle.udt_model.specs.SendHalf.{packing, pack_moment};
ghost use Rattle.udt_model.specs.Wire.{bit as one_if};
ghost use Rattle.udt_core.specs.Received.{received_in};
ghost use Rattle.udt_core.specs.Peers.{pair_by};

use super::Socket;
use crate::counts::risen;
use crate::outs::Outs;
use crate::phase::Phase;
use std::marker::Model;
use udt_model::{Addr, Kind, LAST_MOMENT, Origin, Packed, Perf, Refusal, SHAKE_LIMIT, SendNo};
use udt_rate::Control;
use udt_receiver::Got;

impl<C: Control> Socket<C> {
    /// Takes as many of the bytes as fit into the free blocks. MessageOnly comes of a socket of messages,
    /// ConnLost once the connection was lost and NotConnected once the socket is closed, Spent where the
    /// direction has carried all the packets that it may, AgainSend where no block is free.
    #[tactic(auto, unfolding(udt_model::specs::Step::step))]
    pub fn send(&mut self, now: u64, bytes: &[u8]) -> Result<usize, Refusal>
        ensures reply { Sent result ≡ (step C.ways self.old (event now (Send bytes.now))).reply }
        ensures after { self.new ≡ (step C.ways self.old (event now (Send bytes.now))).after }
        ensures refused { OnErr result (self.new ≡ at_moment self.old now) }
    {
        self.at(now);
        match self.kind {
            Kind::Stream => {}
            Kind::Message => return Err(Refusal::MessageOnly),
        }
        match self.phase {
            Phase::Connected => match self.sending.send(self.last, bytes) {
                Ok(count) => Ok(count),
                Err(why) => Err(refusal_of(why)),
            },
            Phase::Broken(why) => Err(Refusal::ConnLost(why)),
            _ => Err(Refusal::NotConnected),
        }
    }

    /// Takes the bytes whole, as one message. Once more than `ttl` microseconds have passed, where there
    /// is such a time, no block of it is retransmitted any more. `order` says that it must be delivered
    /// in order. StreamOnly comes of a socket of a stream, and TooLarge where the message has more blocks
    /// than the socket keeps; the other refusals are those of `send`, where it doesn't fit now.
    #[tactic(auto, unfolding(udt_model::specs::Step::step))]
    pub fn send_message(
        &mut self,
        now: u64,
        ttl: Option<u64>,
        order: bool,
        bytes: &[u8],
    ) -> Result<usize, Refusal>
        ensures reply { SentMessage result
            ≡ (step C.ways self.old (event now (SendMessage ttl order bytes.now))).reply }
        ensures after { self.new
            ≡ (step C.ways self.old (event now (SendMessage ttl order bytes.now))).after }
        ensures refused { OnErr result (self.new ≡ at_moment self.old now) }
    {
        self.at(now);
        match self.kind {
            Kind::Stream => return Err(Refusal::StreamOnly),
            Kind::Message => {}
        }
        match self.phase {
            Phase::Connected => match self.sending.send_message(self.last, ttl, order, bytes) {
                Ok(count) => Ok(count),
                Err(why) => Err(refusal_of(why)),
            },
            Phase::Broken(why) => Err(Refusal::ConnLost(why)),
            _ => Err(Refusal::NotConnected),
        }
    }

    /// Gives the first bytes that wait, as far as there is room. Where none waits, AgainRecv comes
    /// while the socket is connected, and ConnLost once the connection was lost. NotConnected comes
    /// once the socket is closed, and MessageOnly of a socket of messages.
    #[tactic(auto, unfolding(udt_model::specs::Step::step))]
    pub fn recv(&mut self, now: u64, into: &mut [u8]) -> Result<usize, Refusal>
        ensures reply { Received (received_in result into.new)
            ≡ (step C.ways self.old (event now (Recv (length into.old)))).reply }
        ensures after { self.new ≡ (step C.ways self.old (event now (Recv (length into.old)))).after }
        ensures within { IfOk result (λ count. count ≤ length into.old) }
        ensures rest { IfOk result (λ count. drop count into.new ≡ drop count into.old) }
        ensures err { OnErr result (into.new ≡ into.old) }
        ensures refused { OnErr result (self.new ≡ at_moment self.old now) }
    {
        self.at(now);
        match self.kind {
            Kind::Stream => {}
            Kind::Message => return Err(Refusal::MessageOnly),
        }
        match self.phase {
            Phase::Connected => self.give(into, Refusal::AgainRecv),
            Phase::Broken(why) => self.give(into, Refusal::ConnLost(why)),
            _ => Err(Refusal::NotConnected),
        }
    }

    /// Gives the next message that can be read, whole. TooLarge comes where it is longer than the room,
    /// and it stays then. Where none can be read, AgainRecv comes while the socket is connected, and
    /// ConnLost once the connection was lost. NotConnected comes once the socket is closed, and
    /// StreamOnly of a socket of a stream.
    #[tactic(auto, unfolding(udt_model::specs::Step::step))]
    pub fn recv_message(&mut self, now: u64, into: &mut [u8]) -> Result<usize, Refusal>
        ensures reply { ReceivedMessage (received_in result into.new)
            ≡ (step C.ways self.old (event now (RecvMessage (length into.old)))).reply }
        ensures after { self.new
            ≡ (step C.ways self.old (event now (RecvMessage (length into.old)))).after }
        ensures within { IfOk result (λ count. count ≤ length into.old) }
        ensures rest { IfOk result (λ count. drop count into.new ≡ drop count into.old) }
        ensures err { OnErr result (into.new ≡ into.old) }
        ensures refused { OnErr result (self.new ≡ at_moment self.old now) }
    {
        self.at(now);
        match self.kind {
            Kind::Stream => return Err(Refusal::StreamOnly),
            Kind::Message => {}
        }
        match self.phase {
            Phase::Connected => self.give_message(into, Refusal::AgainRecv),
            Phase::Broken(why) => self.give_message(into, Refusal::ConnLost(why)),
            _ => Err(Refusal::NotConnected),
        }
    }

    // Gives the next message, or refuses for this reason where none can be read.
    fn give_message(&mut self, into: &mut [u8], why: Refusal) -> Result<usize, Refusal>
        ensures reply { ReceivedMessage (received_in result into.new)
            ≡ (gives_message self.old (length into.old) why).reply }
        ensures after { self.new ≡ (gives_message self.old (length into.old) why).after }
        ensures within { IfOk result (λ count. count ≤ length into.old) }
        ensures rest { IfOk result (λ count. drop count into.new ≡ drop count into.old) }
        ensures err { OnErr result (into.new ≡ into.old) }
        ensures refused { OnErr result (self.new ≡ self.old) }
    {
        if into.is_empty() {
            return Ok(0);
        }
        match self.receiving.recv_message(into) {
            Got::Whole(count) => Ok(count),
            Got::TooLarge(_) => Err(Refusal::TooLarge),
            Got::Nothing => Err(why),
        }
    }

    // Gives what waits, or refuses for this reason where nothing does.
    fn give(&mut self, into: &mut [u8], why: Refusal) -> Result<usize, Refusal>
        ensures reply { Received (received_in result into.new) ≡ (gives self.old (length into.old) why).reply }
        ensures after { self.new ≡ (gives self.old (length into.old) why).after }
        ensures within { IfOk result (λ count. count ≤ length into.old) }
        ensures rest { IfOk result (λ count. drop count into.new ≡ drop count into.old) }
        ensures err { OnErr result (into.new ≡ into.old) }
        ensures refused { OnErr result (self.new ≡ self.old) }
    {
        let count = self.receiving.recv(into);
        if count == 0 && !into.is_empty() {
            return Err(why);
        }
        Ok(count)
    }

    /// Drops what was not sent and what was not read. A connected socket is closed once a tick has
    /// told its peer.
    #[tactic(auto, unfolding(udt_model::specs::Step::step))]
    pub fn close(&mut self, now: u64)
        ensures { self.new ≡ (step C.ways self.old (event now Close)).after }
    {
        self.at(now);
        self.phase = match self.phase {
            Phase::Connected | Phase::Closing => Phase::Closing,
            _ => Phase::Closed,
        };
    }

    /// Emits the least lost block or else the next one, where the time has come and the socket is
    /// connected. Both windows must allow a block that was never sent. Where the message of the lost block
    /// has expired, it emits a message drop request.
    #[tactic(auto, unfolding(udt_model::specs::Step::step))]
    pub fn pack(&mut self, now: u64, outs: &mut Outs) -> Packed
        ensures reply { DidPack result ≡ (step C.ways self.old (event now Pack)).reply }
        ensures after { self.new ≡ (step C.ways self.old (event now Pack)).after }
        ensures outs { outs.new ≡ outs_of (step C.ways self.old (event now Pack)) }
    {
        outs.clear();
        self.at(now);
        match self.phase {
            Phase::Connected => self.pack_next(outs),
            _ => Packed::Nothing,
        }
    }

    // Emits the block that is sent next by a connected socket.
    #[tactic(auto, unfolding(udt_model::specs::SendHalf::after_pack))]
    fn pack_next(&mut self, outs: &mut Outs) -> Packed
        requires empty { outs.old ≡ [] }
        ensures reply { DidPack result
            ≡ (packed_so C.ways self.old (packing C.ways self.old.sending self.old.last)).reply }
        ensures after { self.new
            ≡ (packed_so C.ways self.old (packing C.ways self.old.sending self.old.last)).after }
        ensures outs { outs.new
            ≡ outs_of (packed_so C.ways self.old (packing C.ways self.old.sending self.old.last)) }
    {
        let stamp = self.stamp();
        let next = self.sending.next();
        let packed = outs.emit_block(&mut self.sending, self.last, stamp, &self.peer);
        if let Packed::Block(_) = packed {
            if next < self.sending.next() {
                self.counters.sent = risen(self.counters.sent);
            } else {
                self.counters.resent = risen(self.counters.resent);
            }
        }
        packed
    }

    /// What was measured and counted so far.
    #[tactic(auto, unfolding(udt_model::specs::Step::step))]
    pub fn perf(&mut self, now: u64) -> Perf
        ensures reply { DidMeasure result ≡ (step C.ways self.old (event now Measure)).reply }
        ensures after { self.new ≡ (step C.ways self.old (event now Measure)).after }
    {
        self.at(now);
        Perf {
            rtt: self.rtt.rtt,
            var: self.rtt.var,
            window: self.sending.window() as u64,
            period: self.sending.period(),
            sent: self.counters.sent,
            resent: self.counters.resent,
            placed: self.counters.placed,
            double: self.counters.double,
            below: self.counters.below,
            above: self.counters.above,
            control: self.counters.control,
            stale: self.counters.stale,
            foreign: self.counters.foreign,
            malformed: self.counters.malformed,
            acked: self.sending.acked(),
        }
    }

    /// The first moment, not before the last one, at which `tick` or `pack` would do something, in
    /// microseconds. None comes where there is none.
    pub fn next_moment(&self) -> Option<u64>
        ensures value { result ≡ moments.next_moment C.ways self.now }
        ensures is { moments.IsNextMoment C.ways self.now result }
    {
        self.moment()
    }

    // The same, as it is found.
    #[tactic(auto, unfolding(udt_model::specs::Moments::next_moment))]
    fn moment(&self) -> Option<u64>
        ensures value { result ≡ moments.next_moment C.ways self.now }
        ensures within { self.now.last ≤ LAST_MOMENT }
    {
        match &self.phase {
            Phase::Connected => {
                let ack = not_before(self.last, self.receiving.ack_due());
                let nak = not_before(self.last, self.receiving.nak_due());
                let exp = not_before(self.last, self.exp_from + self.exp_interval());
                sooner(sooner(ack, nak), sooner(exp, self.leaving_moment()))
            }
            Phase::Connecting { client, again } => {
                self.shaking_moment(client.caller().began, *again)
            }
            Phase::Meeting { meeting, again } => {
                self.shaking_moment(meeting.caller().began, *again)
            }
            Phase::Closing => Some(self.last),
            _ => None,
        }
    }

    // The first moment, not before the last one, at which a socket that asks or meets emits its
    // handshake again, or gives up.
    fn shaking_moment(&self, began: u64, again: u64) -> Option<u64>
        ensures { result ≡ moments.shaking_moment C.ways self.now began again }
    {
        not_before(self.last, again.min(began.saturating_add(SHAKE_LIMIT)))
    }

    // The first moment, not before the last one, at which packing sends a block.
    fn leaving_moment(&self) -> Option<u64>
        ensures { result
            ≡ moments.not_before_any self.now.last (pack_moment C.ways self.now.sending) }
    {
        not_before(self.last, self.sending.pack_moment()?)
    }

    /// The address and the socket ID of its peer. None before it has one.
    pub fn peer(&self) -> Option<(Addr, u32)>
        ensures { result ≡ pair_by self.now.origin self.now.peer }
    {
        match self.origin {
            Origin::Nobody => None,
            _ => Some((self.peer.addr, self.peer.id)),
        }
    }

    /// Its own socket ID.
    pub fn own(&self) -> u32
        ensures { result ≡ self.now.own }
    {
        self.own
    }

    /// The socket with this many events counted, in place of those that it had. Tests of the last
    /// count begin with it.
    pub fn counted(mut self, count: u64) -> Socket<C>
        requires { count ≤ 2 ^ 55 - 1 }
        ensures { result ≡ record self { count = count } }
    {
        self.count = count;
        self
    }

    /// How many events there were.
    pub fn count(&self) -> u64
        ensures { result ≡ self.now.count }
    {
        self.count
    }

    /// What the socket is ready for, as bits: 1 that bytes or a message can be read, 2 that some can be written, 4
    /// that it is cut off, failed or closed, 8 that a connection can be accepted, 16 that it is connected, 32 that it
    /// is closed.
    #[tactic(auto, unfolding(udt_model::specs::Readiness::ready_bits))]
    pub fn bits(&self) -> u8
        ensures { result ≡ ready_bits self.now }
    {
        match &self.phase {
            Phase::Connected => { 16 + bit(self.readable()) + 2 * bit(self.sending.free() > 0) }
            Phase::Broken(_) => 4 + bit(self.readable()),
            Phase::Listening(backlog) => 8 * bit(backlog.has_offered()),
            Phase::Failed(_) => 4,
            Phase::Closed => 36,
            _ => 0,
        }
    }

    // A byte waits, or a message can be read.
    fn readable(&self) -> bool
        ensures { result ≡ has_readable self.now.receiving.blocks self.now.kind }
    {
        match self.kind {
            Kind::Stream => self.receiving.waiting() > 0,
            Kind::Message => self.receiving.readable(),
        }
    }
}

// A moment, not before the last one. There is none after 2^53 - 1.
fn not_before(last: u64, moment: u64) -> Option<u64>
    ensures { result ≡ moments.not_before last moment }
{
    if moment <= LAST_MOMENT {
        Some(last.max(moment))
    } else {
        None
    }
}

// The lesser of two moments, where both are there.
fn sooner(first: Option<u64>, second: Option<u64>) -> Option<u64>
    ensures { result ≡ moments.sooner first second }
{
    match (first, second) {
        (None, other) => other,
        (Some(moment), None) => Some(moment),
        (Some(moment), Some(other)) => Some(moment.min(other)),
    }
}

// Why a socket takes no bytes.
fn refusal_of(why: SendNo) -> Refusal
    ensures { result ≡ why_of why }
{
    match why {
        SendNo::Again => Refusal::AgainSend,
        SendNo::Spent => Refusal::Spent,
        SendNo::TooLarge => Refusal::TooLarge,
    }
}

// A bit as a number.
fn bit(set: bool) -> u8
    ensures { result ≡ one_if set }
{
    if set { 1 } else { 0 }
}
