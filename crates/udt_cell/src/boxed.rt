// A socket as the value of a turn, and its events as the entries of the turn's history.

mod connections;

use std::marker::Model;
use udt_core::{Outs, Socket};
use udt_model::{Addr, Heard, Packed, Perf, Refusal};
use udt_rate::Control;
use udt_turn::Story;

/// At this count a socket takes no further event.
pub const LAST_COUNT: u64 = (1 << 55) - 1;

/// The socket has had as many events as it may.
#[derive(Clone, Copy, Debug, PartialEq, Eq)]
pub struct EventsSpent;

/// An event of a socket with its answer and the datagrams that it emitted. No value of it is made.
#[derive(Drop)]
pub struct EventEntry;

impl Model for EventEntry {
    ghost use Rattle.udt_cell.specs.Entries.{Entry, some_entry};

    ghost Value = { Entry };

    ghost view = { λ _. some_entry };
}

/// A socket as the value of a turn, behind a box, since a turn moves its value. Contracts see it as
/// the state of the socket.
#[derive(Drop)]
pub struct BoxedSocket<C> {
    pub(crate) socket: Box<Socket<C>>,
}

impl<C> Model for BoxedSocket<C> {
    ghost use Rattle.udt_model.specs.State.{State};

    ghost Value = { State C };

    ghost view = { λ b. b.socket.value };
}

impl<C: Control> Story for BoxedSocket<C> {
    type Entry = EventEntry;

    ghost use Rattle.udt_cell.specs.Entries.{tale_of_sockets, some_state};

    ghost tale = { tale_of_sockets C.ways };

    ghost any = { some_state C.ways };

    fn count(&self) -> u64 {
        self.socket.count()
    }

    fn bits(&self) -> u8 {
        self.socket.bits()
    }
}

impl<C: Control> BoxedSocket<C> {
    ghost use Rattle.std.specs.Prelude.{◌≡◌, ◌≢◌, ◌<◌, ◌≤◌, [], length, drop, Err};
    ghost use Rattle.std.specs.Prelude.{IfOk, OnOk, OnErr, MatchBool};
    ghost use Rattle.udt_core.specs.Received.{received_in};
    ghost use Rattle.udt_model.specs.Events.{Send, Recv, SendMessage, RecvMessage, Pack, Tick, Close, Measure, Arrive, event};
    ghost use Rattle.udt_model.specs.Events.{Sent, Received, SentMessage, ReceivedMessage};
    ghost use Rattle.udt_model.specs.Events.{DidPack, DidTick, DidClose, DidMeasure, DidHear};
    ghost use Rattle.udt_model.specs.Moments as moments;
    ghost use Rattle.udt_cell.specs.Entries.{entry, Follows, last_count};

    // The socket's own ID.
    pub(crate) fn own(&self) -> u32
        ensures { result ≡ self.now.own }
    {
        self.socket.own()
    }

    // The first moment at which a tick or a packing would do something.
    pub(crate) fn next_moment(&self) -> Option<u64>
        ensures { result ≡ moments.next_moment C.ways self.now }
    {
        self.socket.next_moment()
    }

    // It takes no further event.
    pub(crate) fn is_spent(&self) -> bool
        ensures { MatchBool result (last_count ≤ self.now.count) (self.now.count < last_count) }
    {
        self.socket.count() >= LAST_COUNT
    }

    // A send, where it may have a further event.
    #[tactic(auto, using(crate::proofs::QuietLemmas::send_quiet, crate::proofs::QuietLemmas::send_unspent))]
    pub(crate) fn send(
        &mut self,
        now: u64,
        bytes: &[u8],
    ) -> Result<Result<usize, Refusal>, EventsSpent>
        ensures ok { IfOk result (λ answer. Follows C.ways
            (entry (event now (Send bytes.now)) (Sent answer) []) self.old self.new) }
        ensures reason { IfOk result (λ answer. answer ≢ Err Refusal.EventsSpent) }
        ensures spent { OnErr result (last_count ≤ self.old.count) }
        ensures err { OnErr result (self.new ≡ self.old) }
    {
        if self.is_spent() {
            return Err(EventsSpent);
        }
        Ok(self.socket.send(now, bytes))
    }

    // A send of a message, where it may have a further event.
    #[tactic(auto, using(crate::proofs::QuietLemmas::send_message_quiet, crate::proofs::QuietLemmas::send_message_unspent))]
    pub(crate) fn send_message(
        &mut self,
        now: u64,
        ttl: Option<u64>,
        order: bool,
        bytes: &[u8],
    ) -> Result<Result<usize, Refusal>, EventsSpent>
        ensures ok { IfOk result (λ answer. Follows C.ways
            (entry (event now (SendMessage ttl order bytes.now)) (SentMessage answer) []) self.old self.new) }
        ensures reason { IfOk result (λ answer. answer ≢ Err Refusal.EventsSpent) }
        ensures spent { OnErr result (last_count ≤ self.old.count) }
        ensures err { OnErr result (self.new ≡ self.old) }
    {
        if self.is_spent() {
            return Err(EventsSpent);
        }
        Ok(self.socket.send_message(now, ttl, order, bytes))
    }

    // A receive, where it may have a further event.
    #[tactic(auto, using(crate::proofs::QuietLemmas::recv_quiet, crate::proofs::QuietLemmas::recv_unspent))]
    pub(crate) fn recv(
        &mut self,
        now: u64,
        into: &mut [u8],
    ) -> Result<Result<usize, Refusal>, EventsSpent>
        ensures ok { IfOk result (λ answer. Follows C.ways
            (entry (event now (Recv (length into.old))) (Received (received_in answer into.new)) [])
            self.old self.new) }
        ensures reason { IfOk result (λ answer. answer ≢ Err Refusal.EventsSpent) }
        ensures within { IfOk result (λ answer. IfOk answer (λ count. count ≤ length into.old)) }
        ensures rest { IfOk result
            (λ answer. IfOk answer (λ count. drop count into.new ≡ drop count into.old)) }
        ensures refused { IfOk result (λ answer. OnErr answer (into.new ≡ into.old)) }
        ensures len { length into.new ≡ length into.old }
        ensures spent { OnErr result (last_count ≤ self.old.count) }
        ensures err { OnErr result (self.new ≡ self.old) }
        ensures untouched { OnErr result (into.new ≡ into.old) }
    {
        if self.is_spent() {
            return Err(EventsSpent);
        }
        Ok(self.socket.recv(now, into))
    }

    // A receive of a message, where it may have a further event.
    #[tactic(auto, using(crate::proofs::QuietLemmas::recv_message_quiet, crate::proofs::QuietLemmas::recv_message_unspent))]
    pub(crate) fn recv_message(
        &mut self,
        now: u64,
        into: &mut [u8],
    ) -> Result<Result<usize, Refusal>, EventsSpent>
        ensures ok { IfOk result (λ answer. Follows C.ways
            (entry (event now (RecvMessage (length into.old))) (ReceivedMessage (received_in answer into.new)) [])
            self.old self.new) }
        ensures reason { IfOk result (λ answer. answer ≢ Err Refusal.EventsSpent) }
        ensures within { IfOk result (λ answer. IfOk answer (λ count. count ≤ length into.old)) }
        ensures rest { IfOk result
            (λ answer. IfOk answer (λ count. drop count into.new ≡ drop count into.old)) }
        ensures refused { IfOk result (λ answer. OnErr answer (into.new ≡ into.old)) }
        ensures len { length into.new ≡ length into.old }
        ensures spent { OnErr result (last_count ≤ self.old.count) }
        ensures err { OnErr result (self.new ≡ self.old) }
        ensures untouched { OnErr result (into.new ≡ into.old) }
    {
        if self.is_spent() {
            return Err(EventsSpent);
        }
        Ok(self.socket.recv_message(now, into))
    }

    // A close, where it may have a further event.
    #[tactic(auto, using(crate::proofs::QuietLemmas::close_done, crate::proofs::QuietLemmas::close_quiet))]
    pub(crate) fn close(&mut self, now: u64) -> Result<(), EventsSpent>
        ensures ok { OnOk result (Follows C.ways (entry (event now Close) DidClose []) self.old self.new) }
        ensures spent { OnErr result (last_count ≤ self.old.count) }
        ensures err { OnErr result (self.new ≡ self.old) }
    {
        if self.is_spent() {
            return Err(EventsSpent);
        }
        self.socket.close(now);
        Ok(())
    }

    // A measurement, where it may have a further event.
    #[tactic(auto, using(crate::proofs::QuietLemmas::perf_quiet))]
    pub(crate) fn perf(&mut self, now: u64) -> Result<Perf, EventsSpent>
        ensures ok { IfOk result (λ perf. Follows C.ways
            (entry (event now Measure) (DidMeasure perf) []) self.old self.new) }
        ensures spent { OnErr result (last_count ≤ self.old.count) }
        ensures err { OnErr result (self.new ≡ self.old) }
    {
        if self.is_spent() {
            return Err(EventsSpent);
        }
        Ok(self.socket.perf(now))
    }

    // An arrival, where it may have a further event.
    pub(crate) fn arrive(
        &mut self,
        now: u64,
        from: Addr,
        bytes: &[u8],
        outs: &mut Outs,
    ) -> Result<Heard, EventsSpent>
        ensures ok { IfOk result (λ heard. Follows C.ways
            (entry (event now (Arrive from bytes.now)) (DidHear heard) outs.new) self.old self.new) }
        ensures spent { OnErr result (last_count ≤ self.old.count) }
        ensures err { OnErr result (self.new ≡ self.old) }
        ensures untouched { OnErr result (outs.new ≡ outs.old) }
    {
        if self.is_spent() {
            return Err(EventsSpent);
        }
        Ok(self.socket.arrive(now, from, bytes, outs))
    }

    // A tick, where it may have a further event.
    #[tactic(auto, using(crate::proofs::QuietLemmas::tick_done))]
    pub(crate) fn tick(&mut self, now: u64, outs: &mut Outs) -> Result<(), EventsSpent>
        ensures ok { OnOk result
            (Follows C.ways (entry (event now Tick) DidTick outs.new) self.old self.new) }
        ensures spent { OnErr result (last_count ≤ self.old.count) }
        ensures err { OnErr result (self.new ≡ self.old) }
        ensures untouched { OnErr result (outs.new ≡ outs.old) }
    {
        if self.is_spent() {
            return Err(EventsSpent);
        }
        self.socket.tick(now, outs);
        Ok(())
    }

    // A packing, where it may have a further event.
    pub(crate) fn pack(&mut self, now: u64, outs: &mut Outs) -> Result<Packed, EventsSpent>
        ensures ok { IfOk result (λ packed. Follows C.ways
            (entry (event now Pack) (DidPack packed) outs.new) self.old self.new) }
        ensures spent { OnErr result (last_count ≤ self.old.count) }
        ensures err { OnErr result (self.new ≡ self.old) }
        ensures untouched { OnErr result (outs.new ≡ outs.old) }
    {
        if self.is_spent() {
            return Err(EventsSpent);
        }
        Ok(self.socket.pack(now, outs))
    }
}
